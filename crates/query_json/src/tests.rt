// Bodies and what they spell. Each expected answer is read off the format by hand.
use crate::{JsonFault, read_cite};
use cite_schema::{CiteAsk, Cond, Meta, Query, Value};
use std::alloc::{AllocError, Global};
use std::test::Fail;

// A text in single quotes, or in hexadecimal where it is no UTF-8.
fn tell_text(out: &mut String, text: &[u8]) -> Result<(), AllocError> {
    match str::from_utf8(text) {
        Ok(text) => {
            out.push('\'')?;
            out.push_str(text)?;
            out.push('\'')?;
        }
        Err(_) => {
            for byte in text {
                let digits = format!(in *out.allocator(); "{byte:02x}")?;
                out.push_str(digits.as_str())?;
            }
        }
    }
    Ok(())
}

fn tell_value(out: &mut String, value: &Value) -> Result<(), AllocError> {
    match value {
        Value::Int(number) => {
            let digits = format!(in *out.allocator(); "{number}")?;
            out.push_str(digits.as_str())?;
        }
        Value::Text(text) => tell_text(out, text.as_slice())?,
    }
    Ok(())
}

fn tell_values(out: &mut String, values: &[Value]) -> Result<(), AllocError> {
    for value in values {
        tell_value(out, value)?;
        out.push(' ')?;
    }
    Ok(())
}

fn tell_word(out: &mut String, word: &str, value: &Value) -> Result<(), AllocError> {
    out.push_str(word)?;
    tell_value(out, value)
}

// A condition, an operator before what it compares with or joins.
#[cycle(telling)]
fn tell_condition(out: &mut String, cond: &Cond) -> Result<(), AllocError> {
    match cond {
        Cond::Lt(value) => tell_word(out, "< ", value),
        Cond::Le(value) => tell_word(out, "<= ", value),
        Cond::Eq(value) => tell_word(out, "= ", value),
        Cond::Ne(value) => tell_word(out, "!= ", value),
        Cond::Ge(value) => tell_word(out, ">= ", value),
        Cond::Gt(value) => tell_word(out, "> ", value),
        Cond::Among(values) => {
            out.push_str("one of ( ")?;
            tell_values(out, values.as_slice())?;
            out.push(')')
        }
        Cond::Prefix(text) => {
            out.push_str("begins with ")?;
            tell_text(out, text.as_slice())
        }
        Cond::AllOf(conditions) => {
            out.push_str("all ( ")?;
            tell_conditions(out, conditions.as_slice())
        }
        Cond::AnyOf(conditions) => {
            out.push_str("any ( ")?;
            tell_conditions(out, conditions.as_slice())
        }
        Cond::Not(inner) => {
            out.push_str("not ")?;
            tell_condition(out, inner.get())
        }
    }
}

#[cycle(telling)]
fn tell_conditions(out: &mut String, conditions: &[Cond]) -> Result<(), AllocError> {
    for cond in conditions {
        tell_condition(out, cond)?;
        out.push(' ')?;
    }
    out.push(')')
}

fn tell_query(out: &mut String, query: &Query) -> Result<(), AllocError> {
    for on_column in query.conds.as_slice() {
        out.push_str("where ")?;
        tell_text(out, on_column.column.as_slice())?;
        out.push(' ')?;
        tell_condition(out, &on_column.cond)?;
        out.push('\n')?;
    }
    for item in query.items.as_slice() {
        out.push_str("item ")?;
        tell_text(out, item.column.as_slice())?;
        out.push_str(" as ")?;
        tell_text(out, item.label.as_slice())?;
        out.push('\n')?;
    }
    for along in query.order.as_slice() {
        out.push_str(if along.down { "down " } else { "up " })?;
        tell_text(out, along.column.as_slice())?;
        out.push('\n')?;
    }
    Ok(())
}

fn tell_meta(out: &mut String, meta: &Meta) -> Result<(), AllocError> {
    for creator in meta.creators.as_slice() {
        out.push_str("by ")?;
        tell_text(out, creator.as_slice())?;
        out.push('\n')?;
    }
    out.push_str("title ")?;
    tell_text(out, meta.title.as_slice())?;
    out.push_str(" description ")?;
    tell_text(out, meta.description.as_slice())?;
    out.push('\n')
}

fn told(alloc: Global, request: &CiteAsk) -> Result<String, AllocError> {
    let mut out = String::new(alloc);
    tell_query(&mut out, &request.query)?;
    tell_meta(&mut out, &request.meta)?;
    Ok(out)
}

const META: &str = "{\"creators\":[\"Rey, A.\"],\"title\":\"T\"}";

// A request of that query, with metadata of their form.
fn asking(alloc: Global, query: &str) -> Result<String, AllocError> {
    format!(in alloc; "{{\"query\":{query},\"meta\":{META}}}")
}

// A request with that condition on the column `c`.
fn under(alloc: Global, condition: &str) -> Result<String, AllocError> {
    format!(in alloc;
        "{{\"query\":{{\"items\":[],\"where\":{{\"c\":{condition}}}}},\"meta\":{META}}}"
    )
}

#[test]
fn the_worked_request_is_read(rt: HostRuntime) -> Result<(), Fail> {
    let body =
        "{\"meta\":{\"creators\":[\"Rey, A.\"],\"title\":\"Mid depths\"},\"query\":{\"items\":[{\"column\":\"sid\"},{\"column\":\"depth\"}],\"where\":{\"depth\":{\"and\":[{\"ge\":10},{\"lt\":20}]}}}}";
    assert_eq!(rt; body.len(), 158);
    let request = read_cite(rt.alloc(), body.as_bytes())?;
    assert_eq!(rt;
        told(rt.alloc(), &request)?.as_str(),
        "where 'depth' all ( >= 10 < 20 )\nitem 'sid' as 'sid'\nitem 'depth' as 'depth'\nby 'Rey, A.'\ntitle 'Mid depths' description ''\n"
    );
    Ok(())
}

#[test]
fn each_part_is_read(rt: HostRuntime) -> Result<(), Fail> {
    let body = "{
  \"query\": {
    \"where\": {\"year\": {\"ge\": 2020}, \"site\": {\"in\": [\"north\", \"south\"]}, \"Z\": {\"eq\": 1}},
    \"items\": [{\"column\": \"site\", \"label\": \"Site\"}, {\"label\": {\"hex\": \"c3a9\"}, \"column\": \"depth\"}],
    \"order\": [{\"column\": \"depth\", \"dir\": \"desc\"}, {\"column\": \"site\", \"dir\": \"asc\"}, {\"column\": \"sid\"}]
  },
  \"meta\": {\"creators\": [\"Rey, A.\", \"\"], \"title\": \"Sites\", \"description\": \"All sites, deepest first\"}
}";
    let request = read_cite(rt.alloc(), body.as_bytes())?;
    assert_eq!(rt;
        told(rt.alloc(), &request)?.as_str(),
        "where 'Z' = 1\nwhere 'site' one of ( 'north' 'south' )\nwhere 'year' >= 2020\nitem 'site' as 'Site'\nitem 'depth' as 'é'\ndown 'depth'\nup 'site'\nup 'sid'\nby 'Rey, A.'\nby ''\ntitle 'Sites' description 'All sites, deepest first'\n"
    );
    Ok(())
}

#[test]
fn a_repeated_member_has_its_last_value(rt: HostRuntime) -> Result<(), Fail> {
    let body =
        "{\"query\":1,\"meta\":{\"creators\":[],\"title\":\"A\",\"title\":\"B\"},\"query\":{\"items\":[],\"where\":{\"b\":{\"eq\":1},\"a\":{\"lt\":2,\"lt\":3},\"b\":{\"eq\":4}}}}";
    let request = read_cite(rt.alloc(), body.as_bytes())?;
    assert_eq!(rt;
        told(rt.alloc(), &request)?.as_str(),
        "where 'a' < 3\nwhere 'b' = 4\ntitle 'B' description ''\n"
    );
    Ok(())
}

#[test]
fn each_form_of_condition_is_read(rt: HostRuntime) -> Result<(), Fail> {
    for (condition, meant) in [
        ("{\"lt\":1}", "< 1"),
        ("{\"le\":-9223372036854775808}", "<= -9223372036854775808"),
        ("{\"eq\":9223372036854775807}", "= 9223372036854775807"),
        ("{\"ne\":\"a\"}", "!= 'a'"),
        ("{\"ge\":{\"hex\":\"00fF\"}}", ">= 00ff"),
        ("{\"gt\":{\"hex\":\"\"}}", "> ''"),
        (
            "{\"in\":[1,\"a\",{\"hex\":\"62\"}]}",
            "one of ( 1 'a' 'b' )",
        ),
        ("{\"in\":[]}", "one of ( )"),
        ("{\"prefix\":\"ab\"}", "begins with 'ab'"),
        ("{\"prefix\":{\"hex\":\"ff\"}}", "begins with ff"),
        ("{\"and\":[{\"ge\":10},{\"lt\":20}]}", "all ( >= 10 < 20 )"),
        (
            "{\"or\":[{\"eq\":\"\\u0041\"},{\"and\":[]}]}",
            "any ( = 'A' all ( ) )",
        ),
        (
            "{\"not\":{\"or\":[{\"not\":{\"eq\":0}}]}}",
            "not any ( not = 0 )",
        ),
        ("{\"eq\":\"\\ud83d\\ude00\"}", "= '😀'"),
    ] {
        let body = under(rt.alloc(), condition)?;
        let request = read_cite(rt.alloc(), body.as_bytes())?;
        let line = format!(in rt.alloc();
            "where 'c' {meant}\nby 'Rey, A.'\ntitle 'T' description ''\n"
        )?;
        assert_eq!(rt;
            told(rt.alloc(), &request)?.as_str(),
            line.as_str(),
            "at {condition}"
        );
    }
    Ok(())
}

#[test]
fn what_is_no_condition_is_the_second_fault(rt: HostRuntime) -> Result<(), Fail> {
    for condition in [
        "1",
        "[]",
        "{}",
        "{\"eq\":1,\"lt\":2}",
        "{\"EQ\":1}",
        "{\"like\":\"a\"}",
        "{\"eq\":-0}",
        "{\"eq\":1.0}",
        "{\"eq\":1e2}",
        "{\"eq\":9223372036854775808}",
        "{\"eq\":-9223372036854775809}",
        "{\"eq\":null}",
        "{\"eq\":true}",
        "{\"eq\":[1]}",
        "{\"eq\":{}}",
        "{\"eq\":{\"hex\":\"a\"}}",
        "{\"eq\":{\"hex\":\"0g\"}}",
        "{\"eq\":{\"hex\":10}}",
        "{\"eq\":{\"hex\":\"00\",\"note\":1}}",
        "{\"in\":1}",
        "{\"in\":[1,null]}",
        "{\"prefix\":1}",
        "{\"and\":{\"eq\":1}}",
        "{\"or\":[{\"eq\":1},2]}",
        "{\"not\":[{\"eq\":1}]}",
    ] {
        let body = under(rt.alloc(), condition)?;
        assert_eq!(rt;
            read_cite(rt.alloc(), body.as_bytes()).err(),
            Some(JsonFault::NotAQuery(2)),
            "at {condition}"
        );
    }
    Ok(())
}

#[test]
fn each_fault_of_a_query_has_its_place(rt: HostRuntime) -> Result<(), Fail> {
    for (query, place) in [
        ("\"items\"", 1),
        ("{}", 1),
        ("{\"where\":{}}", 1),
        ("{\"items\":[],\"limit\":1}", 1),
        ("{\"items\":\"sid\",\"order\":1,\"where\":[]}", 2),
        ("{\"items\":\"sid\"}", 3),
        ("{\"items\":\"sid\",\"order\":1}", 3),
        ("{\"items\":[\"sid\"]}", 3),
        ("{\"items\":[{}]}", 3),
        ("{\"items\":[{\"column\":1}]}", 3),
        ("{\"items\":[{\"column\":\"sid\",\"label\":1}]}", 3),
        ("{\"items\":[{\"column\":\"sid\",\"name\":\"s\"}]}", 3),
        ("{\"items\":[],\"order\":{}}", 4),
        ("{\"items\":[],\"order\":[\"sid\"]}", 4),
        ("{\"items\":[],\"order\":[{\"dir\":\"asc\"}]}", 4),
        (
            "{\"items\":[],\"order\":[{\"column\":\"sid\",\"dir\":\"down\"}]}",
            4,
        ),
        (
            "{\"items\":[],\"order\":[{\"column\":\"sid\",\"dir\":null}]}",
            4,
        ),
        (
            "{\"items\":[],\"order\":[{\"column\":\"sid\",\"desc\":true}]}",
            4,
        ),
    ] {
        let body = asking(rt.alloc(), query)?;
        assert_eq!(rt;
            read_cite(rt.alloc(), body.as_bytes()).err(),
            Some(JsonFault::NotAQuery(place)),
            "at {query}"
        );
    }
    Ok(())
}

#[test]
fn each_other_fault_comes_in_its_turn(rt: HostRuntime) -> Result<(), Fail> {
    for (body, fault) in [
        ("", JsonFault::NotJson),
        ("{", JsonFault::NotJson),
        ("{} {}", JsonFault::NotJson),
        ("\u{feff}{}", JsonFault::NotJson),
        ("\"\\ud800\"", JsonFault::NotJson),
        ("1e999", JsonFault::NotJson),
        ("[1]", JsonFault::NotARequest),
        ("{}", JsonFault::NotARequest),
        ("{\"query\":{\"items\":[]}}", JsonFault::NotARequest),
        ("{\"meta\":1}", JsonFault::NotARequest),
        (
            "{\"query\":1,\"meta\":1,\"steps\":[]}",
            JsonFault::NotARequest,
        ),
        ("{\"query\":1,\"meta\":1}", JsonFault::NotAQuery(1)),
        (
            "{\"query\":{\"items\":[],\"order\":1},\"meta\":1}",
            JsonFault::NotAQuery(4),
        ),
    ] {
        assert_eq!(rt;
            read_cite(rt.alloc(), body.as_bytes()).err(),
            Some(fault),
            "at {body}"
        );
    }
    assert_eq!(rt;
        read_cite(rt.alloc(), b"{\"query\":\"\xff\",\"meta\":1}").err(),
        Some(JsonFault::NotJson)
    );
    Ok(())
}

#[test]
fn metadata_of_another_form_are_the_last_fault(rt: HostRuntime) -> Result<(), Fail> {
    for meta in [
        "1",
        "{}",
        "{\"creators\":[]}",
        "{\"title\":\"T\"}",
        "{\"creators\":\"Rey, A.\",\"title\":\"T\"}",
        "{\"creators\":[\"Rey, A.\",1],\"title\":\"T\"}",
        "{\"creators\":[{\"hex\":\"41\"}],\"title\":\"T\"}",
        "{\"creators\":[],\"title\":1}",
        "{\"creators\":[],\"title\":\"T\",\"description\":null}",
        "{\"creators\":[],\"title\":\"T\",\"year\":2024}",
    ] {
        let body = format!(in rt.alloc(); "{{\"query\":{{\"items\":[]}},\"meta\":{meta}}}")?;
        assert_eq!(rt;
            read_cite(rt.alloc(), body.as_bytes()).err(),
            Some(JsonFault::NotAMeta),
            "at {meta}"
        );
    }
    Ok(())
}

#[test]
fn texts_nest_as_deep_as_json_allows(rt: HostRuntime) -> Result<(), Fail> {
    for (depth, fault) in [
        (127, JsonFault::NotARequest),
        (128, JsonFault::NotJson),
        (200, JsonFault::NotJson),
    ] {
        let open = "[".repeat(rt.alloc(), depth)?;
        let close = "]".repeat(rt.alloc(), depth)?;
        let body = format!(in rt.alloc(); "{open}{close}")?;
        assert_eq!(rt;
            read_cite(rt.alloc(), body.as_bytes()).err(),
            Some(fault),
            "at {depth}"
        );
    }
    let open = "[".repeat(rt.alloc(), 200)?;
    assert_eq!(rt;
        read_cite(rt.alloc(), open.as_bytes()).err(),
        Some(JsonFault::NotJson)
    );
    Ok(())
}

// A condition nests as deep as the text does, and a list of conditions may be long.
#[test]
fn large_conditions_are_read(rt: HostRuntime) -> Result<(), Fail> {
    let open = "{\"not\":".repeat(rt.alloc(), 120)?;
    let close = "}".repeat(rt.alloc(), 120)?;
    let deep = format!(in rt.alloc(); "{open}{{\"eq\":1}}{close}")?;
    let body = under(rt.alloc(), deep.as_str())?;
    assert_eq!(rt; read_cite(rt.alloc(), body.as_bytes()).err(), None);

    let many = "{\"eq\":1},".repeat(rt.alloc(), 1022)?;
    let wide = format!(in rt.alloc(); "{{\"and\":[{many}{{\"eq\":2}}]}}")?;
    let body = under(rt.alloc(), wide.as_str())?;
    let request = read_cite(rt.alloc(), body.as_bytes())?;
    match request.query.conds.as_slice() {
        [on_column] => match &on_column.cond {
            Cond::AllOf(conditions) => assert_eq!(rt; conditions.len(), 1023),
            _ => return Err(Fail::new("no `and`")),
        },
        _ => return Err(Fail::new("not one condition")),
    }
    Ok(())
}
