// Queries that are written differently and ask the same, and queries that only look alike.
use crate::notation::{Misread, query, schema};
use crate::{
    Normal, check, normal, prints_tell_forms_apart, queries_have_a_form, queries_have_one_form,
    settled_forms_are_canonical,
};
use cite_schema::{ByteText, Query, Schema};
use std::alloc::Global;
use std::test::Fail;

fn form_of(alloc: Global, schema: &Schema, query: &Query) -> Result<Normal, Misread> {
    match check(schema, query) {
        Ok(()) => {
            let form = normal(alloc, schema, query)?;
            Ok(form)
        }
        Err(_) => Err(Misread::Query),
    }
}

// The form of a query on a number key, two number columns and a text column.
fn form(alloc: Global, line: &str) -> Result<Normal, Misread> {
    let schema = schema(alloc, "sid:int x:int y:int t:text")?;
    let query = query(alloc, line)?;
    form_of(alloc, &schema, &query)
}

fn printed(alloc: Global, line: &str) -> Result<ByteText, Misread> {
    let form = form(alloc, line)?;
    let text = form.print(alloc)?;
    Ok(text)
}

fn are_alike(alloc: Global, one: &str, other: &str) -> Result<bool, Misread> {
    let one = form(alloc, one)?;
    let other = form(alloc, other)?;
    Ok(one.same(&other))
}

#[test]
fn the_greatest_number_prints(rt: HostRuntime) -> Result<(), Fail> {
    let alloc = rt.alloc();
    let text = printed(alloc, "ge:9223372036854775807 on:x show:x=x")?;
    assert_eq!(rt;
        text.as_slice(),
        b"some\ncolumn 1 [9223372036854775807,none)\nitem constant 39323233333732303336383534373735383037 label 78\n".as_slice()
    );
    Ok(())
}

#[test]
fn all_numbers_but_one_print(rt: HostRuntime) -> Result<(), Fail> {
    let alloc = rt.alloc();
    let text = printed(alloc, "eq:0 not:1 on:x show:sid=sid")?;
    assert_eq!(rt;
        text.as_slice(),
        b"some\ncolumn 1 [-9223372036854775808,0) [1,none)\nitem column 0 label 736964\norder 0 asc\n".as_slice()
    );
    Ok(())
}

#[test]
fn one_number_prints(rt: HostRuntime) -> Result<(), Fail> {
    let alloc = rt.alloc();
    let five = b"some\ncolumn 1 [5,6)\nitem column 0 label 736964\norder 0 asc\n".as_slice();
    let text = printed(alloc, "eq:5 on:x show:sid=sid down:x")?;
    assert_eq!(rt; text.as_slice(), five);
    let text = printed(alloc, "ge:5 lt:6 all:2 on:x show:sid=sid")?;
    assert_eq!(rt; text.as_slice(), five);
    Ok(())
}

#[test]
fn an_order_ends_at_the_last_column_shown(rt: HostRuntime) -> Result<(), Fail> {
    let alloc = rt.alloc();
    let by_x = b"some\nitem column 1 label 63\norder 1 asc\n".as_slice();
    let text = printed(alloc, "show:x=c up:x down:y")?;
    assert_eq!(rt; text.as_slice(), by_x);
    let text = printed(alloc, "show:x=c up:x")?;
    assert_eq!(rt; text.as_slice(), by_x);
    Ok(())
}

#[test]
fn an_order_ends_at_the_key(rt: HostRuntime) -> Result<(), Fail> {
    let alloc = rt.alloc();
    let text = printed(alloc, "show:sid=sid show:x=c up:x down:y")?;
    assert_eq!(rt;
        text.as_slice(),
        b"some\nitem column 0 label 736964\nitem column 1 label 63\norder 1 asc\norder 2 desc\norder 0 asc\n".as_slice()
    );
    let text = printed(alloc, "show:sid=sid show:x=c up:x")?;
    assert_eq!(rt;
        text.as_slice(),
        b"some\nitem column 0 label 736964\nitem column 1 label 63\norder 1 asc\norder 0 asc\n".as_slice()
    );
    Ok(())
}

#[test]
fn nothing_prints_its_labels(rt: HostRuntime) -> Result<(), Fail> {
    let alloc = rt.alloc();
    let none = b"none\nlabel 736964\n".as_slice();
    let text = printed(alloc, "lt:3 gt:7 all:2 on:x show:sid=sid")?;
    assert_eq!(rt; text.as_slice(), none);
    let text = printed(alloc, "in: on:y show:sid=sid")?;
    assert_eq!(rt; text.as_slice(), none);
    let text = printed(alloc, "lt:3 gt:7 all:2 on:x in: on:y show:sid=sid")?;
    assert_eq!(rt; text.as_slice(), none);
    Ok(())
}

#[test]
fn texts_print_in_hexadecimal(rt: HostRuntime) -> Result<(), Fail> {
    let alloc = rt.alloc();
    let text = printed(alloc, "le:'61 on:t show:sid=sid")?;
    assert_eq!(rt;
        text.as_slice(),
        b"some\ncolumn 3 [,6100)\nitem column 0 label 736964\norder 0 asc\n".as_slice()
    );
    let text = printed(alloc, "prefix: on:t show:sid=sid")?;
    assert_eq!(rt;
        text.as_slice(),
        b"some\nitem column 0 label 736964\norder 0 asc\n".as_slice()
    );
    Ok(())
}

#[test]
fn prefixes_print_in_hexadecimal(rt: HostRuntime) -> Result<(), Fail> {
    let alloc = rt.alloc();
    let text = printed(alloc, "prefix:ff on:t show:sid=sid")?;
    assert_eq!(rt;
        text.as_slice(),
        b"some\ncolumn 3 [ff,none)\nitem column 0 label 736964\norder 0 asc\n".as_slice()
    );
    let text = printed(alloc, "prefix:61ff on:t show:sid=sid")?;
    assert_eq!(rt;
        text.as_slice(),
        b"some\ncolumn 3 [61ff,62)\nitem column 0 label 736964\norder 0 asc\n".as_slice()
    );
    Ok(())
}

#[test]
fn one_constant_prints_whatever_column_it_is_of(rt: HostRuntime) -> Result<(), Fail> {
    let alloc = rt.alloc();
    let both = b"some\ncolumn 1 [5,6)\ncolumn 2 [5,6)\nitem constant 35 label 76\n".as_slice();
    let text = printed(alloc, "eq:5 on:x eq:5 on:y show:x=v")?;
    assert_eq!(rt; text.as_slice(), both);
    let text = printed(alloc, "eq:5 on:x eq:5 on:y show:y=v")?;
    assert_eq!(rt; text.as_slice(), both);
    Ok(())
}

#[test]
fn a_fixed_key_leaves_no_order(rt: HostRuntime) -> Result<(), Fail> {
    let alloc = rt.alloc();
    let first = b"some\ncolumn 0 [1,2)\nitem column 1 label 78\n".as_slice();
    let text = printed(alloc, "eq:1 on:sid show:x=x down:x")?;
    assert_eq!(rt; text.as_slice(), first);
    let text = printed(alloc, "eq:1 on:sid show:x=x")?;
    assert_eq!(rt; text.as_slice(), first);
    Ok(())
}

#[test]
fn conditions_stand_in_any_order(rt: HostRuntime) -> Result<(), Fail> {
    let alloc = rt.alloc();
    let columns = are_alike(
        alloc,
        "lt:3 on:x gt:4 on:y show:sid=sid",
        "gt:4 on:y lt:3 on:x show:sid=sid",
    )?;
    assert!(rt; columns);
    let members = are_alike(
        alloc,
        "in:31223 on:x show:sid=sid",
        "ge:1 le:3 all:2 on:x show:sid=sid",
    )?;
    assert!(rt; members);
    Ok(())
}

#[test]
fn denials_are_resolved(rt: HostRuntime) -> Result<(), Fail> {
    let alloc = rt.alloc();
    let twice = are_alike(
        alloc,
        "lt:3 not:1 not:1 on:x show:sid=sid",
        "lt:3 on:x show:sid=sid",
    )?;
    assert!(rt; twice);
    let conjunction = are_alike(
        alloc,
        "lt:3 ne:1 all:2 not:1 on:x show:sid=sid",
        "eq:1 ge:3 any:2 on:x show:sid=sid",
    )?;
    assert!(rt; conjunction);
    Ok(())
}

#[test]
fn what_always_holds_is_left_out(rt: HostRuntime) -> Result<(), Fail> {
    let alloc = rt.alloc();
    let all_values = are_alike(alloc, "lt:3 ge:3 any:2 on:x show:sid=sid", "show:sid=sid")?;
    assert!(rt; all_values);
    let no_conditions = are_alike(alloc, "all:0 on:x show:sid=sid", "show:sid=sid")?;
    assert!(rt; no_conditions);
    Ok(())
}

#[test]
fn redundant_conditions_are_left_out(rt: HostRuntime) -> Result<(), Fail> {
    let alloc = rt.alloc();
    let nested = are_alike(
        alloc,
        "lt:9 lt:5 le:7 lt:6 all:1 all:4 on:x show:sid=sid",
        "lt:5 on:x show:sid=sid",
    )?;
    assert!(rt; nested);
    let neighbours = are_alike(
        alloc,
        "in:5 lt:5 eq:6 any:3 on:x show:sid=sid",
        "le:6 on:x show:sid=sid",
    )?;
    assert!(rt; neighbours);
    let prefixes = are_alike(
        alloc,
        "prefix:6162 prefix:61 all:2 on:t show:sid=sid",
        "prefix:6162 on:t show:sid=sid",
    )?;
    assert!(rt; prefixes);
    Ok(())
}

#[test]
fn contradictions_are_one(rt: HostRuntime) -> Result<(), Fail> {
    let alloc = rt.alloc();
    let columns = are_alike(
        alloc,
        "lt:3 gt:7 all:2 on:x show:sid=sid",
        "any:0 on:y show:sid=sid",
    )?;
    assert!(rt; columns);
    let order = are_alike(
        alloc,
        "in: on:x show:sid=sid down:y",
        "in: on:x eq:5 on:y show:sid=sid",
    )?;
    assert!(rt; order);
    Ok(())
}

#[test]
fn fixed_columns_order_nothing(rt: HostRuntime) -> Result<(), Fail> {
    let alloc = rt.alloc();
    let among_others = are_alike(
        alloc,
        "eq:5 on:x show:sid=s show:y=y down:x up:y",
        "in:5 on:x show:sid=s show:y=y up:y",
    )?;
    assert!(rt; among_others);
    let constants_alone = are_alike(alloc, "eq:5 on:x show:x=x down:y", "eq:5 on:x show:x=x")?;
    assert!(rt; constants_alone);
    let one_value = are_alike(
        alloc,
        "eq:5 on:x eq:5 on:y show:x=v",
        "eq:5 on:x eq:5 on:y show:y=v",
    )?;
    assert!(rt; one_value);
    Ok(())
}

#[test]
fn orders_are_completed_by_the_key(rt: HostRuntime) -> Result<(), Fail> {
    let alloc = rt.alloc();
    let behind = are_alike(alloc, "show:sid=sid down:sid up:x", "show:sid=sid down:sid")?;
    assert!(rt; behind);
    let written = are_alike(alloc, "show:sid=sid down:y up:sid", "show:sid=sid down:y")?;
    assert!(rt; written);
    Ok(())
}

#[test]
fn orders_are_no_longer_than_needed(rt: HostRuntime) -> Result<(), Fail> {
    let alloc = rt.alloc();
    let twice = are_alike(
        alloc,
        "show:sid=sid up:x down:y down:x",
        "show:sid=sid up:x down:y",
    )?;
    assert!(rt; twice);
    let behind = are_alike(alloc, "show:x=x down:x up:y down:sid", "show:x=x down:x")?;
    assert!(rt; behind);
    Ok(())
}

#[test]
fn labels_make_a_difference(rt: HostRuntime) -> Result<(), Fail> {
    let alloc = rt.alloc();
    let of_columns = are_alike(alloc, "show:x=x", "show:x=X")?;
    assert!(rt; !of_columns);
    let of_nothing = are_alike(alloc, "in: on:x show:x=x", "in: on:x show:x=X")?;
    assert!(rt; !of_nothing);
    Ok(())
}

#[test]
fn items_make_a_difference(rt: HostRuntime) -> Result<(), Fail> {
    let alloc = rt.alloc();
    let in_order = are_alike(alloc, "show:sid=a show:x=b", "show:x=b show:sid=a")?;
    assert!(rt; !in_order);
    let one_more = are_alike(alloc, "show:x=x", "show:x=x show:x=x")?;
    assert!(rt; !one_more);
    let constant = are_alike(alloc, "eq:5 on:x show:x=x", "in:56 on:x show:x=x")?;
    assert!(rt; !constant);
    Ok(())
}

#[test]
fn conditions_make_a_difference(rt: HostRuntime) -> Result<(), Fail> {
    let alloc = rt.alloc();
    let bound = are_alike(alloc, "lt:3 on:x show:sid=sid", "le:3 on:x show:sid=sid")?;
    assert!(rt; !bound);
    let column = are_alike(alloc, "lt:3 on:x show:sid=sid", "lt:3 on:y show:sid=sid")?;
    assert!(rt; !column);
    let one_value = are_alike(alloc, "ne:3 on:x show:sid=sid", "show:sid=sid")?;
    assert!(rt; !one_value);
    Ok(())
}

#[test]
fn little_is_not_nothing(rt: HostRuntime) -> Result<(), Fail> {
    let alloc = rt.alloc();
    let one_number = are_alike(
        alloc,
        "gt:3 lt:4 all:2 on:x show:sid=sid",
        "gt:3 lt:5 all:2 on:x show:sid=sid",
    )?;
    assert!(rt; !one_number);
    let the_empty_text = are_alike(alloc, "prefix: on:t show:sid=sid", "le:' on:t show:sid=sid")?;
    assert!(rt; !the_empty_text);
    Ok(())
}

#[test]
fn orders_make_a_difference(rt: HostRuntime) -> Result<(), Fail> {
    let alloc = rt.alloc();
    let direction = are_alike(alloc, "show:x=x up:x", "show:x=x down:x")?;
    assert!(rt; !direction);
    let key_first = are_alike(
        alloc,
        "show:sid=sid up:x up:sid",
        "show:sid=sid up:sid up:x",
    )?;
    assert!(rt; !key_first);
    let further_column = are_alike(
        alloc,
        "show:sid=sid show:x=c up:x down:y",
        "show:sid=sid show:x=c up:x",
    )?;
    assert!(rt; !further_column);
    Ok(())
}

#[test]
fn the_laws_hold() {
    settled_forms_are_canonical();
    queries_have_a_form();
    queries_have_one_form();
    prints_tell_forms_apart();
}
