// Steps on forms, with what they make written out by hand.
use super::{columns, drop_column, one, recode, rename, retype, scale, text, two};
use crate::{carry_normal, carry_normal_at, carry_schema, harmless, step_places};
use cite_schema::{
    Along, Asked, ByteText, Cond, List, NoMemory, OnColumn, Query, Schema, Step, Value,
};
use std::alloc::Global;
use std::test::Fail;
use subset_query::{check, normal};

// A query of the three columns: a condition on x, and the columns that are shown.
fn asking(alloc: Global, cond: Option<Cond>, shown: &[&[u8]]) -> Result<Query, NoMemory> {
    let mut conds = List::new(alloc);
    if let Some(cond) = cond {
        let column = text(alloc, b"x")?;
        conds.push(OnColumn { column, cond })?;
    }
    let mut items = List::new(alloc);
    for name in shown {
        let column = text(alloc, name)?;
        let label = text(alloc, name)?;
        items.push(Asked { column, label })?;
    }
    let order = List::new(alloc);
    Ok(Query {
        conds,
        items,
        order,
    })
}

// The query, ordered by the column.
fn ordered(alloc: Global, query: Result<Query, NoMemory>, name: &[u8]) -> Result<Query, NoMemory> {
    let mut query = query?;
    let column = text(alloc, name)?;
    query.order.push(Along {
        column,
        down: false,
    })?;
    Ok(query)
}

// What the carried form of the query prints, or `-` where it is not carried.
fn printed(
    alloc: Global,
    schema: &Schema,
    steps: &List<Step>,
    query: &Query,
) -> Result<ByteText, NoMemory> {
    if schema.number() >= u32::MAX || check(schema, query).is_err() {
        return text(alloc, b"refused");
    }
    let form = normal(alloc, schema, query)?;
    match carry_schema(alloc, schema, steps) {
        Ok(_) => match carry_normal(alloc, schema, steps, &form)? {
            Some(carried) => carried.print(alloc),
            None => text(alloc, b"-"),
        },
        Err(_) => text(alloc, b"fault"),
    }
}

fn carried(alloc: Global, query: &Query, steps: &List<Step>) -> Result<ByteText, NoMemory> {
    let columns = columns(alloc)?;
    match Schema::make(1, columns) {
        Ok(schema) => printed(alloc, &schema, steps, query),
        Err(_) => text(alloc, b"no schema"),
    }
}

// Whether the form of the query prints this after the step, or is not carried where it is `-`.
fn prints(
    alloc: Global,
    query: Result<Query, NoMemory>,
    step: Result<Step, NoMemory>,
    printed: &[u8],
) -> Result<bool, NoMemory> {
    let query = query?;
    let steps = one(alloc, step)?;
    let found = carried(alloc, &query, &steps)?;
    Ok(found.as_slice() == printed)
}

// The same of the query for `sid` where x meets a condition, without the line of labels and what follows.
fn set_is(
    alloc: Global,
    cond: Cond,
    step: Result<Step, NoMemory>,
    line: &[u8],
) -> Result<bool, NoMemory> {
    let query = asking(alloc, Some(cond), &[b"sid"])?;
    let steps = one(alloc, step)?;
    let found = carried(alloc, &query, &steps)?;
    Ok(found.as_slice().starts_with(line))
}

#[test]
fn spans_are_scaled(rt: HostRuntime) -> Result<(), Fail> {
    let alloc = rt.alloc();
    let below = Cond::Lt(Value::Int(5));
    assert!(rt;
        set_is(
            alloc,
            below,
            scale(alloc, b"x", 2, 1),
            b"some\ncolumn 1 [-9223372036854775808,11)\nitem"
        )?
    );
    let four = Cond::Eq(Value::Int(4));
    assert!(rt;
        set_is(
            alloc,
            four,
            scale(alloc, b"x", 2, 1),
            b"some\ncolumn 1 [9,10)\nitem"
        )?
    );
    let from = Cond::Ge(Value::Int(5));
    assert!(rt;
        set_is(
            alloc,
            from,
            scale(alloc, b"x", 3, 0),
            b"some\ncolumn 1 [15,none)\nitem"
        )?
    );
    Ok(())
}

#[test]
fn spans_out_of_range_are_dropped(rt: HostRuntime) -> Result<(), Fail> {
    let alloc = rt.alloc();
    let from = Cond::Ge(Value::Int(5));
    assert!(rt; set_is(alloc, from, scale(alloc, b"x", i64::MAX, 0), b"none\nlabel")?);
    let below = Cond::Lt(Value::Int(0));
    assert!(rt;
        set_is(
            alloc,
            below,
            scale(alloc, b"x", 1, i64::MIN),
            b"none\nlabel"
        )?
    );
    let two = Cond::Eq(Value::Int(2));
    assert!(rt; set_is(alloc, two, scale(alloc, b"x", i64::MAX, 0), b"none\nlabel")?);
    Ok(())
}

#[test]
fn sets_are_recoded(rt: HostRuntime) -> Result<(), Fail> {
    let alloc = rt.alloc();
    let out = recode(alloc, b"x", Value::Int(1), Value::Int(2));
    assert!(rt; set_is(alloc, Cond::Eq(Value::Int(2)), out, b"none\nlabel")?);
    let torn = recode(alloc, b"x", Value::Int(1), Value::Int(7));
    assert!(rt;
        set_is(
            alloc,
            Cond::Ge(Value::Int(5)),
            torn,
            b"some\ncolumn 1 [5,7) [8,none)\nitem"
        )?
    );
    let put = recode(alloc, b"x", Value::Int(5), Value::Int(9));
    assert!(rt;
        set_is(
            alloc,
            Cond::Eq(Value::Int(5)),
            put,
            b"some\ncolumn 1 [5,6) [9,10)\nitem"
        )?
    );
    Ok(())
}

#[test]
fn a_recoded_number_joins_its_set(rt: HostRuntime) -> Result<(), Fail> {
    let alloc = rt.alloc();
    let joined = recode(alloc, b"x", Value::Int(1), Value::Int(2));
    assert!(rt;
        set_is(
            alloc,
            Cond::Eq(Value::Int(1)),
            joined,
            b"some\ncolumn 1 [1,3)\nitem"
        )?
    );
    let inside = recode(alloc, b"x", Value::Int(6), Value::Int(8));
    assert!(rt;
        set_is(
            alloc,
            Cond::Ge(Value::Int(5)),
            inside,
            b"some\ncolumn 1 [5,none)\nitem"
        )?
    );
    Ok(())
}

// A form that shows only `sid` gives the old bytes where its one number is scaled with the column.
#[test]
fn one_number_is_scaled_with_its_column(rt: HostRuntime) -> Result<(), Fail> {
    let alloc = rt.alloc();
    assert!(rt;
        set_is(
            alloc,
            Cond::Eq(Value::Int(5)),
            scale(alloc, b"x", 100, 0),
            b"some\ncolumn 1 [500,501)\nitem column 0 label 736964\norder 0 asc\n"
        )?
    );
    Ok(())
}

// The form of the query carried at the places of the steps, as it prints; `-` where it is not carried.
fn printed_at(
    alloc: Global,
    schema: &Schema,
    steps: &List<Step>,
    query: &Query,
) -> Result<ByteText, NoMemory> {
    if schema.number() >= u32::MAX || check(schema, query).is_err() {
        return text(alloc, b"refused");
    }
    let form = normal(alloc, schema, query)?;
    if carry_schema(alloc, schema, steps).is_err() {
        return text(alloc, b"fault");
    }
    let places = step_places(alloc, schema, steps)?;
    match carry_normal_at(alloc, schema, &places, steps, &form)? {
        Some(carried) => carried.print(alloc),
        None => text(alloc, b"-"),
    }
}

#[test]
fn a_form_is_carried_at_places(rt: HostRuntime) -> Result<(), Fail> {
    let alloc = rt.alloc();
    let Ok(schema) = Schema::make(1, columns(alloc)?) else {
        return Err(Fail::new("no schema"));
    };
    let query = asking(alloc, Some(Cond::Ge(Value::Int(5))), &[b"sid"])?;
    let steps = two(alloc, rename(alloc, b"x", b"y"), scale(alloc, b"y", 2, 1))?;
    let found = printed_at(alloc, &schema, &steps, &query)?;
    assert_eq!(rt;
        found.as_slice(),
        b"some\ncolumn 1 [11,none)\nitem column 0 label 736964\norder 0 asc\n".as_slice()
    );
    Ok(())
}

#[test]
fn full_sets_and_single_numbers_are_retyped(rt: HostRuntime) -> Result<(), Fail> {
    let alloc = rt.alloc();
    let one = Cond::Eq(Value::Int(-5));
    assert!(rt;
        set_is(
            alloc,
            one,
            retype(alloc, b"x"),
            b"some\ncolumn 1 [2d35,2d3500)\nitem"
        )?
    );
    let half = Cond::Ge(Value::Int(1));
    assert!(rt; set_is(alloc, half, retype(alloc, b"x"), b"-")?);
    let full = Cond::Ge(Value::Int(i64::MIN));
    assert!(rt; set_is(alloc, full, retype(alloc, b"x"), b"some\nitem")?);
    Ok(())
}

#[test]
fn a_column_is_dropped_where_nothing_asks_for_it(rt: HostRuntime) -> Result<(), Fail> {
    let alloc = rt.alloc();
    let half = Cond::Ge(Value::Int(1));
    assert!(rt; set_is(alloc, half, drop_column(alloc, b"x"), b"-")?);
    let shown = asking(alloc, None, &[b"x"]);
    assert!(rt; prints(alloc, shown, drop_column(alloc, b"x"), b"-")?);
    let behind = ordered(alloc, asking(alloc, None, &[b"t"]), b"t");
    assert!(rt;
        prints(
            alloc,
            behind,
            drop_column(alloc, b"x"),
            b"some\nitem column 1 label 74\norder 1 asc\n"
        )?
    );
    Ok(())
}

// An order ends as soon as it names what is shown, so the column behind may go.
#[test]
fn a_column_behind_the_needed_order_is_dropped(rt: HostRuntime) -> Result<(), Fail> {
    let alloc = rt.alloc();
    let by_x = ordered(alloc, asking(alloc, None, &[b"x"]), b"x");
    let and_t = ordered(alloc, by_x, b"t");
    assert!(rt;
        prints(
            alloc,
            and_t,
            drop_column(alloc, b"t"),
            b"some\nitem column 1 label 78\norder 1 asc\n"
        )?
    );
    Ok(())
}

#[test]
fn a_column_that_orders_is_kept(rt: HostRuntime) -> Result<(), Fail> {
    let alloc = rt.alloc();
    let by_x = ordered(alloc, asking(alloc, None, &[b"t"]), b"x");
    assert!(rt; prints(alloc, by_x, drop_column(alloc, b"x"), b"-")?);
    let again = ordered(alloc, asking(alloc, None, &[b"t"]), b"x");
    assert!(rt; prints(alloc, again, retype(alloc, b"x"), b"-")?);
    Ok(())
}

#[test]
fn a_constant_stays_as_it_was(rt: HostRuntime) -> Result<(), Fail> {
    let alloc = rt.alloc();
    let five = asking(alloc, Some(Cond::Eq(Value::Int(5))), &[b"x"]);
    assert!(rt;
        prints(
            alloc,
            five,
            scale(alloc, b"x", 100, 0),
            b"some\ncolumn 1 [500,501)\nitem constant 35 label 78\n"
        )?
    );
    Ok(())
}

// Whether the step is harmless for the form of a query; `None` where it has a fault.
fn harms(
    alloc: Global,
    query: Result<Query, NoMemory>,
    step: Result<Step, NoMemory>,
) -> Result<Option<bool>, NoMemory> {
    let query = query?;
    let columns = columns(alloc)?;
    let steps = one(alloc, step)?;
    match Schema::make(1, columns) {
        Ok(schema) => is_harmless(alloc, &schema, &steps, &query),
        Err(_) => Ok(None),
    }
}

fn is_harmless(
    alloc: Global,
    schema: &Schema,
    steps: &List<Step>,
    query: &Query,
) -> Result<Option<bool>, NoMemory> {
    if schema.number() >= u32::MAX || check(schema, query).is_err() {
        return Ok(None);
    }
    let form = normal(alloc, schema, query)?;
    match carry_schema(alloc, schema, steps) {
        Ok(_) => {
            let yes = harmless(alloc, schema, steps, &form)?;
            Ok(Some(yes))
        }
        Err(_) => Ok(None),
    }
}

#[test]
fn only_a_printed_column_is_harmed_by_a_scale(rt: HostRuntime) -> Result<(), Fail> {
    let alloc = rt.alloc();
    let hidden = asking(alloc, Some(Cond::Ge(Value::Int(5))), &[b"sid"]);
    assert_eq!(rt; harms(alloc, hidden, scale(alloc, b"x", 2, 0))?, Some(true));
    let shown = asking(alloc, None, &[b"x"]);
    assert_eq!(rt; harms(alloc, shown, scale(alloc, b"x", 2, 0))?, Some(false));
    let constant = asking(alloc, Some(Cond::Eq(Value::Int(5))), &[b"x"]);
    assert_eq!(rt;
        harms(alloc, constant, scale(alloc, b"x", 2, 0))?,
        Some(true)
    );
    Ok(())
}

#[test]
fn names_harm_nothing_and_drops_may(rt: HostRuntime) -> Result<(), Fail> {
    let alloc = rt.alloc();
    let shown = asking(alloc, None, &[b"x"]);
    assert_eq!(rt; harms(alloc, shown, rename(alloc, b"x", b"y"))?, Some(true));
    let hidden = asking(alloc, None, &[b"sid"]);
    assert_eq!(rt;
        harms(alloc, hidden, drop_column(alloc, b"x"))?,
        Some(false)
    );
    Ok(())
}
