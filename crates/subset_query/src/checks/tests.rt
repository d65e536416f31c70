// What `check` answers, at the ends of each limit and in their order.
use crate::notation::{Misread, query, schema, text};
use crate::{QueryFault, check};
use cite_schema::{Along, Asked, Boxed, ByteText, Cond, List, OnColumn, Query, Value};
use std::alloc::Global;
use std::test::Fail;

// The fault of a query of three columns.
fn fault_of(alloc: Global, query: &Query) -> Result<Option<QueryFault>, Misread> {
    let schema = schema(alloc, "sid:int depth:int place:text")?;
    match check(&schema, query) {
        Ok(()) => Ok(None),
        Err(fault) => Ok(Some(fault)),
    }
}

fn fault(alloc: Global, line: &str) -> Result<Option<QueryFault>, Misread> {
    let query = query(alloc, line)?;
    fault_of(alloc, &query)
}

#[test]
fn an_item_is_needed(rt: HostRuntime) -> Result<(), Fail> {
    let alloc = rt.alloc();
    let none = fault(alloc, "eq:1 on:sid up:sid")?;
    assert_eq!(rt; none, Some(QueryFault::NoItems));
    let one = fault(alloc, "show:sid=sid")?;
    assert_eq!(rt; one, None);
    Ok(())
}

// The fault of a query with this many items.
fn items_fault(alloc: Global, count: usize) -> Result<Option<QueryFault>, Misread> {
    let mut query = query(alloc, "")?;
    for _ in 0..count {
        let column = text(alloc, b"sid")?;
        let label = text(alloc, b"sid")?;
        query.items.push(Asked { column, label })?;
    }
    fault_of(alloc, &query)
}

#[test]
fn there_are_128_items_at_most(rt: HostRuntime) -> Result<(), Fail> {
    let alloc = rt.alloc();
    let most = items_fault(alloc, 128)?;
    assert_eq!(rt; most, None);
    let more = items_fault(alloc, 129)?;
    assert_eq!(rt; more, Some(QueryFault::TooManyParts));
    Ok(())
}

// The fault of a query with this many order columns.
fn order_fault(alloc: Global, count: usize) -> Result<Option<QueryFault>, Misread> {
    let mut query = query(alloc, "show:sid=sid")?;
    for _ in 0..count {
        let column = text(alloc, b"depth")?;
        let down = query.order.len() < 64;
        query.order.push(Along { column, down })?;
    }
    fault_of(alloc, &query)
}

#[test]
fn there_are_128_order_columns_at_most(rt: HostRuntime) -> Result<(), Fail> {
    let alloc = rt.alloc();
    let most = order_fault(alloc, 128)?;
    assert_eq!(rt; most, None);
    let more = order_fault(alloc, 129)?;
    assert_eq!(rt; more, Some(QueryFault::TooManyParts));
    Ok(())
}

// The fault of a query with this many conditions, on one column.
fn conds_fault(alloc: Global, count: usize) -> Result<Option<QueryFault>, Misread> {
    let mut query = query(alloc, "show:sid=sid")?;
    for _ in 0..count {
        let column = text(alloc, b"depth")?;
        let cond = Cond::Eq(Value::Int(5));
        query.conds.push(OnColumn { column, cond })?;
    }
    fault_of(alloc, &query)
}

#[test]
fn there_are_64_conditions_at_most(rt: HostRuntime) -> Result<(), Fail> {
    let alloc = rt.alloc();
    let most = conds_fault(alloc, 64)?;
    assert_eq!(rt; most, Some(QueryFault::ConditionTwice));
    let more = conds_fault(alloc, 65)?;
    assert_eq!(rt; more, Some(QueryFault::TooManyParts));
    Ok(())
}

// The fault of a query with a condition on `depth`, and one of one node on `sid`.
fn cond_fault(alloc: Global, cond: Cond) -> Result<Option<QueryFault>, Misread> {
    let mut query = query(alloc, "eq:5 on:sid show:sid=sid")?;
    let column = text(alloc, b"depth")?;
    query.conds.push(OnColumn { column, cond })?;
    fault_of(alloc, &query)
}

// The fault of a query with an `Among` of this many members, and a condition of one node.
fn among_fault(alloc: Global, count: i64) -> Result<Option<QueryFault>, Misread> {
    let mut values = List::new(alloc);
    for number in 0..count {
        values.push(Value::Int(number))?;
    }
    cond_fault(alloc, Cond::Among(values))
}

#[test]
fn there_are_1024_nodes_at_most(rt: HostRuntime) -> Result<(), Fail> {
    let alloc = rt.alloc();
    let most = among_fault(alloc, 1_022)?;
    assert_eq!(rt; most, None);
    let more = among_fault(alloc, 1_023)?;
    assert_eq!(rt; more, Some(QueryFault::TooManyNodes));
    Ok(())
}

// The fault of a query with a condition inside this many denials, and a condition of one node.
fn denied_fault(alloc: Global, times: usize) -> Result<Option<QueryFault>, Misread> {
    let mut cond = Cond::Eq(Value::Int(5));
    for _ in 0..times {
        let inner = Boxed::new(alloc, cond)?;
        cond = Cond::Not(inner);
    }
    cond_fault(alloc, cond)
}

#[test]
fn a_condition_is_32_deep_at_most(rt: HostRuntime) -> Result<(), Fail> {
    let alloc = rt.alloc();
    let most = denied_fault(alloc, 31)?;
    assert_eq!(rt; most, None);
    let more = denied_fault(alloc, 32)?;
    assert_eq!(rt; more, Some(QueryFault::TooDeep));
    Ok(())
}

#[test]
fn nodes_are_counted_before_depth(rt: HostRuntime) -> Result<(), Fail> {
    let alloc = rt.alloc();
    let deep = denied_fault(alloc, 1_022)?;
    assert_eq!(rt; deep, Some(QueryFault::TooDeep));
    let large = denied_fault(alloc, 1_023)?;
    assert_eq!(rt; large, Some(QueryFault::TooManyNodes));
    Ok(())
}

#[test]
fn lists_may_be_empty(rt: HostRuntime) -> Result<(), Fail> {
    let alloc = rt.alloc();
    let all = fault(alloc, "all:0 on:depth show:sid=sid")?;
    assert_eq!(rt; all, None);
    let any = fault(alloc, "any:0 on:depth show:sid=sid")?;
    assert_eq!(rt; any, None);
    let none = fault(alloc, "in: on:depth show:sid=sid")?;
    assert_eq!(rt; none, None);
    Ok(())
}

fn long_text(alloc: Global, length: usize) -> Result<ByteText, Misread> {
    let mut text = List::new(alloc);
    for _ in 0..length {
        text.push(120u8)?;
    }
    Ok(text)
}

// The fault of a query with a condition on the text column.
fn place_fault(alloc: Global, cond: Cond) -> Result<Option<QueryFault>, Misread> {
    let mut query = query(alloc, "show:sid=sid")?;
    let column = text(alloc, b"place")?;
    query.conds.push(OnColumn { column, cond })?;
    fault_of(alloc, &query)
}

fn value_fault(alloc: Global, length: usize) -> Result<Option<QueryFault>, Misread> {
    let long = long_text(alloc, length)?;
    place_fault(alloc, Cond::Gt(Value::Text(long)))
}

fn prefix_fault(alloc: Global, length: usize) -> Result<Option<QueryFault>, Misread> {
    let long = long_text(alloc, length)?;
    place_fault(alloc, Cond::Prefix(long))
}

fn label_fault(alloc: Global, length: usize) -> Result<Option<QueryFault>, Misread> {
    let mut query = query(alloc, "show:sid=sid")?;
    let column = text(alloc, b"sid")?;
    let label = long_text(alloc, length)?;
    query.items.push(Asked { column, label })?;
    fault_of(alloc, &query)
}

#[test]
fn a_value_has_65535_bytes_at_most(rt: HostRuntime) -> Result<(), Fail> {
    let alloc = rt.alloc();
    let most = value_fault(alloc, 65_535)?;
    assert_eq!(rt; most, None);
    let more = value_fault(alloc, 65_536)?;
    assert_eq!(rt; more, Some(QueryFault::TextTooLong));
    Ok(())
}

#[test]
fn a_prefix_has_65535_bytes_at_most(rt: HostRuntime) -> Result<(), Fail> {
    let alloc = rt.alloc();
    let most = prefix_fault(alloc, 65_535)?;
    assert_eq!(rt; most, None);
    let more = prefix_fault(alloc, 65_536)?;
    assert_eq!(rt; more, Some(QueryFault::TextTooLong));
    Ok(())
}

#[test]
fn a_label_has_65535_bytes_at_most(rt: HostRuntime) -> Result<(), Fail> {
    let alloc = rt.alloc();
    let most = label_fault(alloc, 65_535)?;
    assert_eq!(rt; most, None);
    let more = label_fault(alloc, 65_536)?;
    assert_eq!(rt; more, Some(QueryFault::TextTooLong));
    Ok(())
}

#[test]
fn a_column_has_one_condition(rt: HostRuntime) -> Result<(), Fail> {
    let alloc = rt.alloc();
    let twice = fault(
        alloc,
        "lt:1 on:temp lt:2 on:sid lt:3 on:temp show:sid=sid show:temp=temp up:temp",
    )?;
    assert_eq!(rt; twice, Some(QueryFault::ConditionTwice));
    Ok(())
}

#[test]
fn names_of_conditions_come_first(rt: HostRuntime) -> Result<(), Fail> {
    let alloc = rt.alloc();
    let unknown = fault(
        alloc,
        "lt:'61 on:depth eq:5 on:temp show:sid=sid show:temp=temp up:temp",
    )?;
    assert_eq!(rt;
        unknown,
        Some(QueryFault::UnknownColumn { part: 1, place: 1 })
    );
    Ok(())
}

#[test]
fn names_of_items_come_before_those_of_orders(rt: HostRuntime) -> Result<(), Fail> {
    let alloc = rt.alloc();
    let unknown = fault(alloc, "lt:'61 on:depth show:sid=sid show:temp=temp up:temp")?;
    assert_eq!(rt;
        unknown,
        Some(QueryFault::UnknownColumn { part: 2, place: 1 })
    );
    Ok(())
}

#[test]
fn names_of_orders_come_before_kinds(rt: HostRuntime) -> Result<(), Fail> {
    let alloc = rt.alloc();
    let unknown = fault(alloc, "lt:'61 on:depth show:sid=sid down:temp")?;
    assert_eq!(rt;
        unknown,
        Some(QueryFault::UnknownColumn { part: 3, place: 0 })
    );
    Ok(())
}

#[test]
fn values_are_of_the_kind_of_their_column(rt: HostRuntime) -> Result<(), Fail> {
    let alloc = rt.alloc();
    let text = fault(alloc, "lt:'61 on:depth show:sid=sid")?;
    assert_eq!(rt; text, Some(QueryFault::WrongKind { place: 0 }));
    let inner = fault(
        alloc,
        "eq:5 on:depth prefix:61 eq:5 not:1 any:2 on:place show:sid=sid",
    )?;
    assert_eq!(rt; inner, Some(QueryFault::WrongKind { place: 1 }));
    Ok(())
}

#[test]
fn texts_alone_have_prefixes(rt: HostRuntime) -> Result<(), Fail> {
    let alloc = rt.alloc();
    let number = fault(alloc, "prefix: on:sid show:sid=sid")?;
    assert_eq!(rt; number, Some(QueryFault::WrongKind { place: 0 }));
    let text = fault(alloc, "prefix: on:place show:sid=sid")?;
    assert_eq!(rt; text, None);
    Ok(())
}
