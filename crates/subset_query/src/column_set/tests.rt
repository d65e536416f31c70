// Sets of conditions whose values are of the other kind, which no query asks for.
use crate::ColumnSet;
use crate::column_set::column_set;
use crate::notation::{Misread, text};
use cite_schema::{Cond, Kind, Value};
use std::alloc::Global;
use std::test::Fail;

fn is_empty(set: &ColumnSet) -> bool {
    match set {
        ColumnSet::Ints(numbers) => numbers.is_empty(),
        ColumnSet::Texts(texts) => texts.is_empty(),
    }
}

fn is_full(alloc: Global, set: &ColumnSet) -> Result<bool, Misread> {
    match set {
        ColumnSet::Ints(numbers) => {
            let full = numbers.is_full(alloc)?;
            Ok(full)
        }
        ColumnSet::Texts(texts) => {
            let full = texts.is_full(alloc)?;
            Ok(full)
        }
    }
}

#[test]
fn no_number_begins_with_bytes(rt: HostRuntime) -> Result<(), Fail> {
    let alloc = rt.alloc();
    let prefix = text(alloc, b"")?;
    let set = column_set(alloc, Kind::Int, &Cond::Prefix(prefix))?;
    assert!(rt; is_empty(&set));
    Ok(())
}

#[test]
fn numbers_come_before_texts(rt: HostRuntime) -> Result<(), Fail> {
    let alloc = rt.alloc();
    let least = text(alloc, b"")?;
    let below = Cond::Lt(Value::Text(least));
    let numbers = column_set(alloc, Kind::Int, &below)?;
    assert!(rt; is_full(alloc, &numbers)?);
    let texts = column_set(alloc, Kind::Text, &Cond::Gt(Value::Int(i64::MAX)))?;
    assert!(rt; is_full(alloc, &texts)?);
    Ok(())
}

#[test]
fn no_number_is_a_text(rt: HostRuntime) -> Result<(), Fail> {
    let alloc = rt.alloc();
    let one = text(alloc, b"1")?;
    let numbers = column_set(alloc, Kind::Int, &Cond::Eq(Value::Text(one)))?;
    assert!(rt; is_empty(&numbers));
    let texts = column_set(alloc, Kind::Text, &Cond::Eq(Value::Int(1)))?;
    assert!(rt; is_empty(&texts));
    Ok(())
}
