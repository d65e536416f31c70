// Steps on schemas and rows, with what they make written out by hand.
use crate::{
    StepFault, carry_row, carry_row_at, carry_schema, rows_are_carried_at_places, step_places,
};
use cite_schema::{ByteText, Column, Kind, List, NoMemory, Row, Schema, Step, Value, print_value};
use std::alloc::Global;
use std::test::Fail;

mod forms;

fn text(alloc: Global, bytes: &[u8]) -> Result<ByteText, NoMemory> {
    let text = ByteText::from_slice(alloc, bytes)?;
    Ok(text)
}

// A text of so many bytes.
fn long(alloc: Global, count: usize) -> Result<Value, NoMemory> {
    let mut text = List::with_capacity(alloc, count)?;
    for _ in 0..count {
        text.push(b'a')?;
    }
    Ok(Value::Text(text))
}

fn named(alloc: Global, name: &[u8], kind: Kind) -> Result<Column, NoMemory> {
    let name = text(alloc, name)?;
    Ok(Column { name, kind })
}

// The columns sid and x of numbers, and t of texts.
fn columns(alloc: Global) -> Result<List<Column>, NoMemory> {
    let mut columns = List::new(alloc);
    columns.push(named(alloc, b"sid", Kind::Int)?)?;
    columns.push(named(alloc, b"x", Kind::Int)?)?;
    columns.push(named(alloc, b"t", Kind::Text)?)?;
    Ok(columns)
}

// So many columns of numbers: c, cc, ccc and so on.
fn many_columns(alloc: Global, count: usize) -> Result<List<Column>, NoMemory> {
    let mut columns = List::new(alloc);
    let mut name = List::new(alloc);
    for _ in 0..count {
        name.push(b'c')?;
        columns.push(named(alloc, name.as_slice(), Kind::Int)?)?;
    }
    Ok(columns)
}

fn rename(alloc: Global, column: &[u8], to: &[u8]) -> Result<Step, NoMemory> {
    let column = text(alloc, column)?;
    let to = text(alloc, to)?;
    Ok(Step::Rename { column, to })
}

fn add(alloc: Global, column: &[u8], value: Value) -> Result<Step, NoMemory> {
    let column = text(alloc, column)?;
    Ok(Step::Add { column, value })
}

fn drop_column(alloc: Global, column: &[u8]) -> Result<Step, NoMemory> {
    let column = text(alloc, column)?;
    Ok(Step::DropColumn { column })
}

fn scale(alloc: Global, column: &[u8], by: i64, plus: i64) -> Result<Step, NoMemory> {
    let column = text(alloc, column)?;
    Ok(Step::Scale { column, by, plus })
}

fn recode(alloc: Global, column: &[u8], old: Value, new: Value) -> Result<Step, NoMemory> {
    let column = text(alloc, column)?;
    Ok(Step::Recode { column, old, new })
}

fn retype(alloc: Global, column: &[u8]) -> Result<Step, NoMemory> {
    let column = text(alloc, column)?;
    Ok(Step::RetypeToText { column })
}

fn one(alloc: Global, step: Result<Step, NoMemory>) -> Result<List<Step>, NoMemory> {
    let step = step?;
    let mut steps = List::new(alloc);
    steps.push(step)?;
    Ok(steps)
}

fn two(
    alloc: Global,
    first: Result<Step, NoMemory>,
    second: Result<Step, NoMemory>,
) -> Result<List<Step>, NoMemory> {
    let mut steps = one(alloc, first)?;
    let second = second?;
    steps.push(second)?;
    Ok(steps)
}

// The steps' fault on these columns, or `None`. Columns that make no schema have the fault `NoMemory` here.
fn fault_on(alloc: Global, columns: List<Column>, steps: &List<Step>) -> Option<StepFault> {
    let Ok(schema) = Schema::make(7, columns) else {
        return Some(StepFault::NoMemory);
    };
    if schema.number() >= u32::MAX {
        return Some(StepFault::NoMemory);
    }
    match carry_schema(alloc, &schema, steps) {
        Ok(_) => None,
        Err(fault) => Some(fault),
    }
}

// Whether the step has this fault.
fn has(
    alloc: Global,
    step: Result<Step, NoMemory>,
    fault: Option<StepFault>,
) -> Result<bool, NoMemory> {
    let columns = columns(alloc)?;
    let steps = one(alloc, step)?;
    Ok(fault_on(alloc, columns, &steps) == fault)
}

// Whether the two steps have this fault.
fn have(
    alloc: Global,
    first: Result<Step, NoMemory>,
    second: Result<Step, NoMemory>,
    fault: Option<StepFault>,
) -> Result<bool, NoMemory> {
    let columns = columns(alloc)?;
    let steps = two(alloc, first, second)?;
    Ok(fault_on(alloc, columns, &steps) == fault)
}

// The fault of so many steps that change nothing.
fn fault_of_many(alloc: Global, count: usize) -> Result<Option<StepFault>, NoMemory> {
    let columns = columns(alloc)?;
    let mut steps = List::new(alloc);
    for _ in 0..count {
        let step = scale(alloc, b"x", 1, 0)?;
        steps.push(step)?;
    }
    Ok(fault_on(alloc, columns, &steps))
}

fn fault_of_adding(alloc: Global, count: usize) -> Result<Option<StepFault>, NoMemory> {
    let columns = many_columns(alloc, count)?;
    let steps = one(alloc, add(alloc, b"new", Value::Int(0)))?;
    Ok(fault_on(alloc, columns, &steps))
}

#[test]
fn there_are_1_to_16_steps(rt: HostRuntime) -> Result<(), Fail> {
    let alloc = rt.alloc();
    assert_eq!(rt; fault_of_many(alloc, 0)?, Some(StepFault::BadStep(0)));
    assert_eq!(rt; fault_of_many(alloc, 16)?, None);
    assert_eq!(rt; fault_of_many(alloc, 17)?, Some(StepFault::BadStep(0)));
    Ok(())
}

#[test]
fn a_schema_has_64_columns_at_most(rt: HostRuntime) -> Result<(), Fail> {
    let alloc = rt.alloc();
    assert_eq!(rt; fault_of_adding(alloc, 63)?, None);
    assert_eq!(rt;
        fault_of_adding(alloc, 64)?,
        Some(StepFault::TooManyColumns(1))
    );
    Ok(())
}

#[test]
fn names_have_their_faults(rt: HostRuntime) -> Result<(), Fail> {
    let alloc = rt.alloc();
    assert!(rt;
        has(
            alloc,
            rename(alloc, b"x", b"1x"),
            Some(StepFault::BadStep(1))
        )?
    );
    assert!(rt;
        has(
            alloc,
            rename(alloc, b"y", b"sid"),
            Some(StepFault::UnknownColumn(1))
        )?
    );
    assert!(rt;
        has(
            alloc,
            rename(alloc, b"x", b"sid"),
            Some(StepFault::NameTaken(1))
        )?
    );
    assert!(rt;
        has(
            alloc,
            rename(alloc, b"x", b"x"),
            Some(StepFault::NameTaken(1))
        )?
    );
    assert!(rt; has(alloc, rename(alloc, b"sid", b"key"), None)?);
    Ok(())
}

#[test]
fn columns_have_their_faults(rt: HostRuntime) -> Result<(), Fail> {
    let alloc = rt.alloc();
    assert!(rt;
        has(
            alloc,
            drop_column(alloc, b"sid"),
            Some(StepFault::KeyColumn(1))
        )?
    );
    assert!(rt;
        has(
            alloc,
            scale(alloc, b"t", 2, 0),
            Some(StepFault::WrongKind(1))
        )?
    );
    assert!(rt; has(alloc, retype(alloc, b"t"), Some(StepFault::WrongKind(1)))?);
    let other = recode(alloc, b"t", Value::Int(1), Value::Int(2));
    assert!(rt; has(alloc, other, Some(StepFault::WrongKind(1)))?);
    Ok(())
}

#[test]
fn numbers_have_their_faults(rt: HostRuntime) -> Result<(), Fail> {
    let alloc = rt.alloc();
    assert!(rt; has(alloc, scale(alloc, b"x", 0, 1), Some(StepFault::BadStep(1)))?);
    assert!(rt;
        has(
            alloc,
            scale(alloc, b"x", -1, 0),
            Some(StepFault::BadStep(1))
        )?
    );
    assert!(rt; has(alloc, scale(alloc, b"x", i64::MAX, i64::MIN), None)?);
    let same = recode(alloc, b"x", Value::Int(5), Value::Int(5));
    assert!(rt; has(alloc, same, Some(StepFault::BadStep(1)))?);
    Ok(())
}

#[test]
fn texts_have_65535_bytes_at_most(rt: HostRuntime) -> Result<(), Fail> {
    let alloc = rt.alloc();
    let fitting = add(alloc, b"new", long(alloc, 65_535)?);
    assert!(rt; has(alloc, fitting, None)?);
    let too_long = add(alloc, b"new", long(alloc, 65_536)?);
    assert!(rt; has(alloc, too_long, Some(StepFault::BadStep(1)))?);
    Ok(())
}

#[test]
fn recoded_texts_are_no_longer(rt: HostRuntime) -> Result<(), Fail> {
    let alloc = rt.alloc();
    let old = long(alloc, 1)?;
    let too_long = recode(alloc, b"t", old, long(alloc, 65_536)?);
    assert!(rt; has(alloc, too_long, Some(StepFault::BadStep(1)))?);
    Ok(())
}

#[test]
fn no_step_makes_another_key(rt: HostRuntime) -> Result<(), Fail> {
    let alloc = rt.alloc();
    let key = Some(StepFault::KeyColumn(1));
    assert!(rt; has(alloc, scale(alloc, b"sid", 2, 0), key)?);
    assert!(rt; has(alloc, retype(alloc, b"sid"), key)?);
    let recoded = recode(alloc, b"sid", Value::Int(1), Value::Int(2));
    assert!(rt; has(alloc, recoded, key)?);
    Ok(())
}

#[test]
fn a_name_is_added_once(rt: HostRuntime) -> Result<(), Fail> {
    let alloc = rt.alloc();
    let taken = add(alloc, b"x", Value::Int(0));
    assert!(rt; has(alloc, taken, Some(StepFault::NameTaken(1)))?);
    let unnamed = add(alloc, b"", Value::Int(0));
    assert!(rt; has(alloc, unnamed, Some(StepFault::BadStep(1)))?);
    Ok(())
}

// The first step in order with a fault is told, on the columns as the steps before it left them.
#[test]
fn the_first_step_with_a_fault_is_told(rt: HostRuntime) -> Result<(), Fail> {
    let alloc = rt.alloc();
    let gone = scale(alloc, b"x", 2, 0);
    assert!(rt;
        have(
            alloc,
            rename(alloc, b"x", b"y"),
            gone,
            Some(StepFault::UnknownColumn(2))
        )?
    );
    let text_now = scale(alloc, b"x", 2, 0);
    assert!(rt;
        have(
            alloc,
            retype(alloc, b"x"),
            text_now,
            Some(StepFault::WrongKind(2))
        )?
    );
    let bad = scale(alloc, b"x", 0, 0);
    assert!(rt;
        have(
            alloc,
            drop_column(alloc, b"sid"),
            bad,
            Some(StepFault::KeyColumn(1))
        )?
    );
    Ok(())
}

fn row(alloc: Global, x: i64) -> Result<Row, NoMemory> {
    let mut values = List::new(alloc);
    values.push(Value::Int(1))?;
    values.push(Value::Int(x))?;
    let b = text(alloc, b"b")?;
    values.push(Value::Text(b))?;
    Ok(Row::make(values))
}

// What the row (1, x, "b") becomes.
fn carried_row(alloc: Global, x: i64, steps: &List<Step>) -> Result<Option<Row>, NoMemory> {
    let row = row(alloc, x)?;
    let columns = columns(alloc)?;
    match Schema::make(1, columns) {
        Ok(schema) => row_after(alloc, &schema, steps, &row),
        Err(_) => Ok(None),
    }
}

fn row_after(
    alloc: Global,
    schema: &Schema,
    steps: &List<Step>,
    row: &Row,
) -> Result<Option<Row>, NoMemory> {
    if schema.number() >= u32::MAX || !schema.fits(row) {
        return Ok(None);
    }
    match carry_schema(alloc, schema, steps) {
        Ok(_) => carry_row(alloc, schema, steps, row),
        Err(_) => Ok(None),
    }
}

// The second value of what the row (1, x, "b") becomes by the step, as its text.
fn second(
    alloc: Global,
    x: i64,
    step: Result<Step, NoMemory>,
) -> Result<Option<ByteText>, NoMemory> {
    let steps = one(alloc, step)?;
    let Some(row) = carried_row(alloc, x, &steps)? else {
        return Ok(None);
    };
    match row.values().get(1) {
        Some(value) => {
            let text = print_value(alloc, value)?;
            Ok(Some(text))
        }
        None => Ok(None),
    }
}

// Whether the second value becomes the one with this text.
fn becomes(
    alloc: Global,
    x: i64,
    step: Result<Step, NoMemory>,
    text: &[u8],
) -> Result<bool, NoMemory> {
    match second(alloc, x, step)? {
        Some(found) => Ok(found.as_slice() == text),
        None => Ok(false),
    }
}

#[test]
fn rows_are_carried_value_by_value(rt: HostRuntime) -> Result<(), Fail> {
    let alloc = rt.alloc();
    assert!(rt; becomes(alloc, 5, scale(alloc, b"x", 100, -1), b"499")?);
    let recoded = recode(alloc, b"x", Value::Int(5), Value::Int(7));
    assert!(rt; becomes(alloc, 5, recoded, b"7")?);
    let other = recode(alloc, b"x", Value::Int(5), Value::Int(7));
    assert!(rt; becomes(alloc, 6, other, b"6")?);
    assert!(rt; becomes(alloc, -5, retype(alloc, b"x"), b"-5")?);
    assert!(rt; becomes(alloc, 5, drop_column(alloc, b"x"), b"b")?);
    Ok(())
}

// The product may leave the range where the sum is in it again.
#[test]
fn a_number_out_of_range_is_not_carried(rt: HostRuntime) -> Result<(), Fail> {
    let alloc = rt.alloc();
    assert!(rt; second(alloc, 2, scale(alloc, b"x", i64::MAX, 0))?.is_none());
    assert!(rt; second(alloc, -2, scale(alloc, b"x", i64::MAX, 0))?.is_none());
    assert!(rt;
        becomes(
            alloc,
            1 << 62,
            scale(alloc, b"x", 2, -1),
            b"9223372036854775807"
        )?
    );
    Ok(())
}

#[test]
fn the_greatest_factor_carries_what_stays_in_range(rt: HostRuntime) -> Result<(), Fail> {
    let alloc = rt.alloc();
    let widest = scale(alloc, b"x", i64::MAX, i64::MIN);
    assert!(rt; becomes(alloc, 1, widest, b"-1")?);
    let widest = scale(alloc, b"x", i64::MAX, i64::MIN);
    assert!(rt; becomes(alloc, 2, widest, b"9223372036854775806")?);
    let widest = scale(alloc, b"x", i64::MAX, i64::MIN);
    assert!(rt; second(alloc, 3, widest)?.is_none());
    Ok(())
}

// The places of the columns that two steps on the three columns name, and the row (1, x, "b") carried at them.
fn at_places(
    alloc: Global,
    x: i64,
    steps: Result<List<Step>, NoMemory>,
) -> Result<Option<(List<usize>, Row)>, NoMemory> {
    let steps = steps?;
    let columns = columns(alloc)?;
    let Ok(schema) = Schema::make(1, columns) else {
        return Ok(None);
    };
    let places = step_places(alloc, &schema, &steps)?;
    let row = row(alloc, x)?;
    match carry_row_at(alloc, &places, &steps, &row)? {
        Some(row) => Ok(Some((places, row))),
        None => Ok(None),
    }
}

// Whether the second value of the row is the number.
fn has_second(row: &Row, number: i64) -> bool {
    match row.values().get(1) {
        Some(Value::Int(found)) => *found == number,
        _ => false,
    }
}

#[test]
fn a_new_name_is_found(rt: HostRuntime) -> Result<(), Fail> {
    let alloc = rt.alloc();
    let steps = two(alloc, rename(alloc, b"x", b"y"), scale(alloc, b"y", 2, 1));
    let (places, row) = at_places(alloc, 5, steps)?.expect(&rt, "a row");
    assert_eq!(rt; places.as_slice(), [1, 1].as_slice());
    assert!(rt; has_second(&row, 11));
    rows_are_carried_at_places();
    Ok(())
}

#[test]
fn columns_move_up_where_one_goes(rt: HostRuntime) -> Result<(), Fail> {
    let alloc = rt.alloc();
    let new = add(alloc, b"new", Value::Int(0));
    let steps = two(alloc, drop_column(alloc, b"x"), new);
    let (places, row) = at_places(alloc, 5, steps)?.expect(&rt, "a row");
    assert_eq!(rt; places.as_slice(), [1, 0].as_slice());
    assert_eq!(rt; row.values().len(), 3);
    Ok(())
}
