// Rows of two numbers, a key and a depth, in their versions.
//
// Batches are written as texts, one behind the other with `;` between: `+1,5` puts the row (1, 5), `~1,6` changes it, and
// `-1` removes it. So are the tables of all versions from 1 on, written out by hand: `;1,5;1,6;`.
ghost use Rattle.std.specs.Prelude.{◌≡◌, ◌∷◌, [], IfOk};
ghost use Rattle.cite_schema.specs.declared.value.Value.TheVariants.{Int};

mod batches;
mod many;
mod mapping;
mod ready;

use crate::tests::ready::apply_ready;
use crate::{ApplyFault, Rows};
use cite_schema::{ByteText, Line, List, NoMemory, Row, Value, print_value, read_int};
use std::alloc::Global;
use std::test::Fail;

// The row of a key and a depth.
fn row(alloc: Global, key: i64, depth: i64) -> Result<Row, NoMemory>
    ensures { IfOk result (λ row. row ≡ Int key ∷ Int depth ∷ []) }
{
    let mut values = List::new(alloc);
    values.push(Value::Int(key))?;
    values.push(Value::Int(depth))?;
    Ok(Row::make(values))
}

// The number in a cell of a text, or 0.
fn cell(text: &[u8], place: usize) -> i64 {
    match text.split(|byte| *byte == b',').nth(place) {
        Some(digits) => read_int(digits).unwrap_or(0),
        None => 0,
    }
}

fn line(alloc: Global, text: &[u8]) -> Result<Line, NoMemory> {
    match text.split_first() {
        Some((b'+', cells)) => Ok(Line::Put(row(alloc, cell(cells, 0), cell(cells, 1))?)),
        Some((b'~', cells)) => Ok(Line::Change(row(alloc, cell(cells, 0), cell(cells, 1))?)),
        Some((_, cells)) => Ok(Line::Remove(Value::Int(cell(cells, 0)))),
        None => Ok(Line::Remove(Value::Int(0))),
    }
}

fn lines(alloc: Global, batch: &[u8]) -> Result<List<Line>, NoMemory> {
    let mut lines = List::new(alloc);
    for text in batch.split(|byte| *byte == b' ') {
        if !text.is_empty() {
            lines.push(line(alloc, text)?)?;
        }
    }
    Ok(lines)
}

// The rows after a batch.
fn after(alloc: Global, rows: &Rows, batch: &[u8]) -> Result<Rows, ApplyFault> {
    let lines = lines(alloc, batch)?;
    apply_ready(alloc, rows, &lines)
}

// The rows after batches, from none on.
fn made(alloc: Global, batches: &[u8]) -> Result<Rows, ApplyFault> {
    let mut rows = Rows::make(alloc)?;
    for batch in batches.split(|byte| *byte == b';') {
        rows = after(alloc, &rows, batch)?;
    }
    Ok(rows)
}

// The rows after a line.
fn after_line(alloc: Global, rows: &Rows, line: Line) -> Result<Rows, ApplyFault> {
    let lines = one(alloc, line)?;
    apply_ready(alloc, rows, &lines)
}

fn one(alloc: Global, line: Line) -> Result<List<Line>, NoMemory> {
    let mut lines = List::new(alloc);
    lines.push(line)?;
    Ok(lines)
}

// Why there are no rows after a batch, if there are none.
fn fault(alloc: Global, rows: &Rows, batch: &[u8]) -> Option<ApplyFault> {
    match after(alloc, rows, batch) {
        Ok(_) => None,
        Err(fault) => Some(fault),
    }
}

// Whether the row is that of the key and the depth.
fn is_row(row: &Row, key: i64, depth: i64) -> bool {
    match row.values().as_slice() {
        [Value::Int(k), Value::Int(d)] => *k == key && *d == depth,
        _ => false,
    }
}

// The table of a version; want of memory, where there is no such version.
fn table(alloc: Global, rows: &Rows, version: u32) -> Result<List<Row>, NoMemory> {
    if version < 1 || version > rows.last() {
        return Err(NoMemory);
    }
    rows.as_of(alloc, version)
}

fn put(text: &mut ByteText, bytes: &[u8]) -> Result<(), NoMemory> {
    for byte in bytes {
        text.push(*byte)?;
    }
    Ok(())
}

fn put_row(alloc: Global, text: &mut ByteText, row: &Row) -> Result<(), NoMemory> {
    let mut between: &[u8] = b"";
    for value in row.values().as_slice() {
        put(text, between)?;
        put(text, print_value(alloc, value)?.as_slice())?;
        between = b",";
    }
    Ok(())
}

fn put_table(alloc: Global, text: &mut ByteText, table: &[Row]) -> Result<(), NoMemory> {
    let mut between: &[u8] = b"";
    for row in table {
        put(text, between)?;
        put_row(alloc, text, row)?;
        between = b" ";
    }
    Ok(())
}

// The tables of all versions.
fn tables(alloc: Global, rows: &Rows) -> Result<ByteText, NoMemory> {
    let mut text = List::new(alloc);
    let mut between: &[u8] = b"";
    for version in 1..rows.last().saturating_add(1) {
        put(&mut text, between)?;
        put_table(alloc, &mut text, table(alloc, rows, version)?.as_slice())?;
        between = b";";
    }
    Ok(text)
}

// Whether the versions have these tables.
fn have(alloc: Global, rows: &Rows, expected: &[u8]) -> Result<bool, NoMemory> {
    let tables = tables(alloc, rows)?;
    Ok(tables.as_slice() == expected)
}

// How many rows are kept, what they weigh, and how many the last table has.
fn figures(rows: &Rows) -> (u64, u64, u64) {
    (rows.kept(), rows.weight(), rows.count())
}

#[test]
fn a_changed_row_stays_in_older_versions(rt: HostRuntime) -> Result<(), Fail> {
    let rows = made(rt.alloc(), b"+1,5 +2,12;~2,30;~2,12")?;
    assert_eq!(rt; rows.last(), 4);
    assert!(rt; have(rt.alloc(), &rows, b";1,5 2,12;1,5 2,30;1,5 2,12")?);
    Ok(())
}

#[test]
fn a_missing_key_is_told_by_its_line(rt: HostRuntime) -> Result<(), Fail> {
    let rows = made(rt.alloc(), b"+1,5 +2,12")?;
    let fault = fault(rt.alloc(), &rows, b"+3,7 ~1,6 ~9,9 -2");
    assert_eq!(rt; fault, Some(ApplyFault::KeyMissing(3)));
    assert!(rt; have(rt.alloc(), &rows, b";1,5 2,12")?);
    Ok(())
}

#[test]
fn the_first_line_that_does_not_go_is_told(rt: HostRuntime) -> Result<(), Fail> {
    let rows = made(rt.alloc(), b"+1,5 +2,12")?;
    let taken = fault(rt.alloc(), &rows, b"+9,0 +2,0 +1,0");
    assert_eq!(rt; taken, Some(ApplyFault::KeyTaken(2)));
    let missing = fault(rt.alloc(), &rows, b"~2,0 -8 +1,0");
    assert_eq!(rt; missing, Some(ApplyFault::KeyMissing(2)));
    let other = fault(rt.alloc(), &rows, b"+1,0 -7");
    assert_eq!(rt; other, Some(ApplyFault::KeyTaken(1)));
    Ok(())
}

#[test]
fn a_removed_key_comes_again(rt: HostRuntime) -> Result<(), Fail> {
    let rows = made(rt.alloc(), b"+1,5 +2,6 +3,7;-2;+2,8;~2,9;-2")?;
    assert!(rt;
        have(
            rt.alloc(),
            &rows,
            b";1,5 2,6 3,7;1,5 3,7;1,5 2,8 3,7;1,5 2,9 3,7;1,5 3,7"
        )?
    );
    assert_eq!(rt; figures(&rows), (5, 160, 2));
    Ok(())
}

#[test]
fn a_key_that_came_again_is_there(rt: HostRuntime) -> Result<(), Fail> {
    let rows = made(rt.alloc(), b"+1,5 +2,6 +3,7;-2;+2,8")?;
    let taken = fault(rt.alloc(), &rows, b"+2,0");
    assert_eq!(rt; taken, Some(ApplyFault::KeyTaken(1)));
    let rows = after(rt.alloc(), &rows, b"-2")?;
    let missing = fault(rt.alloc(), &rows, b"~2,0");
    assert_eq!(rt; missing, Some(ApplyFault::KeyMissing(1)));
    Ok(())
}

#[test]
fn a_key_is_changed_and_then_removed(rt: HostRuntime) -> Result<(), Fail> {
    let rows = made(rt.alloc(), b"+1,5 +2,12;~1,6;~1,7 ~2,13;-1")?;
    assert!(rt; have(rt.alloc(), &rows, b";1,5 2,12;1,6 2,12;1,7 2,13;2,13")?);
    assert_eq!(rt; figures(&rows), (5, 160, 1));
    Ok(())
}

#[test]
fn the_first_the_middle_and_the_last_key_are_changed(rt: HostRuntime) -> Result<(), Fail> {
    let rows = made(
        rt.alloc(),
        b"+50,0 +10,0 +30,0 +20,0 +40,0;~50,5 ~10,1 ~30,3",
    )?;
    let expected = b";10,0 20,0 30,0 40,0 50,0;10,1 20,0 30,3 40,0 50,5";
    assert!(rt; have(rt.alloc(), &rows, expected)?);
    Ok(())
}

#[test]
fn the_first_the_middle_and_the_last_key_go(rt: HostRuntime) -> Result<(), Fail> {
    let rows = made(
        rt.alloc(),
        b"+1,0 +2,0 +3,0 +4,0 +5,0;-1 -3 -5;+6,6 +3,9 +0,4",
    )?;
    let expected = b";1,0 2,0 3,0 4,0 5,0;2,0 4,0;0,4 2,0 3,9 4,0 6,6";
    assert!(rt; have(rt.alloc(), &rows, expected)?);
    Ok(())
}

#[test]
fn an_empty_table_has_no_row(rt: HostRuntime) -> Result<(), Fail> {
    let none = Rows::make(rt.alloc())?;
    assert!(rt; have(rt.alloc(), &none, b"")?);
    let missing = fault(rt.alloc(), &none, b"~1,0");
    assert_eq!(rt; missing, Some(ApplyFault::KeyMissing(1)));
    let still = after(rt.alloc(), &none, b"")?;
    assert!(rt; have(rt.alloc(), &still, b";")?);
    assert_eq!(rt; figures(&still), (0, 0, 0));
    Ok(())
}

#[test]
fn a_table_becomes_empty(rt: HostRuntime) -> Result<(), Fail> {
    let rows = made(rt.alloc(), b"+1,5 +2,12;-2 -1")?;
    assert!(rt; have(rt.alloc(), &rows, b";1,5 2,12;")?);
    assert_eq!(rt; figures(&rows), (2, 64, 0));
    Ok(())
}

// The rows after a line that puts a row with a text.
fn with_text(alloc: Global, rows: &Rows) -> Result<Rows, ApplyFault> {
    let row = text_row(alloc)?;
    after_line(alloc, rows, Line::Put(row))
}

fn text_row(alloc: Global) -> Result<Row, NoMemory> {
    let mut values = List::new(alloc);
    values.push(Value::Text(ByteText::from_slice(alloc, b"bay")?))?;
    Ok(Row::make(values))
}

#[test]
fn texts_are_weighed(rt: HostRuntime) -> Result<(), Fail> {
    let rows = with_text(rt.alloc(), &made(rt.alloc(), b"+1,5")?)?;
    assert!(rt; have(rt.alloc(), &rows, b";1,5;1,5 bay")?);
    assert_eq!(rt; figures(&rows), (2, 51, 2));
    Ok(())
}
