// Rows that are replaced one by one: what a function makes of them, and the first of which it makes nothing.
ghost use Rattle.std.specs.Prelude.{◌≡◌, ◌+◌, ◌*◌, ◌<◌, ◌≤◌, ◌^◌, Ok, Some, List as Listed, slice_get, IfOk, IfSome, IsTrue, length};
ghost use Rattle.std.specs.Fn.{FnReturnsAt};
ghost use Rattle.cite_schema.specs.declared.value.Value.{Value as Cell};
ghost use Rattle.cite_schema.specs.declared.value.Value.TheVariants.{Int};
ghost use Rattle.versioned_rows.specs.Histories.{rows_of};
ghost use Rattle.versioned_rows.specs.Weights.{row_weight, rows_weight};

use crate::tests::{after, figures, have, made};
use crate::{MapFault, Rows};
use cite_schema::{List, NoMemory, Row, Value};
use std::alloc::Global;
use std::test::Fail;

// What becomes of each row.
#[derive(Clone, Copy)]
enum Turn {
    /// The depth is multiplied; nothing comes of a row whose depth then is no number.
    Scale(i64),
    /// A number comes behind the other cells.
    Widen(i64),
}

// The number at a place of the row, if there is one.
fn number(row: &Row, at: usize) -> Option<i64>
    ensures { IfSome result (λ number. slice_get row.now at ≡ Some (Int number)) }
{
    match row.values().get(at) {
        Some(Value::Int(number)) => Some(*number),
        _ => None,
    }
}

fn scaled(alloc: Global, row: &Row, by: i64) -> Result<Option<Row>, NoMemory>
    ensures { IfOk result (λ made. IfSome made (λ new. (slice_get new 0 ≡ slice_get row.now 0) × (row_weight new ≤ row_weight row.now + 16))) }
{
    let Some(key) = number(row, 0) else {
        return Ok(None);
    };
    let Some(depth) = number(row, 1) else {
        return Ok(None);
    };
    match depth.checked_mul(by) {
        Some(depth) => {
            let row = crate::tests::row(alloc, key, depth)?;
            Ok(Some(row))
        }
        None => Ok(None),
    }
}

fn widened(row: &Row, number: i64) -> Result<Option<Row>, NoMemory>
    ensures { IfOk result (λ made. IfSome made (λ new. (slice_get new 0 ≡ slice_get row.now 0) × (row_weight new ≤ row_weight row.now + 16))) }
{
    if row.values().is_empty() {
        return Ok(None);
    }
    let mut values = row.to_values()?;
    values.push(Value::Int(number))?;
    Ok(Some(Row::make(values)))
}

fn turned(alloc: Global, row: &Row, turn: Turn) -> Result<Option<Row>, NoMemory>
    ensures { IfOk result (λ made. IfSome made (λ new. (slice_get new 0 ≡ slice_get row.now 0) × (row_weight new ≤ row_weight row.now + 16))) }
{
    match turn {
        Turn::Scale(by) => scaled(alloc, row, by),
        Turn::Widen(number) => widened(row, number),
    }
}

// Whether what `turned` makes of the rows can be weighed.
fn stay_light(rows: &Rows) -> bool
    ensures { IsTrue result → rows_weight (rows_of rows.now) + 16 * length rows.now.kept < 2 ^ 64 }
{
    rows.kept() < 1_000_000_000 && rows.weight() < 1_000_000_000_000
}

// The rows of the next version. Rows that can't be weighed count as want of memory.
fn map_ready<F: Fn(&Row) -> Result<Option<Row>, NoMemory>>(
    alloc: Global,
    rows: &Rows,
    f: F,
) -> Result<Rows, MapFault>
    requires callable { (x : _) → F.pre f x }
    requires light { (r t : Listed Cell) → FnReturnsAt F.Fn f r (Ok (Some t)) → (slice_get t 0 ≡ slice_get r 0) × (row_weight t ≤ row_weight r + 16) }
{
    if rows.last() < u32::MAX && stay_light(rows) {
        rows.map_rows(alloc, f)
    } else {
        Err(MapFault::NoMemory)
    }
}

// The rows of the next version, each turned.
fn map(alloc: Global, rows: &Rows, turn: Turn) -> Result<Rows, MapFault> {
    map_ready(
        alloc,
        rows,
        |row|
            ensures { IfOk result (λ made. IfSome made (λ new. (slice_get new 0 ≡ slice_get row.now 0) × (row_weight new ≤ row_weight row.now + 16))) }
        { turned(alloc, row, turn) },
    )
}

// The version and the key of the first row of which nothing came, if there is one and its key is a number.
fn lost(alloc: Global, rows: &Rows, by: i64) -> Option<(u32, i64)> {
    match map(alloc, rows, Turn::Scale(by)) {
        Err(
            MapFault::Overflow {
                version,
                key: Value::Int(key),
            },
        ) => Some((version, key)),
        _ => None,
    }
}

fn next(alloc: Global, rows: &Rows, turn: Turn) -> Result<Rows, NoMemory> {
    match map(alloc, rows, turn) {
        Ok(rows) => Ok(rows),
        Err(_) => Err(NoMemory),
    }
}

#[test]
fn each_version_is_turned(rt: HostRuntime) -> Result<(), Fail> {
    let rows = made(rt.alloc(), b"+1,5 +2,12;~2,30")?;
    let scaled = next(rt.alloc(), &rows, Turn::Scale(100))?;
    assert!(rt;
        have(
            rt.alloc(),
            &scaled,
            b";1,500 2,1200;1,500 2,3000;1,500 2,3000"
        )?
    );
    assert_eq!(rt; figures(&scaled), (3, 96, 2));
    assert!(rt; have(rt.alloc(), &rows, b";1,5 2,12;1,5 2,30")?);
    Ok(())
}

#[test]
fn turned_rows_are_changed_and_removed(rt: HostRuntime) -> Result<(), Fail> {
    let rows = made(rt.alloc(), b"+1,5 +2,12")?;
    let scaled = next(rt.alloc(), &rows, Turn::Scale(100))?;
    let fourth = after(rt.alloc(), &scaled, b"~1,7 -2 +3,8")?;
    assert!(rt; have(rt.alloc(), &fourth, b";1,500 2,1200;1,500 2,1200;1,7 3,8")?);
    Ok(())
}

#[test]
fn turned_rows_are_weighed_anew(rt: HostRuntime) -> Result<(), Fail> {
    let rows = made(rt.alloc(), b"+1,5 +2,12;~2,30")?;
    let wide = next(rt.alloc(), &rows, Turn::Widen(9))?;
    assert!(rt;
        have(
            rt.alloc(),
            &wide,
            b";1,5,9 2,12,9;1,5,9 2,30,9;1,5,9 2,30,9"
        )?
    );
    assert_eq!(rt; figures(&wide), (3, 144, 2));
    Ok(())
}

#[test]
fn no_rows_are_turned(rt: HostRuntime) -> Result<(), Fail> {
    let none = next(rt.alloc(), &Rows::make(rt.alloc())?, Turn::Widen(9))?;
    assert!(rt; have(rt.alloc(), &none, b";")?);
    assert_eq!(rt; figures(&none), (0, 0, 0));
    Ok(())
}

// The depth of key 1 is 9 in version 3 alone; the keys 2 and 3 have the depths 7 and 8 from version 2 on.
#[test]
fn the_lowest_lost_version_and_key_are_told(rt: HostRuntime) -> Result<(), Fail> {
    let rows = made(rt.alloc(), b"+1,0 +2,7 +3,8;~1,9;~1,1 -2")?;
    assert_eq!(rt; lost(rt.alloc(), &rows, i64::MAX), Some((2, 2)));
    assert_eq!(rt; lost(rt.alloc(), &rows, i64::MAX / 7), Some((2, 3)));
    assert_eq!(rt; lost(rt.alloc(), &rows, i64::MAX / 8), Some((3, 1)));
    assert_eq!(rt; lost(rt.alloc(), &rows, i64::MAX / 9), None);
    Ok(())
}

#[test]
fn a_row_of_an_old_version_alone_is_lost(rt: HostRuntime) -> Result<(), Fail> {
    let rows = made(rt.alloc(), b"+1,2;-1")?;
    assert_eq!(rt; lost(rt.alloc(), &rows, i64::MAX), Some((2, 1)));
    Ok(())
}
