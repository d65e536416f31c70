// Many small batches behind a few large ones, each version held to the end.
use crate::tests::ready::apply_ready;
use crate::tests::{after_line, is_row, row, table};
use crate::{ApplyFault, Rows};
use cite_schema::{Line, List, NoMemory, Row};
use std::alloc::Global;
use std::test::Fail;

// Lines that put the rows of 20,000 keys from a first one on, with the depth 0.
fn puts(alloc: Global, first: i64) -> Result<List<Line>, NoMemory> {
    let mut lines = List::new(alloc);
    for i in 0..20_000i64 {
        let row = row(alloc, first.wrapping_add(i), 0)?;
        lines.push(Line::Put(row))?;
    }
    Ok(lines)
}

// The keys from 0 below 100,000 in the versions 2 to 6.
fn large_batches(alloc: Global) -> Result<Rows, ApplyFault> {
    let mut rows = Rows::make(alloc)?;
    for batch in 0..5i64 {
        let lines = puts(alloc, batch.wrapping_mul(20_000))?;
        rows = apply_ready(alloc, &rows, &lines)?;
    }
    Ok(rows)
}

// The key that a version from 7 on changes. Its row gets the version for its depth.
fn key_in(version: u32) -> u32 {
    version.wrapping_mul(33_331) % 100_000
}

// These rows and those of the versions 7 to 3,006, of which each changes one row.
fn small_batches(alloc: Global, rows: Rows) -> Result<Vec<Rows>, ApplyFault> {
    let mut held = Vec::new(alloc);
    let mut last = rows;
    for version in 7..3_007u32 {
        let row = row(alloc, i64::from(key_in(version)), i64::from(version))?;
        let next = after_line(alloc, &last, Line::Change(row))?;
        hold(&mut held, last)?;
        last = next;
    }
    hold(&mut held, last)?;
    Ok(held)
}

fn hold(held: &mut Vec<Rows>, rows: Rows) -> Result<(), NoMemory> {
    held.push(rows)?;
    Ok(())
}

// The depths of the keys in a version.
fn depths(alloc: Global, version: u32) -> Result<Vec<i64>, NoMemory> {
    let mut depths = Vec::from_elem(alloc, 0i64, 100_000)?;
    for v in 7..version.wrapping_add(1) {
        if let Some(depth) = depths.get_mut(key_in(v) as usize) {
            *depth = i64::from(v);
        }
    }
    Ok(depths)
}

fn have_depths(table: &[Row], depths: &[i64]) -> bool {
    if table.len() != depths.len() {
        return false;
    }
    let mut key = 0i64;
    for (row, depth) in table.iter().zip(depths) {
        if !is_row(row, key, *depth) {
            return false;
        }
        key = key.wrapping_add(1);
    }
    true
}

// Whether the rows have the table of a version from 6 on.
fn has_table(alloc: Global, rows: &Rows, version: u32) -> Result<bool, NoMemory> {
    let table = table(alloc, rows, version)?;
    let depths = depths(alloc, version)?;
    Ok(have_depths(table.as_slice(), depths.as_slice()))
}

// Whether the value that was the last one in a version has its table, and the very last one has it too.
fn is_held(alloc: Global, held: &[Rows], version: u32) -> Result<bool, NoMemory> {
    match (held.get((version as usize).saturating_sub(6)), held.last()) {
        (Some(then), Some(now)) => {
            let before = has_table(alloc, then, version)?;
            let after = has_table(alloc, now, version)?;
            Ok(then.last() == version && before && after)
        }
        _ => Ok(false),
    }
}

// Whether five versions are held with their tables.
fn are_held(alloc: Global, held: &[Rows]) -> Result<bool, NoMemory> {
    for version in [6, 7, 1_500, 3_005, 3_006] {
        if !is_held(alloc, held, version)? {
            return Ok(false);
        }
    }
    Ok(true)
}

#[test]
fn many_small_batches(rt: HostRuntime) -> Result<(), Fail> {
    let held = small_batches(rt.alloc(), large_batches(rt.alloc())?)?;
    assert_eq!(rt; held.len(), 3_001);
    assert!(rt; are_held(rt.alloc(), held.as_slice())?);
    Ok(())
}
