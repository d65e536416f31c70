// Rows of many versions and many pages, with tables that a rule gives.
use crate::tests::{after, after_line, is_row, made, row, table};
use crate::{ApplyFault, Rows};
use cite_schema::{Line, NoMemory, Row};
use std::alloc::Global;
use std::test::Fail;

// The keys from 0 below 1,000, put one by one, 37 apart: version n + 2 puts the one with n for its depth.
fn shuffled(alloc: Global) -> Result<Rows, ApplyFault> {
    let mut rows = Rows::make(alloc)?;
    for depth in 0..1_000i64 {
        let row = row(alloc, depth.wrapping_mul(37) % 1_000, depth)?;
        rows = after_line(alloc, &rows, Line::Put(row))?;
    }
    Ok(rows)
}

// The depth of a key in that order, since 37 · 973 = 36 · 1,000 + 1.
fn depth_of(key: i64) -> i64 {
    key.wrapping_mul(973) % 1_000
}

// Whether the table has the rows of the keys that were put by a version.
fn are_shuffled(table: &[Row], version: u32) -> bool {
    let mut rest = table;
    for key in 0..1_000i64 {
        let depth = depth_of(key);
        if depth < i64::from(version).wrapping_sub(1) {
            match rest.split_first() {
                Some((row, more)) if is_row(row, key, depth) => rest = more,
                _ => return false,
            }
        }
    }
    rest.is_empty()
}

// Whether each tenth version has the table of the keys that were put by it.
fn have_shuffled(alloc: Global, rows: &Rows) -> Result<bool, NoMemory> {
    for tenth in 0..101u32 {
        let version = tenth.wrapping_mul(10).wrapping_add(1);
        if !are_shuffled(table(alloc, rows, version)?.as_slice(), version) {
            return Ok(false);
        }
    }
    Ok(true)
}

#[test]
fn pages_split_between_keys(rt: HostRuntime) -> Result<(), Fail> {
    let rows = shuffled(rt.alloc())?;
    assert_eq!(rt;
        (rows.last(), rows.kept(), rows.count()),
        (1_001, 1_000, 1_000)
    );
    assert!(rt; have_shuffled(rt.alloc(), &rows)?);
    Ok(())
}

// Three rows, of which the middle one is changed in each version from 3 up to 602: it has the version for its depth.
fn changed_often(alloc: Global) -> Result<Rows, ApplyFault> {
    let mut rows = made(alloc, b"+1,2 +2,2 +3,2")?;
    for version in 3..603i64 {
        let row = row(alloc, 2, version)?;
        rows = after_line(alloc, &rows, Line::Change(row))?;
    }
    Ok(rows)
}

// Whether each of these versions has the rows 1 and 3, and its own number in between.
fn have_versions(alloc: Global, rows: &Rows) -> Result<bool, NoMemory> {
    for version in 2..603u32 {
        let table = table(alloc, rows, version)?;
        if !are_three(table.as_slice(), i64::from(version)) {
            return Ok(false);
        }
    }
    Ok(true)
}

fn are_three(table: &[Row], depth: i64) -> bool {
    match table {
        [first, middle, last] => {
            is_row(first, 1, 2) && is_row(middle, 2, depth) && is_row(last, 3, 2)
        }
        _ => false,
    }
}

#[test]
fn pages_split_inside_one_key(rt: HostRuntime) -> Result<(), Fail> {
    let rows = changed_often(rt.alloc())?;
    assert!(rt; have_versions(rt.alloc(), &rows)?);
    let again = after(rt.alloc(), &after(rt.alloc(), &rows, b"-2")?, b"+2,604")?;
    assert!(rt; have_versions(rt.alloc(), &again)?);
    assert_eq!(rt; (again.last(), again.kept(), again.count()), (604, 604, 3));
    Ok(())
}
