// The edits of kept rows that lines ask for.
ghost use Rattle.std.specs.Prelude.{◌≡◌, ◌≤◌, ◌<◌, ◌^◌, ◌-◌, ◌+◌, ◌⊎◌, ◌++◌, ◌∷◌, [], None, Some, IfOk, OnOk, MatchResult, length, min};
ghost use Rattle.std.specs.List.{AllByRecursion};
ghost use Rattle.std.specs.Option.{option_copied};
ghost use Rattle.cite_schema.specs.Tables.{key_cmp};
ghost use Rattle.cite_schema.specs.Lines.{brought};
ghost use Rattle.shared_pages.specs.declared.edit.Edit.TheVariants.{Put as put};
ghost use Rattle.versioned_rows.specs.Keeping.{WasThere, IsSettled};
ghost use Rattle.versioned_rows.specs.Parts.{line_row, open_at, finds, asked, tested, fault_by, first_by, edits_of, born, closed, all_puts, all_removes};
ghost use Rattle.versioned_rows.specs.Weights.{rows_weight};

use crate::fault::ApplyFault;
use crate::order::compare_keys;
use crate::rows::KeptRow;
use crate::weight::heavier;
use cite_schema::{Line, List, NoMemory, Shared, Value};
use shared_pages::{Edit, Sequence};
use std::alloc::Global;

/// The edits that lines ask for in a version, or the first line that does not go with the rows that no version ended.
/// For n kept rows it takes about log n comparisons a line.
pub fn edits_for(
    alloc: Global,
    kept: &Sequence<KeptRow>,
    version: u32,
    lines: &[Line],
) -> Result<List<Edit<KeptRow>>, ApplyFault>
    requires few { length lines.now < 2 ^ 32 }
    requires there { AllByRecursion (WasThere (2 ^ 32 - 1)) kept.now }
    requires settled { IsSettled key_cmp kept.now }
    ensures { MatchResult result (λ r. (first_by (finds kept.now) 1 lines.now ≡ None) × (r ≡ asked version kept.now lines.now)) (λ e. (e ≡ ApplyFault.NoMemory) ⊎ (first_by (finds kept.now) 1 lines.now ≡ Some e)) }
{
    let mut edits = List::new(alloc);
    let mut number = 0u32;
    for line in lines {
        number += 1;
        let probe = KeptRow {
            row: row_of(alloc, line)?,
            from: u32::MAX,
            until: None,
        };
        let found = find(kept, &probe);
        add_edits(line, &probe.row, found, version, number, &mut edits)?;
    }
    Ok(edits)
}

// A row with the key of a line; the row that the line brings, if it brings one.
fn row_of(alloc: Global, line: &Line) -> Result<Shared<List<Value>>, NoMemory>
    ensures { IfOk result (λ r. r ≡ line_row line.now) }
{
    match line {
        Line::Put(row) | Line::Change(row) => {
            let row = row.share()?;
            Ok(row)
        }
        Line::Remove(key) => {
            let mut values = List::new(alloc);
            values.push(key.copy()?)?;
            let row = Shared::make(alloc, values)?;
            Ok(row)
        }
    }
}

// The kept row with a key that no version ended.
fn find<'a>(kept: &'a Sequence<KeptRow>, probe: &KeptRow) -> Option<&'a KeptRow>
    requires top { probe.now.from ≡ 2 ^ 32 - 1 }
    requires there { AllByRecursion (WasThere (2 ^ 32 - 1)) kept.now }
    requires settled { IsSettled key_cmp kept.now }
    ensures { option_copied result ≡ open_at key_cmp probe.now.row kept.now }
{
    tested(kept.last_up_to(probe), probe)
}

fn tested<'a>(last: Option<&'a KeptRow>, probe: &KeptRow) -> Option<&'a KeptRow>
    ensures { option_copied result ≡ tested key_cmp probe.now.row (option_copied last.entry) }
{
    match last {
        Some(kept)
            if kept.until.is_none() && compare_keys(kept.row.get(), probe.row.get()).is_eq() => {
            Some(kept)
        }
        _ => None,
    }
}

// Puts the edits that a line asks for behind others, by the row of its key that no version ended.
fn add_edits(
    line: &Line,
    row: &Shared<List<Value>>,
    found: Option<&KeptRow>,
    version: u32,
    number: u32,
    edits: &mut List<Edit<KeptRow>>,
) -> Result<(), ApplyFault>
    requires { row.now ≡ line_row line.now }
    ensures { MatchResult result (λ r. (fault_by number line.now (option_copied found.entry) ≡ None) × (edits.new ≡ edits.old ++ edits_of version line.now (option_copied found.entry))) (λ e. (e ≡ ApplyFault.NoMemory) ⊎ (fault_by number line.now (option_copied found.entry) ≡ Some e)) }
{
    match (line, found) {
        (Line::Put(_), Some(_)) => Err(ApplyFault::KeyTaken(number)),
        (Line::Put(_), None) => {
            push(edits, born(row, version)?)?;
            Ok(())
        }
        (Line::Change(_), Some(kept)) => {
            push(edits, ended(kept, version)?)?;
            push(edits, born(row, version)?)?;
            Ok(())
        }
        (Line::Remove(_), Some(kept)) => {
            push(edits, ended(kept, version)?)?;
            Ok(())
        }
        (_, None) => Err(ApplyFault::KeyMissing(number)),
    }
}

// Puts the edit that puts a kept row behind others.
fn push(edits: &mut List<Edit<KeptRow>>, kept: KeptRow) -> Result<(), NoMemory>
    ensures { OnOk result (edits.new ≡ edits.old ++ put kept ∷ []) }
{
    edits.push(Edit::Put(kept))?;
    Ok(())
}

// A row that a version brings.
fn born(row: &Shared<List<Value>>, version: u32) -> Result<KeptRow, NoMemory>
    ensures { IfOk result (λ r. r ≡ born version row.now) }
{
    let row = row.share()?;
    Ok(KeptRow {
        row,
        from: version,
        until: None,
    })
}

// A kept row that a version ends.
fn ended(kept: &KeptRow, version: u32) -> Result<KeptRow, NoMemory>
    ensures { IfOk result (λ r. r ≡ closed version kept.now) }
{
    let row = kept.row.share()?;
    Ok(KeptRow {
        row,
        from: kept.from,
        until: Some(version),
    })
}

/// The number of rows of a table after lines.
pub fn counted(count: u64, lines: &[Line]) -> u64
    requires room { count + all_puts lines.now < 2 ^ 64 }
    requires there { all_removes lines.now ≤ count + all_puts lines.now }
    ensures { result + all_removes lines.now ≡ count + all_puts lines.now }
{
    let mut most = count;
    let mut removed = 0u64;
    for line in lines {
        match line {
            Line::Put(_) => most += 1,
            Line::Change(_) => {}
            Line::Remove(_) => removed += 1,
        }
    }
    most - removed
}

/// A weight and that of the rows that lines bring. Where it would be 2^64 or more, it is 2^64 − 1.
pub fn weighed(weight: u64, lines: &[Line]) -> u64
    ensures { result ≡ min (weight + rows_weight (brought lines.now)) (2 ^ 64 - 1) }
{
    let mut sum = weight;
    for line in lines {
        match line {
            Line::Put(row) | Line::Change(row) => sum = heavier(sum, row.values()),
            Line::Remove(_) => {}
        }
    }
    sum
}
