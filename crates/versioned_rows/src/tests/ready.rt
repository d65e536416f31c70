// What `apply` asks for, found out as the tests run: each test goes through `apply_ready`.
ghost use Rattle.std.specs.Prelude.{◌≡◌, ◌≢◌, ◌+◌, ◌<◌, ◌^◌, ◌++◌, ◌∷◌, true, IsTrue, length};
ghost use Rattle.std.specs.List.{AllByRecursion};
ghost use Rattle.std.specs.Option.{option_copied};
ghost use Rattle.std.specs.Ordering.{is_lt};
ghost use Rattle.std.specs.declared.cmp.Ordering.TheVariants.{Equal};
ghost use Rattle.cite_schema.specs.Lines.{key_in, brought};
ghost use Rattle.cite_schema.specs.Tables.{cell_cmp, rises};
ghost use Rattle.versioned_rows.specs.ChangeLaws.{NameOwnKeys, HaveKeys};
ghost use Rattle.versioned_rows.specs.Histories.{rows_of};
ghost use Rattle.versioned_rows.specs.Weights.{rows_weight};

use crate::edits::weighed;
use crate::{ApplyFault, Rows};
use cite_schema::{Line, List, Value};
use stable_order::compare_cells;
use std::alloc::Global;

/// The rows of the next version. Lines that `apply` does not take count as want of memory.
pub fn apply_ready(alloc: Global, rows: &Rows, lines: &List<Line>) -> Result<Rows, ApplyFault> {
    let ready = rows.last() < u32::MAX
        && lines.len() < 1_000_000
        && have_room(rows, lines)
        && are_light(rows, lines)
        && have_keys(lines.as_slice())
        && name_own_keys(lines.as_slice());
    if ready {
        rows.apply(alloc, lines)
    } else {
        Err(ApplyFault::NoMemory)
    }
}

// Whether the rows of the lines can be counted with those that are kept.
#[tactic(auto, using(crate::proofs::Ready::brought_few))]
fn have_room(rows: &Rows, lines: &List<Line>) -> bool
    ensures { IsTrue result → length rows.now.kept + length (brought lines.now) < 2 ^ 64 }
{
    rows.kept().checked_add(lines.len() as u64).is_some()
}

// Whether the rows of the lines can be weighed with those that are kept.
fn are_light(rows: &Rows, lines: &List<Line>) -> bool
    ensures { IsTrue result → rows_weight (rows_of rows.now ++ brought lines.now) < 2 ^ 64 }
{
    weighed(rows.weight(), lines.as_slice()) < u64::MAX
}

// The key that a line names, if its row has one.
fn key_of(line: &Line) -> Option<&Value>
    ensures { option_copied result ≡ key_in line.now }
{
    match line {
        Line::Put(row) | Line::Change(row) => row.values().get(0),
        Line::Remove(key) => Some(key),
    }
}

// Whether each line names a key.
fn have_keys(lines: &[Line]) -> bool
    ensures { IsTrue result → HaveKeys lines.now }
{
    let mut rest = lines;
    while let Some((first, more)) = rest.split_first() {
        if key_of(first).is_none() {
            return false;
        }
        rest = more;
    }
    true
}

// Whether each line names another key. Where the keys rise, that takes a comparison for each line, and else one for
// each two lines.
fn name_own_keys(lines: &[Line]) -> bool
    ensures { IsTrue result → NameOwnKeys lines.now }
{
    are_rising(lines) || are_apart(lines)
}

// Whether the keys of the lines rise.
fn are_rising(lines: &[Line]) -> bool
    ensures { IsTrue result → rises (λ l m. is_lt (cell_cmp (key_in l) (key_in m))) lines.now ≡ true }
{
    let mut rest = lines;
    while let Some((first, more)) = rest.split_first() {
        if !starts_above(more, first) {
            return false;
        }
        rest = more;
    }
    true
}

// Whether the first of the lines, if there is one, is above a line.
fn starts_above(lines: &[Line], line: &Line) -> bool
    ensures { IsTrue result → rises (λ l m. is_lt (cell_cmp (key_in l) (key_in m))) lines.now ≡ true → rises (λ l m. is_lt (cell_cmp (key_in l) (key_in m))) (line.now ∷ lines.now) ≡ true }
{
    match lines.split_first() {
        Some((first, _)) => compare_cells(key_of(line), key_of(first)).is_lt(),
        None => true,
    }
}

// Whether no two lines name one key.
fn are_apart(lines: &[Line]) -> bool
    ensures { IsTrue result → NameOwnKeys lines.now }
{
    let mut rest = lines;
    while let Some((first, more)) = rest.split_first() {
        if !is_apart(first, more) {
            return false;
        }
        rest = more;
    }
    true
}

// Whether no other line names the key of a line.
fn is_apart(line: &Line, others: &[Line]) -> bool
    ensures { IsTrue result → AllByRecursion (λ m. cell_cmp (key_in line.now) (key_in m) ≢ Equal) others.now }
{
    let mut rest = others;
    while let Some((other, more)) = rest.split_first() {
        if compare_cells(key_of(line), key_of(other)).is_eq() {
            return false;
        }
        rest = more;
    }
    true
}
