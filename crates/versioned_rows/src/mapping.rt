// Rows that are replaced one by one.
ghost use Rattle.std.specs.Prelude.{◌≡◌, ◌≤◌, ◌<◌, ◌^◌, ◌-◌, Ok, Some, List as Listed, ◌++◌, ◌∷◌, [], slice_get, IfOk, OnOk, MatchResult, map};
ghost use Rattle.std.specs.Fn.{FnReturnsAt};
ghost use Rattle.std.specs.List.{AllByRecursion, Contains};
ghost use Rattle.std.specs.Option.{option_copied};
ghost use Rattle.cite_schema.specs.declared.value.Value.{Value as Cell};
ghost use Rattle.versioned_rows.specs.ChangeLaws.{IsThere};
ghost use Rattle.versioned_rows.specs.Keeping.{WasThere};
ghost use Rattle.versioned_rows.specs.Parts.{earlier, TellsKey};
ghost use Rattle.versioned_rows.specs.Turns.{Makes, IsAllTurned, TellsLostOf};

use crate::fault::MapFault;
use crate::rows::KeptRow;
use crate::weight::heavier;
use cite_schema::{NoMemory, Row};
use shared_pages::Sequence;
use std::alloc::Global;

/// Kept rows that were made of others, and what they weigh; 2^64 − 1 where that is more.
#[derive(Drop)]
pub struct Turned {
    /// The rows.
    pub rows: Vec<KeptRow>,
    /// The weight.
    pub weight: u64,
}

/// What the function makes of each kept row, or the first of which it makes nothing: in the lowest version, and there
/// with the lowest key.
pub fn turn_all<F: Fn(&Row) -> Result<Option<Row>, NoMemory>>(
    alloc: Global,
    kept: &Sequence<KeptRow>,
    f: F,
) -> Result<Turned, MapFault>
    requires callable { (x : _) → Contains (map (λ k. k.row) kept.now) x.now → F.pre f x }
    requires keeps { (r t : Listed Cell) → Contains (map (λ k. k.row) kept.now) r → FnReturnsAt F.Fn f r (Ok (Some t)) → slice_get t 0 ≡ slice_get r 0 }
    requires there { AllByRecursion (WasThere (2 ^ 32 - 1)) kept.now }
    ensures { MatchResult result (λ r. IsAllTurned (FnReturnsAt F.Fn f) kept.now r.rows.items r.weight) (λ e. TellsLostOf (FnReturnsAt F.Fn f) kept.now e) }
{
    let mut rows = Vec::new(alloc);
    let mut weight = 0u64;
    let mut lost = None;
    for item in kept.iter() {
        match turn(&f, item)? {
            Some(new) => {
                weight = heavier(weight, new.row.get());
                push(&mut rows, new)?;
            }
            None => lost = earlier(lost, item),
        }
    }
    match lost {
        None => Ok(Turned { rows, weight }),
        Some(first) => Err(overflow(first)),
    }
}

// What the function makes of a kept row, with its versions.
fn turn<F: Fn(&Row) -> Result<Option<Row>, NoMemory>>(
    f: &F,
    kept: &KeptRow,
) -> Result<Option<KeptRow>, NoMemory>
    requires { (x : _) → x.now ≡ kept.now.row → F.pre f.now x }
    ensures { IfOk result (λ made. Makes (FnReturnsAt F.Fn f.now) kept.now made) }
{
    let row = Row::of_shared(kept.row.share()?);
    match f(&row)? {
        None => Ok(None),
        Some(new) => {
            let row = new.into_shared()?;
            Ok(Some(KeptRow {
                row,
                from: kept.from,
                until: kept.until,
            }))
        }
    }
}

// Puts a kept row behind others.
fn push(rows: &mut Vec<KeptRow>, kept: KeptRow) -> Result<(), NoMemory>
    ensures { OnOk result (rows.new.items ≡ rows.old.items ++ kept ∷ []) }
{
    rows.push(kept)?;
    Ok(())
}

// The first of a row that was lost, if one was, and of one that is lost behind it: the one of the lower version.
fn earlier<'a>(lost: Option<&'a KeptRow>, kept: &'a KeptRow) -> Option<&'a KeptRow>
    ensures { option_copied result ≡ earlier (option_copied lost.entry) kept.now }
{
    match lost {
        Some(first) if first.from <= kept.from => Some(first),
        _ => Some(kept),
    }
}

// The fault that tells of a row that was lost.
fn overflow(lost: &KeptRow) -> MapFault
    requires { IsThere (slice_get lost.now.row 0) }
    ensures { TellsKey lost.now result }
{
    let copied = match lost.row.get().get(0) {
        Some(key) => key.copy(),
        None => Err(NoMemory),
    };
    match copied {
        Ok(key) => MapFault::Overflow {
            version: lost.from,
            key,
        },
        Err(NoMemory) => MapFault::NoMemory,
    }
}
