// What is made ready before a new citation is taken.
ghost use Rattle.std.specs.Prelude.{◌≡◌, ◌+◌, ◌^◌, ◌<◌, ◌++◌, length, IfOk};
ghost use Rattle.shared_pages.specs.Edits.{changed};
ghost use Rattle.shared_pages.specs.declared.edit.Edit.TheVariants.{Put as put};
ghost use Rattle.query_store.specs.Places.{AreNumbered, entries, finding_cmp, finding_of};

use crate::citation::Citation;
use crate::finding::{Finding, finding_of};
use crate::kept::Kept;
use crate::numbered::Numbered;
use cite_schema::NoMemory;
use shared_pages::{Edit, Sequence};
use std::alloc::Global;

/// What the store with one citation more has beside that citation.
#[derive(Drop)]
pub struct Room {
    /// The citations before it.
    pub older: Sequence<Numbered>,
    /// What all of them are found by, and the new one too.
    pub index: Sequence<Finding>,
}

/// The older citations with the newest behind them, if there is one. It copies some hundred handles.
pub fn with_newest(
    alloc: Global,
    older: &Sequence<Numbered>,
    newest: &Option<Kept>,
) -> Result<Sequence<Numbered>, NoMemory>
    requires few { length older.now + 1 < 2 ^ 32 }
    requires numbered { AreNumbered 1 older.now }
    ensures { IfOk result (λ all. all ≡ older.now ++ entries (length older.now + 1) newest.now) }
{
    match newest {
        None => older.edit(alloc, &[]),
        Some(citation) => {
            let number = older.len() as u32 + 1;
            let citation = citation.share()?;
            older.edit(alloc, &[Edit::Put(Numbered { number, citation })])
        }
    }
}

/// The index with what a new citation is found by. For n findings it takes about log n comparisons, and copies some
/// hundred handles.
pub fn with_finding(
    alloc: Global,
    index: &Sequence<Finding>,
    number: u32,
    citation: &Citation,
) -> Result<Sequence<Finding>, NoMemory>
    ensures { IfOk result (λ all. all ≡ changed finding_cmp index.now (put (finding_of number citation.now))) }
{
    let finding = finding_of(alloc, number, citation)?;
    index.edit(alloc, &[Edit::Put(finding)])
}
