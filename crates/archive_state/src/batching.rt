// The plan of a batch.
ghost use Rattle.std.specs.Prelude.{◌≡◌, ◌+◌, None, List as Listed, IfOk};
ghost use Rattle.std.specs.Arc.{arc_value};
ghost use Rattle.entry_codec.specs.declared.entry.Entry.{Entry as Told};
ghost use Rattle.entry_codec.specs.declared.entry.Entry.TheVariants as entries;
ghost use Rattle.archive_model.specs.Archives.{Archive};
ghost use Rattle.archive_model.specs.Batching.{batch_step, batch_of};
ghost use Rattle.archive_model.specs.Histories.{MayBeAsked};
ghost use Rattle.archive_state.specs.Standing.{IsSeen, Stands, StandsFor};
ghost use Rattle.archive_state.specs.Planning.{Plans};
ghost use Rattle.archive_state.specs.Used.{used_by};
ghost use Rattle.archive_state.specs.Batches.{told_by, MakesRows, PlansBatch};

use crate::limits::{CLOCK_END, passed_by_version};
use crate::plan::{Made, Planned};
use crate::present::Present;
use crate::snapshot::Snapshot;
use crate::used::UsedNumber;
use archive_model::{Refused, Stored};
use batches::{BatchFault, read_batch};
use cite_schema::{BatchAsk, NoMemory};
use entry_codec::{BatchEntry, Entry, known_entry, print_entry};
use std::alloc::Global;
use versioned_rows::{ApplyFault, Rows};

impl Present {
    /// What a batch does at a moment, in seconds since 1970: the number of the version that it made before; or a version
    /// of its own; or the first refusal of `NumberUsed`, `WrongSchema`, `Body`, `Lines`, `Full` with 2, 1, 4 and 5, and
    /// `ClockRange`. It is what the archive of every history does for which this stands.
    ///
    /// For a batch that is new it takes the time of reading its lines, of the pages that they touch, and of one copy of
    /// the body; for one that is not, a digest of the body and a search among the used numbers.
    ///
    /// # Errors
    /// The refusals named, and `NoMemory`.
    pub fn plan_batch(
        &self,
        alloc: Global,
        ask: &BatchAsk,
        now: u64,
    ) -> Result<Planned<Stored>, Refused>
        requires stands { Stands self.now }
        requires asked { MayBeAsked ask.now }
        ensures { (history : Listed Told) (a : Archive) → StandsFor self.now history a → Plans (λ o. o ≡ batch_step a ask.now now) history a result }
    {
        let used = match UsedNumber::by(alloc, ask, self.seen().version() + 1) {
            Ok(used) => used,
            Err(NoMemory) => return Err(Refused::NoMemory),
        };
        match self.used.find(&used) {
            Some(found) => told_by(found, &used.digest),
            None => {
                let made = self.new_batch(alloc, ask, used, now)?;
                Ok(Planned::New(made))
            }
        }
    }

    // What a batch does whose number is new.
    fn new_batch(
        &self,
        alloc: Global,
        ask: &BatchAsk,
        used: UsedNumber,
        now: u64,
    ) -> Result<Made<Stored>, Refused>
        requires stands { Stands self.now }
        requires asked { MayBeAsked ask.now }
        requires used { used ≡ used_by ask.now ((arc_value self.now.snapshot).rows.last + 1) }
        ensures { (history : Listed Told) (a : Archive) → StandsFor self.now history a → batch_of ask.now.curator ask.now.number a.last a.older ≡ None
            → PlansBatch a ask.now now history result }
    {
        let seen = self.seen();
        let current = seen.schema().number();
        if ask.schema != current {
            return Err(Refused::WrongSchema { current });
        }
        let rows = next_rows(alloc, seen, ask.body.as_slice())?;
        let stamp = self.stamped(now);
        let Ok(entry) = batch_entry(ask, stamp) else {
            return Err(Refused::NoMemory);
        };
        known_entry(&entry);
        let journal = self.journal_with(&entry);
        let version = rows.last();
        if let Some(limit) = passed_by_version(version, rows.kept(), rows.weight(), journal) {
            return Err(Refused::Full { limit });
        }
        if now >= CLOCK_END {
            return Err(Refused::ClockRange { moment: now });
        }
        let Ok(payload) = print_entry(alloc, &entry) else {
            return Err(Refused::NoMemory);
        };
        match self.with_version(alloc, rows, used, stamp, journal) {
            Ok(next) => Ok(Made {
                reply: Stored { version, new: true },
                payload,
                next,
            }),
            Err(NoMemory) => Err(Refused::NoMemory),
        }
    }
}

// What a used number says of a body with a digest.
fn told_by(used: &UsedNumber, digest: &[u8; 32]) -> Result<Planned<Stored>, Refused>
    ensures { result ≡ told_by used.now digest.now }
{
    let version = used.version;
    if used.digest == *digest {
        Ok(Planned::Repeat(Stored {
            version,
            new: false,
        }))
    } else {
        Err(Refused::NumberUsed { version })
    }
}

// The rows after the lines that a body spells.
fn next_rows(alloc: Global, seen: &Snapshot, body: &[u8]) -> Result<Rows, Refused>
    requires { IsSeen seen.now }
    ensures { MakesRows seen.now.schema.columns body.now seen.now.rows result }
{
    let lines = match read_batch(alloc, seen.schema(), body) {
        Ok(lines) => lines,
        Err(BatchFault::NoMemory) => return Err(Refused::NoMemory),
        Err(fault) => return Err(Refused::Body(fault)),
    };
    match seen.table().apply(alloc, &lines) {
        Ok(rows) => Ok(rows),
        Err(ApplyFault::NoMemory) => Err(Refused::NoMemory),
        Err(fault) => Err(Refused::Lines(fault)),
    }
}

// The entry of a batch.
fn batch_entry(ask: &BatchAsk, stamp: u64) -> Result<Entry, NoMemory>
    ensures { IfOk result (λ entry. entry ≡ entries.Batch (record { stamp = stamp; schema = ask.now.schema; curator = ask.now.curator; number = ask.now.number; body = ask.now.body })) }
{
    let curator = ask.curator.copy()?;
    let body = ask.body.copy()?;
    Ok(Entry::Batch(BatchEntry {
        stamp,
        schema: ask.schema,
        curator,
        number: ask.number,
        body,
    }))
}
