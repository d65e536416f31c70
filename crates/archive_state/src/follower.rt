// A follower, which takes over a history entry by entry.
ghost use Rattle.std.specs.Prelude.{◌≡◌, ◌↔◌, [], None as none, IsTrue, IfOk, List as Listed};
ghost use Rattle.std.specs.Arc.{arc_value};
ghost use Rattle.std.specs.Option.{option_map, option_copied};
ghost use Rattle.entry_codec.specs.declared.entry.Entry.{Entry as Told};
ghost use Rattle.entry_codec.specs.declared.entry.Entry.TheVariants as entries;
ghost use Rattle.entry_codec.specs.Payloads.{payload as payload_of};
ghost use Rattle.entry_codec.specs.Spellable.{FitsEntry};
ghost use Rattle.archive_model.specs.Archives.{Archive};
ghost use Rattle.archive_model.specs.Histories.{MayBeAsked};
ghost use Rattle.archive_state.specs.Standing.{Stands, StandsFor};
ghost use Rattle.archive_state.specs.Following.{Follows, TakesOver, Hears, KeepsOf};

use crate::plan::Planned;
use crate::present::Present;
use crate::snapshot::Snapshot;
use archive_model::{FoundFault, Refused};
use batches::curator_ok;
use cite_schema::{BatchAsk, CiteAsk, NoMemory};
use entry_codec::{BatchEntry, CiteEntry, Entry, FoundEntry, MigrateEntry, read_entry};
use std::alloc::Global;
use std::marker::Model;
use std::sync::Arc;

/// A follower, which takes over a history entry by entry, from the payloads of its entries. An entry is accepted exactly
/// where the archive makes it of the entry's own request and stamp. A follower always stands for some legal history, or
/// for the empty one; contracts speak of each history for which it does.
#[derive(Drop)]
pub struct Follower {
    present: Option<Present>,
}

impl Model for Follower {
    ghost use Rattle.std.specs.Prelude.{Option};
    ghost use Rattle.archive_state.specs.Following.{IsFollower};
    ghost use Rattle.archive_state.specs.declared.present.Present.{Present as Kept};
    ghost use Rattle.std.specs.Coded.{codes};
    ghost use Rattle.cite_schema.specs.contracts.condition.Cond as cond_row;

    ghost Value = { Option Kept };

    ghost coded = { Prim.hlevel (codes, cond_row.the_row.coded) };

    ghost view = { λ s. s.present };

    ghost invariant = { λ s. IsFollower s.present };
}

impl Follower {
    /// The follower of the empty history. It takes no memory.
    pub fn make() -> Follower
        ensures { result ≡ none }
    {
        Follower { present: None }
    }

    /// Takes over the next entry, whose payload the bytes are. The answer is true exactly where some entry with this
    /// payload can stand behind the history, which then is legal with it; else nothing changes. It plans what the entry
    /// asked, as the desk did, and costs what that costs.
    ///
    /// # Errors
    /// `NoMemory`; nothing changes.
    pub fn take(&mut self, alloc: Global, payload: &[u8]) -> Result<bool, NoMemory>
        ensures { (history : Listed Told) → Follows self.old history → Hears history payload.now self.old self.new result }
    {
        let Some(entry) = read_entry(alloc, payload)? else {
            return Ok(false);
        };
        match self.after(alloc, entry, payload)? {
            None => Ok(false),
            Some(next) => {
                self.present = Some(next);
                Ok(true)
            }
        }
    }

    /// What readers see of the history's archive; none exactly where nothing was accepted. It takes no memory.
    pub fn snapshot(&self) -> Option<&Arc<Snapshot>>
        ensures { option_map (λ s. arc_value s) (option_copied result) ≡ option_map (λ p. arc_value p.snapshot) self.now }
    {
        match &self.present {
            Some(present) => Some(present.snapshot()),
            None => None,
        }
    }

    /// What is kept of the history's archive; none exactly where nothing was accepted. It takes no memory.
    pub fn into_present(self) -> Option<Present>
        ensures { result ≡ self }
    {
        self.present
    }

    // What is kept with an entry behind the history; none where the entry can't stand there.
    fn after(
        &self,
        alloc: Global,
        entry: Entry,
        payload: &[u8],
    ) -> Result<Option<Present>, NoMemory>
        requires fits { FitsEntry entry }
        requires payload { payload.now ≡ payload_of entry }
        ensures { (history : Listed Told) → Follows self.now history → IfOk result (λ next. TakesOver history entry next) }
    {
        match &self.present {
            None => first(alloc, entry),
            Some(present) => later(alloc, present, entry, payload),
        }
    }
}

// What is kept of a first entry; none where it is no founding that keeps its rules.
fn first(alloc: Global, entry: Entry) -> Result<Option<Present>, NoMemory>
    ensures { IfOk result (λ next. TakesOver [] entry next) }
{
    match entry {
        Entry::Found(founding) => follow_founding(alloc, founding),
        Entry::Batch(_) | Entry::Cite(_) | Entry::Migrate(_) => Ok(None),
    }
}

// What is kept of a founding; none where it breaks a rule.
fn follow_founding(alloc: Global, founding: FoundEntry) -> Result<Option<Present>, NoMemory>
    ensures { IfOk result (λ next. TakesOver [] (entries.Found founding) next) }
{
    let FoundEntry {
        stamp,
        dataset,
        columns,
    } = founding;
    match Present::plan_found(alloc, &dataset, columns, stamp) {
        Ok(made) => Ok(Some(made.next)),
        Err(FoundFault::NoMemory) => Err(NoMemory),
        Err(_) => Ok(None),
    }
}

// What is kept with an entry that is not the first; none where it can't stand behind the others.
fn later(
    alloc: Global,
    present: &Present,
    entry: Entry,
    payload: &[u8],
) -> Result<Option<Present>, NoMemory>
    requires stands { Stands present.now }
    requires fits { FitsEntry entry }
    requires payload { payload.now ≡ payload_of entry }
    ensures { (history : Listed Told) (a : Archive) → StandsFor present.now history a → IfOk result (λ next. TakesOver history entry next) }
{
    match entry {
        Entry::Found(_) => Ok(None),
        Entry::Batch(batch) => follow_batch(alloc, present, batch, payload),
        Entry::Cite(citation) => follow_citation(alloc, present, citation, payload),
        Entry::Migrate(migration) => follow_migration(alloc, present, migration, payload),
    }
}

// What is kept with a batch; none where the archive doesn't make it.
fn follow_batch(
    alloc: Global,
    present: &Present,
    batch: BatchEntry,
    payload: &[u8],
) -> Result<Option<Present>, NoMemory>
    requires stands { Stands present.now }
    requires fits { FitsEntry (entries.Batch batch) }
    requires payload { payload.now ≡ payload_of (entries.Batch batch) }
    ensures { (history : Listed Told) (a : Archive) → StandsFor present.now history a → IfOk result (λ next. TakesOver history (entries.Batch batch) next) }
{
    let stamp = batch.stamp;
    let ask = BatchAsk {
        schema: batch.schema,
        curator: batch.curator,
        number: batch.number,
        body: batch.body,
    };
    if !may_be_asked(&ask) {
        return Ok(None);
    }
    kept_of(present.plan_batch(alloc, &ask, stamp), payload)
}

// Whether a batch may be asked for.
fn may_be_asked(ask: &BatchAsk) -> bool
    ensures { IsTrue result ↔ MayBeAsked ask.now }
{
    curator_ok(ask.curator.as_slice()) && ask.number >= 1 && ask.body.len() <= 8_388_608
}

// What is kept with a citation; none where the archive doesn't make it.
fn follow_citation(
    alloc: Global,
    present: &Present,
    citation: CiteEntry,
    payload: &[u8],
) -> Result<Option<Present>, NoMemory>
    requires stands { Stands present.now }
    requires fits { FitsEntry (entries.Cite citation) }
    requires payload { payload.now ≡ payload_of (entries.Cite citation) }
    ensures { (history : Listed Told) (a : Archive) → StandsFor present.now history a → IfOk result (λ next. TakesOver history (entries.Cite citation) next) }
{
    let stamp = citation.stamp;
    let ask = CiteAsk {
        query: citation.query,
        meta: citation.meta,
    };
    kept_of(present.plan_cite(alloc, &ask, stamp), payload)
}

// What is kept with a migration; none where the archive doesn't make it.
fn follow_migration(
    alloc: Global,
    present: &Present,
    migration: MigrateEntry,
    payload: &[u8],
) -> Result<Option<Present>, NoMemory>
    requires stands { Stands present.now }
    requires fits { FitsEntry (entries.Migrate migration) }
    requires payload { payload.now ≡ payload_of (entries.Migrate migration) }
    ensures { (history : Listed Told) (a : Archive) → StandsFor present.now history a → IfOk result (λ next. TakesOver history (entries.Migrate migration) next) }
{
    let stamp = migration.stamp;
    kept_of(
        present.plan_migrate(alloc, migration.schema, &migration.steps, stamp),
        payload,
    )
}

// What is kept of a plan whose entry has the payload; none where it makes no entry, or another one.
fn kept_of<R: Drop>(
    planned: Result<Planned<R>, Refused>,
    payload: &[u8],
) -> Result<Option<Present>, NoMemory>
    ensures { IfOk result (λ next. KeepsOf planned payload.now next) }
{
    match planned {
        Ok(Planned::New(made)) => {
            if made.payload.as_slice() == payload {
                Ok(Some(made.next))
            } else {
                Ok(None)
            }
        }
        Ok(Planned::Repeat(_)) => Ok(None),
        Err(Refused::NoMemory) => Err(NoMemory),
        Err(_) => Ok(None),
    }
}
