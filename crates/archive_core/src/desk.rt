// The desk, where an archive's calls are made.
ghost use Rattle.std.specs.Prelude.{◌≡◌, ◌≢◌, ◌≤◌, ◌<◌, ◌++◌, ◌∷◌, [], None, Some as some, List as Listed, ℕ, length, IfOk, IfErr, IfSome, IsErrOf, OnOk, OnErr};
ghost use Rattle.std.specs.Arc.{arc_value};
ghost use Rattle.std.specs.Option.{option_map};
ghost use Rattle.cite_disk.specs.Device.{LeavesOnly, RoseBy, Quiet};
ghost use Rattle.query_store.specs.Citations.{numbered};
ghost use Rattle.query_store.specs.declared.citation.Citation.{Citation as kept_citation};
ghost use Rattle.entry_codec.specs.declared.entry.Entry.{Entry as Told};
ghost use Rattle.entry_codec.specs.declared.entry.Entry.TheVariants as entries;
ghost use Rattle.archive_model.specs.declared.answers.FoundFault.TheVariants as faults;
ghost use Rattle.archive_model.specs.declared.answers.Refused.TheVariants as refusals;
ghost use Rattle.archive_model.specs.Archives.{Archive};
ghost use Rattle.archive_model.specs.Batching.{batch_step};
ghost use Rattle.archive_model.specs.Citing.{CiteStep};
ghost use Rattle.archive_model.specs.Migrating.{MigrateStep};
ghost use Rattle.archive_model.specs.Histories.{MayBeAsked};
ghost use Rattle.archive_state.specs.Standing.{IsSeen, PartsStand, StandsFor};
ghost use Rattle.archive_core.specs.Keeping.{IsKept, IsLeft, Keeps};
ghost use Rattle.archive_core.specs.Answering.{Answers, Founds, IsBroken, MadeBy};

use archive_journal::{Journal, JournalFault};
use archive_model::{Cited, FoundFault, Moved, Refused, Stored};
use archive_state::{Present, Snapshot};
use cite_disk::Disk;
use cite_schema::{BatchAsk, ByteText, CiteAsk, Column, Dataset, List, Step};
use std::alloc::Global;
use std::marker::Model;
use std::sync::Arc;

/// The desk, where an archive's calls are made one after the other, over a journal on a disk. It always stands for some
/// legal history; contracts speak of each history for which it does.
///
/// Each writing call takes the disk that keeps the desk's history (`IsKept` of `specs/Keeping`); of a disk that isn't
/// honest nothing is asked. After `DiskFailed` the archive is as it was, and the entry may be on the disk until the next
/// writing call settles the journal; an old fault refuses nothing. All memory of a call, but for the record's own copy, is
/// taken before its first disk call.
#[derive(Drop)]
pub struct Desk {
    pub(crate) present: Present,
    pub(crate) journal: Journal,
    pub(crate) ready: Option<Arc<Snapshot>>,
    // The payload of the last entry that was made since the archive was founded or opened, which only clauses read.
    pub(crate) made: Option<std::snapshot::Snapshot<ByteText>>,
}

impl Model for Desk {
    ghost use Rattle.std.specs.Arc.{arc_value};
    ghost use Rattle.std.specs.Option.{option_map};
    ghost use Rattle.archive_core.specs.Keeping.{Held, IsDesk, remembered};
    ghost use Rattle.std.specs.Coded.{codes};
    ghost use Rattle.cite_schema.specs.contracts.condition.Cond as cond_row;

    ghost Value = { Held };

    ghost coded = { Prim.hlevel (codes, cond_row.the_row.coded) };

    ghost view = { λ s. record { present = s.present; journal = s.journal; ready = option_map arc_value s.ready; made = option_map remembered s.made } };

    ghost invariant = { λ s. IsDesk (record { present = s.present; journal = s.journal; ready = option_map arc_value s.ready; made = option_map remembered s.made }) };
}

impl Desk {
    /// The desk of a new archive on an empty disk: version 1, the empty table of schema 1, at a moment in seconds since
    /// 1970. It makes five disk calls.
    ///
    /// # Errors
    /// The first that applies of `BadPrefix`, `BadMeta` with 4 (publisher), 1 (creator) and 2 (title), `Schema` and
    /// `ClockRange`, which touch no disk; then `NoMemory`, before which the disk was read at most, `DiskFailed`, after
    /// which it may hold any part of a journal, and `Occupied`, exactly where it isn't empty.
    pub fn found<D: Disk>(
        alloc: Global,
        disk: &mut D,
        dataset: &Dataset,
        columns: List<Column>,
        now: u64,
    ) -> Result<Desk, FoundFault>
        ensures founds { Founds (record { stamp = now; dataset = dataset.now; columns = columns }) result }
        ensures keeps { IfOk result (λ desk. D.honest → (d : Told) → Keeps (D.images disk.new) desk.journal (entries.Found (record { stamp = now; dataset = dataset.now; columns = columns }) ∷ []) d) }
        ensures kept { IfOk result (λ desk. D.honest → IsKept (D.images disk.new) desk) }
        ensures broken { IsBroken (record { stamp = now; dataset = dataset.now; columns = columns }) → disk.new ≡ disk.old }
        ensures empty { OnOk result (D.honest → length (D.seen disk.old) ≡ 0) }
        ensures occupied { IsErrOf result faults.Occupied → D.honest → (0 < length (D.seen disk.old)) × Quiet D.seen D.images D.moment D.left_since disk.old disk.new }
        ensures memory { IsErrOf result faults.NoMemory → D.honest → Quiet D.seen D.images D.moment D.left_since disk.old disk.new }
        ensures later { D.fault_count disk.old ≤ D.fault_count disk.new }
        ensures cause { IsErrOf result faults.DiskFailed → RoseBy (D.fault_count disk.old) 1 (D.fault_count disk.new) }
    {
        let made = match Present::plan_found(alloc, dataset, columns, now) {
            Ok(made) => made,
            Err(fault) => return Err(fault),
        };
        let Ok(ready) = Arc::try_clone(made.next.snapshot()) else {
            return Err(FoundFault::NoMemory);
        };
        let entry = std::snapshot::Snapshot::of(&made.payload);
        match Journal::create(alloc, disk, made.payload.as_slice()) {
            Ok(journal) => Ok(Desk {
                present: made.next,
                journal,
                ready: Some(ready),
                made: Some(entry),
            }),
            Err(fault) => match fault {
                JournalFault::NoMemory => Err(FoundFault::NoMemory),
                JournalFault::Occupied => Err(FoundFault::Occupied),
                _ => Err(FoundFault::DiskFailed),
            },
        }
    }

    /// Stores a batch at a moment, in seconds since 1970, as `Present::plan_batch` says, in four disk calls and what it
    /// takes to settle the journal. A batch that is stored already has the old version for its answer, and touches no
    /// disk; nor does a refusal.
    ///
    /// # Errors
    /// The refusals of `Present::plan_batch`, the first that applies; `NoMemory`; and `DiskFailed`.
    pub fn batch<D: Disk>(
        &mut self,
        alloc: Global,
        disk: &mut D,
        ask: &BatchAsk,
        now: u64,
    ) -> Result<Stored, Refused>
        requires asked { MayBeAsked ask.now }
        requires kept { D.honest → IsKept (D.images disk.old) self.old }
        ensures answer { (history : Listed Told) (a : Archive) → StandsFor self.old.present history a
            → Answers (λ o. o ≡ batch_step a ask.now now) history (λ d. D.honest × Keeps (D.images disk.old) self.old.journal history d) (λ h d. Keeps (D.images disk.new) self.new.journal h d) (disk.new ≡ disk.old) self.old self.new result }
        ensures moments { D.honest → (history : Listed Told) (a : Archive) (d : Told) → StandsFor self.old.present history a → Keeps (D.images disk.old) self.old.journal history d
            → LeavesOnly D.moment D.left_since disk.old disk.new (IsLeft (MadeBy (λ o. o ≡ batch_step a ask.now now)) history d) }
        ensures kept { D.honest → IsKept (D.images disk.new) self.new }
        ensures later { D.fault_count disk.old ≤ D.fault_count disk.new }
        ensures cause { IsErrOf result refusals.DiskFailed → RoseBy (D.fault_count disk.old) 1 (D.fault_count disk.new) }
    {
        let planned = self.present.plan_batch(alloc, ask, now);
        self.write(alloc, disk, planned)
    }

    /// Cites the subset of the last table for which a request asks, at a moment in seconds since 1970, as
    /// `Present::plan_cite` says, in four disk calls and what it takes to settle the journal. Where a citation fits
    /// already, its number is the answer, and no disk is touched; nor is one by a refusal.
    ///
    /// # Errors
    /// The refusals of `Present::plan_cite`, the first that applies; `NoMemory`; and `DiskFailed`.
    pub fn cite<D: Disk>(
        &mut self,
        alloc: Global,
        disk: &mut D,
        ask: &CiteAsk,
        now: u64,
    ) -> Result<Cited, Refused>
        requires kept { D.honest → IsKept (D.images disk.old) self.old }
        ensures answer { (history : Listed Told) (a : Archive) → StandsFor self.old.present history a
            → Answers (CiteStep a ask.now now) history (λ d. D.honest × Keeps (D.images disk.old) self.old.journal history d) (λ h d. Keeps (D.images disk.new) self.new.journal h d) (disk.new ≡ disk.old) self.old self.new result }
        ensures moments { D.honest → (history : Listed Told) (a : Archive) (d : Told) → StandsFor self.old.present history a → Keeps (D.images disk.old) self.old.journal history d
            → LeavesOnly D.moment D.left_since disk.old disk.new (IsLeft (MadeBy (CiteStep a ask.now now)) history d) }
        ensures there { IfOk result (λ cited. (kept : kept_citation) × (numbered (arc_value self.new.present.snapshot).store cited.number ≡ some kept)) }
        ensures kept { D.honest → IsKept (D.images disk.new) self.new }
        ensures later { D.fault_count disk.old ≤ D.fault_count disk.new }
        ensures cause { IsErrOf result refusals.DiskFailed → RoseBy (D.fault_count disk.old) 1 (D.fault_count disk.new) }
    {
        let planned = self.present.plan_cite(alloc, ask, now);
        self.write(alloc, disk, planned)
    }

    /// Moves the table to a new schema at a moment, in seconds since 1970, as `Present::plan_migrate` says: every kept row
    /// and every citation is carried by the steps. It makes four disk calls and those that it takes to settle the
    /// journal; a refusal touches no disk.
    ///
    /// # Errors
    /// The refusals of `Present::plan_migrate`, the first that applies; `NoMemory`; and `DiskFailed`.
    pub fn migrate<D: Disk>(
        &mut self,
        alloc: Global,
        disk: &mut D,
        schema: u32,
        steps: &List<Step>,
        now: u64,
    ) -> Result<Moved, Refused>
        requires kept { D.honest → IsKept (D.images disk.old) self.old }
        ensures answer { (history : Listed Told) (a : Archive) → StandsFor self.old.present history a
            → Answers (MigrateStep a schema steps.now now) history (λ d. D.honest × Keeps (D.images disk.old) self.old.journal history d) (λ h d. Keeps (D.images disk.new) self.new.journal h d) (disk.new ≡ disk.old) self.old self.new result }
        ensures moments { D.honest → (history : Listed Told) (a : Archive) (d : Told) → StandsFor self.old.present history a → Keeps (D.images disk.old) self.old.journal history d
            → LeavesOnly D.moment D.left_since disk.old disk.new (IsLeft (MadeBy (MigrateStep a schema steps.now now)) history d) }
        ensures kept { D.honest → IsKept (D.images disk.new) self.new }
        ensures later { D.fault_count disk.old ≤ D.fault_count disk.new }
        ensures cause { IsErrOf result refusals.DiskFailed → RoseBy (D.fault_count disk.old) 1 (D.fault_count disk.new) }
    {
        let planned = self.present.plan_migrate(alloc, schema, steps, now);
        self.write(alloc, disk, planned)
    }

    /// What readers see now; its two parts stand for some legal history. It takes no memory.
    pub fn snapshot(&self) -> &Arc<Snapshot>
        ensures value { arc_value result.now ≡ arc_value self.now.present.snapshot }
        ensures seen { IsSeen (arc_value result.now) }
        ensures stands { PartsStand (arc_value result.now).rows (arc_value result.now).store }
    {
        self.present.snapshot()
    }

    /// The snapshot behind the last new entry, the founding and opening included, once: none where there was none since
    /// this was last asked. Its two parts stand for some legal history. It takes no memory.
    pub fn ready(&mut self) -> Option<Arc<Snapshot>>
        ensures ready { option_map arc_value result ≡ self.old.ready }
        ensures value { IfSome result (λ s. arc_value s ≡ arc_value self.old.present.snapshot) }
        ensures seen { IfSome result (λ s. IsSeen (arc_value s)) }
        ensures stands { IfSome result (λ s. PartsStand (arc_value s).rows (arc_value s).store) }
        ensures kept { self.new ≡ record self.old { ready = None } }
    {
        self.ready.take()
    }

    /// How many entries the history has. It takes no memory.
    pub fn entries(&self) -> u64
        ensures { (history : Listed Told) (a : Archive) → StandsFor self.now.present history a → result ≡ length history }
    {
        self.present.entries()
    }
}
