// A log of payloads: what a desk does with its journal, without the desk. It shows that the contracts carry that.
ghost use Rattle.std.specs.Prelude.{◌≡◌, ◌≢◌, ◌+◌, ◌<◌, ◌≤◌, ◌^◌, ◌⊎◌, ℕ, List, [], ◌∷◌, ◌++◌, length, OnOk, OnErr, IfOk, IfErr, IsErrOf};
ghost use Rattle.cite_disk.specs.Device.{Quiet, LeavesOnly, RoseBy};
ghost use Rattle.archive_journal.specs.declared.journal.JournalFault.TheVariants.{Damaged, DiskFailed, NoMemory, NotArchive, Occupied};
ghost use Rattle.archive_journal.specs.Laws.{AreSmall};
ghost use Rattle.archive_journal.specs.Records.{Between, Stands};
ghost use Rattle.archive_journal.specs.Walks.{IsAt, IsNoArchive, IsWhole};

use crate::{Journal, JournalFault, Walk};
use cite_disk::Disk;
use cite_schema::ByteText;
use std::alloc::Global;

/// Steps until a gate that isn't open.
pub fn walk_all<D: Disk>(
    alloc: Global,
    disk: &mut D,
    walk: &mut Walk,
) -> Result<Vec<ByteText>, JournalFault>
    ensures at { IfOk result (λ v. D.honest → IsAt (D.seen disk.old) [] walk.old.at walk.old.gate → IsAt (D.seen disk.new) v.items walk.new.at walk.new.gate) }
    ensures small { IfOk result (λ v. AreSmall v.items) }
    ensures end { OnOk result (walk.new.gate ≢ 1) }
    ensures damaged { IfErr result (λ e. (at : ℕ) → e ≡ Damaged at → D.honest → IsAt (D.seen disk.old) [] walk.old.at walk.old.gate
        → ((ps : List (List ℕ)) × IsAt (D.seen disk.old) ps at 1) × ((p : List ℕ) → IsWhole (D.seen disk.old) at p → ⊥)) }
    ensures fault { IfErr result (λ e. (e ≢ Occupied) × (e ≢ NotArchive)) }
    ensures quiet { D.honest → Quiet D.seen D.images D.moment D.left_since disk.old disk.new }
    ensures later { D.fault_count disk.old ≤ D.fault_count disk.new }
    ensures cause { IsErrOf result DiskFailed → RoseBy (D.fault_count disk.old) 1 (D.fault_count disk.new) }
{
    let mut payloads = Vec::new(alloc);
    'records: loop {
        match walk.step(alloc, disk) {
            Err(fault) => return Err(fault),
            Ok(None) => return Ok(payloads),
            Ok(Some(payload)) => {
                let Ok(()) = payloads.push(payload) else {
                    return Err(JournalFault::NoMemory);
                };
            }
        }
    }
}

/// A journal that is settled before it is written again.
#[derive(Drop)]
pub struct Log {
    journal: Journal,
}

impl Log {
    ghost use Rattle.archive_journal.specs.Stands.{DiskStands};

    /// Reads all payloads. The file stands for them, and is mended where a commit was cut short.
    pub fn open<D: Disk>(alloc: Global, disk: &mut D) -> Result<(Log, Vec<ByteText>), JournalFault>
        ensures read { IfOk result (λ r. D.honest → Stands (D.seen disk.old) r.1.items) }
        ensures small { IfOk result (λ r. AreSmall r.1.items) }
        ensures stands { IfOk result (λ r. D.honest → (p : List ℕ) → DiskStands (D.images disk.new) r.0.journal r.1.items p) }
        ensures not_archive { IsErrOf result NotArchive → D.honest → IsNoArchive (D.seen disk.old) }
        ensures damaged { IfErr result (λ e. (at : ℕ) → e ≡ Damaged at → D.honest
            → ((ps : List (List ℕ)) × IsAt (D.seen disk.old) ps at 1) × ((p : List ℕ) → IsWhole (D.seen disk.old) at p → ⊥)) }
        ensures moments { D.honest → (ps : List (List ℕ)) (p : List ℕ) → AreSmall ps → length p ≤ 16777216 → ((b : List ℕ) → D.images disk.old b → Between ps p b)
            → LeavesOnly D.moment D.left_since disk.old disk.new (Between ps p) }
        ensures later { D.fault_count disk.old ≤ D.fault_count disk.new }
        ensures cause { IsErrOf result DiskFailed → RoseBy (D.fault_count disk.old) 1 (D.fault_count disk.new) }
    {
        let mut walk = match Walk::begin(disk) {
            Ok(walk) => walk,
            Err(fault) => return Err(fault),
        };
        let payloads = match walk_all(alloc, disk, &mut walk) {
            Ok(payloads) => payloads,
            Err(fault) => return Err(fault),
        };
        match walk.finish(alloc, disk) {
            Ok(journal) => Ok((Log { journal }, payloads)),
            Err(fault) => Err(fault),
        }
    }

    /// The length of the journal, up to its last gate.
    pub fn length(&self) -> u64
        ensures { result ≡ self.now.journal.end }
    {
        self.journal.length()
    }

    /// Settles, and adds a payload.
    pub fn add<D: Disk>(
        &mut self,
        alloc: Global,
        disk: &mut D,
        payload: &[u8],
    ) -> Result<(), JournalFault>
        requires small { length payload.now ≤ 16777216 }
        requires fits { self.old.journal.end + length payload.now + 37 < 2 ^ 64 }
        requires stands { D.honest → (ps : List (List ℕ)) × (p : List ℕ) × DiskStands (D.images disk.old) self.old.journal ps p }
        ensures added { OnOk result (D.honest → (ps : List (List ℕ)) (p : List ℕ) → DiskStands (D.images disk.old) self.old.journal ps p
            → DiskStands (D.images disk.new) self.new.journal (ps ++ payload.now ∷ []) p) }
        ensures failed { OnErr result (D.honest → (ps : List (List ℕ)) (p : List ℕ) → DiskStands (D.images disk.old) self.old.journal ps p
            → DiskStands (D.images disk.new) self.new.journal ps p ⊎ DiskStands (D.images disk.new) self.new.journal ps payload.now) }
        ensures moments { D.honest → (ps : List (List ℕ)) (p : List ℕ) → DiskStands (D.images disk.old) self.old.journal ps p
            → LeavesOnly D.moment D.left_since disk.old disk.new (λ b. Between ps p b ⊎ Between ps payload.now b) }
        ensures fault { OnErr result (IsErrOf result DiskFailed ⊎ IsErrOf result NoMemory) }
        ensures later { D.fault_count disk.old ≤ D.fault_count disk.new }
        ensures cause { IsErrOf result DiskFailed → RoseBy (D.fault_count disk.old) 1 (D.fault_count disk.new) }
    {
        match self.journal.settle(disk) {
            Ok(()) => self.journal.commit(alloc, disk, payload),
            Err(fault) => Err(fault),
        }
    }
}
