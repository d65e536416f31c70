// How an archive is opened again.
ghost use Rattle.std.specs.Prelude.{◌≡◌, ◌≢◌, ◌⊎◌, ◌≤◌, [], ℕ, List as Listed, Some as some, None, IfOk, IfErr, OnOk, OnErr, IsErrOf};
ghost use Rattle.std.specs.Arc.{arc_value};
ghost use Rattle.cite_disk.specs.Device.{LeavesOnly, Quiet, RoseBy};
ghost use Rattle.archive_journal.specs.Records.{Between, Shut};
ghost use Rattle.archive_journal.specs.Walks.{IsAt, IsNoArchive};
ghost use Rattle.archive_journal.specs.declared.journal.Stage.TheVariants.{Settled};
ghost use Rattle.entry_codec.specs.declared.entry.Entry.{Entry as Told};
ghost use Rattle.entry_codec.specs.Payloads.{payload as payload_of};
ghost use Rattle.archive_model.specs.Archives.{Archive};
ghost use Rattle.archive_model.specs.Histories.{LeadsTo};
ghost use Rattle.archive_core.specs.Keeping.{IsKept, MayFollow, payloads_of};
ghost use Rattle.archive_core.specs.Opening.{IsSpoilt, Opens, Resumes, Walked};
ghost use Rattle.archive_core.specs.declared.opening.ResumeFault.TheVariants.{NotArchive, Damaged, DiskFailed, NoMemory as no_memory};

use crate::desk::Desk;
use archive_journal::{JournalFault, Walk};
use archive_state::Follower;
use cite_disk::Disk;
use cite_schema::NoMemory;
use std::alloc::Global;
use std::sync::Arc;

/// Why a file can't be opened as an archive.
#[derive(Clone, Copy, Debug, PartialEq, Eq)]
pub enum ResumeFault {
    /// The file doesn't begin as the journal of an archive.
    NotArchive,
    /// The record whose gate stands at this place is open, and no whole one of an entry that can stand there.
    Damaged { at: u64 },
    /// The disk failed.
    DiskFailed,
    /// Memory was wanting.
    NoMemory,
}

impl From<NoMemory> for ResumeFault {
    ghost use Rattle.std.specs.Prelude.{◌≡◌};
    ghost use Rattle.archive_core.specs.declared.opening.ResumeFault.TheVariants as faults;

    ghost from_gives = { λ _ e. e ≡ faults.NoMemory };

    fn from(_fault: NoMemory) -> ResumeFault {
        ResumeFault::NoMemory
    }
}

impl Desk {
    /// Opens the archive that a disk keeps: it syncs, runs every entry anew, one after the other, and closes a gate that a
    /// crash has left torn. It costs one pass over the file, and for each entry what the entry cost when it was made; no
    /// payload is held longer than its entry is taken.
    ///
    /// # Errors
    /// `NotArchive` where the disk doesn't begin as a journal with one record or more; `Damaged` where an open record isn't
    /// whole, or isn't that of an entry that can stand behind those before it; `NoMemory`. After each of these the disk
    /// was only read. `DiskFailed`.
    pub fn resume<D: Disk>(alloc: Global, disk: &mut D) -> Result<Desk, ResumeFault>
        ensures opens { IfOk result (λ desk. D.honest → Opens (D.seen disk.old) (D.images disk.new) desk) }
        ensures kept { IfOk result (λ desk. D.honest → IsKept (D.images disk.new) desk) }
        ensures resumes { IfOk result (λ desk. Resumes D.honest (D.seen disk.old) (D.images disk.new) desk) }
        ensures ready { IfOk result (λ desk. (desk.ready ≡ some (arc_value desk.present.snapshot)) × (desk.made ≡ None) × (desk.journal.stage ≡ Settled)) }
        ensures not_archive { IsErrOf result NotArchive → D.honest → IsNoArchive (D.seen disk.old) }
        ensures damaged { IfErr result (λ e. (at : ℕ) → e ≡ Damaged at → D.honest → IsSpoilt (D.seen disk.old) at) }
        ensures quiet { IfErr result (λ e. e ≢ DiskFailed → D.honest → Quiet D.seen D.images D.moment D.left_since disk.old disk.new) }
        ensures moments { D.honest → (history : Listed Told) (a : Archive) (d : Told) → LeadsTo history a → MayFollow history d
            → ((b : Listed ℕ) → D.images disk.old b → Between (payloads_of history) (payload_of d) b)
            → LeavesOnly D.moment D.left_since disk.old disk.new (Between (payloads_of history) (payload_of d)) }
        ensures idle { D.honest → (history : Listed Told) (a : Archive) → LeadsTo history a → ((b : Listed ℕ) → D.images disk.old b → Shut (payloads_of history) b)
            → LeavesOnly D.moment D.left_since disk.old disk.new (Shut (payloads_of history)) }
        ensures later { D.fault_count disk.old ≤ D.fault_count disk.new }
        ensures cause { IsErrOf result DiskFailed → RoseBy (D.fault_count disk.old) 1 (D.fault_count disk.new) }
    {
        let mut walk = match Walk::begin(disk) {
            Ok(walk) => walk,
            Err(fault) => match fault {
                JournalFault::NotArchive => return Err(ResumeFault::NotArchive),
                _ => return Err(ResumeFault::DiskFailed),
            },
        };
        let follower = match follow(alloc, disk, &mut walk) {
            Ok(follower) => follower,
            Err(fault) => return Err(fault),
        };
        let Some(present) = follower.into_present() else {
            unreachable!()
        };
        let Ok(ready) = Arc::try_clone(present.snapshot()) else {
            return Err(ResumeFault::NoMemory);
        };
        match walk.finish(alloc, disk) {
            Ok(journal) => Ok(Desk {
                present,
                journal,
                ready: Some(ready),
                made: None,
            }),
            Err(_) => Err(ResumeFault::DiskFailed),
        }
    }
}

// Follows the records up to a gate that isn't open.
fn follow<D: Disk>(alloc: Global, disk: &mut D, walk: &mut Walk) -> Result<Follower, ResumeFault>
    requires start { walk.old.at ≡ 16 }
    requires open_gate { walk.old.gate ≡ 1 }
    requires first { D.honest → IsAt (D.seen disk.old) [] walk.old.at walk.old.gate }
    ensures walked { IfOk result (λ follower. Walked D.honest (D.seen disk.new) walk.new follower) }
    ensures end { OnOk result (walk.new.gate ≢ 1) }
    ensures damaged { IfErr result (λ e. (at : ℕ) → e ≡ Damaged at → D.honest → IsSpoilt (D.seen disk.old) at) }
    ensures fault { IsErrOf result NotArchive → ⊥ }
    ensures quiet { D.honest → Quiet D.seen D.images D.moment D.left_since disk.old disk.new }
    ensures later { D.fault_count disk.old ≤ D.fault_count disk.new }
    ensures cause { IsErrOf result DiskFailed → RoseBy (D.fault_count disk.old) 1 (D.fault_count disk.new) }
{
    let mut follower = Follower::make();
    'records: loop {
        let at = walk.place();
        match walk.step(alloc, disk) {
            Ok(None) => return Ok(follower),
            Ok(Some(payload)) => {
                if !follower.take(alloc, payload.as_slice())? {
                    return Err(ResumeFault::Damaged { at });
                }
            }
            Err(fault) => match fault {
                JournalFault::Damaged { at } => return Err(ResumeFault::Damaged { at }),
                JournalFault::NoMemory => return Err(ResumeFault::NoMemory),
                _ => return Err(ResumeFault::DiskFailed),
            },
        }
    }
}
