// How a desk writes what was planned.
ghost use Rattle.std.specs.Prelude.{◌≡◌, ◌⊎◌, ◌+◌, ◌<◌, ◌≤◌, ◌^◌, ◌++◌, ◌∷◌, [], ℕ, List as Listed, Err as err, length, IfOk, OnOk, OnErr, IsErrOf};
ghost use Rattle.cite_disk.specs.Device.{LeavesOnly, RoseBy};
ghost use Rattle.archive_journal.specs.Stands.{DiskStands};
ghost use Rattle.archive_journal.specs.declared.journal.Stage.TheVariants.{Settled};
ghost use Rattle.archive_model.specs.declared.answers.Refused.TheVariants as refusals;
ghost use Rattle.archive_core.specs.Keeping.{IsKept, MayLeave};
ghost use Rattle.archive_core.specs.Answering.{Adds, CanBeAdded, CanBeWritten};
ghost use Rattle.archive_core.specs.Writing.{LeavesDisk, MayLeaveBy, Writes};

use crate::desk::Desk;
use archive_journal::{Journal, JournalFault};
use archive_model::Refused;
use archive_state::{Made, Planned};
use cite_disk::Disk;
use std::alloc::Global;
use std::snapshot::Snapshot;
use std::sync::Arc;

impl Desk {
    // Writes what was planned, where it is a new entry, and answers.
    pub(crate) fn write<D: Disk, R: Drop>(
        &mut self,
        alloc: Global,
        disk: &mut D,
        planned: Result<Planned<R>, Refused>,
    ) -> Result<R, Refused>
        requires written { CanBeWritten self.old planned }
        requires kept { D.honest → IsKept (D.images disk.old) self.old }
        ensures written { Writes D.honest (disk.new ≡ disk.old) (D.images disk.old) (D.images disk.new) self.old self.new planned result }
        ensures moments { D.honest → (ps : Listed (Listed ℕ)) (p : Listed ℕ) → DiskStands (D.images disk.old) self.old.journal ps p
            → LeavesOnly D.moment D.left_since disk.old disk.new (MayLeaveBy planned self.old.journal ps p) }
        ensures later { D.fault_count disk.old ≤ D.fault_count disk.new }
        ensures cause { IsErrOf result refusals.DiskFailed → (planned ≡ err refusals.DiskFailed) ⊎ RoseBy (D.fault_count disk.old) 1 (D.fault_count disk.new) }
    {
        match planned {
            Err(refusal) => Err(refusal),
            Ok(Planned::Repeat(reply)) => Ok(reply),
            Ok(Planned::New(made)) => self.add(alloc, disk, made),
        }
    }

    // Adds an entry: it is on the disk before it is kept.
    fn add<D: Disk, R: Drop>(
        &mut self,
        alloc: Global,
        disk: &mut D,
        made: Made<R>,
    ) -> Result<R, Refused>
        requires added { CanBeAdded self.old made }
        requires kept { D.honest → IsKept (D.images disk.old) self.old }
        ensures answer { Adds made self.old self.new result }
        ensures disk { LeavesDisk D.honest (D.images disk.old) (D.images disk.new) self.old.journal self.new.journal made.payload result }
        ensures moments { D.honest → (ps : Listed (Listed ℕ)) (p : Listed ℕ) → DiskStands (D.images disk.old) self.old.journal ps p
            → LeavesOnly D.moment D.left_since disk.old disk.new (MayLeave self.old.journal ps p made.payload) }
        ensures later { D.fault_count disk.old ≤ D.fault_count disk.new }
        ensures cause { IsErrOf result refusals.DiskFailed → RoseBy (D.fault_count disk.old) 1 (D.fault_count disk.new) }
    {
        let Ok(ready) = Arc::try_clone(made.next.snapshot()) else {
            return Err(Refused::NoMemory);
        };
        let entry = Snapshot::of(&made.payload);
        match append(&mut self.journal, alloc, disk, made.payload.as_slice()) {
            Err(refusal) => Err(refusal),
            Ok(()) => {
                self.present = made.next;
                self.ready = Some(ready);
                self.made = Some(entry);
                Ok(made.reply)
            }
        }
    }
}

// Settles the journal, and commits a payload.
fn append<D: Disk>(
    journal: &mut Journal,
    alloc: Global,
    disk: &mut D,
    payload: &[u8],
) -> Result<(), Refused>
    requires small { length payload.now ≤ 16777216 }
    requires fits { journal.old.end + length payload.now + 37 < 2 ^ 64 }
    requires stands { D.honest → (ps : Listed (Listed ℕ)) × (p : Listed ℕ) × DiskStands (D.images disk.old) journal.old ps p }
    ensures done { OnOk result (journal.new.stage ≡ Settled) }
    ensures end { OnOk result (journal.new.end ≡ journal.old.end + length payload.now + 37) }
    ensures same_end { OnErr result (journal.new.end ≡ journal.old.end) }
    ensures disk { LeavesDisk D.honest (D.images disk.old) (D.images disk.new) journal.old journal.new payload.now result }
    ensures moments { D.honest → (ps : Listed (Listed ℕ)) (p : Listed ℕ) → DiskStands (D.images disk.old) journal.old ps p
        → LeavesOnly D.moment D.left_since disk.old disk.new (MayLeave journal.old ps p payload.now) }
    ensures fault { OnErr result (IsErrOf result refusals.DiskFailed ⊎ IsErrOf result refusals.NoMemory) }
    ensures later { D.fault_count disk.old ≤ D.fault_count disk.new }
    ensures cause { IsErrOf result refusals.DiskFailed → RoseBy (D.fault_count disk.old) 1 (D.fault_count disk.new) }
{
    let Ok(()) = journal.settle(disk) else {
        return Err(Refused::DiskFailed);
    };
    match journal.commit(alloc, disk, payload) {
        Ok(()) => Ok(()),
        Err(fault) => match fault {
            JournalFault::NoMemory => Err(Refused::NoMemory),
            _ => Err(Refused::DiskFailed),
        },
    }
}
