// The journal as it is written: made, added to, and settled after a failure.
ghost use Rattle.std.specs.Prelude.{◌≡◌, ◌≢◌, ◌⊎◌, ◌+◌, ◌<◌, ◌≤◌, ◌^◌, ◌↔◌, List, ℕ, [], ◌∷◌, ◌++◌, length, OnOk, OnErr, IfOk, IsErrOf, IsOk, IsTrue};
ghost use Rattle.cite_disk.specs.Device.{Only, Quiet, LeavesOnly, RoseBy};
ghost use Rattle.archive_journal.specs.declared.journal.JournalFault.TheVariants.{DiskFailed, NoMemory, Occupied};
ghost use Rattle.archive_journal.specs.declared.journal.Stage.TheVariants.{Settled, Staged, Opened};
ghost use Rattle.archive_journal.specs.Records.{header, record_of, Between};

use cite_disk::{Disk, just_sync, read_length, write_synced};
use sha2::{Digest, Sha256};
use std::alloc::{AllocError, Global};

/// Why a call of a journal or a walk was refused.
#[derive(Clone, Copy, Debug, PartialEq, Eq)]
pub enum JournalFault {
    /// A call of the disk failed.
    DiskFailed,
    /// An allocation was refused.
    NoMemory,
    /// The disk isn't empty.
    Occupied,
    /// The disk doesn't begin as a journal of one record or more.
    NotArchive,
    /// The record whose gate stands at this place is open and not whole.
    Damaged { at: u64 },
}

/// How far the last commit came.
#[derive(Clone, Copy, Debug, PartialEq, Eq)]
pub enum Stage {
    /// No payload is under way.
    Settled,
    /// A commit failed before the gate was touched.
    Staged,
    /// A commit failed when the gate was written, or was to be.
    Opened,
}

/// A journal on a disk: where it ends, how far the last commit came, and the record that is under way where it failed.
///
/// Whether a disk stands for a list of payloads is `DiskStands` of `specs/Stands`. The journal keeps no payload but the
/// one under way, so each call's promise is said for every list of payloads that the disk stands for.
#[derive(Drop)]
pub struct Journal {
    pub(crate) end: u64,
    pub(crate) stage: Stage,
    pub(crate) pending: Vec<u8>,
    ghost begun: { 0 < end },
}

// The header, and a closed gate.
const CLOSED: [u8; 17] = [82, 68, 65, 67, 73, 84, 69, 10, 0, 0, 0, 1, 0, 0, 0, 0, 0];

// A record behind its gate, and the next gate, which is closed.
fn record_bytes(alloc: Global, payload: &[u8]) -> Result<Vec<u8>, AllocError>
    requires { length payload.now ≤ 16777216 }
    ensures bytes { IfOk result (λ r. r.items ≡ record_of payload.now) }
    ensures length { IfOk result (λ r. length r.items ≡ length payload.now + 37) }
{
    let length = payload.len() as u32;
    let mut record = Vec::new(alloc);
    record.extend_from_slice(&length.to_be_bytes())?;
    record.extend_from_slice(payload)?;
    record.extend_from_slice(&Sha256::digest(payload))?;
    record.push(0)?;
    Ok(record)
}

// A file of one record, with its gate closed.
fn first_file(alloc: Global, payload: &[u8]) -> Result<Vec<u8>, AllocError>
    requires { length payload.now ≤ 16777216 }
    ensures bytes { IfOk result (λ f. f.items ≡ header ++ (0 ∷ record_of payload.now)) }
    ensures length { IfOk result (λ f. length f.items ≡ length payload.now + 54) }
{
    let record = record_bytes(alloc, payload)?;
    let mut file = Vec::new(alloc);
    file.extend_from_slice(&CLOSED)?;
    file.extend_from_slice(&record)?;
    Ok(file)
}

impl Journal {
    ghost use Rattle.archive_journal.specs.Stands.{DiskStands};

    /// Makes a journal of one record on an empty disk, in five disk calls: the length, the file with its gate closed, a
    /// sync, the gate opened, a sync. It takes memory for two copies of the payload, and time in its length.
    ///
    /// # Errors
    /// `Occupied` exactly where the disk isn't empty, `NoMemory` before anything is written, and `DiskFailed` where the
    /// disk failed: then the disk may hold any part of the file.
    pub fn create<D: Disk>(
        alloc: Global,
        disk: &mut D,
        payload: &[u8],
    ) -> Result<Journal, JournalFault>
        requires small { length payload.now ≤ 16777216 }
        ensures done { IfOk result (λ j. (j.stage ≡ Settled) × (j.end ≡ length payload.now + 54)) }
        ensures stands { IfOk result (λ j. D.honest → (p : List ℕ) → DiskStands (D.images disk.new) j (payload.now ∷ []) p) }
        ensures occupied { IsErrOf result Occupied → D.honest → 0 < length (D.seen disk.old) }
        ensures empty { OnOk result (D.honest → length (D.seen disk.old) ≡ 0) }
        ensures untouched { IsErrOf result Occupied → D.honest → Quiet D.seen D.images D.moment D.left_since disk.old disk.new }
        ensures memory { IsErrOf result NoMemory → D.honest → Quiet D.seen D.images D.moment D.left_since disk.old disk.new }
        ensures fault { OnErr result (IsErrOf result DiskFailed ⊎ IsErrOf result Occupied ⊎ IsErrOf result NoMemory) }
        ensures later { D.fault_count disk.old ≤ D.fault_count disk.new }
        ensures cause { IsErrOf result DiskFailed → RoseBy (D.fault_count disk.old) 1 (D.fault_count disk.new) }
    {
        let Ok(there) = read_length(disk) else {
            return Err(JournalFault::DiskFailed);
        };
        if there > 0 {
            return Err(JournalFault::Occupied);
        }
        let Ok(file) = first_file(alloc, payload) else {
            return Err(JournalFault::NoMemory);
        };
        let Ok(()) = write_synced(disk, 0, &file) else {
            return Err(JournalFault::DiskFailed);
        };
        let Ok(()) = write_synced(disk, 16, &[1]) else {
            return Err(JournalFault::DiskFailed);
        };
        Ok(Journal {
            end: file.len() as u64,
            stage: Stage::Settled,
            pending: Vec::new(alloc),
        })
    }

    /// Settles the journal: afterwards the payload under way doesn't stand, whatever a crash leaves. It does nothing on a
    /// settled journal. Where the gate was touched it is closed and synced; where it was not, a sync is enough, and a
    /// gate that is written over a body that was never synced could be left open by a crash. It takes no memory.
    ///
    /// # Errors
    /// `DiskFailed` where the disk failed: the journal stays as unsettled as it was.
    pub fn settle<D: Disk>(&mut self, disk: &mut D) -> Result<(), JournalFault>
        requires place { D.honest → self.old.end ≤ length (D.seen disk.old) }
        ensures settled { OnOk result (self.new.stage ≡ Settled) }
        ensures end { self.new.end ≡ self.old.end }
        ensures kept { OnErr result ((self.new.pending ≡ self.old.pending) × (self.new.stage ≡ self.old.stage)) }
        ensures idle { self.old.stage ≡ Settled → IsOk result × (self.new ≡ self.old) × (disk.new ≡ disk.old) }
        ensures durable { OnOk result (self.old.stage ≢ Settled → D.honest → Only (D.seen disk.new) (D.images disk.new)) }
        ensures stands { D.honest → (ps : List (List ℕ)) (p : List ℕ) → DiskStands (D.images disk.old) self.old ps p
            → DiskStands (D.images disk.new) self.new ps p }
        ensures moments { D.honest → (ps : List (List ℕ)) (p : List ℕ) → DiskStands (D.images disk.old) self.old ps p
            → LeavesOnly D.moment D.left_since disk.old disk.new (Between ps p) }
        ensures fault { OnErr result (IsErrOf result DiskFailed) }
        ensures later { D.fault_count disk.old ≤ D.fault_count disk.new }
        ensures cause { OnErr result (RoseBy (D.fault_count disk.old) 1 (D.fault_count disk.new)) }
    {
        match self.stage {
            Stage::Settled => Ok(()),
            Stage::Staged => {
                let Ok(()) = just_sync(disk) else {
                    return Err(JournalFault::DiskFailed);
                };
                self.stage = Stage::Settled;
                Ok(())
            }
            Stage::Opened => {
                let Ok(()) = write_synced(disk, self.end - 1, &[0]) else {
                    return Err(JournalFault::DiskFailed);
                };
                self.stage = Stage::Settled;
                Ok(())
            }
        }
    }

    /// Adds a payload, in four disk calls: the record behind the closed gate is written and synced, then the gate is
    /// opened and synced. Its memory, one copy of the payload, is taken before the first of them. At each moment a crash
    /// leaves a file of the payloads before, or of these and the new one; after `Ok` only the latter.
    ///
    /// # Errors
    /// `NoMemory` before the first disk call, with nothing changed; `DiskFailed` where the disk failed: the journal is
    /// unsettled then, and the payload is under way until it is settled.
    pub fn commit<D: Disk>(
        &mut self,
        alloc: Global,
        disk: &mut D,
        payload: &[u8],
    ) -> Result<(), JournalFault>
        requires settled { self.old.stage ≡ Settled }
        requires small { length payload.now ≤ 16777216 }
        requires fits { self.old.end + length payload.now + 37 < 2 ^ 64 }
        requires place { D.honest → self.old.end ≤ length (D.seen disk.old) }
        ensures done { OnOk result ((self.new.stage ≡ Settled) × (self.new.end ≡ self.old.end + length payload.now + 37)) }
        ensures stands { OnOk result (D.honest → (ps : List (List ℕ)) (p : List ℕ) → DiskStands (D.images disk.old) self.old ps p
            → DiskStands (D.images disk.new) self.new (ps ++ payload.now ∷ []) p) }
        ensures failed { OnErr result (D.honest → (ps : List (List ℕ)) (p : List ℕ) → DiskStands (D.images disk.old) self.old ps p
            → DiskStands (D.images disk.new) self.new ps payload.now) }
        ensures moments { D.honest → (ps : List (List ℕ)) (p : List ℕ) → DiskStands (D.images disk.old) self.old ps p
            → LeavesOnly D.moment D.left_since disk.old disk.new (Between ps payload.now) }
        ensures memory { IsErrOf result NoMemory → (self.new ≡ self.old) × (disk.new ≡ disk.old) }
        ensures fault { OnErr result (IsErrOf result DiskFailed ⊎ IsErrOf result NoMemory) }
        ensures end { self.old.end ≤ self.new.end }
        ensures unsettled { IsErrOf result DiskFailed → (self.new.stage ≢ Settled) × (self.new.end ≡ self.old.end) }
        ensures later { D.fault_count disk.old ≤ D.fault_count disk.new }
        ensures cause { IsErrOf result DiskFailed → RoseBy (D.fault_count disk.old) 1 (D.fault_count disk.new) }
    {
        let Ok(record) = record_bytes(alloc, payload) else {
            return Err(JournalFault::NoMemory);
        };
        let count = record.len() as u64;
        self.pending = record;
        let Ok(()) = write_synced(disk, self.end, &self.pending) else {
            self.stage = Stage::Staged;
            return Err(JournalFault::DiskFailed);
        };
        let Ok(()) = write_synced(disk, self.end - 1, &[1]) else {
            self.stage = Stage::Opened;
            return Err(JournalFault::DiskFailed);
        };
        self.end += count;
        Ok(())
    }

    /// How many bytes the journal takes, up to and including its last gate.
    pub fn length(&self) -> u64
        ensures { result ≡ self.now.end }
    {
        self.end
    }

    /// Whether no payload is under way.
    pub fn settled(&self) -> bool
        ensures { IsTrue result ↔ (self.now.stage ≡ Settled) }
    {
        self.stage == Stage::Settled
    }
}
