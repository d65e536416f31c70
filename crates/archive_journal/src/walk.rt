// How a journal is read, record by record.
ghost use Rattle.std.specs.Prelude.{IsTrue, ◌↔◌, ◌≡◌, ◌≢◌, ◌⊎◌, ◌+◌, ◌<◌, ◌≤◌, ◌^◌, ℕ, List, [], ◌∷◌, ◌++◌, length, take, drop, OnOk, OnErr, IfOk, IfErr, IfSome, IfNone, IsErrOf, IsOk};
ghost use Rattle.std.specs.Int.{to_be_bytes, w32};
ghost use Rattle.sha2.specs.Sha256.{sha256};
ghost use Rattle.cite_disk.specs.Device.{Only, Quiet, LeavesOnly, RoseBy};
ghost use Rattle.archive_journal.specs.declared.journal.JournalFault.TheVariants.{DiskFailed, NoMemory, Occupied, NotArchive, Damaged};
ghost use Rattle.archive_journal.specs.Records.{Gated, Stands};
ghost use Rattle.archive_journal.specs.declared.journal.Stage.TheVariants.{Settled};
ghost use Rattle.archive_journal.specs.Stands.{DiskStands};
ghost use Rattle.archive_journal.specs.Walks.{IsAt, IsRecord, IsWhole, IsNoArchive};

use crate::journal::{Journal, JournalFault, Stage};
use cite_disk::{Disk, just_sync, read_at, read_length, write_synced};
use cite_schema::ByteText;
use sha2::{Digest, Sha256};
use std::alloc::Global;

/// A reader of a journal, record by record: it stands at a gate, behind the records that it gave.
///
/// `IsAt` of `specs/Walks` says which payloads stand in front of it on the disk.
#[derive(Debug, Drop)]
pub struct Walk {
    at: u64,
    gate: u8,
    ghost fits: { at + 1 < 2 ^ 64 },
}

// The number that four bytes spell, the highest first.
fn number(field: &[u8; 4]) -> u32
    ensures { to_be_bytes w32 result ≡ field.now }
{
    u32::from_be_bytes(*field)
}

// Whether the digest is the payload's.
fn is_digest(payload: &[u8], digest: &[u8]) -> bool
    ensures { IsTrue result ↔ (sha256 payload.now ≡ digest.now) }
{
    let found = Sha256::digest(payload);
    found[..] == digest[..]
}

// So many bytes from a place on, where they are there.
fn read_piece<D: Disk>(
    alloc: Global,
    disk: &mut D,
    at: u64,
    count: usize,
) -> Result<Vec<u8>, JournalFault>
    requires there { D.honest → at + count ≤ length (D.seen disk.old) }
    ensures bytes { IfOk result (λ v. D.honest → v.items ≡ take count (drop at (D.seen disk.old))) }
    ensures count { IfOk result (λ v. length v.items ≡ count) }
    ensures fault { OnErr result (IsErrOf result DiskFailed ⊎ IsErrOf result NoMemory) }
    ensures quiet { D.honest → Quiet D.seen D.images D.moment D.left_since disk.old disk.new }
    ensures later { D.fault_count disk.old ≤ D.fault_count disk.new }
    ensures cause { IsErrOf result DiskFailed → RoseBy (D.fault_count disk.old) 1 (D.fault_count disk.new) }
    ensures memory { IsErrOf result NoMemory → disk.new ≡ disk.old }
{
    let Ok(mut bytes) = vec![in alloc; 0u8; count] else {
        return Err(JournalFault::NoMemory);
    };
    let Ok(_) = read_at(disk, at, &mut bytes) else {
        return Err(JournalFault::DiskFailed);
    };
    Ok(bytes)
}

// The length of the payload behind a gate, where the limit and the bytes that are there allow it.
fn payload_length<D: Disk>(disk: &mut D, at: u64) -> Result<Option<usize>, JournalFault>
    ensures small { IfOk result (λ o. IfSome o (λ n. n ≤ 16777216)) }
    ensures fits { IfOk result (λ o. IfSome o (λ n. at + n + 38 < 2 ^ 64)) }
    ensures there { IfOk result (λ o. IfSome o (λ n. D.honest → at + n + 38 ≤ length (D.seen disk.old))) }
    ensures field { IfOk result (λ o. IfSome o (λ n. D.honest → take 4 (drop (at + 1) (D.seen disk.old)) ≡ to_be_bytes w32 n)) }
    ensures none { IfOk result (λ o. IfNone o (D.honest → (p : List ℕ) → IsWhole (D.seen disk.old) at p → ⊥)) }
    ensures fault { OnErr result (IsErrOf result DiskFailed) }
    ensures quiet { D.honest → Quiet D.seen D.images D.moment D.left_since disk.old disk.new }
    ensures later { D.fault_count disk.old ≤ D.fault_count disk.new }
    ensures cause { OnErr result (RoseBy (D.fault_count disk.old) 1 (D.fault_count disk.new)) }
{
    let Ok(there) = read_length(disk) else {
        return Err(JournalFault::DiskFailed);
    };
    if there < 38 || at > there - 38 {
        return Ok(None);
    }
    let mut field = [0; 4];
    let Ok(_) = read_at(disk, at + 1, &mut field) else {
        return Err(JournalFault::DiskFailed);
    };
    let length = number(&field);
    if length > 16_777_216 || length as u64 > there - 38 - at {
        return Ok(None);
    }
    Ok(Some(length as usize))
}

// The payload behind a gate and the next gate, where the digest is the payload's.
fn whole_record<D: Disk>(
    alloc: Global,
    disk: &mut D,
    at: u64,
    size: usize,
) -> Result<Option<(Vec<u8>, u8)>, JournalFault>
    requires small { size ≤ 16777216 }
    requires fits { at + size + 38 < 2 ^ 64 }
    requires there { D.honest → at + size + 38 ≤ length (D.seen disk.old) }
    requires field { D.honest → take 4 (drop (at + 1) (D.seen disk.old)) ≡ to_be_bytes w32 size }
    ensures size { IfOk result (λ o. IfSome o (λ r. length r.0.items ≡ size)) }
    ensures whole { IfOk result (λ o. IfSome o (λ r. D.honest → IsRecord (D.seen disk.old) at r.0.items r.1)) }
    ensures none { IfOk result (λ o. IfNone o (D.honest → (p : List ℕ) → IsWhole (D.seen disk.old) at p → ⊥)) }
    ensures fault { OnErr result (IsErrOf result DiskFailed ⊎ IsErrOf result NoMemory) }
    ensures quiet { D.honest → Quiet D.seen D.images D.moment D.left_since disk.old disk.new }
    ensures later { D.fault_count disk.old ≤ D.fault_count disk.new }
    ensures cause { IsErrOf result DiskFailed → RoseBy (D.fault_count disk.old) 1 (D.fault_count disk.new) }
    ensures memory { IsErrOf result NoMemory → disk.new ≡ disk.old }
{
    let mut bytes = match read_piece(alloc, disk, at + 5, size + 33) {
        Ok(bytes) => bytes,
        Err(fault) => return Err(fault),
    };
    if !is_digest(&bytes[..size], &bytes[size..size + 32]) {
        return Ok(None);
    }
    let next = bytes[size + 32];
    bytes.truncate(size);
    Ok(Some((bytes, next)))
}

// The header, and an open gate.
const FIRST: [u8; 17] = [82, 68, 65, 67, 73, 84, 69, 10, 0, 0, 0, 1, 0, 0, 0, 0, 1];

impl Walk {
    /// Syncs, so that what is read will last, and stands at the gate of the first record. It takes no memory.
    ///
    /// # Errors
    /// `NotArchive` exactly where the disk doesn't begin with the header and an open gate; `DiskFailed` where the disk
    /// failed.
    pub fn begin<D: Disk>(disk: &mut D) -> Result<Walk, JournalFault>
        ensures open_gate { IfOk result (λ w. (w.at ≡ 16) × (w.gate ≡ 1)) }
        ensures ok { IfOk result (λ w. D.honest → IsAt (D.seen disk.new) [] w.at w.gate) }
        ensures durable { OnOk result (D.honest → Only (D.seen disk.new) (D.images disk.new)) }
        ensures not_archive { IsErrOf result NotArchive → D.honest → IsNoArchive (D.seen disk.old) }
        ensures fault { OnErr result (IsErrOf result DiskFailed ⊎ IsErrOf result NotArchive) }
        ensures quiet { D.honest → Quiet D.seen D.images D.moment D.left_since disk.old disk.new }
        ensures later { D.fault_count disk.old ≤ D.fault_count disk.new }
        ensures cause { IsErrOf result DiskFailed → RoseBy (D.fault_count disk.old) 1 (D.fault_count disk.new) }
    {
        let Ok(()) = just_sync(disk) else {
            return Err(JournalFault::DiskFailed);
        };
        let mut head = [0; 17];
        let Ok(_) = read_at(disk, 0, &mut head) else {
            return Err(JournalFault::DiskFailed);
        };
        if head != FIRST {
            return Err(JournalFault::NotArchive);
        }
        Ok(Walk { at: 16, gate: 1 })
    }

    /// The place of the next gate, from the journal's beginning on. It takes no memory.
    pub fn place(&self) -> u64
        ensures { result ≡ self.now.at }
    {
        self.at
    }

    /// The payload of the next open record, or `None` exactly at a gate that isn't open. It reads the record once, and
    /// its length field is held against the limit and the bytes that are there before memory is taken: memory for one
    /// record, and time in its length.
    ///
    /// # Errors
    /// `Damaged` exactly where the gate is open and no whole record stands behind it: it is cut short, longer than
    /// 16,777,216 bytes, has another digest than its payload's, or is followed by no byte. `DiskFailed` where the disk
    /// failed, and `NoMemory`. The walk stands where it stood.
    pub fn step<D: Disk>(
        &mut self,
        alloc: Global,
        disk: &mut D,
    ) -> Result<Option<ByteText>, JournalFault>
        ensures open_gate { IfOk result (λ o. IfSome o (λ p. self.old.gate ≡ 1)) }
        ensures small { IfOk result (λ o. IfSome o (λ p. length p ≤ 16777216)) }
        ensures next { IfOk result (λ o. IfSome o (λ p. D.honest → (ps : List (List ℕ)) → IsAt (D.seen disk.old) ps self.old.at self.old.gate
            → IsAt (D.seen disk.new) (ps ++ p ∷ []) self.new.at self.new.gate)) }
        ensures further { IfOk result (λ o. IfSome o (λ p. self.new.at ≡ self.old.at + length p + 37)) }
        ensures end { IfOk result (λ o. IfNone o (self.old.gate ≢ 1)) }
        ensures stands { IfOk result (λ o. IfNone o (D.honest → (ps : List (List ℕ)) → IsAt (D.seen disk.old) ps self.old.at self.old.gate → Stands (D.seen disk.new) ps)) }
        ensures damaged { IfErr result (λ e. (at : ℕ) → e ≡ Damaged at → (at ≡ self.old.at) × (self.old.gate ≡ 1) × (D.honest → (p : List ℕ) → IsWhole (D.seen disk.old) at p → ⊥)) }
        ensures fault { IfErr result (λ e. (e ≢ Occupied) × (e ≢ NotArchive)) }
        ensures kept { OnErr result (self.new ≡ self.old) }
        ensures kept_at_end { IfOk result (λ o. IfNone o ((self.new ≡ self.old) × (disk.new ≡ disk.old))) }
        ensures quiet { D.honest → Quiet D.seen D.images D.moment D.left_since disk.old disk.new }
        ensures later { D.fault_count disk.old ≤ D.fault_count disk.new }
        ensures cause { IsErrOf result DiskFailed → RoseBy (D.fault_count disk.old) 1 (D.fault_count disk.new) }
    {
        if self.gate != 1 {
            return Ok(None);
        }
        let size = match payload_length(disk, self.at) {
            Err(fault) => return Err(fault),
            Ok(None) => return Err(JournalFault::Damaged { at: self.at }),
            Ok(Some(size)) => size,
        };
        match whole_record(alloc, disk, self.at, size) {
            Err(fault) => Err(fault),
            Ok(None) => Err(JournalFault::Damaged { at: self.at }),
            Ok(Some((payload, next))) => {
                self.at += size as u64 + 37;
                self.gate = next;
                Ok(Some(ByteText::from_vec(payload)))
            }
        }
    }

    /// The journal, at a gate that isn't open. Where the gate isn't 0 it is written 0 and synced. It takes no memory.
    ///
    /// # Errors
    /// `DiskFailed` where the disk failed; the walk is gone, and the disk is to be opened again.
    pub fn finish<D: Disk>(self, alloc: Global, disk: &mut D) -> Result<Journal, JournalFault>
        requires shut { self.gate ≢ 1 }
        requires place { D.honest → self.at + 1 ≤ length (D.seen disk.old) }
        ensures settled { IfOk result (λ j. (j.stage ≡ Settled) × (j.end ≡ self.at + 1)) }
        ensures stands { IfOk result (λ j. D.honest → (ps : List (List ℕ)) (p : List ℕ) → Only (D.seen disk.old) (D.images disk.old) → IsAt (D.seen disk.old) ps self.at self.gate
            → DiskStands (D.images disk.new) j ps p) }
        ensures untouched { self.gate ≡ 0 → IsOk result × (disk.new ≡ disk.old) }
        ensures moments { D.honest → (ps : List (List ℕ)) (p : List ℕ) → Only (D.seen disk.old) (D.images disk.old) → IsAt (D.seen disk.old) ps self.at self.gate → Gated ps p (D.seen disk.old)
            → LeavesOnly D.moment D.left_since disk.old disk.new (Gated ps p) }
        ensures fault { OnErr result (IsErrOf result DiskFailed) }
        ensures later { D.fault_count disk.old ≤ D.fault_count disk.new }
        ensures cause { OnErr result (RoseBy (D.fault_count disk.old) 1 (D.fault_count disk.new)) }
    {
        let end = self.at + 1;
        if self.gate == 0 {
            return Ok(Journal {
                end,
                stage: Stage::Settled,
                pending: Vec::new(alloc),
            });
        }
        let Ok(()) = write_synced(disk, self.at, &[0]) else {
            return Err(JournalFault::DiskFailed);
        };
        Ok(Journal {
            end,
            stage: Stage::Settled,
            pending: Vec::new(alloc),
        })
    }
}
