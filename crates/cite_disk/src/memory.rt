// A disk whose bytes lie in memory.
ghost use Rattle.std.specs.Prelude.{◌≡◌, ◌≤◌, ◌⊎◌, ◌+◌, ◌-◌, ◌++◌, ◌<◌, length, take, drop, replicate, true, false, ◌^◌, OnOk, OnErr, IfOk, IsErr, EachIndex, slice_index, slice_index_or, if◌then◌else◌};
ghost use Rattle.cite_disk.specs.Images.{IsImage};

use crate::disk::Disk;
use crate::epoch::Epoch;
use crate::plan::Plan;
use cite_ports::{Failed, NoMemory};
use std::alloc::{AllocError, Global};
use std::snapshot::Snapshot;

/// A disk in memory, which tells all of its content, fails where it is told to, and can be made to crash: it then
/// forgets what was written since the last sync.
///
/// A write copies the whole content, and so does a sync: it is made for tests and for archives that need not last.
#[derive(Drop)]
pub struct MemoryDisk {
    alloc: Global,
    bytes: Vec<u8>,
    epoch: Epoch,
    // what lay there at each sync before, for proofs alone
    past: Vec<Snapshot<Epoch>>,
    plan: Plan,
    ghost long: { length epoch.touched.items ≡ length bytes.items },
    ghost readable: { IsImage epoch.synced.items epoch.touched.items bytes.items },
}

/// What a crash leaves where bytes were written and not synced.
#[derive(Clone, Copy, Debug, PartialEq, Eq)]
pub enum Choice {
    /// What was there at the last sync, with its length.
    Old,
    /// What was written.
    New,
    /// This byte everywhere, with the present length.
    Fill(u8),
}

// The bytes with a piece written over them, or past their end.
fn written(alloc: Global, old: &[u8], at: usize, piece: &[u8]) -> Result<Vec<u8>, AllocError>
    requires { at ≤ length old.now }
    ensures { IfOk result (λ r. r.items ≡ take at old.now ++ piece.now ++ drop (at + length piece.now) old.now) }
{
    let mut next = old[..at].to_vec(alloc)?;
    next.extend_from_slice(piece)?;
    if piece.len() < old.len() - at {
        next.extend_from_slice(&old[at + piece.len()..])?;
    }
    Ok(next)
}

// The flags with as many set as a piece has bytes.
fn marked(alloc: Global, old: &[bool], at: usize, count: usize) -> Result<Vec<bool>, AllocError>
    requires place { at ≤ length old.now }
    requires fits { at + count < 2 ^ 64 }
    ensures { IfOk result (λ r. r.items ≡ take at old.now ++ replicate count true ++ drop (at + count) old.now) }
{
    let mut next = old[..at].to_vec(alloc)?;
    next.resize(at + count, true)?;
    if count < old.len() - at {
        next.extend_from_slice(&old[at + count..])?;
    }
    Ok(next)
}

// All of the bytes, synced.
fn synced(alloc: Global, bytes: &[u8]) -> Result<Epoch, AllocError>
    ensures synced { IfOk result (λ e. e.synced.items ≡ bytes.now) }
    ensures touched { IfOk result (λ e. e.touched.items ≡ replicate (length bytes.now) false) }
{
    Ok(Epoch {
        synced: bytes.to_vec(alloc)?,
        touched: vec![in alloc; false; bytes.len()]?,
    })
}

// One byte wherever a flag stands.
fn fill(bytes: &mut [u8], touched: &[bool], with: u8)
    requires { length touched.now ≡ length bytes.old }
    ensures { EachIndex bytes.new (λ i. slice_index bytes.new i ≡ (if slice_index_or touched.now i true then with else slice_index bytes.old i)) }
{
    for i in 0..bytes.len() {
        if touched[i] {
            bytes[i] = with;
        }
    }
}

impl MemoryDisk {
    ghost use Rattle.std.specs.Prelude.{◌≡◌, IfOk};
    ghost use Rattle.cite_disk.specs.Device.{Only};
    ghost use Rattle.cite_disk.specs.Memory.{disk_bytes, DiskImage, IsQuiet, chosen};

    /// A disk that reads as these bytes, all of them synced. It fails the calls of these numbers, counted
    /// from 1, and each call after number `stop_after`.
    pub fn make(
        alloc: Global,
        bytes: Vec<u8>,
        fails: Vec<u64>,
        stop_after: u64,
    ) -> Result<MemoryDisk, NoMemory>
        ensures bytes { IfOk result (λ d. disk_bytes d ≡ bytes.items) }
        ensures only { IfOk result (λ d. Only bytes.items (DiskImage d)) }
        ensures plan { IfOk result (λ d. (d.plan.fails ≡ fails) × (d.plan.stop_after ≡ stop_after) × (d.plan.calls ≡ 0) × (d.plan.faults ≡ 0)) }
    {
        let epoch = synced(alloc, &bytes)?;
        Ok(MemoryDisk {
            alloc,
            bytes,
            epoch,
            past: Vec::new(alloc),
            plan: Plan {
                fails,
                stop_after,
                calls: 0,
                faults: 0,
            },
        })
    }

    /// What a read gives.
    pub fn bytes(&self) -> &[u8]
        ensures { result.now ≡ disk_bytes self.now }
    {
        &self.bytes
    }

    // What a crash leaves.
    fn left(self, choice: Choice) -> Vec<u8>
        ensures chosen { result.items ≡ chosen choice self }
        ensures image { DiskImage self result.items }
    {
        let MemoryDisk {
            alloc: _,
            mut bytes,
            epoch,
            past: _,
            plan: _,
        } = self;
        let Epoch { synced, touched } = epoch;
        match choice {
            Choice::Old => synced,
            Choice::New => bytes,
            Choice::Fill(with) => {
                fill(&mut bytes, &touched, with);
                bytes
            }
        }
    }

    /// The disk after a crash, which leaves one of its images. The new one fails no call.
    pub fn crash(self, choice: Choice) -> Result<MemoryDisk, NoMemory>
        ensures chosen { IfOk result (λ d. disk_bytes d ≡ chosen choice self) }
        ensures image { IfOk result (λ d. DiskImage self (disk_bytes d)) }
        ensures only { IfOk result (λ d. Only (disk_bytes d) (DiskImage d)) }
        ensures quiet { IfOk result (λ d. IsQuiet d) }
    {
        let alloc = self.alloc;
        MemoryDisk::make(alloc, self.left(choice), Vec::new(alloc), u64::MAX)
    }
}

impl Disk for MemoryDisk {
    ghost use Rattle.std.specs.Prelude.{List, ℕ, min, ◌↔◌};
    ghost use Rattle.cite_disk.specs.Device.{Elapses, Follows, Holds, Only, RoseBy};
    ghost use Rattle.cite_disk.specs.Plan.{IsToFail, IsPlanned};
    ghost use Rattle.cite_disk.specs.Past.{LeftAt, LeftSince, only_now_left};
    ghost use Rattle.std.proofs.Common.{inl};

    ghost honest = { Unit {0} };

    ghost seen = { λ d. d.bytes.items };

    ghost images = { λ d b. LeftAt d.epoch b };

    ghost moment = { λ d. length d.past.items };

    ghost left_since = { λ d t b. LeftSince d.past.items d.epoch t b };

    ghost fault_count = { λ d. d.plan.faults };

    ghost reads = { λ told d. d.readable };

    ghost counts_now = { λ told d t b le now. inl now };

    ghost only_now = { λ told d b left. only_now_left d.past.items d.epoch b left };

    fn length(&mut self) -> Result<u64, Failed>
        ensures length { Unit {0} → IfOk result (λ n. n ≡ length self.old.bytes.items) }
        ensures seen { Unit {0} → self.new.bytes.items ≡ self.old.bytes.items }
        ensures images { Unit {0} → (b : List ℕ) → LeftAt self.new.epoch b → LeftAt self.old.epoch b }
        ensures time { Unit {0} → Elapses (length self.old.past.items) (length self.new.past.items) (LeftSince self.old.past.items self.old.epoch) (LeftSince self.new.past.items self.new.epoch) (LeftAt self.new.epoch) }
        ensures later { self.old.plan.faults ≤ self.new.plan.faults }
        ensures cause { OnErr result (RoseBy self.old.plan.faults 1 self.new.plan.faults) }

        ensures fails { IsErr result ↔ IsToFail self.old.plan }
        ensures plan { IsPlanned self.old.plan self.new.plan }
        ensures no_fault { OnOk result (self.new.plan.faults ≡ self.old.plan.faults) }
    {
        if self.plan.call() {
            return Err(Failed);
        }
        Ok(self.bytes.len() as u64)
    }

    fn read(&mut self, at: u64, into: &mut [u8]) -> Result<usize, Failed>
        ensures count { Unit {0} → IfOk result (λ n. n ≡ min (length into.old) (length (drop at self.old.bytes.items))) }
        ensures bytes { Unit {0} → IfOk result (λ n. into.new ≡ take n (drop at self.old.bytes.items) ++ drop n into.old) }
        ensures seen { Unit {0} → self.new.bytes.items ≡ self.old.bytes.items }
        ensures images { Unit {0} → (b : List ℕ) → LeftAt self.new.epoch b → LeftAt self.old.epoch b }
        ensures time { Unit {0} → Elapses (length self.old.past.items) (length self.new.past.items) (LeftSince self.old.past.items self.old.epoch) (LeftSince self.new.past.items self.new.epoch) (LeftAt self.new.epoch) }
        ensures later { self.old.plan.faults ≤ self.new.plan.faults }
        ensures cause { OnErr result (RoseBy self.old.plan.faults 1 self.new.plan.faults) }

        ensures fails { IsErr result ↔ IsToFail self.old.plan }
        ensures plan { IsPlanned self.old.plan self.new.plan }
        ensures no_fault { OnOk result (self.new.plan.faults ≡ self.old.plan.faults) }
    {
        if self.plan.call() {
            return Err(Failed);
        }
        let from = at.min(self.bytes.len() as u64) as usize;
        let count = into.len().min(self.bytes.len() - from);
        into[..count].copy_from_slice(&self.bytes[from..from + count]);
        Ok(count)
    }

    fn write_at(&mut self, at: u64, bytes: &[u8]) -> Result<(), Failed>
        requires place { Unit {0} → at ≤ length self.old.bytes.items }
        requires fits { at + length bytes.now < 2 ^ 64 }
        ensures written { OnOk result (Unit {0} → Holds self.old.bytes.items at bytes.now self.new.bytes.items) }
        ensures images { Unit {0} → Follows at (length bytes.now) (LeftAt self.old.epoch) (LeftAt self.new.epoch) }
        ensures time { Unit {0} → Elapses (length self.old.past.items) (length self.new.past.items) (LeftSince self.old.past.items self.old.epoch) (LeftSince self.new.past.items self.new.epoch) (LeftAt self.new.epoch) }
        ensures later { self.old.plan.faults ≤ self.new.plan.faults }
        ensures cause { OnErr result (RoseBy self.old.plan.faults 1 self.new.plan.faults) }

        ensures fails { IsToFail self.old.plan → IsErr result }
        ensures put { Holds self.old.bytes.items at bytes.now self.new.bytes.items ⊎ ((self.new.bytes ≡ self.old.bytes) × (self.new.epoch ≡ self.old.epoch)) }
        ensures plan { IsPlanned self.old.plan self.new.plan }
        ensures no_fault { OnOk result (self.new.plan.faults ≡ self.old.plan.faults) }
    {
        let fails = self.plan.call();
        let from = at as usize;
        let (Ok(next), Ok(touched)) = (
            written(self.alloc, &self.bytes, from, bytes),
            marked(self.alloc, &self.epoch.touched, from, bytes.len()),
        ) else {
            self.plan.fault();
            return Err(Failed);
        };
        self.bytes = next;
        self.epoch.touched = touched;
        if fails {
            return Err(Failed);
        }
        Ok(())
    }

    fn sync(&mut self) -> Result<(), Failed>
        ensures durable { OnOk result (Unit {0} → Only self.old.bytes.items (LeftAt self.new.epoch)) }
        ensures seen { Unit {0} → self.new.bytes.items ≡ self.old.bytes.items }
        ensures images { Unit {0} → (b : List ℕ) → LeftAt self.new.epoch b → LeftAt self.old.epoch b }
        ensures time { Unit {0} → Elapses (length self.old.past.items) (length self.new.past.items) (LeftSince self.old.past.items self.old.epoch) (LeftSince self.new.past.items self.new.epoch) (LeftAt self.new.epoch) }
        ensures later { self.old.plan.faults ≤ self.new.plan.faults }
        ensures cause { OnErr result (RoseBy self.old.plan.faults 1 self.new.plan.faults) }

        ensures fails { IsToFail self.old.plan → IsErr result }
        ensures kept { OnErr result (self.new.epoch ≡ self.old.epoch) }
        ensures plan { IsPlanned self.old.plan self.new.plan }
        ensures no_fault { OnOk result (self.new.plan.faults ≡ self.old.plan.faults) }
    {
        if self.plan.call() {
            return Err(Failed);
        }
        let Ok(epoch) = synced(self.alloc, &self.bytes) else {
            self.plan.fault();
            return Err(Failed);
        };
        let Ok(()) = self.past.push(Snapshot::of(&self.epoch)) else {
            self.plan.fault();
            return Err(Failed);
        };
        self.epoch = epoch;
        Ok(())
    }

    fn faults(&self) -> u64 {
        self.plan.faults
    }
}
