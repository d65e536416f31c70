// An archive: a desk, and beside it the disk in memory that keeps its history.
ghost use Rattle.std.specs.Arc.{arc_value};
ghost use Rattle.archive_model.specs.Histories.{MayBeAsked};
ghost use Rattle.archive_state.specs.Standing.{PartsStand};

use crate::{Desk, ResumeFault, Snapshot};
use archive_model::{Cited, FoundFault, Moved, Refused, Stored};
use cite_disk::{Disk, MemoryDisk, NoMemory};
use cite_schema::{BatchAsk, CiteAsk, Column, Dataset, List, Step};
use std::alloc::Global;
use std::marker::Model;
use std::sync::Arc;

/// A desk with its disk, which keeps the desk's history. It is seen as the bytes of the disk.
#[derive(Drop)]
pub struct Archive {
    desk: Desk,
    disk: MemoryDisk,
}

impl Model for Archive {
    ghost use Rattle.std.specs.Prelude.{List as Listed, ℕ};
    ghost use Rattle.cite_disk.specs.Memory.{disk_bytes, DiskImage};
    ghost use Rattle.archive_core.specs.Keeping.{IsKept};

    ghost Value = { Listed ℕ };

    ghost view = { λ s. disk_bytes s.disk };

    ghost invariant = { λ s. IsKept (DiskImage s.disk) s.desk };
}

/// A disk with these bytes, which fails no call.
pub fn disk_of(alloc: Global, bytes: Vec<u8>) -> Result<MemoryDisk, NoMemory> {
    MemoryDisk::make(alloc, bytes, Vec::new(alloc), u64::MAX)
}

impl Archive {
    /// Founds on an empty disk that fails no call.
    pub fn found(
        alloc: Global,
        dataset: &Dataset,
        columns: List<Column>,
        now: u64,
    ) -> Result<Archive, FoundFault> {
        let Ok(disk) = disk_of(alloc, Vec::new(alloc)) else {
            return Err(FoundFault::NoMemory);
        };
        match Archive::found_on(alloc, disk, dataset, columns, now) {
            Ok(archive) => Ok(archive),
            Err((_, fault)) => Err(fault),
        }
    }

    /// Founds on a disk, which comes back where that was refused.
    pub fn found_on(
        alloc: Global,
        mut disk: MemoryDisk,
        dataset: &Dataset,
        columns: List<Column>,
        now: u64,
    ) -> Result<Archive, (MemoryDisk, FoundFault)> {
        match Desk::found(alloc, &mut disk, dataset, columns, now) {
            Ok(desk) => Ok(Archive { desk, disk }),
            Err(fault) => Err((disk, fault)),
        }
    }

    /// Opens the archive that a disk keeps.
    pub fn open(alloc: Global, mut disk: MemoryDisk) -> Result<Archive, ResumeFault> {
        match Desk::resume(alloc, &mut disk) {
            Ok(desk) => Ok(Archive { desk, disk }),
            Err(fault) => Err(fault),
        }
    }

    /// Stores a batch, as the desk does.
    pub fn batch(&mut self, alloc: Global, ask: &BatchAsk, now: u64) -> Result<Stored, Refused>
        requires { MayBeAsked ask.now }
    {
        self.desk.batch(alloc, &mut self.disk, ask, now)
    }

    /// Cites, as the desk does.
    pub fn cite(&mut self, alloc: Global, ask: &CiteAsk, now: u64) -> Result<Cited, Refused> {
        self.desk.cite(alloc, &mut self.disk, ask, now)
    }

    /// Migrates, as the desk does.
    pub fn migrate(
        &mut self,
        alloc: Global,
        schema: u32,
        steps: &List<Step>,
        now: u64,
    ) -> Result<Moved, Refused> {
        self.desk.migrate(alloc, &mut self.disk, schema, steps, now)
    }

    /// What readers see now; its two parts stand for some legal history.
    pub fn snapshot(&self) -> &Arc<Snapshot>
        ensures { PartsStand (arc_value result.now).rows (arc_value result.now).store }
    {
        self.desk.snapshot()
    }

    /// The snapshot behind the last new entry, once.
    pub fn ready(&mut self) -> Option<Arc<Snapshot>> {
        self.desk.ready()
    }

    /// How many entries the history has.
    pub fn entries(&self) -> u64 {
        self.desk.entries()
    }

    /// How many bytes the disk has.
    pub fn size(&self) -> usize {
        self.disk.bytes().len()
    }

    /// How often the disk has failed.
    pub fn faults(&self) -> u64 {
        self.disk.faults()
    }

    /// The desk and its disk.
    pub fn into_parts(self) -> (Desk, MemoryDisk) {
        let Archive { desk, disk } = self;
        (desk, disk)
    }
}
