// An archive: a desk, and beside it the disk in memory that keeps its history.
use crate::{LinkEnd, converse};
use archive_core::Desk;
use archive_model::FoundFault;
use cite_disk::{MemoryDisk, NoMemory};
use cite_ports::{Clock, Sink, Source};
use cite_schema::{ByteText, Column, Dataset, Kind, List};
use std::alloc::Global;
use std::marker::Model;

/// The stamp of 2024-01-01T00:00:00Z, in seconds since 1970.
pub const NEW_YEAR: u64 = 1_704_067_200;

/// A desk with its disk, which keeps the desk's history. It is seen as the bytes of the disk.
#[derive(Drop)]
pub struct Archive {
    desk: Desk,
    disk: MemoryDisk,
}

impl Model for Archive {
    ghost use Rattle.std.specs.Prelude.{List as Listed, ℕ};
    ghost use Rattle.cite_disk.specs.Memory.{disk_bytes, DiskImage};
    ghost use Rattle.archive_core.specs.Keeping.{IsKept};

    ghost Value = { Listed ℕ };

    ghost view = { λ s. disk_bytes s.disk };

    ghost invariant = { λ s. IsKept (DiskImage s.disk) s.desk };
}

fn text(alloc: Global, bytes: &[u8]) -> Result<ByteText, NoMemory> {
    Ok(ByteText::from_slice(alloc, bytes)?)
}

fn dataset(alloc: Global) -> Result<Dataset, NoMemory> {
    Ok(Dataset {
        prefix: text(alloc, b"10.5072")?,
        publisher: text(alloc, b"Lab")?,
        creator: text(alloc, b"Rey, A.")?,
        title: text(alloc, b"Depths")?,
    })
}

fn columns(alloc: Global) -> Result<List<Column>, NoMemory> {
    let mut columns = List::new(alloc);
    columns.push(Column {
        name: text(alloc, b"sid")?,
        kind: Kind::Int,
    })?;
    columns.push(Column {
        name: text(alloc, b"depth")?,
        kind: Kind::Int,
    })?;
    Ok(columns)
}

impl Archive {
    /// An archive of stations and their depths, on a disk that fails these calls.
    pub fn found(alloc: Global, fails: Vec<u64>) -> Result<Archive, FoundFault> {
        let Ok(mut disk) = MemoryDisk::make(alloc, Vec::new(alloc), fails, u64::MAX) else {
            return Err(FoundFault::NoMemory);
        };
        let Ok(dataset) = dataset(alloc) else {
            return Err(FoundFault::NoMemory);
        };
        let Ok(columns) = columns(alloc) else {
            return Err(FoundFault::NoMemory);
        };
        match Desk::found(alloc, &mut disk, &dataset, columns, NEW_YEAR) {
            Ok(desk) => Ok(Archive { desk, disk }),
            Err(fault) => Err(fault),
        }
    }

    /// A conversation with the archive.
    pub fn converse<S: Source, K: Sink, C: Clock>(
        &mut self,
        alloc: Global,
        source: &mut S,
        sink: &mut K,
        clock: &mut C,
    ) -> LinkEnd {
        converse(alloc, &mut self.desk, source, sink, &mut self.disk, clock)
    }
}
