// An archive that is served: a desk, its disk in memory, and a clock.
ghost use Rattle.cite_answer.specs.Messages.{IsAskable};

use crate::answer;
use archive_core::Desk;
use batches::curator_ok;
use cite_disk::MemoryDisk;
use cite_http::{Ask, Message, Reply};
use cite_ports::MemoryClock;
use cite_schema::{BatchAsk, ByteText, Column, Dataset, Kind, List, NoMemory};
use std::alloc::Global;
use std::marker::Model;
use std::test::Fail;

/// A desk with the disk that keeps its history, and a clock. It is seen as the bytes of the disk.
#[derive(Drop)]
pub struct Served {
    desk: Desk,
    disk: MemoryDisk,
    clock: MemoryClock,
}

impl Model for Served {
    ghost use Rattle.std.specs.Prelude.{List as Listed, ℕ};
    ghost use Rattle.cite_disk.specs.Memory.{disk_bytes, DiskImage};
    ghost use Rattle.archive_core.specs.Keeping.{IsKept};

    ghost Value = { Listed ℕ };

    ghost view = { λ s. disk_bytes s.disk };

    ghost invariant = { λ s. IsKept (DiskImage s.disk) s.desk };
}

/// 2024-01-01T00:00:00Z.
pub const NEW_YEAR: u64 = 1_704_067_200;

/// A text of these bytes.
pub fn text(alloc: Global, bytes: &[u8]) -> Result<ByteText, NoMemory> {
    Ok(ByteText::from_slice(alloc, bytes)?)
}

fn dataset(alloc: Global) -> Result<Dataset, NoMemory> {
    Ok(Dataset {
        prefix: text(alloc, b"10.5072")?,
        publisher: text(alloc, b"Lab")?,
        creator: text(alloc, b"Rey, A.")?,
        title: text(alloc, b"Depths")?,
    })
}

fn number_column(alloc: Global, name: &[u8]) -> Result<Column, NoMemory> {
    Ok(Column {
        name: text(alloc, name)?,
        kind: Kind::Int,
    })
}

fn columns(alloc: Global) -> Result<List<Column>, NoMemory> {
    let mut columns = List::new(alloc);
    columns.push(number_column(alloc, b"sid")?)?;
    columns.push(number_column(alloc, b"depth")?)?;
    Ok(columns)
}

/// An archive with the columns `sid` and `depth`, founded at the start of 2024 on a disk that fails these calls. The clock
/// tells that moment too, and then one second more each time it is asked.
pub fn founded(alloc: Global, fails: &[u64]) -> Result<Served, Fail> {
    let fails = Vec::from_slice(alloc, fails)?;
    let mut disk = MemoryDisk::make(alloc, Vec::new(alloc), fails, u64::MAX)?;
    let moments = Vec::from_slice(alloc, &[NEW_YEAR, NEW_YEAR + 1, NEW_YEAR + 2, NEW_YEAR + 3])?;
    let clock = MemoryClock::make(moments)?;
    match Desk::found(
        alloc,
        &mut disk,
        &dataset(alloc)?,
        columns(alloc)?,
        NEW_YEAR,
    ) {
        Ok(desk) => Ok(Served { desk, disk, clock }),
        Err(_) => Err(Fail::new("no archive was founded")),
    }
}

// The reply as its code, a space and its body.
fn told(alloc: Global, reply: &Reply) -> Result<Vec<u8>, NoMemory> {
    let mut text = format!(in alloc; "{} ", reply.code)?.into_bytes();
    text.extend_from_slice(reply.body.as_slice())?;
    Ok(text)
}

impl Served {
    /// What is answered where this is asked for: the code, a space and the body.
    pub fn ask(&mut self, alloc: Global, ask: Ask) -> Result<Vec<u8>, NoMemory>
        requires { IsAskable ask }
    {
        let message = Message {
            ask,
            closing: false,
        };
        let reply = answer(
            alloc,
            &mut self.desk,
            &mut self.disk,
            &message,
            &mut self.clock,
        )?;
        told(alloc, &reply)
    }
}

/// What is answered to a batch of the curator `ann`; one that may not be asked for counts as want of memory.
pub fn batch(
    served: &mut Served,
    alloc: Global,
    schema: u32,
    number: u32,
    body: &[u8],
) -> Result<Vec<u8>, NoMemory> {
    let ask = BatchAsk {
        schema,
        curator: text(alloc, b"ann")?,
        number,
        body: text(alloc, body)?,
    };
    if curator_ok(ask.curator.as_slice()) && ask.number >= 1 && ask.body.len() <= 8_388_608 {
        served.ask(alloc, Ask::Batch(ask))
    } else {
        Err(NoMemory)
    }
}

/// What is answered to a citation request with this body.
pub fn cite(served: &mut Served, alloc: Global, body: &[u8]) -> Result<Vec<u8>, NoMemory> {
    served.ask(alloc, Ask::Cite(text(alloc, body)?))
}

/// What is answered to a migration of schema 1 with this body.
pub fn migrate(served: &mut Served, alloc: Global, body: &[u8]) -> Result<Vec<u8>, NoMemory> {
    let body = text(alloc, body)?;
    served.ask(alloc, Ask::Migrate { schema: 1, body })
}

/// What is answered where the page of a name is asked for.
pub fn page(served: &mut Served, alloc: Global, name: &[u8]) -> Result<Vec<u8>, NoMemory> {
    served.ask(alloc, Ask::Page(text(alloc, name)?))
}

/// What is answered where the bytes of a name are asked for.
pub fn bytes(served: &mut Served, alloc: Global, name: &[u8]) -> Result<Vec<u8>, NoMemory> {
    served.ask(alloc, Ask::Bytes(text(alloc, name)?))
}

/// What is answered where the metadata of a name are asked for.
pub fn metadata(served: &mut Served, alloc: Global, name: &[u8]) -> Result<Vec<u8>, NoMemory> {
    served.ask(alloc, Ask::Metadata(text(alloc, name)?))
}

/// Three rows with the depths 5, 12 and 19.
pub const THREE_ROWS: &[u8] = b"op,sid,depth\n+,1,5\n+,2,12\n+,3,19\n";

/// A request to cite the rows with a depth from 10 to below 20.
pub const MID_DEPTHS: &[u8] =
    b"{\"meta\":{\"creators\":[\"Rey, A.\"],\"title\":\"Mid depths\"},\"query\":{\"items\":[{\"column\":\"sid\"},{\"column\":\"depth\"}],\"where\":{\"depth\":{\"and\":[{\"ge\":10},{\"lt\":20}]}}}}";

/// The archive with the three rows, and with the citation of two of them.
pub fn cited(alloc: Global) -> Result<Served, Fail> {
    let mut served = founded(alloc, &[])?;
    let _ = batch(&mut served, alloc, 1, 1, THREE_ROWS)?;
    let _ = cite(&mut served, alloc, MID_DEPTHS)?;
    Ok(served)
}
