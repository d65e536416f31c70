// An archive whose journal is measured: the creator is `Rey, A.`, of `Lab`, and the columns are `sid` and `depth`.
//
// A record takes its payload and 37 bytes, and the file begins with 16 bytes and the first gate.
use crate::tests::asks::{column, post, text};
use crate::tests::kept::{Archive, disk_of};
use archive_model::{FoundFault, Moved, Refused, Stored};
use cite_disk::MemoryDisk;
use cite_schema::{BatchAsk, Column, Dataset, Kind, List, NoMemory, Step};
use std::alloc::Global;
use std::test::Fail;

const NEW_YEAR: u64 = 1_704_067_200;

fn depths_of(alloc: Global, prefix: &[u8]) -> Result<Dataset, NoMemory> {
    Ok(Dataset {
        prefix: text(alloc, prefix)?,
        publisher: text(alloc, b"Lab")?,
        creator: text(alloc, b"Rey, A.")?,
        title: text(alloc, b"Depths")?,
    })
}

fn two_columns(alloc: Global) -> Result<List<Column>, NoMemory> {
    let mut columns = List::new(alloc);
    columns.push(column(alloc, b"sid", Kind::Int)?)?;
    columns.push(column(alloc, b"depth", Kind::Int)?)?;
    Ok(columns)
}

// A founding with this prefix at this moment on an empty disk.
fn founded_as(
    alloc: Global,
    prefix: &[u8],
    now: u64,
) -> Result<Result<Archive, (MemoryDisk, FoundFault)>, Fail> {
    let disk = disk_of(alloc, Vec::new(alloc))?;
    let dataset = depths_of(alloc, prefix)?;
    let columns = two_columns(alloc)?;
    Ok(Archive::found_on(alloc, disk, &dataset, columns, now))
}

fn depths_archive(alloc: Global) -> Result<Archive, Fail> {
    match founded_as(alloc, b"10.5072", NEW_YEAR)? {
        Ok(archive) => Ok(archive),
        Err((_, fault)) => Err(fault.into()),
    }
}

// What becomes of a batch of Ann's that names schema 1.
fn store(
    archive: &mut Archive,
    alloc: Global,
    number: u32,
    body: &[u8],
) -> Result<Stored, Refused> {
    let (Ok(curator), Ok(body)) = (text(alloc, b"ann"), text(alloc, body)) else {
        return Err(Refused::NoMemory);
    };
    let ask = BatchAsk {
        schema: 1,
        curator,
        number,
        body,
    };
    post(archive, alloc, &ask, NEW_YEAR)
}

fn scale_depth(archive: &mut Archive, alloc: Global) -> Result<Moved, Fail> {
    let mut steps = List::new(alloc);
    steps.push(Step::Scale {
        column: text(alloc, b"depth")?,
        by: 100,
        plus: 0,
    })?;
    Ok(archive.migrate(alloc, 1, &steps, NEW_YEAR)?)
}

// The payload has 1 byte of kind, 8 of the stamp, 2 + 7, 2 + 3, 2 + 7 and 2 + 6 of the texts, 2 + (2 + 3 + 1) +
// (2 + 5 + 1) of the columns: 56 bytes.
#[test]
fn a_founding_leaves_a_journal_of_its_entry(rt: HostRuntime) -> Result<(), Fail> {
    let alloc = rt.alloc();
    let archive = depths_archive(alloc)?;
    assert_eq!(rt; archive.size(), 110);
    let (_, disk) = archive.into_parts();
    let again = Archive::open(alloc, disk)?;
    assert_eq!(rt; (again.size(), again.entries()), (110, 1));
    let seen = again.snapshot();
    assert_eq!(rt; (seen.version(), seen.schema().number()), (1, 1));
    assert_eq!(rt; (seen.rows(), seen.issued()), (0, 0));
    Ok(())
}

// The batch has 1, 8, 4, 2 + 3 and 4 bytes, and 4 + 19 of its body: 45. The migration has 1, 8, 4 and 2 bytes, and
// 1 + (2 + 5) + 8 + 8 of its step: 39.
#[test]
fn a_repeat_makes_the_journal_no_longer(rt: HostRuntime) -> Result<(), Fail> {
    let alloc = rt.alloc();
    let mut archive = depths_archive(alloc)?;
    let body = b"op,sid,depth\n+,1,5\n";
    assert_eq!(rt;
        store(&mut archive, alloc, 7, body)?,
        Stored {
            version: 2,
            new: true
        }
    );
    assert_eq!(rt; archive.size(), 192);
    assert_eq!(rt;
        store(&mut archive, alloc, 7, body)?,
        Stored {
            version: 2,
            new: false
        }
    );
    assert_eq!(rt; archive.size(), 192);
    assert_eq!(rt;
        scale_depth(&mut archive, alloc)?,
        Moved {
            schema: 2,
            version: 3
        }
    );
    assert_eq!(rt; archive.size(), 268);
    assert_eq!(rt;
        store(&mut archive, alloc, 7, body)?,
        Stored {
            version: 2,
            new: false
        }
    );
    assert_eq!(rt; archive.size(), 268);
    Ok(())
}

#[test]
fn a_refused_batch_makes_the_journal_no_longer(rt: HostRuntime) -> Result<(), Fail> {
    let alloc = rt.alloc();
    let mut archive = depths_archive(alloc)?;
    let _ = store(&mut archive, alloc, 7, b"op,sid,depth\n+,1,5\n")?;
    let _ = scale_depth(&mut archive, alloc)?;
    let other = store(&mut archive, alloc, 7, b"op,sid,depth\n+,1,6\n");
    assert!(rt; matches!(&other, Err(Refused::NumberUsed { version: 2 })));
    let old_schema = store(&mut archive, alloc, 8, b"op,sid,depth\n+,2,6\n");
    assert!(rt; matches!(&old_schema, Err(Refused::WrongSchema { current: 2 })));
    assert_eq!(rt; (archive.size(), archive.entries()), (268, 3));
    Ok(())
}

// The refusal of such a founding, and how many bytes are on the disk then.
fn refused_as(alloc: Global, prefix: &[u8], now: u64) -> Result<(FoundFault, usize), Fail> {
    match founded_as(alloc, prefix, now)? {
        Ok(_) => Err(Fail::new("an archive was founded")),
        Err((disk, fault)) => Ok((fault, disk.bytes().len())),
    }
}

#[test]
fn a_refused_founding_leaves_the_disk_empty(rt: HostRuntime) -> Result<(), Fail> {
    let alloc = rt.alloc();
    let (late, size) = refused_as(alloc, b"10.5072", 253_402_300_800)?;
    assert!(rt;
        matches!(
            &late,
            FoundFault::ClockRange {
                moment: 253_402_300_800
            }
        )
    );
    assert_eq!(rt; size, 0);
    let (prefix, size) = refused_as(alloc, b"10.12", NEW_YEAR)?;
    assert!(rt; matches!(&prefix, FoundFault::BadPrefix));
    assert_eq!(rt; size, 0);
    Ok(())
}
