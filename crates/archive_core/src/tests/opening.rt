// Archives that are opened, by their bytes: journals of entries, and what is none.
//
// The payloads are those of `following`: the founding's record begins at 16, the batch's at 115, the citation's at 204.
use crate::ResumeFault;
use crate::tests::asks::{columns, dataset};
use crate::tests::following::{BATCH, CITATION, FOUNDING, changed};
use crate::tests::kept::{Archive, disk_of};
use archive_journal::{Journal, JournalFault};
use archive_model::FoundFault;
use cite_disk::MemoryDisk;
use std::alloc::Global;
use std::test::Fail;

// Adds a record, where the journal can take it.
fn add_record(
    journal: &mut Journal,
    alloc: Global,
    disk: &mut MemoryDisk,
    payload: &[u8],
) -> Result<(), JournalFault> {
    let there = disk.bytes().len() as u64;
    let fits = payload.len() <= 16_777_216 && journal.length() <= 1_073_741_824;
    if fits && journal.settled() && journal.length() <= there {
        journal.commit(alloc, disk, payload)
    } else {
        Err(JournalFault::DiskFailed)
    }
}

// A disk with a journal of these payloads.
fn journal_of(alloc: Global, first: &[u8], later: &[&[u8]]) -> Result<MemoryDisk, Fail> {
    let mut disk = disk_of(alloc, Vec::new(alloc))?;
    if first.len() > 16_777_216 {
        return Err(Fail::new("the payload is too long"));
    }
    let mut journal = Journal::create(alloc, &mut disk, first)?;
    for payload in later {
        add_record(&mut journal, alloc, &mut disk, payload)?;
    }
    Ok(disk)
}

// With how many entries such a journal opens.
fn opens(alloc: Global, first: &[u8], later: &[&[u8]]) -> Result<Result<u64, ResumeFault>, Fail> {
    let disk = journal_of(alloc, first, later)?;
    Ok(count_of(alloc, disk))
}

// With how many entries a disk opens.
fn count_of(alloc: Global, disk: MemoryDisk) -> Result<u64, ResumeFault> {
    match Archive::open(alloc, disk) {
        Ok(archive) => Ok(archive.entries()),
        Err(fault) => Err(fault),
    }
}

// With how many entries these bytes open.
fn read(alloc: Global, bytes: &[u8]) -> Result<Result<u64, ResumeFault>, Fail> {
    let disk = disk_of(alloc, bytes.to_vec(alloc)?)?;
    Ok(count_of(alloc, disk))
}

#[test]
fn bytes_that_are_no_journal_are_no_archive(rt: HostRuntime) -> Result<(), Fail> {
    let alloc = rt.alloc();
    let closed = b"RDACITE\n\x00\x00\x00\x01\x00\x00\x00\x00\x00";
    let other_form = b"RDACITE\n\x00\x00\x00\x02\x00\x00\x00\x00\x01";
    assert_eq!(rt; read(alloc, b"")?, Err(ResumeFault::NotArchive));
    assert_eq!(rt; read(alloc, b"R")?, Err(ResumeFault::NotArchive));
    assert_eq!(rt; read(alloc, closed)?, Err(ResumeFault::NotArchive));
    assert_eq!(rt; read(alloc, other_form)?, Err(ResumeFault::NotArchive));
    let open_gate = b"RDACITE\n\x00\x00\x00\x01\x00\x00\x00\x00\x01";
    assert_eq!(rt;
        read(alloc, open_gate)?,
        Err(ResumeFault::Damaged { at: 16 })
    );
    Ok(())
}

#[test]
fn a_history_is_opened(rt: HostRuntime) -> Result<(), Fail> {
    let disk = journal_of(rt.alloc(), FOUNDING, &[BATCH, CITATION])?;
    let archive = Archive::open(rt.alloc(), disk)?;
    assert_eq!(rt; archive.entries(), 3);
    let seen = archive.snapshot();
    assert_eq!(rt; (seen.version(), seen.rows(), seen.issued()), (2, 2, 1));
    assert_eq!(rt; (seen.founded(), seen.stamp()), (100, 110));
    Ok(())
}

#[test]
fn an_opened_archive_has_its_snapshot_ready(rt: HostRuntime) -> Result<(), Fail> {
    let disk = journal_of(rt.alloc(), FOUNDING, &[BATCH])?;
    let mut archive = Archive::open(rt.alloc(), disk)?;
    assert!(rt; archive.ready().is_some());
    assert!(rt; archive.ready().is_none());
    Ok(())
}

// A whole record is damage where no entry that it spells can stand there: the text `abc` is none.
#[test]
fn a_record_that_is_no_entry_is_damage(rt: HostRuntime) -> Result<(), Fail> {
    let alloc = rt.alloc();
    let first = opens(alloc, b"abc", &[])?;
    assert_eq!(rt; first, Err(ResumeFault::Damaged { at: 16 }));
    let third = opens(alloc, FOUNDING, &[BATCH, b"abc"])?;
    assert_eq!(rt; third, Err(ResumeFault::Damaged { at: 204 }));
    Ok(())
}

#[test]
fn a_founding_stands_first_and_nowhere_else(rt: HostRuntime) -> Result<(), Fail> {
    let alloc = rt.alloc();
    let none = opens(alloc, BATCH, &[CITATION])?;
    assert_eq!(rt; none, Err(ResumeFault::Damaged { at: 16 }));
    let second = opens(alloc, FOUNDING, &[FOUNDING, BATCH])?;
    assert_eq!(rt; second, Err(ResumeFault::Damaged { at: 115 }));
    Ok(())
}

#[test]
fn an_entry_that_cannot_follow_is_damage(rt: HostRuntime) -> Result<(), Fail> {
    let alloc = rt.alloc();
    let digest = changed(alloc, CITATION, 17, 62)?;
    let other_digest = opens(alloc, FOUNDING, &[BATCH, digest.as_slice(), CITATION])?;
    assert_eq!(rt; other_digest, Err(ResumeFault::Damaged { at: 204 }));
    let repeat = opens(alloc, FOUNDING, &[BATCH, BATCH, CITATION])?;
    assert_eq!(rt; repeat, Err(ResumeFault::Damaged { at: 204 }));
    let number = changed(alloc, BATCH, 21, 2)?;
    let taken_keys = opens(alloc, FOUNDING, &[BATCH, number.as_slice()])?;
    assert_eq!(rt; taken_keys, Err(ResumeFault::Damaged { at: 204 }));
    let early = changed(alloc, CITATION, 8, 109)?;
    let stamp_falls = opens(alloc, FOUNDING, &[BATCH, early.as_slice()])?;
    assert_eq!(rt; stamp_falls, Err(ResumeFault::Damaged { at: 204 }));
    Ok(())
}

// What becomes of the journal of all three without so many of its last bytes.
fn cut_by(alloc: Global, count: usize) -> Result<Result<u64, ResumeFault>, Fail> {
    let disk = journal_of(alloc, FOUNDING, &[BATCH, CITATION])?;
    let bytes = disk.bytes();
    read(alloc, &bytes[..bytes.len().saturating_sub(count)])
}

// The citation's record takes its payload and 37 bytes. Without the gate behind it a record is not whole.
#[test]
fn a_record_that_is_cut_short_is_damage(rt: HostRuntime) -> Result<(), Fail> {
    let alloc = rt.alloc();
    let behind_gate = CITATION.len() + 36 + 1;
    assert_eq!(rt; cut_by(alloc, 0)?, Ok(3));
    assert_eq!(rt; cut_by(alloc, 1)?, Err(ResumeFault::Damaged { at: 204 }));
    assert_eq!(rt; cut_by(alloc, 20)?, Err(ResumeFault::Damaged { at: 204 }));
    assert_eq!(rt;
        cut_by(alloc, behind_gate)?,
        Err(ResumeFault::Damaged { at: 204 })
    );
    assert_eq!(rt;
        cut_by(alloc, behind_gate + 1)?,
        Err(ResumeFault::Damaged { at: 115 })
    );
    Ok(())
}

#[test]
fn what_stands_behind_the_last_gate_is_passed_over(rt: HostRuntime) -> Result<(), Fail> {
    let alloc = rt.alloc();
    let disk = journal_of(alloc, FOUNDING, &[BATCH])?;
    let mut bytes = disk.bytes().to_vec(alloc)?;
    bytes.extend_from_slice(&[255; 10])?;
    assert_eq!(rt; read(alloc, bytes.as_slice())?, Ok(2));
    Ok(())
}

// Founding on a disk with these bytes: the refusal, and how many bytes are there then.
fn founded_over(alloc: Global, disk: MemoryDisk) -> Result<(FoundFault, usize), Fail> {
    let dataset = dataset(alloc)?;
    match Archive::found_on(alloc, disk, &dataset, columns(alloc)?, 100) {
        Ok(_) => Err(Fail::new("an archive was founded")),
        Err((disk, fault)) => Ok((fault, disk.bytes().len())),
    }
}

// A journal of the payload `abc` has 57 bytes.
#[test]
fn no_archive_is_founded_over_bytes(rt: HostRuntime) -> Result<(), Fail> {
    let alloc = rt.alloc();
    let (fault, size) = founded_over(alloc, journal_of(alloc, b"abc", &[])?)?;
    assert!(rt; matches!(&fault, FoundFault::Occupied));
    assert_eq!(rt; size, 57);
    Ok(())
}
