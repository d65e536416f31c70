// Calls of the disk that fail in the session of `crashes`, and what is answered after them.
use crate::ResumeFault;
use crate::tests::asks::{cite_depths, columns, dataset, send};
use crate::tests::crashes::{add_entries, founded_on, opened, session};
use crate::tests::kept::Archive;
use archive_model::{FoundFault, Refused};
use cite_disk::{Choice, MemoryDisk};
use std::alloc::Global;
use std::test::Fail;
use versioned_rows::ApplyFault;

// The session where these calls fail, and each one after so many, up to the first entry that is not acknowledged.
fn failing(alloc: Global, fails: &[u64], stop_after: u64) -> Result<Archive, Fail> {
    match founded_on(alloc, fails, stop_after)? {
        Ok(mut archive) => {
            let _ = add_entries(&mut archive, alloc);
            Ok(archive)
        }
        Err(_) => Err(Fail::new("no archive was founded")),
    }
}

// The number of the last citation where it is asked again, whether it is new, and the entries that a crash leaves then.
fn asked_again(alloc: Global, failing_call: u64) -> Result<(u32, bool, u64), Fail> {
    let mut archive = failing(alloc, &[failing_call], u64::MAX)?;
    let cited = cite_depths(&mut archive, alloc, 150)?;
    let (_, disk) = archive.into_parts();
    let found = opened(alloc, disk.crash(Choice::Old)?)?;
    Ok((cited.number, cited.new, found))
}

#[test]
fn a_citation_that_failed_gets_its_number_when_asked_again(rt: HostRuntime) -> Result<(), Fail> {
    for call in 18..22 {
        let before = failing(rt.alloc(), &[call], u64::MAX)?;
        assert_eq!(rt; (before.entries(), before.faults()), (4, 1));
        assert_eq!(rt; asked_again(rt.alloc(), call)?, (2, true, 5), "call {call}");
    }
    Ok(())
}

// A gate that was opened by a failed call is closed before another entry is written behind it.
#[test]
fn an_entry_under_way_gives_way_to_another(rt: HostRuntime) -> Result<(), Fail> {
    let alloc = rt.alloc();
    let mut archive = failing(alloc, &[20], u64::MAX)?;
    let stored = send(&mut archive, alloc, 3, b"+,3,15,c\n", 150)?;
    assert_eq!(rt; (stored.version, stored.new), (4, true));
    let (_, disk) = archive.into_parts();
    let again = Archive::open(alloc, disk.crash(Choice::Old)?)?;
    assert_eq!(rt; again.entries(), 5);
    assert_eq!(rt;
        (again.snapshot().version(), again.snapshot().issued()),
        (4, 1)
    );
    Ok(())
}

// The sync of the last citation's record has failed, and so does the one that is to settle the journal.
#[test]
fn a_stopped_disk_is_told_for_a_new_entry_alone(rt: HostRuntime) -> Result<(), Fail> {
    let alloc = rt.alloc();
    let mut archive = failing(alloc, &[], 18)?;
    let size = archive.size();
    let again = send(&mut archive, alloc, 2, b"~,2,30,b\n", 150)?;
    assert_eq!(rt; (again.version, again.new), (3, false));
    let refused = send(&mut archive, alloc, 3, b"~,9,1,c\n", 160);
    assert!(rt; matches!(&refused, Err(Refused::Lines(ApplyFault::KeyMissing(1)))));
    assert_eq!(rt; (archive.size(), archive.faults()), (size, 1));
    let failed = send(&mut archive, alloc, 3, b"+,3,1,c\n", 170);
    assert!(rt; matches!(&failed, Err(Refused::DiskFailed)));
    assert_eq!(rt; (archive.entries(), archive.faults()), (4, 2));
    Ok(())
}

#[test]
fn a_repeated_citation_is_answered_without_a_disk(rt: HostRuntime) -> Result<(), Fail> {
    let alloc = rt.alloc();
    let mut archive = failing(alloc, &[], 13)?;
    assert_eq!(rt; archive.entries(), 3);
    let again = cite_depths(&mut archive, alloc, 150)?;
    assert_eq!(rt; (again.number, again.new), (1, false));
    Ok(())
}

#[test]
fn a_call_that_failed_leaves_no_snapshot(rt: HostRuntime) -> Result<(), Fail> {
    let alloc = rt.alloc();
    let mut archive = failing(alloc, &[], 18)?;
    assert!(rt; archive.ready().is_some());
    let failed = send(&mut archive, alloc, 3, b"+,3,1,c\n", 150);
    assert!(rt; matches!(&failed, Err(Refused::DiskFailed)));
    assert!(rt; archive.ready().is_none());
    Ok(())
}

// What becomes of a founding on a disk on which one failed in this call.
fn founded_again(alloc: Global, failing_call: u64) -> Result<Result<u64, FoundFault>, Fail> {
    let Err((disk, FoundFault::DiskFailed)) = founded_on(alloc, &[failing_call], u64::MAX)? else {
        return Err(Fail::new("the founding did not fail"));
    };
    let dataset = dataset(alloc)?;
    match Archive::found_on(alloc, disk, &dataset, columns(alloc)?, 200) {
        Ok(archive) => Ok(Ok(archive.entries())),
        Err((_, fault)) => Ok(Err(fault)),
    }
}

#[test]
fn a_disk_on_which_a_founding_failed_is_occupied(rt: HostRuntime) -> Result<(), Fail> {
    let empty = founded_again(rt.alloc(), 1)?;
    assert!(rt; matches!(&empty, Ok(1)));
    for call in 2..6 {
        let occupied = founded_again(rt.alloc(), call)?;
        assert!(rt;
            matches!(&occupied, Err(FoundFault::Occupied)),
            "call {call}"
        );
    }
    Ok(())
}

// How many entries are found where a founding's gate was torn, on a disk that stops behind so many calls of the opening.
fn opened_until(alloc: Global, stop_after: u64) -> Result<Result<u64, ResumeFault>, Fail> {
    let (disk, _) = session(alloc, 7)?;
    let torn = disk.crash(Choice::Fill(7))?;
    let stopping = MemoryDisk::make(
        alloc,
        torn.bytes().to_vec(alloc)?,
        Vec::new(alloc),
        stop_after,
    )?;
    Ok(opened(alloc, stopping))
}

// Opening takes a sync and a read, three calls for the record, and two to close the torn gate.
#[test]
fn an_opening_tells_that_the_disk_failed(rt: HostRuntime) -> Result<(), Fail> {
    for stop_after in 0..7 {
        let failed = opened_until(rt.alloc(), stop_after)?;
        assert_eq!(rt; failed, Err(ResumeFault::DiskFailed), "after {stop_after}");
    }
    assert_eq!(rt; opened_until(rt.alloc(), 7)?, Ok(1));
    Ok(())
}
