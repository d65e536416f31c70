// Crashes at each call of a session.
//
// The session makes six entries. The founding takes five disk calls: the length, the file with its gate closed, a sync,
// the gate, a sync. Each other entry takes four: the record, a sync, the gate, a sync.
use crate::ResumeFault;
use crate::tests::asks::{cite_depths, columns, dataset, send};
use crate::tests::kept::Archive;
use crate::tests::sessions::resolved;
use archive_model::{FoundFault, Refused};
use cite_disk::{Choice, MemoryDisk};
use std::alloc::Global;
use std::test::Fail;

const CHOICES: [Choice; 5] = [
    Choice::Old,
    Choice::New,
    Choice::Fill(0),
    Choice::Fill(1),
    Choice::Fill(7),
];

/// A founding on an empty disk that fails these calls, and each one after so many.
pub fn founded_on(
    alloc: Global,
    fails: &[u64],
    stop_after: u64,
) -> Result<Result<Archive, (MemoryDisk, FoundFault)>, Fail> {
    let disk = MemoryDisk::make(alloc, Vec::new(alloc), fails.to_vec(alloc)?, stop_after)?;
    let dataset = dataset(alloc)?;
    let columns = columns(alloc)?;
    Ok(Archive::found_on(alloc, disk, &dataset, columns, 100))
}

// The entry of this number: two rows, a citation of one of them, a change by which it is left out, the same citation,
// the change back. The answer is whether it is new.
fn add_entry(archive: &mut Archive, alloc: Global, number: u64) -> Result<bool, Refused> {
    match number {
        2 => Ok(send(archive, alloc, 1, b"+,1,5,a\n+,2,12,b\n", 110)?.new),
        3 => Ok(cite_depths(archive, alloc, 120)?.new),
        4 => Ok(send(archive, alloc, 2, b"~,2,30,b\n", 130)?.new),
        5 => Ok(cite_depths(archive, alloc, 140)?.new),
        _ => Ok(send(archive, alloc, 3, b"~,2,12,b\n", 150)?.new),
    }
}

/// Adds entries until one is not acknowledged, and answers how many there are.
pub fn add_entries(archive: &mut Archive, alloc: Global) -> u64 {
    for number in 2..7u64 {
        if !matches!(&add_entry(archive, alloc, number), Ok(true)) {
            return number - 1;
        }
    }
    6
}

/// The session on a disk that stops behind so many calls: the disk, and how many entries were acknowledged.
pub fn session(alloc: Global, stop_after: u64) -> Result<(MemoryDisk, u64), Fail> {
    match founded_on(alloc, &[], stop_after)? {
        Ok(mut archive) => {
            let acknowledged = add_entries(&mut archive, alloc);
            let (_, disk) = archive.into_parts();
            Ok((disk, acknowledged))
        }
        Err((disk, _)) => Ok((disk, 0)),
    }
}

/// How many entries a disk opens with; none where it holds no archive.
pub fn opened(alloc: Global, disk: MemoryDisk) -> Result<u64, ResumeFault> {
    match Archive::open(alloc, disk) {
        Ok(archive) => Ok(archive.entries()),
        Err(ResumeFault::NotArchive) => Ok(0),
        Err(fault) => Err(fault),
    }
}

// The last version and the number of citations behind so many entries of the session.
fn counts_behind(entries: u64) -> (u32, u32) {
    match entries {
        1 => (1, 0),
        2 => (2, 0),
        3 => (2, 1),
        4 => (3, 1),
        5 => (3, 2),
        _ => (4, 2),
    }
}

// Whether a number, where it is issued, resolves to these bytes.
fn resolves(archive: &Archive, alloc: Global, number: u32, bytes: &[u8]) -> Result<bool, Fail> {
    if archive.snapshot().issued() < number {
        return Ok(true);
    }
    let found = resolved(archive, alloc, number)?;
    Ok(found.as_slice() == bytes)
}

// Whether an archive is what its entries, the session's first ones, made of it.
fn is_of_session(archive: &Archive, alloc: Global) -> Result<bool, Fail> {
    let counts = (archive.snapshot().version(), archive.snapshot().issued());
    let one_row = resolves(archive, alloc, 1, b"\"sid\",\"depth\"\n\"2\",\"12\"\n")?;
    let no_row = resolves(archive, alloc, 2, b"\"sid\",\"depth\"\n")?;
    Ok(counts == counts_behind(archive.entries()) && one_row && no_row)
}

// How many entries are found where the disk stops behind so many calls and crashes.
fn found_after(alloc: Global, stop_after: u64, choice: Choice) -> Result<u64, Fail> {
    let (disk, _) = session(alloc, stop_after)?;
    match Archive::open(alloc, disk.crash(choice)?) {
        Ok(archive) if is_of_session(&archive, alloc)? => Ok(archive.entries()),
        Ok(_) => Err(Fail::new("the archive is another")),
        Err(ResumeFault::NotArchive) => Ok(0),
        Err(fault) => Err(fault.into()),
    }
}

// The same for each choice, in their order.
fn found_by_choice(alloc: Global, stop_after: u64) -> Result<Vec<u64>, Fail> {
    let mut counts = Vec::new(alloc);
    for choice in CHOICES {
        counts.push(found_after(alloc, stop_after, choice)?)?;
    }
    Ok(counts)
}

// Whether these are found.
fn finds(alloc: Global, stop_after: u64, want: &[u64]) -> Result<bool, Fail> {
    let found = found_by_choice(alloc, stop_after)?;
    Ok(found.as_slice() == want)
}

// How many entries are acknowledged by so many disk calls.
fn acknowledged_by(calls: u64) -> u64 {
    if calls < 5 {
        0
    } else {
        ((calls - 5) / 4 + 1).min(6)
    }
}

#[test]
fn entries_are_acknowledged_with_their_last_call(rt: HostRuntime) -> Result<(), Fail> {
    for stop_after in 0..27 {
        let (_, acknowledged) = session(rt.alloc(), stop_after)?;
        assert_eq!(rt;
            acknowledged,
            acknowledged_by(stop_after),
            "after {stop_after}"
        );
    }
    Ok(())
}

// The stops behind which a crash lost an acknowledged entry, or left more than one that was not.
fn bad_stops(alloc: Global, choice: Choice) -> Result<Vec<u64>, Fail> {
    let mut bad = Vec::new(alloc);
    for stop_after in 0..27 {
        let found = found_after(alloc, stop_after, choice)?;
        let acknowledged = acknowledged_by(stop_after);
        if found < acknowledged || found - acknowledged > 1 {
            bad.push(stop_after)?;
        }
    }
    Ok(bad)
}

#[test]
fn no_crash_loses_what_was_acknowledged(rt: HostRuntime) -> Result<(), Fail> {
    for choice in CHOICES {
        let bad = bad_stops(rt.alloc(), choice)?;
        assert_eq!(rt; bad.as_slice(), [].as_slice(), "by {choice:?}");
    }
    Ok(())
}

// An archive begins with its gate. Until that is written the header or the open gate is wanting; then the gate's byte
// decides, of the five choices.
#[test]
fn a_crash_in_a_founding_leaves_it_or_no_archive(rt: HostRuntime) -> Result<(), Fail> {
    let alloc = rt.alloc();
    assert!(rt; finds(alloc, 0, &[0, 0, 0, 0, 0])?);
    assert!(rt; finds(alloc, 1, &[0, 0, 0, 0, 0])?);
    assert!(rt; finds(alloc, 2, &[0, 0, 0, 0, 0])?);
    assert!(rt; finds(alloc, 3, &[0, 1, 0, 1, 0])?);
    assert!(rt; finds(alloc, 4, &[0, 1, 0, 1, 0])?);
    assert!(rt; finds(alloc, 5, &[1, 1, 1, 1, 1])?);
    Ok(())
}

// The second citation's calls are those of the numbers 18 to 21.
#[test]
fn the_second_citation_stands_by_its_gate(rt: HostRuntime) -> Result<(), Fail> {
    let alloc = rt.alloc();
    assert!(rt; finds(alloc, 17, &[4, 4, 4, 4, 4])?);
    assert!(rt; finds(alloc, 18, &[4, 4, 4, 4, 4])?);
    assert!(rt; finds(alloc, 19, &[4, 5, 4, 5, 4])?);
    assert!(rt; finds(alloc, 20, &[4, 5, 4, 5, 4])?);
    assert!(rt; finds(alloc, 21, &[5, 5, 5, 5, 5])?);
    Ok(())
}

// The number of the citation where it is asked again after the whole session and a crash, and whether it is new.
fn asked_after(alloc: Global, choice: Choice) -> Result<(u32, bool), Fail> {
    let (disk, _) = session(alloc, 25)?;
    let mut archive = Archive::open(alloc, disk.crash(choice)?)?;
    let cited = cite_depths(&mut archive, alloc, 160)?;
    Ok((cited.number, cited.new))
}

#[test]
fn the_first_number_comes_back_with_its_rows(rt: HostRuntime) -> Result<(), Fail> {
    for choice in CHOICES {
        assert_eq!(rt;
            asked_after(rt.alloc(), choice)?,
            (1, false),
            "by {choice:?}"
        );
    }
    Ok(())
}
