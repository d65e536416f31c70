// `init` over a disk and a clock in memory.
use crate::tests::{ended, sink_of, source_of, words_of};
use cite_disk::{Disk, MemoryDisk};
use cite_ports::{Clock, MemoryClock, Sink};
use std::alloc::Global;
use std::process::Abort;
use std::test::Fail;
use std::thread::Threads;

/// The words that found the archive of the tests.
pub const FOUNDING: &[&str] = &[
    "init",
    "10.5072",
    "Lab",
    "Rey, A.",
    "Depths",
    "sid:int",
    "depth:int",
];

/// The first moment of 2024.
pub const MOMENT: u64 = 1_704_067_200;

/// A disk with these bytes that fails the calls of these numbers, and each after one.
pub fn disk_of(
    alloc: Global,
    bytes: &[u8],
    fails: &[u64],
    stop_after: u64,
) -> Result<MemoryDisk, Fail> {
    let bytes = Vec::from_slice(alloc, bytes)?;
    let fails = Vec::from_slice(alloc, fails)?;
    Ok(MemoryDisk::make(alloc, bytes, fails, stop_after)?)
}

/// A clock that stands still.
pub fn clock_of(alloc: Global, moment: u64) -> Result<MemoryClock, Fail> {
    Ok(MemoryClock::make(Vec::from_array(alloc, [moment])?)?)
}

/// The words over the disk give this status and write this. Memory is not found wanting: the status says so. The source
/// would fail at each call.
pub fn gives<R: Threads + Sync + Abort>(
    rt: &R,
    alloc: Global,
    words: &[&str],
    disk: &mut MemoryDisk,
    moment: u64,
    want: (u8, &[u8]),
) -> Result<(), Fail> {
    let words = words_of(alloc, words)?;
    let mut source = source_of(alloc, b"", 1, &[1, 2, 3])?;
    let mut sink = sink_of(alloc, &[])?;
    let mut clock = clock_of(alloc, moment)?;
    let status = ended(rt, alloc, &words, &mut source, &mut sink, disk, &mut clock);
    assert_eq!(rt; status, want.0);
    assert_eq!(rt; sink.bytes(), want.1);
    Ok(())
}

// An archive is founded, and opened again.
#[test]
fn an_archive_is_founded(rt: HostRuntime) -> Result<(), Fail> {
    let alloc = rt.alloc();
    let mut disk = disk_of(alloc, b"", &[], u64::MAX)?;
    gives(
        &rt,
        alloc,
        FOUNDING,
        &mut disk,
        MOMENT,
        (0, b"10.5072/d1\n"),
    )?;
    assert_eq!(rt; disk.bytes().len(), 110);
    let text = b"version 1\nschema 1\nrows 0\ncitations 0\n";
    gives(&rt, alloc, &["verify"], &mut disk, 0, (0, text))?;
    assert_eq!(rt; disk.bytes().len(), 110);
    gives(&rt, alloc, FOUNDING, &mut disk, MOMENT, (7, b"Occupied\n"))
}

// The words behind the prefix, and the line that refuses them.
type Refused = (&'static [&'static str], &'static [u8]);

// Each word wrong in turn, and two words wrong: the first rule decides.
const WRONG: [Refused; 12] = [
    (
        &["init", "10.12", "Lab", "Rey, A.", "Depths", "sid:int"],
        b"Refused BadPrefix\n",
    ),
    (
        &["init", "10.5072", "", "Rey, A.", "Depths", "sid:int"],
        b"Refused BadMeta 4\n",
    ),
    (
        &["init", "10.5072", "Lab", "Rey\nA.", "Depths", "sid:int"],
        b"Refused BadMeta 1\n",
    ),
    (
        &["init", "10.5072", "Lab", "Rey, A.", "", "sid:int"],
        b"Refused BadMeta 2\n",
    ),
    (
        &["init", "10.5072", "Lab", "Rey, A.", "Depths", "sid"],
        b"Refused BadName 0\n",
    ),
    (
        &[
            "init", "10.5072", "Lab", "Rey, A.", "Depths", "sid:int", "x:real",
        ],
        b"Refused BadName 1\n",
    ),
    (
        &[
            "init", "10.5072", "Lab", "Rey, A.", "Depths", "sid:int", "1x:int",
        ],
        b"Refused BadName 1\n",
    ),
    (
        &[
            "init", "10.5072", "Lab", "Rey, A.", "Depths", "a:int", "a:text", "1x",
        ],
        b"Refused NameTwice 1\n",
    ),
    (
        &[
            "init", "10.5072", "Lab", "Rey, A.", "Depths", "1x", "a:int", "a:text",
        ],
        b"Refused BadName 0\n",
    ),
    (&["init", "10.12", "", "", "", ""], b"Refused BadPrefix\n"),
    (&["init", "10.5072", "", "", "", ""], b"Refused BadMeta 4\n"),
    (
        &["init", "10.5072", "Lab", "", "", ""],
        b"Refused BadMeta 1\n",
    ),
];

// The words are tested before the moment, and the moment before the disk, which is full and fails at each call.
#[test]
fn a_wrong_word_is_refused(rt: HostRuntime) -> Result<(), Fail> {
    let alloc = rt.alloc();
    for (words, line) in &WRONG {
        let mut disk = disk_of(alloc, b"x", &[], 0)?;
        gives(&rt, alloc, words, &mut disk, u64::MAX, (10, line))?;
        assert_eq!(rt; disk.faults(), 0);
    }
    Ok(())
}

// The first moment that has no stamp, and the one before it.
#[test]
fn a_moment_out_of_range_is_refused(rt: HostRuntime) -> Result<(), Fail> {
    let alloc = rt.alloc();
    let mut disk = disk_of(alloc, b"", &[], u64::MAX)?;
    let refused = (10, b"Refused ClockRange 253402300800\n".as_slice());
    gives(&rt, alloc, FOUNDING, &mut disk, 253_402_300_800, refused)?;
    assert!(rt; disk.bytes().is_empty());
    let done = (0, b"10.5072/d1\n".as_slice());
    gives(&rt, alloc, FOUNDING, &mut disk, 253_402_300_799, done)
}

#[test]
fn a_disk_with_one_byte_is_occupied(rt: HostRuntime) -> Result<(), Fail> {
    let alloc = rt.alloc();
    let mut disk = disk_of(alloc, b"x", &[], u64::MAX)?;
    gives(&rt, alloc, FOUNDING, &mut disk, MOMENT, (7, b"Occupied\n"))?;
    assert_eq!(rt; disk.bytes(), b"x".as_slice());
    Ok(())
}

// A founding makes five calls of the disk. Whichever fails, nothing is written.
#[test]
fn a_founding_on_a_disk_that_fails(rt: HostRuntime) -> Result<(), Fail> {
    let alloc = rt.alloc();
    for call in 1..=5 {
        let mut disk = disk_of(alloc, b"", &[call], u64::MAX)?;
        gives(&rt, alloc, FOUNDING, &mut disk, MOMENT, (5, b""))?;
        assert_eq!(rt; disk.faults(), 1);
    }
    let mut disk = disk_of(alloc, b"", &[6], u64::MAX)?;
    gives(
        &rt,
        alloc,
        FOUNDING,
        &mut disk,
        MOMENT,
        (0, b"10.5072/d1\n"),
    )
}

#[test]
fn a_name_that_cannot_be_written(rt: HostRuntime) -> Result<(), Fail> {
    let alloc = rt.alloc();
    let words = words_of(alloc, FOUNDING)?;
    let mut source = source_of(alloc, b"", 1, &[1])?;
    let mut sink = sink_of(alloc, &[1])?;
    let mut disk = disk_of(alloc, b"", &[], u64::MAX)?;
    let mut clock = MemoryClock::make(Vec::from_array(alloc, [MOMENT, 7])?)?;
    let status = ended(
        &rt,
        alloc,
        &words,
        &mut source,
        &mut sink,
        &mut disk,
        &mut clock,
    );
    assert_eq!(rt; status, 4);
    assert_eq!(rt; (sink.faults(), disk.bytes().len()), (1, 110));
    assert_eq!(rt; clock.now(), 7);
    Ok(())
}
