// Payloads that were written by hand.
use crate::{BatchEntry, Entry, entry_length, print_entry, read_entry};
use cite_schema::{ByteText, NoMemory};
use std::alloc::Global;
use std::test::Fail;

const BATCH: [u8; 29] = [
    2, 0, 0, 0, 0, 101, 146, 1, 128, 0, 0, 0, 1, 0, 3, b'a', b'n', b'n', 0, 0, 0, 7, 0, 0, 0, 3,
    b'o', b'p', b'\n',
];

#[test]
fn a_batch_is_printed(rt: HostRuntime) -> Result<(), Fail> {
    let alloc = rt.alloc();
    let entry = Entry::Batch(BatchEntry {
        stamp: 1_704_067_456,
        schema: 1,
        curator: ByteText::from_slice(alloc, b"ann")?,
        number: 7,
        body: ByteText::from_slice(alloc, b"op\n")?,
    });
    assert_eq!(rt; entry_length(&entry), 29);
    let bytes = print_entry(alloc, &entry).ok().ok_or("there is memory")?;
    assert_eq!(rt; bytes.as_slice(), BATCH.as_slice());
    Ok(())
}

fn is_the_batch(read: &Option<Entry>) -> bool {
    match read {
        Some(Entry::Batch(batch)) => {
            batch.stamp == 1_704_067_456
                && batch.schema == 1
                && batch.number == 7
                && batch.curator.as_slice() == b"ann".as_slice()
                && batch.body.as_slice() == b"op\n".as_slice()
        }
        _ => false,
    }
}

fn reads_the_batch(alloc: Global, bytes: &[u8]) -> Result<bool, NoMemory> {
    let read = read_entry(alloc, bytes)?;
    Ok(is_the_batch(&read))
}

#[test]
fn a_batch_is_read(rt: HostRuntime) {
    let alloc = rt.alloc();
    assert_eq!(rt; reads_the_batch(alloc, &BATCH).ok(), Some(true));
    assert_eq!(rt; reads_the_batch(alloc, &BATCH[..28]).ok(), Some(false));
    assert_eq!(rt; reads_the_batch(alloc, &BATCH[1..]).ok(), Some(false));
}

// A citation whose only condition is a comparison under so many `Not`s.
fn citation(alloc: Global, nots: usize) -> Result<Vec<u8>, NoMemory> {
    let mut bytes = Vec::new(alloc);
    bytes.push(3)?;
    bytes.extend_from_slice(&[0, 0, 0, 0, 101, 146, 1, 128, 0, 0, 0, 1, 0, 0, 0, 2])?;
    bytes.extend_from_slice(&[9; 32])?;
    bytes.extend_from_slice(&[0, 1, 0, 1, b'd'])?;
    for _ in 0..nots {
        bytes.push(11)?;
    }
    bytes.extend_from_slice(&[5, 1, 255, 255, 255, 255, 255, 255, 255, 254])?;
    bytes.extend_from_slice(&[0, 1, 0, 1, b'd', 0, 2, b'x', b'y', 0, 1, 0, 1, b'd', 1])?;
    bytes.extend_from_slice(&[0, 1, 0, 1, b'R', 0, 1, b'T', 0, 0])?;
    Ok(bytes)
}

fn is_the_citation(read: &Option<Entry>) -> bool {
    match read {
        Some(Entry::Cite(cited)) => {
            cited.number == 1
                && cited.version == 2
                && cited.query.conds.len() == 1
                && cited.query.order.len() == 1
                && cited.meta.title.as_slice() == b"T".as_slice()
        }
        _ => false,
    }
}

fn reads_the_citation(alloc: Global, nots: usize) -> Result<bool, NoMemory> {
    let bytes = citation(alloc, nots)?;
    let read = read_entry(alloc, bytes.as_slice())?;
    Ok(is_the_citation(&read))
}

#[test]
fn a_citation_is_read(rt: HostRuntime) {
    let alloc = rt.alloc();
    assert_eq!(rt; reads_the_citation(alloc, 0).ok(), Some(true));
    assert_eq!(rt; reads_the_citation(alloc, 31).ok(), Some(true));
    assert_eq!(rt; reads_the_citation(alloc, 32).ok(), Some(false));
}

// A count of 4,294,967,295 members reserves nothing.
#[test]
fn a_great_count_in_a_short_text(rt: HostRuntime) -> Result<(), Fail> {
    let alloc = rt.alloc();
    let mut bytes = citation(alloc, 1).ok().ok_or("there is memory")?;
    bytes.truncate(54);
    bytes.extend_from_slice(&[9, 255, 255, 255, 255, 1, 1, 0, 0, 0, 0, 0, 0, 0, 1])?;
    assert!(rt; matches!(read_entry(alloc, bytes.as_slice()), Ok(None)));
    Ok(())
}

// The founding of a data set with the columns `sid:int` and `depth:text`.
const FOUNDING: [u8; 56] = [
    1, 0, 0, 0, 0, 101, 146, 0, 128, 0, 7, b'1', b'0', b'.', b'5', b'0', b'7', b'2', 0, 3, b'L',
    b'a', b'b', 0, 7, b'R', b'e', b'y', b',', b' ', b'A', b'.', 0, 6, b'D', b'e', b'p', b't', b'h',
    b's', 0, 2, 0, 3, b's', b'i', b'd', 1, 0, 5, b'd', b'e', b'p', b't', b'h', 2,
];

fn is_no_entry(alloc: Global, bytes: &[u8]) -> Result<bool, NoMemory> {
    let read = read_entry(alloc, bytes)?;
    Ok(read.is_none())
}

// Whether what is read of the bytes prints as these bytes again, and is as long as they are.
fn prints_again(alloc: Global, bytes: &[u8]) -> Result<bool, NoMemory> {
    match read_entry(alloc, bytes)? {
        Some(entry) => {
            let printed = print_entry(alloc, &entry)?;
            Ok(printed.as_slice() == bytes && entry_length(&entry) == bytes.len() as u64)
        }
        None => Ok(false),
    }
}

#[test]
fn a_founding_is_read_and_printed(rt: HostRuntime) {
    assert_eq!(rt; prints_again(rt.alloc(), &FOUNDING).ok(), Some(true));
}

#[test]
fn each_front_of_a_founding_is_no_entry(rt: HostRuntime) {
    for length in 0..56 {
        assert_eq!(rt;
            is_no_entry(rt.alloc(), &FOUNDING[..length]).ok(),
            Some(true)
        );
    }
}

#[test]
fn a_founding_with_another_byte_is_no_entry(rt: HostRuntime) {
    let changes: [(usize, u8); 6] = [(0, 0), (0, 5), (47, 3), (55, 0), (41, 3), (10, 8)];
    for (place, byte) in changes {
        let mut bytes = FOUNDING;
        bytes[place % 56] = byte;
        assert_eq!(rt; is_no_entry(rt.alloc(), &bytes).ok(), Some(true));
    }
}

#[test]
fn nothing_stands_behind_an_entry(rt: HostRuntime) -> Result<(), Fail> {
    let mut bytes = FOUNDING.to_vec(rt.alloc())?;
    bytes.push(0)?;
    assert_eq!(rt; is_no_entry(rt.alloc(), &bytes).ok(), Some(true));
    Ok(())
}

// One step of each kind: a byte, the column `c`, and what else it says.
const MIGRATION: [u8; 80] = [
    4, 0, 0, 0, 0, 101, 146, 1, 128, 0, 0, 0, 1, 0, 6, 1, 0, 1, b'c', 0, 1, b'd', 2, 0, 1, b'c', 2,
    0, 1, b'x', 3, 0, 1, b'c', 4, 0, 1, b'c', 0, 0, 0, 0, 0, 0, 0, 100, 255, 255, 255, 255, 255,
    255, 255, 255, 5, 0, 1, b'c', 1, 0, 0, 0, 0, 0, 0, 0, 1, 1, 127, 255, 255, 255, 255, 255, 255,
    255, 6, 0, 1, b'c',
];

#[test]
fn steps_are_read_and_printed(rt: HostRuntime) {
    assert_eq!(rt; prints_again(rt.alloc(), &MIGRATION).ok(), Some(true));
    assert_eq!(rt; is_no_entry(rt.alloc(), &MIGRATION[..79]).ok(), Some(true));
}

#[test]
fn citations_are_read_and_printed(rt: HostRuntime) -> Result<(), Fail> {
    let alloc = rt.alloc();
    let bytes = citation(alloc, 3).ok().ok_or("there is memory")?;
    assert_eq!(rt; prints_again(alloc, &bytes).ok(), Some(true));
    Ok(())
}

// The byte of a direction is 0 or 1, and ten thousand bytes of `not` are no condition.
#[test]
fn no_other_conditions_and_directions(rt: HostRuntime) -> Result<(), Fail> {
    let alloc = rt.alloc();
    assert_eq!(rt; reads_the_citation(alloc, 10_000).ok(), Some(false));
    let mut bytes = citation(alloc, 0).ok().ok_or("there is memory")?;
    let length = bytes.len();
    if length > 11 {
        bytes[length - 11] = 2;
    }
    assert_eq!(rt; is_no_entry(alloc, &bytes).ok(), Some(true));
    Ok(())
}
