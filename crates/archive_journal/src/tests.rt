// Journals that a crash or a stranger left, and calls that fail one by one.
mod log;

use crate::tests::log::Log;
use crate::{Journal, JournalFault};
use cite_disk::{Choice, Disk, MemoryDisk};
use std::alloc::Global;
use std::test::Fail;

// The journal of the one payload `abc`.
const ABC: [u8; 57] = [
    0x52, 0x44, 0x41, 0x43, 0x49, 0x54, 0x45, 0x0a, 0, 0, 0, 1, 0, 0, 0, 0, 1, 0, 0, 0, 3, 0x61,
    0x62, 0x63, 0xba, 0x78, 0x16, 0xbf, 0x8f, 0x01, 0xcf, 0xea, 0x41, 0x41, 0x40, 0xde, 0x5d, 0xae,
    0x22, 0x23, 0xb0, 0x03, 0x61, 0xa3, 0x96, 0x17, 0x7a, 0x9c, 0xb4, 0x10, 0xff, 0x61, 0xf2, 0x00,
    0x15, 0xad, 0,
];

fn disk_of(alloc: Global, bytes: &[u8], stop_after: u64) -> Result<MemoryDisk, Fail> {
    let disk = MemoryDisk::make(alloc, bytes.to_vec(alloc)?, Vec::new(alloc), stop_after)?;
    Ok(disk)
}

// How many payloads are read, and what is then there.
fn opened<D: Disk>(alloc: Global, disk: &mut D) -> Result<usize, JournalFault> {
    match Log::open(alloc, disk) {
        Ok((_, payloads)) => Ok(payloads.len()),
        Err(fault) => Err(fault),
    }
}

fn open_and_add<D: Disk>(alloc: Global, disk: &mut D) -> Result<(), JournalFault> {
    match Log::open(alloc, disk) {
        Ok((mut log, _)) => {
            if log.length() < 1 << 40 {
                log.add(alloc, disk, b"de")
            } else {
                Ok(())
            }
        }
        Err(fault) => Err(fault),
    }
}

#[test]
fn a_journal_is_made(rt: HostRuntime) -> Result<(), Fail> {
    let mut disk = disk_of(rt.alloc(), &[], u64::MAX)?;
    assert!(rt; Journal::create(rt.alloc(), &mut disk, b"abc").is_ok());
    assert_eq!(rt; disk.bytes(), ABC.as_slice());
    assert!(rt; Journal::create(rt.alloc(), &mut disk, b"abc").is_err());
    assert_eq!(rt; opened(rt.alloc(), &mut disk), Ok(1));
    Ok(())
}

#[test]
fn damaged_journals_are_told(rt: HostRuntime) -> Result<(), Fail> {
    let changes = [
        (0, 0, Err(JournalFault::NotArchive)),
        (16, 0, Err(JournalFault::NotArchive)),
        (17, 1, Err(JournalFault::Damaged { at: 16 })),
        (21, b'x', Err(JournalFault::Damaged { at: 16 })),
        (56, 7, Ok(1)),
        (56, 1, Err(JournalFault::Damaged { at: 56 })),
        (56, 0, Ok(1)),
    ];
    for (place, byte, want) in changes {
        let mut bytes = ABC;
        bytes[place % 57] = byte;
        let mut disk = disk_of(rt.alloc(), &bytes, u64::MAX)?;
        assert_eq!(rt; opened(rt.alloc(), &mut disk), want, "at {place}");
        if want.is_ok() {
            assert_eq!(rt; disk.bytes(), ABC.as_slice());
        }
    }
    let mut short = disk_of(rt.alloc(), &ABC[..56], u64::MAX)?;
    assert_eq!(rt;
        opened(rt.alloc(), &mut short),
        Err(JournalFault::Damaged { at: 16 })
    );
    let mut bytes = ABC.to_vec(rt.alloc())?;
    bytes.extend_from_slice(&[255; 10])?;
    let mut long = disk_of(rt.alloc(), &bytes, u64::MAX)?;
    assert_eq!(rt; opened(rt.alloc(), &mut long), Ok(1));
    Ok(())
}

#[test]
fn each_stop_leaves_the_old_or_the_new(rt: HostRuntime) -> Result<(), Fail> {
    let mut kept = false;
    for choice in [
        Choice::Old,
        Choice::New,
        Choice::Fill(0),
        Choice::Fill(1),
        Choice::Fill(255),
    ] {
        for stop_after in 0..20 {
            let mut disk = disk_of(rt.alloc(), &ABC, stop_after)?;
            let added = open_and_add(rt.alloc(), &mut disk);
            let mut crashed = disk.crash(choice)?;
            let found = opened(rt.alloc(), &mut crashed);
            if added.is_ok() {
                assert_eq!(rt; found, Ok(2), "after {stop_after}");
                kept = true;
            } else {
                assert!(rt; found == Ok(1) || found == Ok(2), "after {stop_after}");
            }
        }
    }
    assert!(rt; kept);
    Ok(())
}

// How many payloads stand where the disk stops behind that call and crashes. Opening takes five calls, and adding four:
// the record, a sync, the gate, a sync.
fn left_after(alloc: Global, stop_after: u64, choice: Choice) -> Result<usize, Fail> {
    let mut disk = disk_of(alloc, &ABC, stop_after)?;
    let _ = open_and_add(alloc, &mut disk);
    let mut crashed = disk.crash(choice)?;
    match opened(alloc, &mut crashed) {
        Ok(count) => Ok(count),
        Err(_) => Ok(0),
    }
}

#[test]
fn a_commit_stands_by_its_gate(rt: HostRuntime) -> Result<(), Fail> {
    let table = [
        (5, Choice::Old, 1),
        (5, Choice::New, 1),
        (5, Choice::Fill(1), 1),
        (6, Choice::Old, 1),
        (6, Choice::New, 1),
        (6, Choice::Fill(1), 1),
        (7, Choice::Old, 1),
        (7, Choice::New, 2),
        (7, Choice::Fill(1), 2),
        (7, Choice::Fill(7), 1),
        (8, Choice::Old, 1),
        (8, Choice::New, 2),
        (9, Choice::Old, 2),
        (9, Choice::New, 2),
    ];
    for (stop_after, choice, want) in table {
        assert_eq!(rt;
            left_after(rt.alloc(), stop_after, choice)?,
            want,
            "after {stop_after}"
        );
    }
    Ok(())
}

// A fault of one call refuses no later one.
#[test]
fn a_fault_refuses_nothing_later(rt: HostRuntime) -> Result<(), Fail> {
    let alloc = rt.alloc();
    for failing in 6..10 {
        let mut disk = MemoryDisk::make(
            alloc,
            ABC.to_vec(alloc)?,
            [failing].to_vec(alloc)?,
            u64::MAX,
        )?;
        assert_eq!(rt;
            open_and_add(alloc, &mut disk),
            Err(JournalFault::DiskFailed)
        );
        assert_eq!(rt; open_and_add(alloc, &mut disk), Ok(()));
        assert_eq!(rt; disk.faults(), 1);
    }
    Ok(())
}

#[test]
fn a_longest_length_field_is_damage(rt: HostRuntime) -> Result<(), Fail> {
    let mut bytes = ABC;
    bytes[17] = 255;
    bytes[18] = 255;
    bytes[19] = 255;
    bytes[20] = 255;
    let mut disk = disk_of(rt.alloc(), &bytes, u64::MAX)?;
    assert_eq!(rt;
        opened(rt.alloc(), &mut disk),
        Err(JournalFault::Damaged { at: 16 })
    );
    bytes = ABC;
    bytes[55] ^= 1;
    let mut wrong = disk_of(rt.alloc(), &bytes, u64::MAX)?;
    assert_eq!(rt;
        opened(rt.alloc(), &mut wrong),
        Err(JournalFault::Damaged { at: 16 })
    );
    Ok(())
}

// Every front of a journal that is too short for its header and its first gate is no archive.
#[test]
fn a_header_cut_short_is_no_archive(rt: HostRuntime) -> Result<(), Fail> {
    for length in 0..17 {
        let mut disk = disk_of(rt.alloc(), &ABC[..length], u64::MAX)?;
        assert_eq!(rt;
            opened(rt.alloc(), &mut disk),
            Err(JournalFault::NotArchive)
        );
    }
    Ok(())
}
