// A disk in memory under calls that fail and crashes, and one round over a file.
ghost use Rattle.std.specs.Prelude.{◌≡◌, IfOk};

use crate::{Choice, Disk, FileDisk, MemoryDisk, just_sync, read_at, read_length, write_synced};
use std::alloc::Global;
use std::test::Fail;

fn disk_of(alloc: Global, bytes: &[u8], fails: &[u64], stop: u64) -> Result<MemoryDisk, Fail>
    ensures { IfOk result (λ d. d.bytes.items ≡ bytes.now) }
{
    let disk = MemoryDisk::make(alloc, bytes.to_vec(alloc)?, fails.to_vec(alloc)?, stop)?;
    Ok(disk)
}

// A disk that had `abcd` at its last sync, and `XYZ` written from the third byte on since.
fn written_disk(alloc: Global) -> Result<MemoryDisk, Fail> {
    let mut disk = disk_of(alloc, b"abcd", &[], u64::MAX)?;
    disk.write_at(2, b"XYZ")?;
    Ok(disk)
}

#[test]
fn a_disk_reads_what_was_written(rt: HostRuntime) -> Result<(), Fail> {
    let mut disk = written_disk(rt.alloc())?;
    assert_eq!(rt; disk.bytes(), b"abXYZ".as_slice());
    assert_eq!(rt; read_length(&mut disk), Ok(5));
    let mut piece = [b'-'; 4];
    assert_eq!(rt; read_at(&mut disk, 3, &mut piece), Ok(2));
    assert_eq!(rt; &piece, b"YZ--");
    assert_eq!(rt; read_at(&mut disk, 9, &mut piece), Ok(0));
    Ok(())
}

#[test]
fn a_crash_leaves_one_of_the_images(rt: HostRuntime) -> Result<(), Fail> {
    let table: [(Choice, &[u8]); 3] = [
        (Choice::Old, b"abcd"),
        (Choice::New, b"abXYZ"),
        (Choice::Fill(b'?'), b"ab???"),
    ];
    for (choice, want) in table {
        let crashed = written_disk(rt.alloc())?.crash(choice)?;
        assert_eq!(rt; crashed.bytes(), want);
    }
    Ok(())
}

#[test]
fn what_was_synced_stays(rt: HostRuntime) -> Result<(), Fail> {
    for choice in [Choice::Old, Choice::New, Choice::Fill(0)] {
        let mut disk = written_disk(rt.alloc())?;
        assert_eq!(rt; just_sync(&mut disk), Ok(()));
        let crashed = disk.crash(choice)?;
        assert_eq!(rt; crashed.bytes(), b"abXYZ".as_slice());
    }
    Ok(())
}

// A failing write puts its bytes all the same, and they are not synced; a failing sync syncs nothing.
#[test]
fn calls_fail_as_they_are_told(rt: HostRuntime) -> Result<(), Fail> {
    let mut disk = disk_of(rt.alloc(), b"ab", &[1, 3], u64::MAX)?;
    assert!(rt; disk.write_at(2, b"c").is_err());
    assert_eq!(rt; disk.bytes(), b"abc".as_slice());
    assert_eq!(rt; disk.length(), Ok(3));
    assert!(rt; disk.sync().is_err());
    assert_eq!(rt; disk.faults(), 2);
    let mut crashed = disk.crash(Choice::Old)?;
    assert_eq!(rt; crashed.bytes(), b"ab".as_slice());
    assert_eq!(rt; crashed.sync(), Ok(()));
    assert_eq!(rt; crashed.faults(), 0);
    Ok(())
}

#[test]
fn a_stopped_disk_fails_each_later_call(rt: HostRuntime) -> Result<(), Fail> {
    let mut disk = disk_of(rt.alloc(), b"ab", &[], 1)?;
    assert_eq!(rt; disk.length(), Ok(2));
    assert!(rt; write_synced(&mut disk, 0, b"x").is_err());
    assert!(rt; disk.sync().is_err());
    assert!(rt; disk.length().is_err());
    assert_eq!(rt; disk.faults(), 3);
    Ok(())
}

#[test]
fn file_disk_round(rt: HostRuntime) -> Result<(), Fail> {
    let alloc = rt.alloc();
    let path = "file_disk_round.disk";
    let _ = std::fs::remove_file(&rt, path);
    let mut disk = FileDisk::make(rt, String::from_str(alloc, path)?);
    assert_eq!(rt; disk.length(), Ok(0));
    assert_eq!(rt; write_synced(&mut disk, 0, b"abcd"), Ok(()));
    assert_eq!(rt; write_synced(&mut disk, 2, b"XYZ"), Ok(()));
    assert_eq!(rt; disk.faults(), 0);
    let mut again = FileDisk::make(rt, String::from_str(alloc, path)?);
    let mut piece = [b'-'; 7];
    assert_eq!(rt; again.read(0, &mut piece), Ok(5));
    assert_eq!(rt; &piece, b"abXYZ--");
    let mut nowhere = FileDisk::make(rt, String::from_str(alloc, "no/such/folder")?);
    assert!(rt; nowhere.length().is_err());
    assert!(rt; nowhere.sync().is_err());
    assert_eq!(rt; nowhere.faults(), 2);
    let _ = std::fs::remove_file(&rt, path);
    Ok(())
}
