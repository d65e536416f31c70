// A disk that is a file of the system. It tells nothing of its content: the trusted edge.
ghost use Rattle.std.specs.Prelude.{◌≡◌, ◌≤◌, [], length, IfOk, None, false};

use crate::disk::Disk;
use cite_ports::Failed;
use std::fs::{OpenFile, OpenOptions};
use std::io;
use std::io::{Read, Seek, SeekFrom, Write};
use std::rt::Files;

// A file that is opened, and made where it is missing, at the first call.
#[derive(Drop)]
struct Handle<R: Files + Drop> {
    rt: R,
    path: String,
    file: Option<R::File>,
}

/// A file of the system, opened at the first call, and made empty where it is not there.
///
/// It tells nothing of its content: this is the trusted edge. A write writes all of its bytes or counts a fault. A sync
/// is the file's `sync_all` and not `sync_data`, since a journal grows and its new length has to last too. After a
/// failed sync each later sync fails as well: the system may have forgotten what it could not write, and would then
/// report success. A new file's name lasts only once the system has written its folder, which no call here does.
#[derive(Drop)]
pub struct FileDisk<R: Files + Drop> {
    handle: Handle<R>,
    // a sync has failed
    lost: bool,
    faults: u64,
}

// Reads until the buffer is full or the file ends.
fn fill<F: Read>(file: &mut F, into: &mut [u8]) -> io::Result<usize>
    ensures { IfOk result (λ n. n ≤ length into.old) }
{
    let mut done = 0;
    for _ in 0..u64::MAX {
        if done >= into.len() {
            break;
        }
        match file.read(&mut into[done..]) {
            Ok(0) => break,
            Ok(count) => done += count,
            Err(error) if error.kind() == io::ErrorKind::Interrupted => {}
            Err(error) => return Err(error),
        }
    }
    Ok(done)
}

fn opened<R: Files>(rt: &R, path: &str) -> io::Result<R::File> {
    OpenOptions::new()
        .read(true)
        .write(true)
        .create(true)
        .open(rt, path)
}

impl<R: Files + Drop> Handle<R> {
    // The file, opened now if it was not.
    fn file(&mut self) -> io::Result<&mut R::File> {
        if self.file.is_none() {
            self.file = Some(opened(&self.rt, &self.path)?);
        }
        match &mut self.file {
            Some(file) => Ok(file),
            None => Err(io::ErrorKind::NotFound.into()),
        }
    }

    fn length(&mut self) -> io::Result<u64> {
        Ok(self.file()?.metadata()?.len())
    }

    fn read(&mut self, at: u64, into: &mut [u8]) -> io::Result<usize> {
        let file = self.file()?;
        file.seek(SeekFrom::Start(at))?;
        fill(file, into)
    }

    fn write(&mut self, at: u64, bytes: &[u8]) -> io::Result<()> {
        let file = self.file()?;
        file.seek(SeekFrom::Start(at))?;
        file.write_all(bytes)
    }

    fn sync(&mut self) -> io::Result<()> {
        self.file()?.sync_all()
    }
}

impl<R: Files + Drop> FileDisk<R> {
    /// The file at a path. It is not opened yet, so this takes no memory and cannot fail.
    pub fn make(rt: R, path: String) -> FileDisk<R>
        ensures path { result.handle.path ≡ path }
        ensures unopened { result.handle.file ≡ None }
        ensures fresh { (result.lost ≡ false) × (result.faults ≡ 0) }
    {
        FileDisk {
            handle: Handle {
                rt,
                path,
                file: None,
            },
            lost: false,
            faults: 0,
        }
    }
}

impl<R: Files + Drop> Disk for FileDisk<R> {
    ghost honest = { ⊥ };

    ghost seen = { λ d. [] };

    ghost images = { λ d b. ⊥ };

    ghost moment = { λ d. 0 };

    ghost left_since = { λ d t b. ⊥ };

    ghost fault_count = { λ d. d.faults };

    ghost reads = { λ told d. absurd told };

    ghost counts_now = { λ told d t b le now. absurd told };

    ghost only_now = { λ told d b left. absurd told };

    fn length(&mut self) -> Result<u64, Failed> {
        let Ok(length) = self.handle.length() else {
            self.faults = self.faults.saturating_add(1);
            return Err(Failed);
        };
        Ok(length)
    }

    fn read(&mut self, at: u64, into: &mut [u8]) -> Result<usize, Failed> {
        let Ok(count) = self.handle.read(at, into) else {
            self.faults = self.faults.saturating_add(1);
            return Err(Failed);
        };
        Ok(count)
    }

    fn write_at(&mut self, at: u64, bytes: &[u8]) -> Result<(), Failed> {
        let Ok(()) = self.handle.write(at, bytes) else {
            self.faults = self.faults.saturating_add(1);
            return Err(Failed);
        };
        Ok(())
    }

    fn sync(&mut self) -> Result<(), Failed> {
        if self.lost {
            self.faults = self.faults.saturating_add(1);
            return Err(Failed);
        }
        let Ok(()) = self.handle.sync() else {
            self.lost = true;
            self.faults = self.faults.saturating_add(1);
            return Err(Failed);
        };
        Ok(())
    }

    fn faults(&self) -> u64 {
        self.faults
    }
}
