use crate::clock::SystemClock;
use crate::program::answer;
use crate::streams::{Input, Output};
use crate::words::Words;
use cite_disk::{FileDisk, MemoryDisk};
use cite_ports::{Clock, MemoryClock, Sink, Source};
use std::alloc::Global;
use std::io::{self, ErrorKind, Read, Write};
use std::rt::Files;
use std::test::Fail;
use std::thread::Threads;
use std::time;

const TABLE: &[u8] = b"sid:int,depth:int\n1,5\n2,12";

// A stream that is closed.
#[derive(Drop)]
struct Closed;

impl Read for Closed {
    fn read(&mut self, _buf: &mut [u8]) -> io::Result<usize> {
        Err(io::Error::from(ErrorKind::BrokenPipe))
    }
}

impl Write for Closed {
    fn write(&mut self, _buf: &[u8]) -> io::Result<usize> {
        Err(io::Error::from(ErrorKind::BrokenPipe))
    }

    fn flush(&mut self) -> io::Result<()> {
        Ok(())
    }
}

fn command(alloc: Global, words: &[&str]) -> Result<Vec<String>, Fail> {
    let mut all = Vec::new(alloc);
    for word in words {
        all.push(String::from_str(alloc, word)?)?;
    }
    Ok(all)
}

// The status where a run is to ask for no disk, which would fail, and for no moment.
fn apart<R: Threads + Sync, S: Source, K: Sink>(
    rt: &R,
    alloc: Global,
    words: &Words,
    source: &mut S,
    sink: &mut K,
) -> Result<u8, Fail> {
    let mut disk = MemoryDisk::make(alloc, Vec::new(alloc), Vec::new(alloc), 0)?;
    let mut clock = MemoryClock::make(Vec::from_array(alloc, [0])?)?;
    Ok(answer(rt, alloc, words, source, sink, &mut disk, &mut clock))
}

// The status and what was written, where the table is the input.
fn answered<R: Threads + Sync>(
    rt: &R,
    alloc: Global,
    words: &Words,
) -> Result<(u8, Vec<u8>), Fail> {
    let mut input: &[u8] = TABLE;
    let mut written = Vec::new(alloc);
    let mut source = Input::new(&mut input);
    let status = apart(
        rt,
        alloc,
        words,
        &mut source,
        &mut Output::new(&mut written),
    )?;
    Ok((status, written))
}

#[test]
fn a_command_ends_with_its_status(rt: HostRuntime) -> Result<(), Fail> {
    let alloc = rt.alloc();
    let words = Words::Command(command(alloc, &["select", "depth", "10", "20"])?);
    let (status, written) = answered(&rt, alloc, &words)?;
    assert_eq!(rt; status, 0);
    assert_eq!(rt;
        written.as_slice(),
        b"\"sid\",\"depth\"\n\"2\",\"12\"\n".as_slice()
    );
    Ok(())
}

#[test]
fn no_file_is_no_command(rt: HostRuntime) -> Result<(), Fail> {
    let alloc = rt.alloc();
    let (status, written) = answered(&rt, alloc, &Words::NoFile)?;
    assert_eq!(rt; status, 2);
    assert!(rt; written.is_empty());
    Ok(())
}

#[test]
fn a_closed_input_is_a_read_fault(rt: HostRuntime) -> Result<(), Fail> {
    let alloc = rt.alloc();
    let words = Words::Command(command(alloc, &["select", "depth", "10", "20"])?);
    let mut written = Vec::new(alloc);
    let mut sink = Output::new(&mut written);
    let status = apart(&rt, alloc, &words, &mut Input::new(Closed), &mut sink)?;
    assert_eq!(rt; status, 3);
    Ok(())
}

#[test]
fn a_closed_output_is_a_write_fault(rt: HostRuntime) -> Result<(), Fail> {
    let alloc = rt.alloc();
    let words = Words::Command(command(alloc, &["select", "depth", "10", "20"])?);
    let mut input: &[u8] = TABLE;
    let mut source = Input::new(&mut input);
    let mut sink = Output::new(Closed);
    let status = apart(&rt, alloc, &words, &mut source, &mut sink)?;
    assert_eq!(rt; status, 4);
    Ok(())
}

// The status and what was written, over the file at a path, at the system's moment.
fn over_a_file<R: Threads + Sync + Files + time::Clock + Copy + Drop>(
    rt: R,
    alloc: Global,
    path: &str,
    words: &[&str],
) -> Result<(u8, Vec<u8>), Fail> {
    let words = Words::Command(command(alloc, words)?);
    let mut input: &[u8] = TABLE;
    let mut written = Vec::new(alloc);
    let mut source = Input::new(&mut input);
    let mut sink = Output::new(&mut written);
    let mut disk = FileDisk::make(rt, String::from_str(alloc, path)?);
    let mut clock = SystemClock::new(rt);
    let status = answer(
        &rt,
        alloc,
        &words,
        &mut source,
        &mut sink,
        &mut disk,
        &mut clock,
    );
    Ok((status, written))
}

// Founded, opened again, and found occupied.
#[test]
fn an_archive_on_a_file(rt: HostRuntime) -> Result<(), Fail> {
    let alloc = rt.alloc();
    let path = "an_archive_on_a_file.archive";
    let _ = std::fs::remove_file(&rt, path);
    let founding = ["init", "10.5072", "Lab", "Rey, A.", "Depths", "sid:int"];
    let (status, name) = over_a_file(rt, alloc, path, &founding)?;
    assert_eq!(rt; status, 0);
    assert_eq!(rt; name.as_slice(), b"10.5072/d1\n".as_slice());
    let (status, counts) = over_a_file(rt, alloc, path, &["verify"])?;
    assert_eq!(rt; status, 0);
    assert_eq!(rt;
        counts.as_slice(),
        b"version 1\nschema 1\nrows 0\ncitations 0\n".as_slice()
    );
    let (status, line) = over_a_file(rt, alloc, path, &founding)?;
    assert_eq!(rt; status, 7);
    assert_eq!(rt; line.as_slice(), b"Occupied\n".as_slice());
    let _ = std::fs::remove_file(&rt, path);
    Ok(())
}

// The clock is later than the day on which this was written, and before the year 10000.
#[test]
fn the_clock_of_the_system(rt: HostRuntime) -> Result<(), Fail> {
    let mut clock = SystemClock::new(rt);
    let now = clock.now();
    assert!(rt; (1_704_067_200..253_402_300_800).contains(&now));
    Ok(())
}
