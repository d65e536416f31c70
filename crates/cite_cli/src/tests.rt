// The commands over a source, a sink, a disk and a clock in memory: `select` here, the others beside it.
mod archives;
mod foundings;
mod sessions;

use crate::command::run;
use cite_disk::{Disk, MemoryDisk};
use cite_ports::{Clock, MemoryClock, MemorySink, MemorySource, Sink, Source};
use std::alloc::Global;
use std::process::Abort;
use std::test::Fail;
use std::thread::Threads;

struct Case {
    words: &'static [&'static str],
    input: &'static [u8],
    status: u8,
    output: &'static [u8],
}

const DEPTHS: &[&str] = &["select", "depth", "10", "20"];

// What a table of numbers answers.
const NUMBERS: [Case; 7] = [
    Case {
        words: DEPTHS,
        input: b"sid:int,depth:int\n1,5\n2,12\n",
        status: 0,
        output: b"\"sid\",\"depth\"\n\"2\",\"12\"\n",
    },
    // A header alone.
    Case {
        words: DEPTHS,
        input: b"sid:int,depth:int\n",
        status: 0,
        output: b"\"sid\",\"depth\"\n",
    },
    // LO is in, HI is out.
    Case {
        words: DEPTHS,
        input: b"sid:int,depth:int\n1,10\n2,19\n3,20\n",
        status: 0,
        output: b"\"sid\",\"depth\"\n\"1\",\"10\"\n\"2\",\"19\"\n",
    },
    // By the key, whatever the order of the lines.
    Case {
        words: DEPTHS,
        input: b"sid:int,depth:int\n2,12\n1,12\n",
        status: 0,
        output: b"\"sid\",\"depth\"\n\"1\",\"12\"\n\"2\",\"12\"\n",
    },
    // Negative keys, signs, leading zeros, quoted fields, CRLF, an empty line, a byte order mark.
    Case {
        words: DEPTHS,
        input: b"\xEF\xBB\xBFsid:int,\"depth:int\"\r\n+3,\"012\"\r\n\r\n-7,10\r\n",
        status: 0,
        output: b"\"sid\",\"depth\"\n\"-7\",\"10\"\n\"3\",\"12\"\n",
    },
    // Bare CR ends lines too, and the last line needs no end.
    Case {
        words: DEPTHS,
        input: b"sid:int,depth:int\r1,11\r2,12",
        status: 0,
        output: b"\"sid\",\"depth\"\n\"1\",\"11\"\n\"2\",\"12\"\n",
    },
    // By the key itself, where nothing is chosen.
    Case {
        words: &["select", "sid", "7", "7"],
        input: b"sid:int,depth:int\n7,7\n",
        status: 0,
        output: b"\"sid\",\"depth\"\n",
    },
];

// The ends of the numbers, and no end.
const ENDS: [Case; 3] = [
    Case {
        words: &["select", "x", "9223372036854775807", "none"],
        input: b"sid:int,x:int\n1,9223372036854775807\n2,9223372036854775806\n",
        status: 0,
        output: b"\"sid\",\"x\"\n\"1\",\"9223372036854775807\"\n",
    },
    Case {
        words: &["select", "x", "0", "9223372036854775807"],
        input: b"sid:int,x:int\n1,9223372036854775807\n2,9223372036854775806\n",
        status: 0,
        output: b"\"sid\",\"x\"\n\"2\",\"9223372036854775806\"\n",
    },
    Case {
        words: &[
            "select",
            "x",
            "-9223372036854775808",
            "-9223372036854775807",
        ],
        input: b"sid:int,x:int\n1,-9223372036854775808\n2,-9223372036854775807\n",
        status: 0,
        output: b"\"sid\",\"x\"\n\"1\",\"-9223372036854775808\"\n",
    },
];

// Text columns.
const TEXTS: [Case; 4] = [
    Case {
        words: &["select", "sid", "10", "20"],
        input: b"sid:int,name:text\n",
        status: 0,
        output: b"\"sid\",\"name\"\n",
    },
    // Quotes, a comma and a line feed in a cell, and an empty cell.
    Case {
        words: &["select", "n", "0", "none"],
        input: b"n:int,t:text\n1,\"a\"\"b,c\nd\"\n2,\n",
        status: 0,
        output: b"\"n\",\"t\"\n\"1\",\"a\"\"b,c\nd\"\n\"2\",\"\"\n",
    },
    // Keys that are texts stand in the order of their bytes: `10` before `9`, capitals before small letters.
    Case {
        words: &["select", "n", "0", "3"],
        input: b"name:text,n:int\nb,1\n9,2\n10,0\nB,2\na,3\n,1\n",
        status: 0,
        output: b"\"name\",\"n\"\n\"\",\"1\"\n\"10\",\"0\"\n\"9\",\"2\"\n\"B\",\"2\"\n\"b\",\"1\"\n",
    },
    // A text need not be UTF-8.
    Case {
        words: &["select", "n", "1", "2"],
        input: b"n:int,t:text\n1,\xFF\xFE\n",
        status: 0,
        output: b"\"n\",\"t\"\n\"1\",\"\xFF\xFE\"\n",
    },
];

// The words, the input, and the line that is written.
type Refused = (&'static [&'static str], &'static [u8], &'static [u8]);

// Inputs without a header, and columns that are not there or hold texts. Nothing behind them is looked at.
const HEADERS: [Refused; 11] = [
    (DEPTHS, b"", b"Refused BadHeader\n"),
    (DEPTHS, b"\n\r\n", b"Refused BadHeader\n"),
    (DEPTHS, b"sid,depth\n1,5\n", b"Refused BadHeader\n"),
    (DEPTHS, b"sid:int,depth:real\n1,5\n", b"Refused BadHeader\n"),
    (
        DEPTHS,
        b"sid:int,depth:int,sid:text\n1,5\n",
        b"Refused BadHeader\n",
    ),
    (DEPTHS, b"sid:int,1depth:int\n", b"Refused BadHeader\n"),
    (
        DEPTHS,
        b"\xEF\xBB\xBF\xEF\xBB\xBFsid:int,depth:int\n",
        b"Refused BadHeader\n",
    ),
    (
        &["select", "temp", "1", "2"],
        b"sid:int,depth:int\n1,5\n2,12\n",
        b"Refused UnknownColumn\n",
    ),
    (DEPTHS, b"sid:int,name:text\n", b"Refused UnknownColumn\n"),
    (
        &["select", "temp", "1", "2"],
        b"sid:int,depth:int\n1,x\n",
        b"Refused UnknownColumn\n",
    ),
    (
        &["select", "t", "1", "2"],
        b"n:int,t:text\n1\n",
        b"Refused WrongKind\n",
    ),
];

// Lines that break a rule: the first one decides, and in it the width, then the cells, then the key.
const LINES: [Refused; 12] = [
    (
        DEPTHS,
        b"sid:int,depth:int\n1,x\n",
        b"Refused BadCell 1 1\n",
    ),
    (
        DEPTHS,
        b"sid:int,depth:int\nx,x\n",
        b"Refused BadCell 1 0\n",
    ),
    (
        DEPTHS,
        b"sid:int,depth:int\n1,\xFF\n",
        b"Refused BadCell 1 1\n",
    ),
    (
        DEPTHS,
        b"sid:int,depth:int\n1,9223372036854775808\n",
        b"Refused BadCell 1 1\n",
    ),
    (
        DEPTHS,
        b"sid:int,depth:int\n1,5\n1,6\n",
        b"Refused KeyTwice 2\n",
    ),
    (
        DEPTHS,
        b"sid:int,depth:int\n1,5\n\n01,6\n1,7\n",
        b"Refused KeyTwice 2\n",
    ),
    (
        DEPTHS,
        b"sid:int,depth:int\n1,5\n2,5\n1,x\n",
        b"Refused BadCell 3 1\n",
    ),
    (
        DEPTHS,
        b"sid:int,depth:int\n1,5\n1,6\n2\n",
        b"Refused KeyTwice 2\n",
    ),
    (
        DEPTHS,
        b"sid:int,depth:int\n1,5,6\n",
        b"Refused BadWidth 1\n",
    ),
    (
        DEPTHS,
        b"sid:int,depth:int\n1,5\nx\n",
        b"Refused BadWidth 2\n",
    ),
    (
        &["select", "n", "1", "2"],
        b"t:text,n:int\na,1\nb,1\na,2\n",
        b"Refused KeyTwice 3\n",
    ),
    (
        &["select", "n", "1", "2"],
        b"t:text,n:int\n1,1\n01,1\n1,1\n",
        b"Refused KeyTwice 3\n",
    ),
];

const NO_FORM: [&[&str]; 19] = [
    &[],
    &["select"],
    &["select", "depth", "10"],
    &["select", "depth", "a", "2"],
    &["select", "depth", "none", "20"],
    &["select", "depth", "10", "None"],
    &["select", "depth", "10", ""],
    &["select", "depth", "10", "20", "30"],
    &["Select", "depth", "10", "20"],
    &["init"],
    &["init", "10.5072", "Lab", "Rey, A.", "Depths"],
    &["Init", "10.5072", "Lab", "Rey, A.", "Depths", "sid:int"],
    &["verify", "now"],
    &["Verify"],
    &["session", "now"],
    &["Session"],
    &["load", "1"],
    &["load"],
    &[""],
];

fn words_of(alloc: Global, words: &[&str]) -> Result<Vec<String>, Fail> {
    let mut owned = Vec::new(alloc);
    for word in words {
        owned.push(String::from_str(alloc, word)?)?;
    }
    Ok(owned)
}

fn source_of(
    alloc: Global,
    input: &[u8],
    piece: usize,
    fails: &[u64],
) -> Result<MemorySource, Fail> {
    let bytes = Vec::from_slice(alloc, input)?;
    let fails = Vec::from_slice(alloc, fails)?;
    Ok(MemorySource::make(bytes, piece.max(1), fails)?)
}

fn sink_of(alloc: Global, fails: &[u64]) -> Result<MemorySink, Fail> {
    Ok(MemorySink::make(alloc, Vec::from_slice(alloc, fails)?)?)
}

// The status of a run. It promises nothing, so that those who call it have no clause to carry.
fn ended<R: Threads + Sync, S: Source, K: Sink, D: Disk, C: Clock>(
    rt: &R,
    alloc: Global,
    words: &Vec<String>,
    source: &mut S,
    sink: &mut K,
    disk: &mut D,
    clock: &mut C,
) -> u8 {
    run(rt, alloc, words, source, sink, disk, clock)
}

// The status of a run that is to ask neither the disk nor the clock: the disk would fail at each call.
fn apart<R: Threads + Sync>(
    rt: &R,
    alloc: Global,
    words: &Vec<String>,
    source: &mut MemorySource,
    sink: &mut MemorySink,
) -> Result<u8, Fail> {
    let mut disk = MemoryDisk::make(alloc, Vec::new(alloc), Vec::new(alloc), 0)?;
    let mut clock = MemoryClock::make(Vec::from_array(alloc, [0])?)?;
    Ok(ended(rt, alloc, words, source, sink, &mut disk, &mut clock))
}

// The words over the input give this, in one piece and cut into single bytes. Memory is not found wanting: the status
// says so.
fn gives<R: Threads + Sync + Abort>(
    rt: &R,
    alloc: Global,
    words: &[&str],
    input: &[u8],
    status: u8,
    output: &[u8],
) -> Result<(), Fail> {
    for piece in [1000, 1] {
        let words = words_of(alloc, words)?;
        let mut source = source_of(alloc, input, piece, &[])?;
        let mut sink = sink_of(alloc, &[])?;
        let answered = apart(rt, alloc, &words, &mut source, &mut sink)?;
        assert_eq!(rt; answered, status);
        assert_eq!(rt; sink.bytes(), output);
    }
    Ok(())
}

fn run_cases<R: Threads + Sync + Abort>(rt: &R, alloc: Global, cases: &[Case]) -> Result<(), Fail> {
    for case in cases {
        gives(rt, alloc, case.words, case.input, case.status, case.output)?;
    }
    Ok(())
}

fn are_refused<R: Threads + Sync + Abort>(
    rt: &R,
    alloc: Global,
    cases: &[Refused],
) -> Result<(), Fail> {
    for (words, input, line) in cases {
        gives(rt, alloc, words, input, 10, line)?;
    }
    Ok(())
}

#[test]
fn tables_of_numbers(rt: HostRuntime) -> Result<(), Fail> {
    run_cases(&rt, rt.alloc(), &NUMBERS)
}

#[test]
fn ends_of_numbers(rt: HostRuntime) -> Result<(), Fail> {
    run_cases(&rt, rt.alloc(), &ENDS)
}

#[test]
fn tables_with_texts(rt: HostRuntime) -> Result<(), Fail> {
    run_cases(&rt, rt.alloc(), &TEXTS)
}

#[test]
fn headers_and_columns_that_are_refused(rt: HostRuntime) -> Result<(), Fail> {
    are_refused(&rt, rt.alloc(), &HEADERS)
}

#[test]
fn lines_that_are_refused(rt: HostRuntime) -> Result<(), Fail> {
    are_refused(&rt, rt.alloc(), &LINES)
}

// A text as long as a cell may be, and one byte longer.
#[test]
fn the_longest_text(rt: HostRuntime) -> Result<(), Fail> {
    let alloc = rt.alloc();
    let mut input = b"n:int,t:text\n1,".as_slice().to_vec(alloc)?;
    input.resize(15 + 65_535, b'x')?;
    let mut output = b"\"n\",\"t\"\n\"1\",\"".as_slice().to_vec(alloc)?;
    output.resize(13 + 65_535, b'x')?;
    output.extend_from_slice(b"\"\n")?;
    let words = ["select", "n", "1", "2"];
    gives(&rt, alloc, &words, input.as_slice(), 0, output.as_slice())?;
    input.push(b'x')?;
    gives(
        &rt,
        alloc,
        &words,
        input.as_slice(),
        10,
        b"Refused BadCell 1 1\n",
    )
}

// A header of a number column and so many text columns.
fn wide_header(alloc: Global, texts: usize) -> Result<String, Fail> {
    let mut header = String::from_str(alloc, "n:int")?;
    for i in 0..texts {
        header.push_str(format!(in alloc; ",t{i}:text")?.as_str())?;
    }
    Ok(header)
}

// As many columns as a table may have, and one more.
#[test]
fn the_widest_table(rt: HostRuntime) -> Result<(), Fail> {
    let alloc = rt.alloc();
    let words = ["select", "m", "1", "2"];
    let header = wide_header(alloc, 63)?;
    gives(
        &rt,
        alloc,
        &words,
        header.as_bytes(),
        10,
        b"Refused UnknownColumn\n",
    )?;
    let header = wide_header(alloc, 64)?;
    gives(
        &rt,
        alloc,
        &words,
        header.as_bytes(),
        10,
        b"Refused BadHeader\n",
    )
}

#[test]
fn words_without_a_form(rt: HostRuntime) -> Result<(), Fail> {
    let alloc = rt.alloc();
    for words in &NO_FORM {
        let words = words_of(alloc, words)?;
        let mut source = source_of(alloc, b"sid:int,depth:int\n", 1000, &[])?;
        let mut sink = sink_of(alloc, &[])?;
        assert_eq!(rt; apart(&rt, alloc, &words, &mut source, &mut sink)?, 2);
        assert!(rt; sink.bytes().is_empty());
    }
    Ok(())
}

// The second call of the source fails in mid-stream.
#[test]
fn a_source_that_fails(rt: HostRuntime) -> Result<(), Fail> {
    let alloc = rt.alloc();
    let words = words_of(alloc, DEPTHS)?;
    let mut source = source_of(alloc, b"sid:int,depth:int\n2,12\n", 20, &[2])?;
    let mut sink = sink_of(alloc, &[])?;
    let status = apart(&rt, alloc, &words, &mut source, &mut sink)?;
    assert_eq!(rt; status, 3);
    assert!(rt; sink.bytes().is_empty());
    Ok(())
}

#[test]
fn a_sink_that_fails(rt: HostRuntime) -> Result<(), Fail> {
    let alloc = rt.alloc();
    let words = words_of(alloc, DEPTHS)?;
    let mut source = source_of(alloc, b"sid:int,depth:int\n2,12\n", 1000, &[])?;
    let mut sink = sink_of(alloc, &[1])?;
    assert_eq!(rt; apart(&rt, alloc, &words, &mut source, &mut sink)?, 4);
    assert!(rt; sink.bytes().is_empty());
    Ok(())
}

// One byte more than an input may have.
#[test]
fn an_input_that_is_too_long(rt: HostRuntime) -> Result<(), Fail> {
    let alloc = rt.alloc();
    let words = words_of(alloc, DEPTHS)?;
    let bytes = vec![in alloc; b'x'; 67_108_865]?;
    let mut source = MemorySource::make(bytes, 1_000_000, Vec::new(alloc))?;
    let mut sink = sink_of(alloc, &[])?;
    assert_eq!(rt; apart(&rt, alloc, &words, &mut source, &mut sink)?, 9);
    assert!(rt; sink.bytes().is_empty());
    Ok(())
}
