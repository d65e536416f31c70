// Readers and writers as sources and sinks. What std tells of a reader's or a writer's content, these tell; of the streams
// of the operating system it tells nothing, and there the operating system is trusted.
ghost use Rattle.std.specs.Prelude.{◌≡◌, ◌<◌, length};
ghost use Rattle.std.specs.Io.{ReadsAtMost, WritesAtMost};
ghost use Rattle.std.specs.Io.KnownBytes.{ReadConsumes, WriteAppends};

use cite_ports::{Failed, Sink, Source};
use std::io::{self, ErrorKind, Read, Write};

// How often a call that a signal interrupted is made before it counts as a fault.
const TRIES: u32 = 1000;

/// A source over a reader: what is left is what remains of the reader, where it tells that. It counts a fault at each
/// error.
#[derive(Drop)]
pub struct Input<R> {
    reader: R,
    faults: u64,
}

/// A sink into a writer: what was written is the writer's contents, where it tells them. It counts a fault at each error
/// and where the writer takes no byte. It doesn't flush: give it a writer with no buffer of its own, so that whoever waits
/// for an answer gets it.
#[derive(Drop)]
pub struct Output<W> {
    writer: W,
    faults: u64,
}

impl<R: Read> Input<R> {
    /// A source of what the reader gives, with no fault counted.
    pub fn new(reader: R) -> Input<R>
        ensures reader { result.reader ≡ reader }
        ensures faults { result.faults ≡ 0 }
    {
        Input { reader, faults: 0 }
    }
}

impl<W: Write> Output<W> {
    /// A sink into the writer, with no fault counted.
    pub fn new(writer: W) -> Output<W>
        ensures writer { result.writer ≡ writer }
        ensures faults { result.faults ≡ 0 }
    {
        Output { writer, faults: 0 }
    }
}

impl<R: Read> Source for Input<R> {
    ghost left = { λ s. R.remaining s.reader };

    ghost faults_of = { λ s. s.faults };

    fn take(&mut self, into: &mut [u8]) -> Result<usize, Failed> {
        match read_retrying(&mut self.reader, into) {
            Ok(count) => Ok(count),
            Err(_) => {
                self.faults = self.faults.saturating_add(1);
                Err(Failed)
            }
        }
    }

    fn faults(&self) -> u64 {
        self.faults
    }
}

impl<W: Write> Sink for Output<W> {
    ghost written = { λ s. W.contents s.writer };

    ghost faults_of = { λ s. s.faults };

    fn put(&mut self, piece: &[u8]) -> Result<usize, Failed> {
        match write_retrying(&mut self.writer, piece) {
            Ok(count) if count > 0 => Ok(count),
            _ => {
                self.faults = self.faults.saturating_add(1);
                Err(Failed)
            }
        }
    }

    fn faults(&self) -> u64 {
        self.faults
    }
}

// Reads once, and again where a signal interrupted the call.
fn read_retrying<R: Read>(reader: &mut R, into: &mut [u8]) -> io::Result<usize>
    ensures room { ReadsAtMost result into.new }
    ensures bytes { ReadConsumes (R.remaining reader.old) (R.remaining reader.new) result into.new }
{
    for _ in 1..TRIES {
        match reader.read(into) {
            Err(error) if error.kind() == ErrorKind::Interrupted => {}
            result => return result,
        }
    }
    reader.read(into)
}

// Writes once, and again where a signal interrupted the call.
fn write_retrying<W: Write>(writer: &mut W, piece: &[u8]) -> io::Result<usize>
    ensures room { WritesAtMost result piece.now }
    ensures bytes { WriteAppends (W.contents writer.old) (W.contents writer.new) result piece.now }
{
    for _ in 1..TRIES {
        match writer.write(piece) {
            Err(error) if error.kind() == ErrorKind::Interrupted => {}
            result => return result,
        }
    }
    writer.write(piece)
}
