// The program's top call.
ghost use Rattle.std.specs.Prelude.{map, string_bytes};
ghost use Rattle.cite_cli.specs.Seen.{on_disk};
ghost use Rattle.cite_cli.specs.Run.{Answers};

use crate::bounds::Bounds;
use crate::ending::{Ending, status};
use crate::init::init;
use crate::input::{Stop, take_all};
use crate::select::{Output, select_output};
use crate::session::session;
use crate::verify::verify;
use crate::words::{init_words, is_session, is_verify, select_words};
use cite_conversation::put_all;
use cite_disk::Disk;
use cite_ports::{Clock, Sink, Source};
use cite_schema::NoMemory;
use std::alloc::Global;
use std::thread::Threads;

/// Does what the words say and answers the status, which ends the process:
///
/// - 0: all is written: the result of `select COLUMN LO HI`, for which the input was read to its end; the name of the
///   archive that `init PREFIX PUBLISHER CREATOR TITLE COLUMN..` founded on the disk; what `verify` tells of the disk's
///   archive; the responses of a `session`, whose input ended between two messages, or with one that closes;
/// - 2: the words have no form; nothing is taken, written or asked for;
/// - 3: the source failed; nothing is written, but by `session` what was answered before;
/// - 4: the sink failed; a front of what was due is written;
/// - 5: the disk failed, of a `session` in opening; nothing is written;
/// - 6: the disk has no archive that can be opened, and the line `NotArchive` or `Damaged` with the place is written;
/// - 7: `init` found a disk that holds something, and the line `Occupied` is written;
/// - 8: want of memory; nothing is written, but by a `session` that was opened;
/// - 9: 67,108,865 bytes were taken and nothing is written, or by `session` 4,294,967,296, of which no message closes;
/// - 10: the input of `select`, or the words or the moment of `init`, break a rule, and the line `Refused NAME` with the
///   rule's numbers is written;
/// - 11: the input of `session` ended inside a message; what came before it is answered;
/// - 12: `session` answered a message that can't be told from what follows it.
///
/// `select` asks neither the disk nor the clock, `init` takes one moment, and `verify` none; both take nothing of the
/// source. `session` takes a moment for each batch, and for each citation and migration whose body it can read. It returns
/// for every input: `select` after one pass over the input and n log n in its lines, `verify` after one pass over the disk
/// and what its entries and citations cost, `session` after that pass and what its answers cost.
pub fn run<R: Threads + Sync, S: Source, K: Sink, D: Disk, C: Clock>(
    _rt: &R,
    alloc: Global,
    words: &Vec<String>,
    source: &mut S,
    sink: &mut K,
    disk: &mut D,
    clock: &mut C,
) -> u8
    ensures { Answers (map string_bytes words.now.items) (record {
      left_before = S.left source.old;
      left_after = S.left source.new;
      reads_before = S.faults_of source.old;
      reads_after = S.faults_of source.new;
      written_before = K.written sink.old;
      written_after = K.written sink.new;
      writes_before = K.faults_of sink.old;
      writes_after = K.faults_of sink.new;
      given_before = C.given clock.old;
      given_after = C.given clock.new;
    }) (on_disk D.honest D.seen D.images D.moment D.left_since D.fault_count disk.old disk.new) result }
{
    let words = words.as_slice();
    if let Some(asked) = select_words(words) {
        return status(select(alloc, asked.column, &asked.bounds, source, sink));
    }
    if let Some(told) = init_words(words) {
        return status(init(alloc, &told, sink, disk, clock));
    }
    if is_verify(words) {
        return status(verify(alloc, sink, disk));
    }
    if is_session(words) {
        return status(session(alloc, source, sink, disk, clock));
    }
    status(Ending::Usage)
}

ghost use Rattle.std.specs.Prelude.{ℕ, List as Listed, Option};
ghost use Rattle.cite_cli.specs.Run.{Selects};

fn select<S: Source, K: Sink>(
    alloc: Global,
    column: &[u8],
    bounds: &Bounds,
    source: &mut S,
    sink: &mut K,
) -> Ending
    ensures { (given : Option (Listed ℕ)) → Selects column.now bounds.now (record {
      left_before = S.left source.old;
      left_after = S.left source.new;
      reads_before = S.faults_of source.old;
      reads_after = S.faults_of source.new;
      written_before = K.written sink.old;
      written_after = K.written sink.new;
      writes_before = K.faults_of sink.old;
      writes_after = K.faults_of sink.new;
      given_before = given;
      given_after = given;
    }) result }
{
    let text = match take_all(alloc, source) {
        Ok(text) => text,
        Err(Stop::Failed) => return Ending::ReadFault,
        Err(Stop::TooLong) => return Ending::TooLong,
        Err(Stop::NoMemory) => return Ending::NoMemory,
    };
    match select_output(alloc, column, bounds, text.as_slice()) {
        Ok(Output::Done(bytes)) => match put_all(sink, bytes.as_slice()) {
            Ok(()) => Ending::Done,
            Err(_) => Ending::WriteFault,
        },
        Ok(Output::Refused(line)) => match put_all(sink, line.as_slice()) {
            Ok(()) => Ending::Refused,
            Err(_) => Ending::WriteFault,
        },
        Err(NoMemory) => Ending::NoMemory,
    }
}
