// What the program does, over any source, sink, disk and clock.
ghost use Rattle.cite_cli.specs.Seen.{on_disk};
ghost use Rattle.cite_prog.specs.Program.{Ends};

use crate::words::Words;
use cite_cli::run;
use cite_disk::Disk;
use cite_ports::{Clock, Sink, Source};
use std::alloc::Global;
use std::thread::Threads;

/// Does what the words say, and answers the status with which the program ends: that of `run` for the words behind
/// FILE, and without them 2, or 8 where memory was wanting for them. Nothing is taken, written or asked for then.
pub fn answer<R: Threads + Sync, S: Source, K: Sink, D: Disk, C: Clock>(
    rt: &R,
    alloc: Global,
    words: &Words,
    source: &mut S,
    sink: &mut K,
    disk: &mut D,
    clock: &mut C,
) -> u8
    ensures { Ends words.now (record {
      left_before = S.left source.old;
      left_after = S.left source.new;
      reads_before = S.faults_of source.old;
      reads_after = S.faults_of source.new;
      written_before = K.written sink.old;
      written_after = K.written sink.new;
      writes_before = K.faults_of sink.old;
      writes_after = K.faults_of sink.new;
      given_before = C.given clock.old;
      given_after = C.given clock.new;
    }) (on_disk D.honest D.seen D.images D.moment D.left_since D.fault_count disk.old disk.new) result }
{
    match words {
        Words::Command(words) => run(rt, alloc, words, source, sink, disk, clock),
        Words::NoFile | Words::Unreadable => 2,
        Words::NoMemory => 8,
    }
}
