// The command `session`.
ghost use Rattle.std.specs.Prelude.{◌≡◌};
ghost use Rattle.cite_cli.specs.Seen.{on_disk};
ghost use Rattle.cite_cli.specs.Session.{ending_of as ending_by, Sessions};

use crate::ending::Ending;
use crate::opening::open;
use cite_conversation::{LinkEnd, converse};
use cite_disk::Disk;
use cite_ports::{Clock, Sink, Source};
use std::alloc::Global;

/// Opens the archive of the disk, and answers the messages of the source one after the other, each before the next is read.
/// It costs what opening costs, and then what the answers cost, linear in the bytes beside.
pub fn session<S: Source, K: Sink, D: Disk, C: Clock>(
    alloc: Global,
    source: &mut S,
    sink: &mut K,
    disk: &mut D,
    clock: &mut C,
) -> Ending
    ensures { Sessions (record {
      left_before = S.left source.old;
      left_after = S.left source.new;
      reads_before = S.faults_of source.old;
      reads_after = S.faults_of source.new;
      written_before = K.written sink.old;
      written_after = K.written sink.new;
      writes_before = K.faults_of sink.old;
      writes_after = K.faults_of sink.new;
      given_before = C.given clock.old;
      given_after = C.given clock.new;
    }) (on_disk D.honest D.seen D.images D.moment D.left_since D.fault_count disk.old disk.new) result }
{
    match open(alloc, disk) {
        Ok(opened) => {
            let mut desk = opened;
            ending_of(converse(alloc, &mut desk, source, sink, disk, clock))
        }
        Err(due) => due.deliver(sink),
    }
}

// How a run ends whose conversation ends so.
fn ending_of(end: LinkEnd) -> Ending
    ensures { result ≡ ending_by end }
{
    match end {
        LinkEnd::Done => Ending::Done,
        LinkEnd::Broken => Ending::Broken,
        LinkEnd::Cut => Ending::Cut,
        LinkEnd::TooLong => Ending::TooLong,
        LinkEnd::ReadFault => Ending::ReadFault,
        LinkEnd::WriteFault => Ending::WriteFault,
        LinkEnd::NoMemory => Ending::NoMemory,
    }
}
