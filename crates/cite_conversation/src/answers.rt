// The messages of a reader.
ghost use Rattle.std.specs.Prelude.{◌≡◌, ◌≤◌, List as Listed, IfNone, false};
ghost use Rattle.entry_codec.specs.declared.entry.Entry.{Entry as Told};
ghost use Rattle.archive_model.specs.Archives.{Archive};
ghost use Rattle.archive_state.specs.Standing.{StandsFor};
ghost use Rattle.archive_core.specs.Keeping.{IsKept};
ghost use Rattle.cite_conversation.specs.Steps.{SomeEnd, Waits};

use crate::end::LinkEnd;
use crate::output::give_up;
use crate::turn::{answer_one, closing_end};
use archive_core::Desk;
use cite_disk::Disk;
use cite_http::Reader;
use cite_ports::{Clock, Sink};
use std::alloc::Global;

// Answers the messages that a reader has, one after the other, up to and with the first closing one. Ends with that one, and
// where memory is wanting or the sink fails.
pub(crate) fn answer_all<K: Sink, D: Disk, C: Clock>(
    alloc: Global,
    desk: &mut Desk,
    reader: &mut Reader,
    sink: &mut K,
    disk: &mut D,
    clock: &mut C,
) -> Option<LinkEnd>
    requires unclosed { reader.old.closed ≡ false }
    requires kept { D.honest → IsKept (D.images disk.old) desk.old }
    ensures went { (history : Listed Told) (a : Archive) → StandsFor desk.old.present history a
        → SomeEnd D.honest (record { held = desk.old; images = D.images disk.old; faults = D.fault_count disk.old; given = C.given clock.old })
        (record { held = desk.new; images = D.images disk.new; faults = D.fault_count disk.new; given = C.given clock.new })
        (record { written_before = K.written sink.old; written_after = K.written sink.new; faults_before = K.faults_of sink.old; faults_after = K.faults_of sink.new })
        reader.old reader.new a history result }
    ensures waits { IfNone result (Waits reader.new) }
    ensures kept { D.honest → IsKept (D.images disk.new) desk.new }
    ensures later { D.fault_count disk.old ≤ D.fault_count disk.new }
    ensures never_falls { K.faults_of sink.old ≤ K.faults_of sink.new }
{
    'messages: loop {
        let Ok(next) = reader.next() else {
            return Some(give_up(sink));
        };
        let Some(message) = next else {
            return None;
        };
        let last = closing_end(&message);
        let end = answer_one(alloc, desk, sink, disk, clock, &message);
        drop(message);
        if let Some(fault) = end {
            return Some(fault);
        }
        if let Some(closed) = last {
            return Some(closed);
        }
    }
}
