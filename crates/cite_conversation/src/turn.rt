// One message of a conversation.
ghost use Rattle.std.specs.Prelude.{◌≡◌, ◌≤◌, List as Listed, if◌then◌else◌};
ghost use Rattle.entry_codec.specs.declared.entry.Entry.{Entry as Told};
ghost use Rattle.archive_model.specs.Archives.{Archive};
ghost use Rattle.archive_state.specs.Standing.{StandsFor};
ghost use Rattle.archive_core.specs.Keeping.{IsKept};
ghost use Rattle.cite_answer.specs.Messages.{IsAskable};
ghost use Rattle.cite_conversation.specs.declared.end.LinkEnd.TheVariants as ends;
ghost use Rattle.cite_conversation.specs.Conversations.{breaks as does_break};
ghost use Rattle.cite_conversation.specs.Steps.{OneEnds};

use crate::end::LinkEnd;
use crate::output::{give_up, put_all};
use archive_core::Desk;
use cite_answer::answer;
use cite_disk::Disk;
use cite_http::{Ask, Message, Status, respond};
use cite_ports::{Clock, Sink};
use std::alloc::Global;

// Answers a message, and puts the response into the sink. Ends where memory is wanting or the sink fails.
pub(crate) fn answer_one<K: Sink, D: Disk, C: Clock>(
    alloc: Global,
    desk: &mut Desk,
    sink: &mut K,
    disk: &mut D,
    clock: &mut C,
    message: &Message,
) -> Option<LinkEnd>
    requires askable { IsAskable message.now.ask }
    requires kept { D.honest → IsKept (D.images disk.old) desk.old }
    ensures went { (history : Listed Told) (a : Archive) → StandsFor desk.old.present history a
        → OneEnds D.honest (record { held = desk.old; images = D.images disk.old; faults = D.fault_count disk.old; given = C.given clock.old })
        (record { held = desk.new; images = D.images disk.new; faults = D.fault_count disk.new; given = C.given clock.new })
        (record { written_before = K.written sink.old; written_after = K.written sink.new; faults_before = K.faults_of sink.old; faults_after = K.faults_of sink.new })
        a history message.now result }
    ensures kept { D.honest → IsKept (D.images disk.new) desk.new }
    ensures later { D.fault_count disk.old ≤ D.fault_count disk.new }
    ensures never_falls { K.faults_of sink.old ≤ K.faults_of sink.new }
{
    let Ok(reply) = answer(alloc, desk, disk, message, clock) else {
        return Some(give_up(sink));
    };
    let Ok(text) = respond(alloc, &reply) else {
        return Some(give_up(sink));
    };
    match put_all(sink, text.as_slice()) {
        Ok(()) => None,
        Err(_) => Some(LinkEnd::WriteFault),
    }
}

// Whether the message can't be told from what follows it.
fn breaks(ask: &Ask) -> bool
    ensures { result ≡ does_break ask.now }
{
    match ask {
        Ask::Bad(status) => match status {
            Status::BadHead => true,
            Status::HeadTooLong => true,
            Status::TransferCoding => true,
            Status::BadLength => true,
            Status::BodyTooLong => true,
            Status::BadTarget => false,
            Status::NoRoute => false,
            Status::OtherMethod { get: _ } => false,
        },
        _ => false,
    }
}

// How a conversation ends with this message, where it closes.
pub(crate) fn closing_end(message: &Message) -> Option<LinkEnd>
    ensures { result ≡ (if message.now.closing then Some (if does_break message.now.ask then ends.Broken else ends.Done) else None) }
{
    if !message.closing {
        None
    } else if breaks(&message.ask) {
        Some(LinkEnd::Broken)
    } else {
        Some(LinkEnd::Done)
    }
}
