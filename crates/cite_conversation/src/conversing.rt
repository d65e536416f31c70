// A conversation.
ghost use Rattle.std.specs.Prelude.{◌≡◌, ◌≤◌, List as Listed, length, not, ◌&&◌, nat_lt, if◌then◌else◌};
ghost use Rattle.entry_codec.specs.declared.entry.Entry.{Entry as Told};
ghost use Rattle.archive_model.specs.Archives.{Archive};
ghost use Rattle.archive_state.specs.Standing.{StandsFor};
ghost use Rattle.archive_core.specs.Keeping.{IsKept, Keeps};
ghost use Rattle.cite_http.specs.Heads.{begun};
ghost use Rattle.cite_conversation.specs.declared.end.LinkEnd.TheVariants as ends;
ghost use Rattle.cite_conversation.specs.Conversations.{IsEnded};

use crate::answers::answer_all;
use crate::end::LinkEnd;
use crate::output::give_up;
use archive_core::Desk;
use cite_disk::Disk;
use cite_http::Reader;
use cite_ports::{Clock, Sink, Source};
use std::alloc::Global;

// The most bytes that are taken in one conversation.
const LIMIT: u64 = 4_294_967_296;

// The most bytes that are asked for at once.
const PIECE: usize = 65_536;

// How a conversation ends where its input ends.
fn end_at(reader: &Reader) -> LinkEnd
    ensures { result ≡ (if not reader.now.closed && nat_lt 0 (length (begun reader.now.bytes)) then ends.Cut else ends.Done) }
{
    if reader.inside() {
        LinkEnd::Cut
    } else {
        LinkEnd::Done
    }
}

/// Answers the messages of a source over the desk of an archive, one after the other: the response to a message is put into
/// the sink before the next message is read. It ends where the input ends, with the first message that closes, where
/// 4,294,967,296 bytes were taken and no message closed, and where the source or the sink fails. Where memory is wanting it
/// ends too, and puts the response that says so into the sink, if that takes it. What was taken behind a closing message is
/// not read.
///
/// Each turn takes a byte or ends; the cost is linear in the bytes, and beside that the cost of each answer.
pub fn converse<S: Source, K: Sink, D: Disk, C: Clock>(
    alloc: Global,
    desk: &mut Desk,
    source: &mut S,
    sink: &mut K,
    disk: &mut D,
    clock: &mut C,
) -> LinkEnd
    requires kept { D.honest → IsKept (D.images disk.old) desk.old }
    ensures ended { (history : Listed Told) (a : Archive) → StandsFor desk.old.present history a
        → (D.honest → (d : Told) → Keeps (D.images disk.old) desk.old.journal history d)
        → IsEnded a history (record {
          left_before = S.left source.old;
          left_after = S.left source.new;
          reads_before = S.faults_of source.old;
          reads_after = S.faults_of source.new;
          written_before = K.written sink.old;
          written_after = K.written sink.new;
          writes_before = K.faults_of sink.old;
          writes_after = K.faults_of sink.new;
          given_before = C.given clock.old;
          given_after = C.given clock.new;
          honest = D.honest;
          images = D.images disk.new;
          faults_before = D.fault_count disk.old;
          faults_after = D.fault_count disk.new;
        }) result }
    ensures kept { D.honest → IsKept (D.images disk.new) desk.new }
    ensures later { D.fault_count disk.old ≤ D.fault_count disk.new }
    ensures reads { S.faults_of source.old ≤ S.faults_of source.new }
    ensures writes { K.faults_of sink.old ≤ K.faults_of sink.new }
{
    let Ok(mut reader) = Reader::make(alloc) else {
        return give_up(sink);
    };
    let mut piece = [0u8; PIECE];
    let mut taken = 0;
    'pieces: while taken < LIMIT {
        let room = PIECE.min((LIMIT - taken) as usize);
        match source.take(&mut piece[..room]) {
            Err(_) => return LinkEnd::ReadFault,
            Ok(0) => return end_at(&reader),
            Ok(n) => {
                let Ok(()) = reader.feed(&piece[..n]) else {
                    return give_up(sink);
                };
                taken += n as u64;
            }
        }
        if let Some(end) = answer_all(alloc, desk, &mut reader, sink, disk, clock) {
            return end;
        }
    }
    LinkEnd::TooLong
}
