// The answer to one message.
ghost use Rattle.std.specs.Prelude.{◌≡◌, ◌≤◌, ℕ, List as Listed, Some, IfOk};
ghost use Rattle.std.specs.Arc.{arc_value};
ghost use Rattle.entry_codec.specs.declared.entry.Entry.{Entry as Told};
ghost use Rattle.archive_model.specs.Archives.{Archive};
ghost use Rattle.archive_model.specs.Histories.{MayBeAsked};
ghost use Rattle.query_store.specs.Citations.{numbered};
ghost use Rattle.query_store.specs.declared.citation.Citation.{Citation as kept_citation};
ghost use Rattle.archive_state.specs.Standing.{IsSeen, Shows, StandsFor};
ghost use Rattle.archive_core.specs.Keeping.{IsKept};
ghost use Rattle.cite_http.specs.Responses.{IsReply};
ghost use Rattle.cite_http.specs.declared.ask.Ask.TheVariants as asks;
ghost use Rattle.cite_http.specs.declared.reply.Reply.{Reply as reply_value};
ghost use Rattle.cite_answer.specs.Messages.{IsAskable, TellsCited, moved_reply, stored_reply};
ghost use Rattle.cite_answer.specs.Fates.{Fares, deed_of};

use crate::bodies::{cited_json, moved_json, stored_json};
use crate::reading::read;
use crate::replies::{change_reply, refusal_reply, unread_reply};
use archive_core::{Desk, Snapshot};
use archive_model::{Cited, Moved, Refused, Stored};
use cite_disk::Disk;
use cite_http::{Ask, Message, Reply};
use cite_ports::Clock;
use cite_schema::{BatchAsk, ByteText, NoMemory};
use datacite_meta::citation_text;
use identifiers::mint;
use query_json::{read_cite, read_steps};
use std::alloc::Global;

/// Answers one message over the desk of an archive: what asks for no change is read of its snapshot, anything else is done by
/// the desk. A moment of the clock is taken just before the desk's call, and only there. It costs what the desk's call or the
/// reading costs, and the length of the answer.
///
/// # Errors
/// `NoMemory` where there was none for the reply; what was asked for may have been done all the same.
pub fn answer<D: Disk, C: Clock>(
    alloc: Global,
    desk: &mut Desk,
    disk: &mut D,
    message: &Message,
    clock: &mut C,
) -> Result<Reply, NoMemory>
    requires askable { IsAskable message.now.ask }
    requires kept { D.honest → IsKept (D.images disk.old) desk.old }
    ensures fares { (history : Listed Told) (a : Archive) → StandsFor desk.old.present history a
        → (reply : reply_value) × Fares a message.now history (deed_of D.honest D.images D.fault_count disk.old disk.new desk.old desk.new (C.given clock.old) (C.given clock.new)) reply × IfOk result (λ r. r ≡ reply) }
    ensures reply { IfOk result IsReply }
    ensures kept { D.honest → IsKept (D.images disk.new) desk.new }
    ensures later { D.fault_count disk.old ≤ D.fault_count disk.new }
{
    let closing = message.closing;
    match &message.ask {
        Ask::Batch(ask) => store(alloc, desk, disk, ask, closing, clock),
        Ask::Cite(body) => cite(alloc, desk, disk, body, closing, clock),
        Ask::Migrate { schema, body } => migrate(alloc, desk, disk, *schema, body, closing, clock),
        _ => read(alloc, desk.snapshot(), message),
    }
}

// Stores a batch, and tells what came of it.
fn store<D: Disk, C: Clock>(
    alloc: Global,
    desk: &mut Desk,
    disk: &mut D,
    ask: &BatchAsk,
    closing: bool,
    clock: &mut C,
) -> Result<Reply, NoMemory>
    requires asked { MayBeAsked ask.now }
    requires kept { D.honest → IsKept (D.images disk.old) desk.old }
    ensures fares { (history : Listed Told) (a : Archive) → StandsFor desk.old.present history a
        → (reply : reply_value) × Fares a (record { ask = asks.Batch ask.now; closing = closing }) history (deed_of D.honest D.images D.fault_count disk.old disk.new desk.old desk.new (C.given clock.old) (C.given clock.new)) reply × IfOk result (λ r. r ≡ reply) }
    ensures reply { IfOk result IsReply }
    ensures kept { D.honest → IsKept (D.images disk.new) desk.new }
    ensures later { D.fault_count disk.old ≤ D.fault_count disk.new }
{
    let now = clock.now();
    let told = desk.batch(alloc, disk, ask, now);
    tell_stored(alloc, desk.snapshot(), told, closing)
}

fn tell_stored(
    alloc: Global,
    seen: &Snapshot,
    told: Result<Stored, Refused>,
    closing: bool,
) -> Result<Reply, NoMemory>
    ensures told { IfOk result (λ reply. (b : Archive) → Shows seen.now b → reply ≡ stored_reply b.dataset.prefix closing told) }
    ensures reply { IfOk result IsReply }
{
    match told {
        Ok(stored) => {
            let body = stored_json(alloc, stored)?;
            Ok(change_reply(stored.new, body, closing))
        }
        Err(refusal) => refusal_reply(alloc, seen.dataset().prefix.as_slice(), closing, &refusal),
    }
}

// Cites what a request asks for, if its body is one, and tells what came of it.
fn cite<D: Disk, C: Clock>(
    alloc: Global,
    desk: &mut Desk,
    disk: &mut D,
    body: &ByteText,
    closing: bool,
    clock: &mut C,
) -> Result<Reply, NoMemory>
    requires kept { D.honest → IsKept (D.images disk.old) desk.old }
    ensures fares { (history : Listed Told) (a : Archive) → StandsFor desk.old.present history a
        → (reply : reply_value) × Fares a (record { ask = asks.Cite body.now; closing = closing }) history (deed_of D.honest D.images D.fault_count disk.old disk.new desk.old desk.new (C.given clock.old) (C.given clock.new)) reply × IfOk result (λ r. r ≡ reply) }
    ensures reply { IfOk result IsReply }
    ensures kept { D.honest → IsKept (D.images disk.new) desk.new }
    ensures later { D.fault_count disk.old ≤ D.fault_count disk.new }
{
    match read_cite(alloc, body.as_slice()) {
        Ok(ask) => {
            let now = clock.now();
            let told = desk.cite(alloc, disk, &ask, now);
            tell_cited(alloc, desk.snapshot(), told, closing)
        }
        Err(fault) => unread_reply(alloc, closing, fault),
    }
}

fn tell_cited(
    alloc: Global,
    seen: &Snapshot,
    told: Result<Cited, Refused>,
    closing: bool,
) -> Result<Reply, NoMemory>
    requires seen { IsSeen seen.now }
    requires there { IfOk told (λ cited. (kept : kept_citation) × (numbered seen.now.store cited.number ≡ Some kept)) }
    ensures told { IfOk result (λ reply. (b : Archive) → Shows seen.now b → TellsCited b closing told reply) }
    ensures reply { IfOk result IsReply }
{
    match told {
        Ok(cited) => {
            let body = cited_body(alloc, seen, cited)?;
            Ok(change_reply(cited.new, body, closing))
        }
        Err(refusal) => refusal_reply(alloc, seen.dataset().prefix.as_slice(), closing, &refusal),
    }
}

ghost use Rattle.std.specs.Prelude.{Ok as ok};
ghost use Rattle.archive_state.specs.Executing.{minted_as};
ghost use Rattle.archive_model.specs.Archives.{Minted};
ghost use Rattle.identifiers.specs.Names.{name_of};
ghost use Rattle.identifiers.specs.declared.named.Named.TheVariants.{Subset};
ghost use Rattle.datacite_meta.specs.Metadata.{citation_text as text_of};
ghost use Rattle.cite_answer.specs.Bodies.{cited_json as json_of};

// The body that tells a citation.
fn cited_body(alloc: Global, seen: &Snapshot, cited: Cited) -> Result<ByteText, NoMemory>
    requires seen { IsSeen seen.now }
    requires there { (kept : kept_citation) × (numbered seen.now.store cited.number ≡ Some kept) }
    ensures { IfOk result (λ body. (b : Archive) → Shows seen.now b → (m : Minted) × (minted_as b cited.number ≡ Some m)
        × (body ≡ json_of (name_of b.dataset.prefix (Subset cited.number)) cited.new (text_of b.dataset m.issue))) }
{
    let dataset = seen.dataset();
    let Ok(citation) = seen.citation(cited.number) else {
        unreachable!()
    };
    let id = mint(alloc, dataset.prefix.as_slice(), cited.number)?;
    let text = citation_text(alloc, dataset, &citation.issue)?;
    cited_json(alloc, id.as_slice(), cited.new, text.as_slice())
}

// Moves the table to a new schema, if the body is a list of steps, and tells what came of it.
fn migrate<D: Disk, C: Clock>(
    alloc: Global,
    desk: &mut Desk,
    disk: &mut D,
    schema: u32,
    body: &ByteText,
    closing: bool,
    clock: &mut C,
) -> Result<Reply, NoMemory>
    requires kept { D.honest → IsKept (D.images disk.old) desk.old }
    ensures fares { (history : Listed Told) (a : Archive) → StandsFor desk.old.present history a
        → (reply : reply_value) × Fares a (record { ask = asks.Migrate schema body.now; closing = closing }) history (deed_of D.honest D.images D.fault_count disk.old disk.new desk.old desk.new (C.given clock.old) (C.given clock.new)) reply × IfOk result (λ r. r ≡ reply) }
    ensures reply { IfOk result IsReply }
    ensures kept { D.honest → IsKept (D.images disk.new) desk.new }
    ensures later { D.fault_count disk.old ≤ D.fault_count disk.new }
{
    match read_steps(alloc, body.as_slice()) {
        Ok(steps) => {
            let now = clock.now();
            let told = desk.migrate(alloc, disk, schema, &steps, now);
            tell_moved(alloc, desk.snapshot(), told, closing)
        }
        Err(fault) => unread_reply(alloc, closing, fault),
    }
}

fn tell_moved(
    alloc: Global,
    seen: &Snapshot,
    told: Result<Moved, Refused>,
    closing: bool,
) -> Result<Reply, NoMemory>
    ensures told { IfOk result (λ reply. (b : Archive) → Shows seen.now b → reply ≡ moved_reply b.dataset.prefix closing told) }
    ensures reply { IfOk result IsReply }
{
    match told {
        Ok(moved) => {
            let body = moved_json(alloc, moved)?;
            Ok(change_reply(true, body, closing))
        }
        Err(refusal) => refusal_reply(alloc, seen.dataset().prefix.as_slice(), closing, &refusal),
    }
}
