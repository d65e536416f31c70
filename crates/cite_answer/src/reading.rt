// What is read of an archive.
ghost use Rattle.std.specs.Prelude.{◌≡◌, ℕ, List as Listed, IfOk};
ghost use Rattle.entry_codec.specs.declared.entry.Entry.{Entry as Told};
ghost use Rattle.archive_model.specs.Archives.{Archive};
ghost use Rattle.archive_model.specs.Histories.{LeadsTo};
ghost use Rattle.archive_state.specs.Standing.{IsSeen, Shows};
ghost use Rattle.cite_http.specs.Responses.{IsReply};
ghost use Rattle.cite_answer.specs.Reads.{Meaning, Means, Reads, page_reply, bytes_reply, metadata_reply, state_reply};
ghost use Rattle.cite_answer.specs.Messages.{IsRead};

use crate::bodies::state_json;
use crate::replies::{found_reply, missing_reply, status_reply};
use archive_core::{LookFault, Snapshot};
use cite_http::{Ask, Media, Message, Reply};
use cite_schema::{ByteText, Dataset, NoMemory};
use datacite_meta::{dataset_json, meta_json};
use identifiers::Named;
use landing_page::{dataset_page, page};
use query_store::Citation;
use std::alloc::Global;

/// The answer to a message that asks for no change, by what readers see of an archive: the state, a landing page, the
/// bytes of a citation, metadata, or that the message is refused. It costs the length of what is answered; for the bytes
/// of a citation its query is executed again.
pub fn read(alloc: Global, seen: &Snapshot, message: &Message) -> Result<Reply, NoMemory>
    requires read { IsRead message.now.ask }
    requires seen { IsSeen seen.now }
    ensures reads { IfOk result (λ reply. (history : Listed Told) (a : Archive) → LeadsTo history a → Shows seen.now a → Reads a message.now.ask message.now.closing reply) }
    ensures reply { IfOk result IsReply }
{
    let closing = message.closing;
    match &message.ask {
        Ask::State => read_state(alloc, seen, closing),
        Ask::Page(name) => read_page(alloc, seen, name.as_slice(), closing),
        Ask::Bytes(name) => read_bytes(alloc, seen, name.as_slice(), closing),
        Ask::Metadata(name) => read_metadata(alloc, seen, name.as_slice(), closing),
        Ask::Bad(status) => status_reply(alloc, closing, *status),
        Ask::Batch(_) | Ask::Cite(_) | Ask::Migrate { .. } => unreachable!(),
    }
}

fn read_state(alloc: Global, seen: &Snapshot, closing: bool) -> Result<Reply, NoMemory>
    ensures reply { IfOk result IsReply }
    ensures value { IfOk result (λ reply. (a : Archive) → Shows seen.now a → reply ≡ state_reply a closing) }
{
    let body = state_json(alloc, seen.issued(), seen.schema(), seen.version())?;
    Ok(found_reply(Media::Json, body, closing))
}

// What a text means.
enum Found<'a> {
    NotAName,
    NotIssued,
    DataSet,
    Citation(&'a Citation),
}

ghost use Rattle.cite_answer.specs.Parts.{IsFound};

fn find<'a>(seen: &'a Snapshot, text: &[u8]) -> Found<'a>
    ensures { (a : Archive) → Shows seen.now a → (meaning : Meaning) × Means a text.now meaning × IsFound meaning result }
{
    match identifiers::read(seen.dataset().prefix.as_slice(), text) {
        None => Found::NotAName,
        Some(Named::Superset) => Found::DataSet,
        Some(Named::Subset(number)) => match seen.citation(number) {
            Ok(citation) => Found::Citation(citation),
            Err(_) => Found::NotIssued,
        },
    }
}

fn read_page(alloc: Global, seen: &Snapshot, name: &[u8], closing: bool) -> Result<Reply, NoMemory>
    requires { IsSeen seen.now }
    ensures reply { IfOk result IsReply }
    ensures value { IfOk result (λ reply. (a : Archive) → Shows seen.now a → (meaning : Meaning) × Means a name.now meaning × (reply ≡ page_reply a closing meaning)) }
{
    match find(seen, name) {
        Found::NotAName => missing_reply(alloc, "NotAName", closing),
        Found::NotIssued => missing_reply(alloc, "NotIssued", closing),
        Found::DataSet => {
            let body = whole_page(alloc, seen)?;
            Ok(found_reply(Media::Html, body, closing))
        }
        Found::Citation(citation) => {
            let body = citation_page(alloc, seen.dataset(), citation)?;
            Ok(found_reply(Media::Html, body, closing))
        }
    }
}

fn whole_page(alloc: Global, seen: &Snapshot) -> Result<ByteText, NoMemory>
    requires { IsSeen seen.now }
    ensures { IfOk result (λ text. (a : Archive) → Shows seen.now a → text ≡ dataset_page_of a.dataset (version_count a) a.last.stamp (length a.minted)) }
{
    let dataset = seen.dataset();
    dataset_page(alloc, dataset, seen.version(), seen.stamp(), seen.issued())
}

ghost use Rattle.std.specs.Prelude.{length};
ghost use Rattle.landing_page.specs.Pages.{page_of, dataset_page_of};
ghost use Rattle.archive_model.specs.Archives.{version_count};
ghost use Rattle.subset_query.specs.Printed.{printed_form};
ghost use Rattle.datacite_meta.specs.Metadata.{IsDescribed, IsIssued};

fn citation_page(
    alloc: Global,
    dataset: &Dataset,
    citation: &Citation,
) -> Result<ByteText, NoMemory>
    requires { IsIssued citation.now.issue }
    ensures { IfOk result (λ text. text ≡ page_of dataset.now citation.now.issue (printed_form citation.now.normal) citation.now.query_sha citation.now.result_sha) }
{
    let form = citation.normal.print(alloc)?;
    page(
        alloc,
        dataset,
        &citation.issue,
        form.as_slice(),
        &citation.query_sha,
        &citation.result_sha,
    )
}

fn read_bytes(alloc: Global, seen: &Snapshot, name: &[u8], closing: bool) -> Result<Reply, NoMemory>
    requires { IsSeen seen.now }
    ensures reply { IfOk result IsReply }
    ensures value { IfOk result (λ reply. (history : Listed Told) (a : Archive) → LeadsTo history a → Shows seen.now a → (meaning : Meaning) × Means a name.now meaning × (reply ≡ bytes_reply closing meaning)) }
{
    match identifiers::read(seen.dataset().prefix.as_slice(), name) {
        None => missing_reply(alloc, "NotAName", closing),
        Some(Named::Superset) => missing_reply(alloc, "NoFixedBytes", closing),
        Some(Named::Subset(number)) => bytes_of(alloc, seen, number, closing),
    }
}

ghost use Rattle.archive_state.specs.Executing.{minted_as};
ghost use Rattle.cite_answer.specs.Reads.{meaning_at};

// The bytes that were minted with a number.
fn bytes_of(alloc: Global, seen: &Snapshot, number: u32, closing: bool) -> Result<Reply, NoMemory>
    requires { IsSeen seen.now }
    ensures reply { IfOk result IsReply }
    ensures value { IfOk result (λ reply. (history : Listed Told) (a : Archive) → LeadsTo history a → Shows seen.now a → reply ≡ bytes_reply closing (meaning_at (minted_as a number))) }
{
    match Snapshot::resolve(alloc, seen.table(), seen.store(), number) {
        Ok(bytes) => Ok(found_reply(Media::Csv, bytes, closing)),
        Err(LookFault::NotIssued { .. }) => missing_reply(alloc, "NotIssued", closing),
        Err(LookFault::NoMemory) => Err(NoMemory),
    }
}

fn read_metadata(
    alloc: Global,
    seen: &Snapshot,
    name: &[u8],
    closing: bool,
) -> Result<Reply, NoMemory>
    requires { IsSeen seen.now }
    ensures reply { IfOk result IsReply }
    ensures value { IfOk result (λ reply. (a : Archive) → Shows seen.now a → (meaning : Meaning) × Means a name.now meaning × (reply ≡ metadata_reply a closing meaning)) }
{
    let dataset = seen.dataset();
    match find(seen, name) {
        Found::NotAName => missing_reply(alloc, "NotAName", closing),
        Found::NotIssued => missing_reply(alloc, "NotIssued", closing),
        Found::DataSet => {
            let body = dataset_json(alloc, dataset, seen.founded(), seen.stamp())?;
            Ok(found_reply(Media::Json, body, closing))
        }
        Found::Citation(citation) => {
            let body = meta_json(alloc, dataset, &citation.issue)?;
            Ok(found_reply(Media::Json, body, closing))
        }
    }
}
