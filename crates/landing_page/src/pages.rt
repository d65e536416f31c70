// The pages.
ghost use Rattle.std.specs.Prelude.{◌≡◌, ◌≤◌, ◌++◌, IfOk, OnOk};
ghost use Rattle.identifiers.specs.Names.{name_of};
ghost use Rattle.identifiers.specs.declared.named.Named.TheVariants as named;
ghost use Rattle.datacite_meta.specs.Stamps.{IsStamp};
ghost use Rattle.landing_page.specs.Pages.{cited, names, told, ending, page_of, dataset_page_of};

use crate::markup::{put, put_digest, put_entry, put_escaped, put_heading, put_moment, put_number};
use cite_schema::{ByteText, Dataset, Issue, NoMemory};
use datacite_meta::citation_text;
use identifiers::{mint, superset};
use std::alloc::Global;

/// The page of a citation. `normal_text` is the printed normal form of its query, whose last line feed is left out, and
/// `query_sha` and `result_sha` are the SHA-256 digests of that form and of the cited bytes. The cost is the length of
/// the page.
pub fn page(
    alloc: Global,
    dataset: &Dataset,
    issue: &Issue,
    normal_text: &[u8],
    query_sha: &[u8; 32],
    result_sha: &[u8; 32],
) -> Result<ByteText, NoMemory>
    requires number { 1 ≤ issue.now.number }
    requires cited { IsStamp issue.now.cited }
    requires updated { IsStamp issue.now.updated }
    ensures { IfOk result (λ text. text ≡ page_of dataset.now issue.now normal_text.now query_sha.now result_sha.now) }
{
    let id = mint(alloc, dataset.prefix.as_slice(), issue.number)?;
    let whole = superset(alloc, dataset.prefix.as_slice())?;
    let citation = citation_text(alloc, dataset, issue)?;
    let mut text = Vec::new(alloc);
    put_heading(&mut text, issue.meta.title.as_slice())?;
    put_cited(&mut text, citation.as_slice())?;
    put_names(&mut text, id.as_slice(), whole.as_slice())?;
    put_told(alloc, &mut text, issue, query_sha, result_sha)?;
    put_ending(&mut text, normal_text, id.as_slice())?;
    Ok(ByteText::from_vec(text))
}

fn put_cited(text: &mut Vec<u8>, citation: &[u8]) -> Result<(), NoMemory>
    ensures { OnOk result (text.new.items ≡ text.old.items ++ cited citation.now) }
{
    put(text, "<p>")?;
    put_escaped(text, citation)?;
    put(text, "</p>\n<dl>\n")
}

fn put_names(text: &mut Vec<u8>, id: &[u8], whole: &[u8]) -> Result<(), NoMemory>
    ensures { OnOk result (text.new.items ≡ text.old.items ++ names id.now whole.now) }
{
    put_entry(text, "Identifier", id)?;
    put(text, "<dt>Superset</dt><dd><a href=\"/id/")?;
    put_escaped(text, whole)?;
    put(text, "\">")?;
    put_escaped(text, whole)?;
    put(text, "</a></dd>\n")?;
    Ok(())
}

fn put_told(
    alloc: Global,
    text: &mut Vec<u8>,
    issue: &Issue,
    query_sha: &[u8; 32],
    result_sha: &[u8; 32],
) -> Result<(), NoMemory>
    requires cited { IsStamp issue.now.cited }
    requires updated { IsStamp issue.now.updated }
    ensures { OnOk result (text.new.items ≡ text.old.items ++ told issue.now query_sha.now result_sha.now) }
{
    put_number(text, "Version", issue.version)?;
    put_moment(alloc, text, "Data updated", issue.updated)?;
    put_moment(alloc, text, "Cited", issue.cited)?;
    put_entry(text, "Description", issue.meta.description.as_slice())?;
    put_digest(alloc, text, "Result SHA-256", result_sha)?;
    put_digest(alloc, text, "Query SHA-256", query_sha)?;
    Ok(())
}

fn put_ending(text: &mut Vec<u8>, normal_text: &[u8], id: &[u8]) -> Result<(), NoMemory>
    ensures { OnOk result (text.new.items ≡ text.old.items ++ ending normal_text.now id.now) }
{
    put(text, "</dl>\n<pre>\n")?;
    put_escaped(text, without_last_feed(normal_text))?;
    put(text, "\n</pre>\n<p><a href=\"/id/")?;
    put_escaped(text, id)?;
    put(text, "/data\">data</a> <a href=\"/id/")?;
    put_escaped(text, id)?;
    put(text, "/meta\">metadata</a></p>\n</body></html>\n")?;
    Ok(())
}

ghost use Rattle.std.specs.Io.BufRead.{strip_last};

// A text without the line feed at its end, if it has one.
fn without_last_feed(text: &[u8]) -> &[u8]
    ensures { result.now ≡ strip_last 10 text.now }
{
    match text {
        [lines @ .., b'\n'] => lines,
        _ => text,
    }
}

/// The page of the data set, with the number and the moment of its last version, and how many citations were issued. The
/// cost is the length of the page.
pub fn dataset_page(
    alloc: Global,
    dataset: &Dataset,
    version: u32,
    updated: u64,
    issued: u32,
) -> Result<ByteText, NoMemory>
    requires { IsStamp updated }
    ensures { IfOk result (λ text. text ≡ dataset_page_of dataset.now version updated issued) }
{
    let id = superset(alloc, dataset.prefix.as_slice())?;
    let mut text = Vec::new(alloc);
    put_heading(&mut text, dataset.title.as_slice())?;
    put(&mut text, "<dl>\n")?;
    put_entry(&mut text, "Identifier", id.as_slice())?;
    put_entry(&mut text, "Creator", dataset.creator.as_slice())?;
    put_entry(&mut text, "Publisher", dataset.publisher.as_slice())?;
    put_number(&mut text, "Version", version)?;
    put_moment(alloc, &mut text, "Data updated", updated)?;
    put_number(&mut text, "Citations", issued)?;
    put(&mut text, "</dl>\n<p><a href=\"/id/")?;
    put_escaped(&mut text, id.as_slice())?;
    put(&mut text, "/meta\">metadata</a></p>\n</body></html>\n")?;
    Ok(ByteText::from_vec(text))
}
