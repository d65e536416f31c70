// The metadata of a citation and of the data set.
ghost use Rattle.std.specs.Prelude.{◌≡◌, false, true, string_bytes, IfOk};
ghost use Rattle.std.specs.Str.{is_utf8};
ghost use Rattle.serde_json.specs.Data.{array};
ghost use Rattle.serde_json.specs.View.{view};
ghost use Rattle.serde_json.specs.Written.{compact_text, has_float};
ghost use Rattle.datacite_meta.specs.Stamps.{IsStamp};
ghost use Rattle.datacite_meta.specs.Metadata.{IsDescribed, IsIssued, properties, meta_json, dataset_json};

use crate::stamp::year_of;
use crate::values;
use crate::values::string_of;
use cite_schema::{ByteText, Dataset, Issue, NoMemory};
use identifiers::{mint, superset};
use serde_json::{Value, json};
use std::alloc::{AllocError, Global};
use std::slice;

/// The metadata of a citation as compact JSON, with members in byte order of their names: a resource that its creators
/// made at the moment of the citation, that was updated when its version was made, and that is a part of the data set.
/// Other characters than `"`, `\` and those below 32 stand in strings as they are. The cost is the length of the text.
pub fn meta_json(alloc: Global, dataset: &Dataset, issue: &Issue) -> Result<ByteText, NoMemory>
    requires dataset { IsDescribed dataset.now }
    requires issue { IsIssued issue.now }
    ensures { IfOk result (λ text. text ≡ meta_json dataset.now issue.now) }
{
    let id = mint(alloc, dataset.prefix.as_slice(), issue.number)?;
    let whole = superset(alloc, dataset.prefix.as_slice())?;
    let parts = Parts {
        creators: values::creators(alloc, issue.meta.creators.as_slice())?,
        dates: values::dates(alloc, issue.cited, issue.updated)?,
        identifiers: values::identifiers(alloc, string_of(id.as_slice()))?,
        year: year_of(issue.cited),
        publisher: string_of(dataset.publisher.as_slice()),
        related: values::parts_of(alloc, string_of(whole.as_slice()))?,
        titles: values::titles(alloc, string_of(issue.meta.title.as_slice()))?,
    };
    print(alloc, &metadata(alloc, parts)?)
}

/// The metadata of the data set as compact JSON, likewise: made by its one creator when it was founded, updated when its last
/// version was made, and a part of nothing. The cost is the length of the text.
pub fn dataset_json(
    alloc: Global,
    dataset: &Dataset,
    founded: u64,
    updated: u64,
) -> Result<ByteText, NoMemory>
    requires dataset { IsDescribed dataset.now }
    requires founded { IsStamp founded }
    requires updated { IsStamp updated }
    ensures { IfOk result (λ text. text ≡ dataset_json dataset.now founded updated) }
{
    let id = superset(alloc, dataset.prefix.as_slice())?;
    let parts = Parts {
        creators: values::creators(alloc, slice::from_ref(&dataset.creator))?,
        dates: values::dates(alloc, founded, updated)?,
        identifiers: values::identifiers(alloc, string_of(id.as_slice()))?,
        year: year_of(founded),
        publisher: string_of(dataset.publisher.as_slice()),
        related: json!(in alloc; [])?,
        titles: values::titles(alloc, string_of(dataset.title.as_slice()))?,
    };
    print(alloc, &metadata(alloc, parts)?)
}

// The properties that differ between resources.
#[derive(Drop)]
struct Parts<'a> {
    creators: Value,
    dates: Value,
    identifiers: Value,
    year: u16,
    publisher: &'a str,
    related: Value,
    titles: Value,
}

// The members of the metadata.
fn metadata<'a>(alloc: Global, parts: Parts<'a>) -> Result<Value, AllocError>
    ensures { IfOk result (λ value. view value ≡ properties (view parts.entry.creators) (view parts.entry.dates)
        (view parts.entry.identifiers) parts.entry.year parts.entry.publisher.now (view parts.entry.related) (view parts.entry.titles)) }
{
    let types = values::resource(alloc)?;
    json!(in alloc; {
        "creators": parts.creators,
        "dates": parts.dates,
        "identifiers": parts.identifiers,
        "publicationYear": parts.year,
        "publisher": parts.publisher,
        "relatedIdentifiers": parts.related,
        "schemaVersion": "http://datacite.org/schema/kernel-4",
        "titles": parts.titles,
        "types": types
    })
}

// The text of a value without floats.
fn print(alloc: Global, value: &Value) -> Result<ByteText, NoMemory>
    requires { has_float (view value.now) ≡ false }
    ensures { IfOk result (λ text. text ≡ compact_text (view value.now)) }
{
    let text = value.to_string(alloc)?;
    Ok(ByteText::from_vec(text.into_bytes()))
}
