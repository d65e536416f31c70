// The parts of the metadata as JSON values.
ghost use Rattle.std.specs.Prelude.{◌≡◌, true, codes, IfOk};
ghost use Rattle.std.specs.List.{list_all};
ghost use Rattle.std.specs.Str.{is_utf8};
ghost use Rattle.serde_json.specs.Data.{array, object, item, no_items};
ghost use Rattle.serde_json.specs.View.{view};
ghost use Rattle.datacite_meta.specs.Stamps.{IsStamp};
ghost use Rattle.datacite_meta.specs.Metadata.{creator, creators, dated, identifier, part_of, titled, resource};

use crate::stamp::stamp_string;
use cite_schema::ByteText;
use serde_json::{Value, json};
use std::alloc::{AllocError, Global};

/// Bytes as the string that they are.
pub(crate) fn string_of(bytes: &[u8]) -> &str
    requires { is_utf8 bytes.now ≡ true }
    ensures { result.now ≡ bytes.now }
{
    let Ok(text) = std::str::from_utf8(bytes) else {
        unreachable!()
    };
    text
}

fn creator(alloc: Global, name: &str) -> Result<Value, AllocError>
    ensures { IfOk result (λ value. view value ≡ creator name.now) }
{
    json!(in alloc; {"name": name})
}

/// The list of creators. The cost is the length of their names.
pub(crate) fn creators(alloc: Global, names: &[ByteText]) -> Result<Value, AllocError>
    requires { list_all is_utf8 names.now ≡ true }
    ensures { IfOk result (λ value. view value ≡ array (creators names.now)) }
{
    let mut values = Vec::with_capacity(alloc, names.len())?;
    for name in names {
        values.push(creator(alloc, string_of(name.as_slice()))?)?;
    }
    Ok(Value::Array(values))
}

fn dated(alloc: Global, stamp: u64, what: &str) -> Result<Value, AllocError>
    requires { IsStamp stamp }
    ensures { IfOk result (λ value. view value ≡ dated stamp what.now) }
{
    let date = stamp_string(alloc, stamp)?;
    json!(in alloc; {"date": &date, "dateType": what})
}

/// The dates of creation and of the last update.
pub(crate) fn dates(alloc: Global, created: u64, updated: u64) -> Result<Value, AllocError>
    requires created { IsStamp created }
    requires updated { IsStamp updated }
    ensures { IfOk result (λ value. view value
        ≡ array (item (dated created (codes "Created")) (item (dated updated (codes "Updated")) no_items))) }
{
    let first = dated(alloc, created, "Created")?;
    let second = dated(alloc, updated, "Updated")?;
    json!(in alloc; [first, second])
}

/// The list of the one identifier.
pub(crate) fn identifiers(alloc: Global, id: &str) -> Result<Value, AllocError>
    ensures { IfOk result (λ value. view value ≡ array (item (identifier id.now) no_items)) }
{
    let only = json!(in alloc; {"identifier": id, "identifierType": "DOI"})?;
    json!(in alloc; [only])
}

/// The list of the one resource of which this one is a part.
pub(crate) fn parts_of(alloc: Global, id: &str) -> Result<Value, AllocError>
    ensures { IfOk result (λ value. view value ≡ array (item (part_of id.now) no_items)) }
{
    let only = part_of(alloc, id)?;
    json!(in alloc; [only])
}

fn part_of(alloc: Global, id: &str) -> Result<Value, AllocError>
    ensures { IfOk result (λ value. view value ≡ part_of id.now) }
{
    json!(in alloc; {
        "relatedIdentifier": id,
        "relatedIdentifierType": "DOI",
        "relationType": "IsPartOf"
    })
}

/// The list of the one title.
pub(crate) fn titles(alloc: Global, title: &str) -> Result<Value, AllocError>
    ensures { IfOk result (λ value. view value ≡ array (item (titled title.now) no_items)) }
{
    let only = json!(in alloc; {"title": title})?;
    json!(in alloc; [only])
}

/// The type of the resource.
pub(crate) fn resource(alloc: Global) -> Result<Value, AllocError>
    ensures { IfOk result (λ value. view value ≡ resource) }
{
    json!(in alloc; {"resourceType": "Dataset", "resourceTypeGeneral": "Dataset"})
}
