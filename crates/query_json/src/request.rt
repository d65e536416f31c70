// Citation requests.
ghost use Rattle.std.specs.Prelude.{◌≡◌, IfOk, option_map};
ghost use Rattle.serde_json.specs.View.{view};
ghost use Rattle.serde_json.specs.Find.{as_str};
ghost use Rattle.query_json.specs.Values.{list_of};
ghost use Rattle.query_json.specs.Queries.{NamesRise};
ghost use Rattle.query_json.specs.Requests.{IsUnlessMemory, meta_of, description_of, request_of, request_in, json_of};

use crate::fault::JsonFault;
use crate::members::has_only;
use crate::query::read_query;
use crate::value::byte_text;
use cite_schema::{ByteText, CiteAsk, List, Meta, NoMemory};
use serde_json::{Category, Value as Json};
use std::alloc::Global;

/// The citation request that a body spells, or its fault: the first of those that apply, in the order in which
/// `JsonFault` has them, and those of a query by their number. `JsonFault::NoMemory` comes only where memory was
/// wanting.
///
/// The conditions of the query stand in rising byte order of their columns' names, and no name stands twice.
///
/// The body is read once and walked once: the time is linear in its length, but for the ordering of the members of an
/// object by their names.
pub fn read_cite(alloc: Global, body: &[u8]) -> Result<CiteAsk, JsonFault>
    ensures request { IsUnlessMemory result (request_in body.now) }
    ensures names_rise { IfOk result (λ request. NamesRise request.query.conds) }
{
    let Some(value) = read_json(alloc, body)? else {
        return Err(JsonFault::NotJson);
    };
    read_request(alloc, &value)
}

/// The JSON value of a body; `Ok(None)` exactly where it is read as none.
pub(crate) fn read_json(alloc: Global, body: &[u8]) -> Result<Option<Json>, NoMemory>
    ensures { IfOk result (λ read. option_map view read ≡ json_of body.now) }
{
    match Json::from_slice(alloc, body) {
        Ok(value) => Ok(Some(value)),
        Err(error) => match error.classify() {
            Category::Memory => Err(NoMemory),
            _ => Ok(None),
        },
    }
}

fn read_request(alloc: Global, value: &Json) -> Result<CiteAsk, JsonFault>
    ensures request { IsUnlessMemory result (request_of (view value.now)) }
    ensures names_rise { IfOk result (λ request. NamesRise request.query.conds) }
{
    if !has_only(value, &["meta", "query"]) {
        return Err(JsonFault::NotARequest);
    }
    let Some(asked) = value.get("query") else {
        return Err(JsonFault::NotARequest);
    };
    let Some(described) = value.get("meta") else {
        return Err(JsonFault::NotARequest);
    };
    let query = read_query(alloc, asked)?;
    let Some(meta) = read_meta(alloc, described)? else {
        return Err(JsonFault::NotAMeta);
    };
    Ok(CiteAsk { query, meta })
}

fn read_meta(alloc: Global, value: &Json) -> Result<Option<Meta>, NoMemory>
    ensures { IfOk result (λ read. read ≡ meta_of (view value.now)) }
{
    if !has_only(value, &["creators", "description", "title"]) {
        return Ok(None);
    }
    let Some(listed) = value.get("creators") else {
        return Ok(None);
    };
    let Some(title) = value.get("title").and_then(Json::as_str) else {
        return Ok(None);
    };
    let Some(description) = described(value.get("description")) else {
        return Ok(None);
    };
    let Some(creators) = read_creators(alloc, listed)? else {
        return Ok(None);
    };
    Ok(Some(Meta {
        creators,
        title: byte_text(alloc, title)?,
        description: byte_text(alloc, description)?,
    }))
}

fn read_creators(alloc: Global, value: &Json) -> Result<Option<List<ByteText>>, NoMemory>
    ensures { IfOk result (λ read. read ≡ list_of as_str (view value.now)) }
{
    let Json::Array(listed) = value else {
        return Ok(None);
    };
    let mut creators = List::new(alloc);
    for item in listed {
        let Some(name) = item.as_str() else {
            return Ok(None);
        };
        creators.push(byte_text(alloc, name)?)?;
    }
    Ok(Some(creators))
}

// What `description` says. It takes no memory.
fn described(content: Option<&Json>) -> Option<&str>
    ensures { option_map (λ s. s.now) result ≡ description_of (option_map (λ v. view v.now) content.entry) }
{
    match content {
        Some(value) => value.as_str(),
        None => Some(""),
    }
}
