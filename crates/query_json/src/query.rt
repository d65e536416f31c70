// Queries.
ghost use Rattle.std.specs.Prelude.{◌≡◌, IfOk, IfSome, option_map};
ghost use Rattle.serde_json.specs.View.{view, members_view};
ghost use Rattle.query_json.specs.Values.{list_of};
ghost use Rattle.query_json.specs.Queries.{column_conditions, where_of, NamesRise, label_of, item_of, direction_of, order_column_of, order_of, query_of};
ghost use Rattle.query_json.specs.Requests.{IsUnlessMemory};

use crate::condition::read_condition;
use crate::fault::JsonFault;
use crate::members::has_only;
use crate::value::{byte_text, read_text};
use cite_schema::{Along, Asked, ByteText, List, NoMemory, OnColumn, Query};
use serde_json::{Map, Value as Json};
use std::alloc::Global;

/// A query, or the fault of its first part that is not of its form.
pub(crate) fn read_query(alloc: Global, value: &Json) -> Result<Query, JsonFault>
    ensures query { IsUnlessMemory result (query_of (view value.now)) }
    ensures names_rise { IfOk result (λ query. NamesRise query.conds) }
{
    if !has_only(value, &["items", "order", "where"]) {
        return Err(JsonFault::NotAQuery(1));
    }
    let Some(listed) = value.get("items") else {
        return Err(JsonFault::NotAQuery(1));
    };
    let Some(conds) = read_where(alloc, value.get("where"))? else {
        return Err(JsonFault::NotAQuery(2));
    };
    let Some(items) = read_items(alloc, listed)? else {
        return Err(JsonFault::NotAQuery(3));
    };
    let Some(order) = read_order(alloc, value.get("order"))? else {
        return Err(JsonFault::NotAQuery(4));
    };
    Ok(Query {
        conds,
        items,
        order,
    })
}

fn read_where(alloc: Global, content: Option<&Json>) -> Result<Option<List<OnColumn>>, NoMemory>
    ensures conditions { IfOk result
        (λ read. read ≡ where_of (option_map (λ v. view v.now) content.entry)) }
    ensures names_rise { IfOk result (λ read. IfSome read NamesRise) }
{
    match content {
        None => Ok(Some(List::new(alloc))),
        Some(Json::Object(members)) => read_column_conditions(alloc, members),
        Some(_) => Ok(None),
    }
}

// The map gives its members in the order of their names.
fn read_column_conditions(
    alloc: Global,
    members: &Map<String, Json>,
) -> Result<Option<List<OnColumn>>, NoMemory>
    ensures conditions { IfOk result
        (λ read. read ≡ column_conditions (members_view members.now.entries)) }
    ensures names_rise { IfOk result (λ read. IfSome read NamesRise) }
{
    let mut conditions = List::new(alloc);
    for (name, content) in members.iter() {
        let Some(cond) = read_condition(alloc, content)? else {
            return Ok(None);
        };
        let column = byte_text(alloc, name.as_str())?;
        conditions.push(OnColumn { column, cond })?;
    }
    Ok(Some(conditions))
}

fn read_items(alloc: Global, value: &Json) -> Result<Option<List<Asked>>, NoMemory>
    ensures { IfOk result (λ read. read ≡ list_of item_of (view value.now)) }
{
    let Json::Array(listed) = value else {
        return Ok(None);
    };
    let mut items = List::new(alloc);
    for item in listed {
        let Some(read) = read_item(alloc, item)? else {
            return Ok(None);
        };
        items.push(read)?;
    }
    Ok(Some(items))
}

fn read_item(alloc: Global, value: &Json) -> Result<Option<Asked>, NoMemory>
    ensures { IfOk result (λ read. read ≡ item_of (view value.now)) }
{
    if !has_only(value, &["column", "label"]) {
        return Ok(None);
    }
    let Some(name) = value.get("column").and_then(Json::as_str) else {
        return Ok(None);
    };
    let Some(label) = read_label(alloc, name, value.get("label"))? else {
        return Ok(None);
    };
    let column = byte_text(alloc, name)?;
    Ok(Some(Asked { column, label }))
}

fn read_label(
    alloc: Global,
    name: &str,
    content: Option<&Json>,
) -> Result<Option<ByteText>, NoMemory>
    ensures { IfOk result (λ read. read ≡ label_of name.now (option_map (λ v. view v.now) content.entry)) }
{
    match content {
        Some(label) => read_text(alloc, label),
        None => Ok(Some(byte_text(alloc, name)?)),
    }
}

fn read_order(alloc: Global, content: Option<&Json>) -> Result<Option<List<Along>>, NoMemory>
    ensures { IfOk result (λ read. read ≡ order_of (option_map (λ v. view v.now) content.entry)) }
{
    let Some(value) = content else {
        return Ok(Some(List::new(alloc)));
    };
    let Json::Array(listed) = value else {
        return Ok(None);
    };
    let mut order = List::new(alloc);
    for item in listed {
        let Some(read) = read_order_column(alloc, item)? else {
            return Ok(None);
        };
        order.push(read)?;
    }
    Ok(Some(order))
}

fn read_order_column(alloc: Global, value: &Json) -> Result<Option<Along>, NoMemory>
    ensures { IfOk result (λ read. read ≡ order_column_of (view value.now)) }
{
    if !has_only(value, &["column", "dir"]) {
        return Ok(None);
    }
    let Some(name) = value.get("column").and_then(Json::as_str) else {
        return Ok(None);
    };
    let Some(down) = read_direction(value.get("dir")) else {
        return Ok(None);
    };
    let column = byte_text(alloc, name)?;
    Ok(Some(Along { column, down }))
}

// Whether the direction is descending.
fn read_direction(content: Option<&Json>) -> Option<bool>
    ensures { result ≡ direction_of (option_map (λ v. view v.now) content.entry) }
{
    let Some(value) = content else {
        return Some(false);
    };
    match value.as_str()? {
        "asc" => Some(false),
        "desc" => Some(true),
        _ => None,
    }
}
