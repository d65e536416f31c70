// Migration requests.
ghost use Rattle.std.specs.Prelude.{◌≡◌, IfOk};
ghost use Rattle.serde_json.specs.View.{view, members_view};
ghost use Rattle.query_json.specs.Values.{list_of};
ghost use Rattle.query_json.specs.Requests.{IsUnlessMemory};
ghost use Rattle.query_json.specs.Steps.{steps_in, step_of, step_in};

use crate::fault::JsonFault;
use crate::members::{has_only, only_member};
use crate::request::read_json;
use crate::step_word::{StepWord, read_step_word};
use crate::value::{byte_text, read_value};
use cite_schema::{List, NoMemory, Step, Value};
use serde_json::{Map, Value as Json};
use std::alloc::Global;

/// The steps that the body of a migration spells, in their order; there may be none. Whether they fit a schema is no
/// question here. The body is read once and walked once: the time is linear in its length, but for the ordering of the
/// members of an object by their names.
///
/// # Errors
///
/// `NotJson`, where the body is no JSON text; `NotSteps`, where it is no list of steps. `NoMemory` comes only where memory
/// was wanting.
pub fn read_steps(alloc: Global, body: &[u8]) -> Result<List<Step>, JsonFault>
    ensures { IsUnlessMemory result (steps_in body.now) }
{
    let Some(value) = read_json(alloc, body)? else {
        return Err(JsonFault::NotJson);
    };
    match read_list(alloc, &value)? {
        Some(steps) => Ok(steps),
        None => Err(JsonFault::NotSteps),
    }
}

fn read_list(alloc: Global, value: &Json) -> Result<Option<List<Step>>, NoMemory>
    ensures { IfOk result (λ read. read ≡ list_of step_of (view value.now)) }
{
    let Json::Array(listed) = value else {
        return Ok(None);
    };
    let mut steps = List::new(alloc);
    for item in listed {
        let Some(read) = read_step(alloc, item)? else {
            return Ok(None);
        };
        steps.push(read)?;
    }
    Ok(Some(steps))
}

fn read_step(alloc: Global, value: &Json) -> Result<Option<Step>, NoMemory>
    ensures { IfOk result (λ read. read ≡ step_of (view value.now)) }
{
    match value {
        Json::Object(members) => read_named(alloc, members),
        _ => Ok(None),
    }
}

fn read_named(alloc: Global, members: &Map<String, Json>) -> Result<Option<Step>, NoMemory>
    ensures { IfOk result (λ read. read ≡ step_in (members_view members.now.entries)) }
{
    let Some((name, content)) = only_member(members) else {
        return Ok(None);
    };
    match read_step_word(name.as_str()) {
        Some(word) => read_content(alloc, word, content),
        None => Ok(None),
    }
}

ghost use Rattle.query_json.specs.Steps.{step_by};

fn read_content(alloc: Global, word: StepWord, content: &Json) -> Result<Option<Step>, NoMemory>
    ensures { IfOk result (λ read. read ≡ step_by word (view content.now)) }
{
    match word {
        StepWord::Rename => read_rename(alloc, content),
        StepWord::Add => read_add(alloc, content),
        StepWord::DropColumn => read_drop(alloc, content),
        StepWord::Scale => read_scale(alloc, content),
        StepWord::Recode => read_recode(alloc, content),
        StepWord::Retype => read_retype(alloc, content),
    }
}

ghost use Rattle.query_json.specs.declared.step_word.StepWord.TheVariants as words;

fn read_rename(alloc: Global, content: &Json) -> Result<Option<Step>, NoMemory>
    ensures { IfOk result (λ read. read ≡ step_by words.Rename (view content.now)) }
{
    if !has_only(content, &["column", "to"]) {
        return Ok(None);
    }
    let Some(column) = content.get("column").and_then(Json::as_str) else {
        return Ok(None);
    };
    let Some(to) = content.get("to").and_then(Json::as_str) else {
        return Ok(None);
    };
    Ok(Some(Step::Rename {
        column: byte_text(alloc, column)?,
        to: byte_text(alloc, to)?,
    }))
}

fn read_add(alloc: Global, content: &Json) -> Result<Option<Step>, NoMemory>
    ensures { IfOk result (λ read. read ≡ step_by words.Add (view content.now)) }
{
    if !has_only(content, &["column", "value"]) {
        return Ok(None);
    }
    let Some(column) = content.get("column").and_then(Json::as_str) else {
        return Ok(None);
    };
    let Some(value) = read_member(alloc, content.get("value"))? else {
        return Ok(None);
    };
    let column = byte_text(alloc, column)?;
    Ok(Some(Step::Add { column, value }))
}

fn read_drop(alloc: Global, content: &Json) -> Result<Option<Step>, NoMemory>
    ensures { IfOk result (λ read. read ≡ step_by words.DropColumn (view content.now)) }
{
    if !has_only(content, &["column"]) {
        return Ok(None);
    }
    let Some(column) = content.get("column").and_then(Json::as_str) else {
        return Ok(None);
    };
    let column = byte_text(alloc, column)?;
    Ok(Some(Step::DropColumn { column }))
}

fn read_scale(alloc: Global, content: &Json) -> Result<Option<Step>, NoMemory>
    ensures { IfOk result (λ read. read ≡ step_by words.Scale (view content.now)) }
{
    if !has_only(content, &["by", "column", "plus"]) {
        return Ok(None);
    }
    let Some(column) = content.get("column").and_then(Json::as_str) else {
        return Ok(None);
    };
    let Some(by) = content.get("by").and_then(Json::as_i64) else {
        return Ok(None);
    };
    let Some(plus) = content.get("plus").and_then(Json::as_i64) else {
        return Ok(None);
    };
    let column = byte_text(alloc, column)?;
    Ok(Some(Step::Scale { column, by, plus }))
}

fn read_recode(alloc: Global, content: &Json) -> Result<Option<Step>, NoMemory>
    ensures { IfOk result (λ read. read ≡ step_by words.Recode (view content.now)) }
{
    if !has_only(content, &["column", "new", "old"]) {
        return Ok(None);
    }
    let Some(column) = content.get("column").and_then(Json::as_str) else {
        return Ok(None);
    };
    let Some(old) = read_member(alloc, content.get("old"))? else {
        return Ok(None);
    };
    let Some(new) = read_member(alloc, content.get("new"))? else {
        return Ok(None);
    };
    let column = byte_text(alloc, column)?;
    Ok(Some(Step::Recode { column, old, new }))
}

fn read_retype(alloc: Global, content: &Json) -> Result<Option<Step>, NoMemory>
    ensures { IfOk result (λ read. read ≡ step_by words.Retype (view content.now)) }
{
    if !has_only(content, &["column", "kind"]) {
        return Ok(None);
    }
    let Some(column) = content.get("column").and_then(Json::as_str) else {
        return Ok(None);
    };
    let Some(kind) = content.get("kind").and_then(Json::as_str) else {
        return Ok(None);
    };
    if kind != "text" {
        return Ok(None);
    }
    let column = byte_text(alloc, column)?;
    Ok(Some(Step::RetypeToText { column }))
}

ghost use Rattle.std.specs.Prelude.{option_map};
ghost use Rattle.std.specs.Option.{option_and_then};
ghost use Rattle.query_json.specs.Values.{value_of};

// The value of a member, where it is there.
fn read_member(alloc: Global, content: Option<&Json>) -> Result<Option<Value>, NoMemory>
    ensures { IfOk result (λ read. read ≡ option_and_then value_of (option_map (λ v. view v.now) content.entry)) }
{
    match content {
        Some(value) => read_value(alloc, value),
        None => Ok(None),
    }
}
