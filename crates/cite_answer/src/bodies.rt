// The bodies of answers in JSON.
ghost use Rattle.std.specs.Prelude.{◌≡◌, false, true, map, IfOk, IsTrue};
ghost use Rattle.std.specs.Str.{is_utf8};
ghost use Rattle.serde_json.specs.Data.{array};
ghost use Rattle.serde_json.specs.View.{view, items_of};
ghost use Rattle.serde_json.specs.Written.{compact_text, has_float};
ghost use Rattle.cite_schema.specs.Headings.{is_heading};
ghost use Rattle.cite_answer.specs.Bodies.{stored_value, cited_value, moved_value, kind_word, column_value, state_value, stored_json, cited_json, moved_json, state_json};

use archive_model::{Moved, Stored};
use cite_schema::{ByteText, Column, Kind, NoMemory, Schema};
use serde_json::{Value, json};
use std::alloc::{AllocError, Global};

/// A stored batch, as `{"new":true,"version":2}`.
pub(crate) fn stored_json(alloc: Global, stored: Stored) -> Result<ByteText, NoMemory>
    ensures { IfOk result (λ text. text ≡ stored_json stored) }
{
    print(alloc, &stored_value(alloc, stored)?)
}

fn stored_value(alloc: Global, stored: Stored) -> Result<Value, AllocError>
    ensures { IfOk result (λ value. view value ≡ stored_value stored) }
{
    json!(in alloc; {"new": stored.new, "version": stored.version})
}

/// A migration, as `{"schema":2,"version":3}`.
pub(crate) fn moved_json(alloc: Global, moved: Moved) -> Result<ByteText, NoMemory>
    ensures { IfOk result (λ text. text ≡ moved_json moved) }
{
    print(alloc, &moved_value(alloc, moved)?)
}

fn moved_value(alloc: Global, moved: Moved) -> Result<Value, AllocError>
    ensures { IfOk result (λ value. view value ≡ moved_value moved) }
{
    json!(in alloc; {"schema": moved.schema, "version": moved.version})
}

/// A citation, with its identifier and its citation text, as `{"id":"10.5072/c1","new":true,"text":".."}`. The cost is the
/// length of the text.
pub(crate) fn cited_json(
    alloc: Global,
    id: &[u8],
    new: bool,
    text: &[u8],
) -> Result<ByteText, NoMemory>
    requires id { is_utf8 id.now ≡ true }
    requires text { is_utf8 text.now ≡ true }
    ensures { IfOk result (λ body. body ≡ cited_json id.now new text.now) }
{
    let value = cited_value(alloc, string_of(id), new, string_of(text))?;
    print(alloc, &value)
}

fn cited_value(alloc: Global, id: &str, new: bool, text: &str) -> Result<Value, AllocError>
    ensures { IfOk result (λ value. view value ≡ cited_value id.now new text.now) }
{
    json!(in alloc; {"id": id, "new": new, "text": text})
}

/// What an archive holds, as `{"citations":1,"columns":[{"kind":"int","name":"sid"}],"schema":1,"version":2}`. The cost is
/// the length of the text.
pub(crate) fn state_json(
    alloc: Global,
    citations: u32,
    schema: &Schema,
    version: u32,
) -> Result<ByteText, NoMemory>
    ensures { IfOk result (λ text. text ≡ state_json citations schema.now version) }
{
    let columns = columns_value(alloc, schema.columns().as_slice())?;
    let value = state_value(alloc, citations, columns, schema.number(), version)?;
    print(alloc, &value)
}

ghost use Rattle.std.specs.Prelude.{ℕ, codes};
ghost use Rattle.serde_json.specs.Data.{object, member, no_members, number as number_of, unsigned};

fn state_value(
    alloc: Global,
    citations: u32,
    columns: Value,
    schema: u32,
    version: u32,
) -> Result<Value, AllocError>
    ensures { IfOk result (λ value. view value ≡ object (member (codes "citations") (number_of (unsigned citations)) (member (codes "columns") (view columns) (member (codes "schema") (number_of (unsigned schema)) (member (codes "version") (number_of (unsigned version)) no_members))))) }
{
    json!(in alloc; {
        "citations": citations,
        "columns": columns,
        "schema": schema,
        "version": version
    })
}

fn columns_value(alloc: Global, columns: &[Column]) -> Result<Value, AllocError>
    requires { IsTrue (is_heading columns.now) }
    ensures { IfOk result (λ value. view value ≡ array (items_of (map column_value columns.now))) }
{
    let mut values = Vec::with_capacity(alloc, columns.len())?;
    for column in columns {
        values.push(column_value(alloc, string_of(column.name.as_slice()), column.kind)?)?;
    }
    Ok(Value::Array(values))
}

ghost use Rattle.serde_json.specs.Data.{string};

fn column_value(alloc: Global, name: &str, kind: Kind) -> Result<Value, AllocError>
    ensures { IfOk result (λ value. view value ≡ object (member (codes "kind") (string (kind_word kind)) (member (codes "name") (string name.now) no_members))) }
{
    json!(in alloc; {"kind": kind_word(kind), "name": name})
}

fn kind_word(kind: Kind) -> &'static str
    ensures { result.now ≡ kind_word kind }
{
    match kind {
        Kind::Int => "int",
        Kind::Text => "text",
    }
}

// Bytes as the string that they are.
fn string_of(bytes: &[u8]) -> &str
    requires { is_utf8 bytes.now ≡ true }
    ensures { result.now ≡ bytes.now }
{
    let Ok(text) = std::str::from_utf8(bytes) else {
        unreachable!()
    };
    text
}

// The text of a value without floats.
fn print(alloc: Global, value: &Value) -> Result<ByteText, NoMemory>
    requires { has_float (view value.now) ≡ false }
    ensures { IfOk result (λ text. text ≡ compact_text (view value.now)) }
{
    let text = value.to_string(alloc)?;
    Ok(ByteText::from_vec(text.into_bytes()))
}
