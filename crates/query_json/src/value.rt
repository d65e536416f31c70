// Values of cells.
ghost use Rattle.std.specs.Prelude.{◌≡◌, IfOk};
ghost use Rattle.serde_json.specs.View.{view, members_view};
ghost use Rattle.query_json.specs.Values.{value_of, hex_member, text_of, list_of};

use crate::members::only_member;
use cite_schema::{ByteText, List, NoMemory, Value};
use hex::FromHexError;
use serde_json::{Map, Value as Json};
use std::alloc::Global;

/// The bytes of a string.
pub(crate) fn byte_text(alloc: Global, text: &str) -> Result<ByteText, NoMemory>
    ensures { IfOk result (λ bytes. bytes ≡ text.now) }
{
    Ok(ByteText::from_slice(alloc, text.as_bytes())?)
}

/// A whole number, a string, or the text of an object with `hex`; `Ok(None)` for any other value.
pub(crate) fn read_value(alloc: Global, value: &Json) -> Result<Option<Value>, NoMemory>
    ensures { IfOk result (λ read. read ≡ value_of (view value.now)) }
{
    match value {
        Json::Number(number) => Ok(number.as_i64().map(Value::Int)),
        Json::String(text) => Ok(Some(Value::Text(byte_text(alloc, text.as_str())?))),
        Json::Object(members) => read_hex(alloc, members),
        _ => Ok(None),
    }
}

fn read_hex(alloc: Global, members: &Map<String, Json>) -> Result<Option<Value>, NoMemory>
    ensures { IfOk result (λ read. read ≡ hex_member (members_view members.now.entries)) }
{
    let Some((name, content)) = only_member(members) else {
        return Ok(None);
    };
    if name.as_str() != "hex" {
        return Ok(None);
    }
    let Some(digits) = content.as_str() else {
        return Ok(None);
    };
    match hex::decode(alloc, digits.as_bytes()) {
        Ok(bytes) => Ok(Some(Value::Text(List::from_vec(bytes)))),
        Err(FromHexError::OutOfMemory) => Err(NoMemory),
        Err(_) => Ok(None),
    }
}

/// The text of a value that is one; `Ok(None)` for any other value.
pub(crate) fn read_text(alloc: Global, value: &Json) -> Result<Option<ByteText>, NoMemory>
    ensures { IfOk result (λ read. read ≡ text_of (view value.now)) }
{
    match read_value(alloc, value)? {
        Some(Value::Text(text)) => Ok(Some(text)),
        _ => Ok(None),
    }
}

/// A list of values; `Ok(None)` where it is none.
pub(crate) fn read_values(alloc: Global, value: &Json) -> Result<Option<List<Value>>, NoMemory>
    ensures { IfOk result (λ read. read ≡ list_of value_of (view value.now)) }
{
    let Json::Array(items) = value else {
        return Ok(None);
    };
    let mut values = List::new(alloc);
    for item in items {
        let Some(read) = read_value(alloc, item)? else {
            return Ok(None);
        };
        values.push(read)?;
    }
    Ok(Some(values))
}
