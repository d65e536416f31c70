// The header record of a table text.
ghost use Rattle.std.specs.Prelude.{◌≡◌, IfOk, option_map};
ghost use Rattle.csv.specs.Records.{fields_of};
ghost use Rattle.cite_schema.specs.TableTexts.{header_of};

use crate::records::field;
use cite_schema::{ByteText, Column, Kind, List, NoMemory, Schema};
use csv::ByteRecord;
use std::alloc::Global;

/// The schema, under the number 1, of the columns that a header record spells, one in each field; `Ok(None)` exactly
/// where it spells none.
pub fn read_schema(alloc: Global, head: &ByteRecord) -> Result<Option<Schema>, NoMemory>
    ensures { IfOk result (λ read. option_map (λ schema. schema.columns) read ≡ header_of (fields_of head.now)) }
{
    match read_columns(alloc, head)? {
        Some(columns) => Ok(Schema::make(1, columns).ok()),
        None => Ok(None),
    }
}

ghost use Rattle.std.specs.Prelude.{map};
ghost use Rattle.cite_schema.specs.TableTexts.{all_some, column_in};

fn read_columns(alloc: Global, head: &ByteRecord) -> Result<Option<List<Column>>, NoMemory>
    ensures { IfOk result (λ read. read ≡ all_some (map column_in (fields_of head.now))) }
{
    let mut columns = List::new(alloc);
    for i in 0..head.len() {
        match read_column(alloc, field(head, i))? {
            Some(column) => columns.push(column)?,
            None => return Ok(None),
        }
    }
    Ok(Some(columns))
}

/// The column that a field `name:int` or `name:text` spells, whatever its name; `Ok(None)` exactly where the field is of
/// neither form.
#[tactic(auto, unfolding(cite_schema::specs::TableTexts::column_in))]
pub fn read_column(alloc: Global, field: &[u8]) -> Result<Option<Column>, NoMemory>
    ensures { IfOk result (λ read. read ≡ column_in field.now) }
{
    if let Some(name) = field.strip_suffix(b":int") {
        return Ok(Some(Column {
            name: ByteText::from_slice(alloc, name)?,
            kind: Kind::Int,
        }));
    }
    match field.strip_suffix(b":text") {
        Some(name) => Ok(Some(Column {
            name: ByteText::from_slice(alloc, name)?,
            kind: Kind::Text,
        })),
        None => Ok(None),
    }
}
