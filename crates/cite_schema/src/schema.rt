// Columns and schemas.
ghost use Rattle.std.specs.Prelude.{◌≡◌, ◌≤◌, length, ◌&&◌, IsTrue, IfOk, IfErr, Some};
ghost use Rattle.cite_schema.specs.Headings.{is_name, heading_fault, is_heading, is_named_before};
ghost use Rattle.cite_schema.specs.Tables.{fits, is_short_row};

use crate::list::{ByteText, List};
use crate::row::Row;
use crate::value::{Kind, Value};
use std::marker::Model;

/// A column: its name and what it holds.
#[derive(Clone, Debug, Drop)]
pub struct Column {
    pub name: ByteText,
    pub kind: Kind,
}

/// The number of a schema and its columns; column 0 is the key. It has 1 to 64 columns, each name is of the name form,
/// and no name stands twice.
#[derive(Clone, Debug, Drop)]
pub struct Schema {
    number: u32,
    columns: List<Column>,
}

impl Model for Schema {
    ghost use Rattle.cite_schema.specs.Headings.{Heading, is_heading};
    ghost use Rattle.std.specs.Prelude.{IsTrue};

    ghost Value = { Heading };

    ghost view = { λ s. record { number = s.number; columns = s.columns } };

    ghost invariant = { λ s. IsTrue (is_heading s.columns) };
}

/// Why columns make no schema. Places are counted from 0.
#[derive(Clone, Copy, Debug, PartialEq, Eq)]
pub enum SchemaFault {
    /// There is no column.
    NoColumns,
    /// There are more than 64 columns.
    TooManyColumns,
    /// The name at this place is not 1 to 64 ASCII letters, digits or `_`, the first no digit.
    BadName(u16),
    /// An earlier column has the name of the column at this place.
    NameTwice(u16),
}

impl Schema {
    /// The schema of these columns. The faults are tested in their order, the last two column by column, and the first
    /// one is told. It takes no memory, and time in the square of the number of columns, of which there are at most 64.
    pub fn make(number: u32, columns: List<Column>) -> Result<Schema, SchemaFault>
        ensures schema { IfOk result (λ s. s ≡ record { number = number; columns = columns }) }
        ensures heading { IfOk result (λ s. IsTrue (is_heading columns)) }
        ensures fault { IfErr result (λ fault. heading_fault columns ≡ Some fault) }
    {
        match fault_of(columns.as_slice()) {
            Some(fault) => Err(fault),
            None => Ok(Schema { number, columns }),
        }
    }

    /// The number of the schema. It takes no memory.
    pub fn number(&self) -> u32
        ensures { result ≡ self.now.number }
    {
        self.number
    }

    /// The columns, in order. It takes no memory.
    pub fn columns(&self) -> &List<Column>
        ensures value { result.now ≡ self.now.columns }
        ensures heading { IsTrue (is_heading self.now.columns) }
    {
        &self.columns
    }

    /// The columns, moved. It takes no memory.
    pub fn into_columns(self) -> List<Column>
        ensures value { result ≡ self.columns }
        ensures heading { IsTrue (is_heading self.columns) }
    {
        let Schema { columns, .. } = self;
        columns
    }

    /// Whether the row has one value of the right kind for each column, and no text of more than 65,535 bytes. It takes
    /// no memory.
    pub fn fits(&self, row: &Row) -> bool
        ensures { result ≡ (fits self.now.columns row.now && is_short_row row.now) }
    {
        let columns = self.columns.as_slice();
        let values = row.values().as_slice();
        if columns.len() != values.len() {
            return false;
        }
        for i in 0..columns.len() {
            if !fits_column(columns[i].kind, &values[i]) {
                return false;
            }
        }
        true
    }
}

fn fault_of(columns: &[Column]) -> Option<SchemaFault>
    ensures { result ≡ heading_fault columns.now }
{
    if columns.is_empty() {
        return Some(SchemaFault::NoColumns);
    }
    if columns.len() > 64 {
        return Some(SchemaFault::TooManyColumns);
    }
    name_fault_of(columns)
}

ghost use Rattle.std.specs.Prelude.{[]};
ghost use Rattle.cite_schema.specs.Headings.{name_fault};

// The first fault of a name, column by column.
fn name_fault_of(columns: &[Column]) -> Option<SchemaFault>
    requires { length columns.now ≤ 64 }
    ensures { result ≡ name_fault [] columns.now }
{
    for i in 0..columns.len() {
        if !has_name_form(columns[i].name.as_slice()) {
            return Some(SchemaFault::BadName(i as u16));
        }
        if has_name(&columns[..i], &columns[i].name) {
            return Some(SchemaFault::NameTwice(i as u16));
        }
    }
    None
}

/// Whether the bytes are a column name: 1 to 64 ASCII letters, digits or `_`, the first no digit.
pub fn has_name_form(name: &[u8]) -> bool
    ensures { result ≡ is_name name.now }
{
    match name {
        [] => false,
        [first, ..] => name.len() <= 64 && !first.is_ascii_digit() && has_name_bytes(name),
    }
}

ghost use Rattle.std.specs.Prelude.{◌||◌, ◌==◌};
ghost use Rattle.std.specs.List.{list_all};
ghost use Rattle.std.specs.Char.{is_ascii_alphanumeric};

fn has_name_bytes(name: &[u8]) -> bool
    ensures { result ≡ list_all (λ b. is_ascii_alphanumeric b || (b == 95)) name.now }
{
    name.iter().all(|b| b.is_ascii_alphanumeric() || *b == b'_')
}

fn has_name(columns: &[Column], name: &ByteText) -> bool
    ensures { result ≡ is_named_before columns.now name.now }
{
    columns.iter().any(|column| column.name.as_slice().cmp(name.as_slice()).is_eq())
}

ghost use Rattle.cite_schema.specs.Tables.{is_short};
ghost use Rattle.cite_schema.specs.Values.{is_value_of, is_number};

// Each number of the type is one that a cell may hold.
fn is_any_number(number: i64) -> bool
    ensures known { IsTrue result }
    ensures number { IsTrue (is_number number) }
{
    number <= i64::MAX
}

fn fits_column(kind: Kind, value: &Value) -> bool
    ensures { result ≡ (is_value_of kind value.now && is_short value.now) }
{
    match (kind, value) {
        (Kind::Int, Value::Int(number)) => is_any_number(*number),
        (Kind::Text, Value::Text(text)) => text.bytes().len() <= 65_535,
        _ => false,
    }
}
