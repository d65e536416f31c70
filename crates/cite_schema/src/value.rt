// The values of cells.
ghost use Rattle.std.specs.Prelude.{◌≡◌, IfOk};
ghost use Rattle.cite_schema.specs.Values.{kind_of, value_cmp, printed};

use crate::list::ByteText;
use crate::memory::NoMemory;
use crate::text::known_bytes;
use std::alloc::Global;
use std::cmp::Ordering;

/// What a column holds.
#[derive(Clone, Copy, Debug, PartialEq, Eq)]
pub enum Kind {
    /// Whole numbers from −2^63 to 2^63 − 1.
    Int,
    /// Texts: lists of bytes.
    Text,
}

/// The value of a cell.
#[derive(Clone, Debug, Drop)]
pub enum Value {
    /// A whole number.
    Int(i64),
    /// A text.
    Text(ByteText),
}

/// Which of two values of one kind comes first: numbers by value, texts lexicographically by their bytes. It takes
/// no memory.
pub fn compare(a: &Value, b: &Value) -> Ordering
    requires { kind_of a.now ≡ kind_of b.now }
    ensures { result ≡ value_cmp a.now b.now }
{
    match (a, b) {
        (Value::Int(a), Value::Int(b)) => a.cmp(b),
        (Value::Text(a), Value::Text(b)) => a.as_slice().cmp(b.as_slice()),
        _ => unreachable!(),
    }
}

/// The bytes that a value prints: a number in decimal, with `-` before a negative one and no leading zeros; a text as
/// its bytes.
pub fn print_value(alloc: Global, value: &Value) -> Result<ByteText, NoMemory>
    ensures { IfOk result (λ text. text ≡ printed value.now) }
{
    match value {
        Value::Int(n) => {
            let text = format!(in alloc; "{n}")?;
            Ok(ByteText::from_slice(alloc, text.as_bytes())?)
        }
        Value::Text(text) => Ok(ByteText::from_slice(alloc, text.as_slice())?),
    }
}

ghost use Rattle.std.specs.Prelude.{Option as Maybe};
ghost use Rattle.cite_schema.specs.TableTexts.{cell_of};

impl Value {
    /// Which kind of column may hold the value.
    pub fn kind(&self) -> Kind
        ensures { result ≡ kind_of self.now }
    {
        match self {
            Value::Int(_) => Kind::Int,
            Value::Text(_) => Kind::Text,
        }
    }

    /// What a field of a table text says in a column of a kind: in a number column a number text, in a text column
    /// any field of at most 65,535 bytes. `Ok(None)` exactly where it says nothing.
    pub fn read(alloc: Global, kind: Kind, field: &[u8]) -> Result<Option<Value>, NoMemory>
        ensures { IfOk result (λ read. read ≡ cell_of kind field.now) }
    {
        known_bytes(field);
        match kind {
            Kind::Int => match crate::number::read_int(field) {
                Some(number) => Ok(Some(Value::Int(number))),
                None => Ok(None),
            },
            Kind::Text if field.len() > 65_535 => Ok(None),
            Kind::Text => Ok(Some(Value::Text(ByteText::from_slice(alloc, field)?))),
        }
    }

    /// The same value again.
    pub fn copy(&self) -> Result<Value, NoMemory>
        ensures { IfOk result (λ copied. copied ≡ self.now) }
    {
        Ok(self.clone()?)
    }
}
