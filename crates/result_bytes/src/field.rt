// The texts of a result's fields.
ghost use Rattle.std.specs.Prelude.{◌≡◌};
ghost use Rattle.cite_schema.specs.Layout.{shown};

use cite_schema::{Row, Shown, Value};
use itoa::Buffer;

// The bytes that an item shows of a row. A number is printed into the buffer; nothing else is copied.
pub(crate) fn shown_text<'a>(buffer: &'a mut Buffer, what: &'a Shown, row: &'a Row) -> &'a [u8]
    ensures { result.now ≡ shown what.now row.now }
{
    match what {
        Shown::Constant(text) => text.as_slice(),
        Shown::Column(column) => match row.values().get(*column as usize) {
            Some(Value::Int(number)) => buffer.format(*number).as_bytes(),
            Some(Value::Text(text)) => text.as_slice(),
            None => &[],
        },
    }
}
