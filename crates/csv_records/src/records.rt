// The records that csv reads of a text, one at a time.
ghost use Rattle.std.specs.Prelude.{◌≡◌, true, IfOk};
ghost use Rattle.csv.specs.Records.{fields_of};
ghost use Rattle.csv_records.specs.Records.{IsReading, left_of, records_of, Reads};

use cite_schema::NoMemory;
use csv::{ByteRecord, Reader, ReaderBuilder};
use std::alloc::Global;

/// A reader of the records of a text, which may have any widths.
pub fn records_in(alloc: Global, text: &[u8]) -> Reader<&[u8]>
    ensures reading { IsReading result }
    ensures left { left_of result ≡ records_of text.now }
{
    ReaderBuilder::new()
        .has_headers(false)
        .flexible(true)
        .from_reader(alloc, text)
}

/// Reads the next record into `line`, if there is one. After an error the reader is of no more use.
///
/// # Errors
///
/// Want of memory. Over a slice, and with records of any widths, there is no other.
pub fn read_next(reader: &mut Reader<&[u8]>, line: &mut ByteRecord) -> Result<bool, NoMemory>
    requires { IsReading reader.old }
    ensures reading { result ≡ Ok true → IsReading reader.new }
    ensures found { IfOk result (λ found. Reads found (fields_of line.new) (left_of reader.old) (left_of reader.new)) }
{
    let Ok(found) = reader.read_byte_record(line) else {
        return Err(NoMemory);
    };
    Ok(found)
}

ghost use Rattle.std.specs.Prelude.{◌<◌, length, slice_get, Some};

/// The field of a record at a place, counted from 0.
pub fn field(line: &ByteRecord, at: usize) -> &[u8]
    requires { at < length (fields_of line.now) }
    ensures { slice_get (fields_of line.now) at ≡ Some result.now }
{
    match line.get(at) {
        Some(field) => field,
        None => unreachable!(),
    }
}
