// The body of a batch.
ghost use Rattle.batches.specs.Bodies.{lines_of, IsUnlessMemory};

use crate::fault::BatchFault;
use crate::header::is_header;
use crate::keys::key_twice;
use crate::reading::{Collected, read_lines};
use cite_schema::{Column, Line, List, NoMemory, Schema};
use csv::{ByteRecord, Reader};
use csv_records::{read_next, records_in};
use std::alloc::Global;

/// The lines that a body spells under a schema. One pass over the body, which ends at the 20,001st line, and n log n in
/// the lines for their keys; each text is copied once into its line.
///
/// # Errors
///
/// The first rule that the body breaks: `BadHeader`, `EmptyBatch`, `TooManyLines`, and then line by line `BadWidth`,
/// `BadOp`, `BadCell`, `KeyTwice`. `NoMemory` where memory was wanting.
pub fn read_batch(alloc: Global, schema: &Schema, body: &[u8]) -> Result<List<Line>, BatchFault>
    ensures { IsUnlessMemory result (lines_of schema.now.columns body.now) }
{
    let columns = schema.columns().as_slice();
    let mut reader = records_in(alloc, body);
    if !read_header(alloc, columns, &mut reader)? {
        return Err(BatchFault::BadHeader);
    }
    match read_lines(alloc, columns, &mut reader) {
        Ok(read) => judge(alloc, read),
        Err(fault) => Err(fault),
    }
}

ghost use Rattle.std.specs.Prelude.{◌≡◌, ◌≤◌, length, IfOk, true};
ghost use Rattle.csv_records.specs.Records.{IsReading, left_of};
ghost use Rattle.batches.specs.Parts.{HeadIs};

// Whether the first record is the header.
fn read_header(
    alloc: Global,
    columns: &[Column],
    reader: &mut Reader<&[u8]>,
) -> Result<bool, NoMemory>
    requires reading { IsReading reader.old }
    requires few { length columns.now ≤ 64 }
    ensures found { IfOk result (λ found. HeadIs columns.now found (left_of reader.old) (left_of reader.new)) }
    ensures reading { result ≡ Ok true → IsReading reader.new }
{
    let mut head = ByteRecord::new(alloc);
    if !read_next(reader, &mut head)? {
        return Ok(false);
    }
    Ok(is_header(columns, &head))
}

ghost use Rattle.batches.specs.Parts.{HaveKeys, due_of};

// The lines, or the first fault among them: a key that comes twice is found before a line that broke a rule.
fn judge(alloc: Global, read: Collected) -> Result<List<Line>, BatchFault>
    requires keys { HaveKeys read.lines }
    requires few { length read.lines ≤ 20000 }
    ensures { IsUnlessMemory result (due_of read) }
{
    if let Some(line) = key_twice(alloc, read.lines.as_slice())? {
        return Err(BatchFault::KeyTwice(line));
    }
    match read.fault {
        Some(fault) => Err(fault),
        None => Ok(read.lines),
    }
}
