// The lines of a batch.
ghost use Rattle.std.specs.Prelude.{◌≤◌, ◌<◌, length};
ghost use Rattle.csv.specs.Records.{fields_of};
ghost use Rattle.batches.specs.Bodies.{line_in, IsUnlessMemory};

use crate::fault::BatchFault;
use cite_schema::{Column, Line, Row, Value};
use csv::ByteRecord;
use csv_records::{Cells, field, read_cells};
use std::alloc::Global;

/// The line that a record spells under 1 to 64 columns. Each field is read once, and a text is copied once.
///
/// # Errors
///
/// `BadWidth`, `BadOp` and `BadCell` with the number of the line, in this order.
#[tactic(auto, using(crate::proofs::Lines::puts, crate::proofs::Lines::changes, crate::proofs::Lines::removes, crate::proofs::Lines::does_nothing, crate::proofs::Lines::other_width, crate::proofs::Lines::line_of_row, crate::proofs::Lines::line_of_bad_row, crate::proofs::Lines::line_of_key, crate::proofs::Lines::line_of_bad_key))]
pub(crate) fn read_line(
    alloc: Global,
    columns: &[Column],
    line: u32,
    fields: &ByteRecord,
) -> Result<Line, BatchFault>
    requires some { 0 < length columns.now }
    requires few { length columns.now ≤ 64 }
    ensures { IsUnlessMemory result (line_in columns.now line (fields_of fields.now)) }
{
    if fields.len() != columns.len() + 1 {
        return Err(BatchFault::BadWidth(line));
    }
    let op = field(fields, 0);
    if is_word(op, b"+") {
        Ok(Line::Put(read_row(alloc, columns, line, fields)?))
    } else if is_word(op, b"~") {
        Ok(Line::Change(read_row(alloc, columns, line, fields)?))
    } else if is_word(op, b"-") {
        Ok(Line::Remove(read_key(alloc, columns, line, fields)?))
    } else {
        Err(BatchFault::BadOp(line))
    }
}

ghost use Rattle.batches.specs.Bodies.{is_word};

fn is_word(text: &[u8], word: &[u8]) -> bool
    ensures { result ≡ is_word text.now word.now }
{
    text.cmp(word).is_eq()
}

ghost use Rattle.std.specs.Prelude.{◌≡◌, ◌+◌, drop};
ghost use Rattle.batches.specs.Parts.{row_in};

// The row of the fields behind the operation.
fn read_row(
    alloc: Global,
    columns: &[Column],
    line: u32,
    fields: &ByteRecord,
) -> Result<Row, BatchFault>
    requires few { length columns.now ≤ 64 }
    requires width { length (fields_of fields.now) ≡ length columns.now + 1 }
    ensures { IsUnlessMemory result (row_in columns.now line (drop 1 (fields_of fields.now))) }
{
    match read_cells(alloc, columns, fields, 1)? {
        Cells::Row(row) => Ok(row),
        Cells::Bad(column) => Err(BatchFault::BadCell { line, column }),
    }
}

ghost use Rattle.batches.specs.Parts.{key_alone};

// The key of a line that takes its row away. The fields behind it are empty.
fn read_key(
    alloc: Global,
    columns: &[Column],
    line: u32,
    fields: &ByteRecord,
) -> Result<Value, BatchFault>
    requires some { 0 < length columns.now }
    requires few { length columns.now ≤ 64 }
    requires width { length (fields_of fields.now) ≡ length columns.now + 1 }
    ensures { IsUnlessMemory result (key_alone columns.now line (drop 1 (fields_of fields.now))) }
{
    let Some(key) = Value::read(alloc, columns[0].kind, field(fields, 1))? else {
        return Err(BatchFault::BadCell { line, column: 0 });
    };
    match filled_behind_key(fields) {
        Some(column) => Err(BatchFault::BadCell { line, column }),
        None => Ok(key),
    }
}

ghost use Rattle.batches.specs.Bodies.{filled_behind};

// The first column behind the key whose field is not empty.
fn filled_behind_key(fields: &ByteRecord) -> Option<u16>
    requires some { 2 ≤ length (fields_of fields.now) }
    requires few { length (fields_of fields.now) ≤ 65 }
    ensures { result ≡ filled_behind (drop 1 (fields_of fields.now)) }
{
    for at in 2..fields.len() {
        if !field(fields, at).is_empty() {
            return Some((at - 1) as u16);
        }
    }
    None
}
