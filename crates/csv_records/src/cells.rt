// The values of a line.
ghost use Rattle.std.specs.Prelude.{◌≡◌, ◌+◌, ◌≤◌, length, drop, IfOk};
ghost use Rattle.csv.specs.Records.{fields_of};
ghost use Rattle.csv_records.specs.Cells.{AreCells};

use crate::records::field;
use cite_schema::{Column, List, NoMemory, Row, Value};
use csv::ByteRecord;
use std::alloc::Global;

/// What the fields of a line say under columns.
#[derive(Debug, Drop)]
pub enum Cells {
    /// A value in each column.
    Row(Row),
    /// No value in this column, the first such one, counted from 0.
    Bad(u16),
}

/// What the fields of a line say under at most 64 columns, of which the first stands over the field at `from`. Each field
/// is read once, and a text is copied once.
pub fn read_cells(
    alloc: Global,
    columns: &[Column],
    line: &ByteRecord,
    from: usize,
) -> Result<Cells, NoMemory>
    requires few { length columns.now ≤ 64 }
    requires width { length (fields_of line.now) ≡ from + length columns.now }
    ensures { IfOk result (λ cells. AreCells columns.now (drop from (fields_of line.now)) cells) }
{
    let mut values = List::with_capacity(alloc, columns.len())?;
    for i in 0..line.len() - from {
        match Value::read(alloc, columns[i].kind, field(line, from + i))? {
            Some(value) => values.push(value)?,
            None => return Ok(Cells::Bad(i as u16)),
        }
    }
    Ok(Cells::Row(Row::make(values)))
}
