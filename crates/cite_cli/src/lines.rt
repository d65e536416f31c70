// The lines of a table text.
ghost use Rattle.std.specs.Prelude.{◌≡◌, ◌≤◌, length, IfOk, IfErr, Some};
ghost use Rattle.csv.specs.Records.{fields_of};
ghost use Rattle.cite_schema.specs.TableTexts.{row_of};
ghost use Rattle.cite_cli.specs.Refusals.{own_fault};
ghost use Rattle.cite_cli.specs.Parts.{Tells};

use crate::refusal::{Fault, Refusal};
use cite_schema::{Column, Row};
use csv::ByteRecord;
use csv_records::{Cells, read_cells};
use std::alloc::Global;

/// The row that a line spells under at most 64 columns.
///
/// # Errors
///
/// `BadWidth` and `BadCell` with the number of the line.
pub fn read_row(
    alloc: Global,
    columns: &[Column],
    line: u32,
    fields: &ByteRecord,
) -> Result<Row, Fault>
    requires few { length columns.now ≤ 64 }
    ensures ok { IfOk result (λ row. row_of columns.now (fields_of fields.now) ≡ Some row) }
    ensures why { IfErr result (λ fault. Tells (own_fault columns.now line (fields_of fields.now)) fault) }
{
    if fields.len() != columns.len() {
        return Err(Fault::Refused(Refusal::BadWidth { line }));
    }
    match read_cells(alloc, columns, fields, 0)? {
        Cells::Row(row) => Ok(row),
        Cells::Bad(column) => Err(Fault::Refused(Refusal::BadCell { line, column })),
    }
}
