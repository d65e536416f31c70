// The rows that a form picks of the lines of a table text.
ghost use Rattle.std.specs.Prelude.{◌≡◌, ◌<◌, ◌≤◌, ◌^◌, [], length, IfOk, IfErr};
ghost use Rattle.subset_query.specs.Forms.{formed};
ghost use Rattle.csv_records.specs.Records.{IsReading, left_of};
ghost use Rattle.cite_cli.specs.Refusals.{lines_fault};
ghost use Rattle.cite_cli.specs.Parts.{Tells, ArePicked};

use crate::lines::read_row;
use crate::refusal::{Fault, Refusal};
use cite_schema::{Column, List, Row, Value};
use csv::{ByteRecord, Reader};
use csv_records::{Keys, read_next};
use std::alloc::Global;
use subset_query::Normal;

/// The rows that the form picks of the lines that the reader has left, in the order of the lines. One pass over the
/// lines, and a sort of their keys: the cost is that of the text, and n log n in its lines. A row that is not picked
/// leaves its key alone.
///
/// # Errors
///
/// The first rule that a line breaks, line by line: `BadWidth`, `BadCell`, `KeyTwice`.
pub fn read_rows(
    alloc: Global,
    columns: &[Column],
    form: &Normal,
    reader: &mut Reader<&[u8]>,
) -> Result<List<Row>, Fault>
    requires reading { IsReading reader.old }
    requires few { length (left_of reader.old) < 2 ^ 32 }
    requires some { 0 < length columns.now }
    requires width { length columns.now ≤ 64 }
    ensures ok { IfOk result (λ rows. ArePicked columns.now (formed form.now).keeps (left_of reader.old) rows) }
    ensures why { IfErr result (λ fault. Tells (lines_fault columns.now [] (left_of reader.old)) fault) }
{
    let mut keys = Keys::new(alloc);
    let mut picked = List::new(alloc);
    let mut fields = ByteRecord::new(alloc);
    let mut line = 0;
    while read_next(reader, &mut fields)? {
        line += 1;
        let row = match read_row(alloc, columns, line, &fields) {
            Ok(row) => row,
            Err(fault) => return Err(key_twice(keys).unwrap_or(fault)),
        };
        keys.push_copy(line, key_of(&row))?;
        if form.picks(&row) {
            picked.push(row)?;
        }
    }
    match key_twice(keys) {
        Some(fault) => Err(fault),
        None => Ok(picked),
    }
}

ghost use Rattle.std.specs.Prelude.{List as Listed, MatchOption};
ghost use Rattle.cite_schema.specs.declared.value.Value.{Value as Cell};
ghost use Rattle.csv_records.specs.Keys.{AreKeys, AreApart};
ghost use Rattle.cite_cli.specs.Parts.{TellsAgain};

// The fault of the first line whose key an earlier line has.
fn key_twice(keys: Keys<Vec<u8>>) -> Option<Fault>
    ensures { (named : Listed Cell) → AreKeys (λ t. t.items) keys named → MatchOption result (AreApart named) (λ fault. TellsAgain named fault) }
{
    match keys.first_again() {
        Some(line) => Some(Fault::Refused(Refusal::KeyTwice { line })),
        None => None,
    }
}

ghost use Rattle.std.specs.Prelude.{Some, slice_get};

fn key_of(row: &Row) -> &Value
    requires { 0 < length row.now }
    ensures { slice_get row.now 0 ≡ Some result.now }
{
    match row.values().get(0) {
        Some(key) => key,
        None => unreachable!(),
    }
}
