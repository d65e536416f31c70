// What `select COLUMN LO HI` writes for an input.
ghost use Rattle.std.specs.Prelude.{◌≤◌, IfOk, length};
ghost use Rattle.cite_cli.specs.Parts.{Explains};

use crate::asking::select_form;
use crate::bounds::Bounds;
use crate::header::read_header;
use crate::refusal::{Fault, Refusal, refusal_line};
use crate::rows::read_rows;
use cite_schema::{ByteText, NoMemory};
use csv_records::records_in;
use result_bytes::{LayFault, lay_out};
use std::alloc::Global;

/// What a command writes: its result, or the line of a refusal.
#[derive(Debug, Drop)]
pub enum Output {
    Done(ByteText),
    Refused(ByteText),
}

/// What `select COLUMN LO HI` writes for an input: the rows that are within the bounds in the column, in the order of
/// their keys, or the first rule that the input breaks. One pass over the input, n log n in its lines, and n log n in
/// the rows of the result.
pub fn select_output(
    alloc: Global,
    column: &[u8],
    bounds: &Bounds,
    text: &[u8],
) -> Result<Output, NoMemory>
    requires { length text.now ≤ 67108864 }
    ensures { IfOk result (λ output. Explains column.now bounds.now text.now output) }
{
    match select_result(alloc, column, bounds, text) {
        Ok(bytes) => Ok(Output::Done(bytes)),
        Err(Fault::Refused(refusal)) => {
            let line = refusal_line(alloc, refusal)?;
            Ok(Output::Refused(line))
        }
        Err(Fault::NoMemory) => Err(NoMemory),
    }
}

ghost use Rattle.std.specs.Prelude.{IfErr};
ghost use Rattle.cite_cli.specs.Select.{IsFullResult, IsBroken};
ghost use Rattle.cite_cli.specs.Parts.{TellsOf};

fn select_result(
    alloc: Global,
    column: &[u8],
    bounds: &Bounds,
    text: &[u8],
) -> Result<ByteText, Fault>
    requires { length text.now ≤ 67108864 }
    ensures ok { IfOk result (λ bytes. IsFullResult column.now bounds.now text.now bytes) }
    ensures why { IfErr result (λ fault. TellsOf (λ refusal. IsBroken column.now bounds.now text.now refusal) fault) }
{
    let mut reader = records_in(alloc, text);
    let schema = read_header(alloc, &mut reader)?;
    let form = select_form(alloc, &schema, column, bounds)?;
    let rows = read_rows(alloc, schema.columns().as_slice(), &form, &mut reader)?;
    let rows = form.rows(alloc, rows)?;
    let items = form.heads(alloc)?;
    match lay_out(alloc, &items, &rows) {
        Ok(bytes) => Ok(bytes),
        Err(LayFault::TooLarge { bytes }) => Err(Fault::Refused(Refusal::ResultTooLarge { bytes })),
        Err(LayFault::NoMemory) => Err(Fault::NoMemory),
    }
}
