// The bytes that a form gives.
ghost use Rattle.std.specs.Prelude.{◌≤◌, ◌<◌, IfOk, IfErr, length};
ghost use Rattle.cite_schema.specs.Answers.{Gives};
ghost use Rattle.subset_query.specs.Forms.{formed};
ghost use Rattle.versioned_rows.specs.Histories.{as_of};
ghost use Rattle.archive_state.specs.Executing.{TellsOver};

use cite_schema::ByteText;
use result_bytes::{LayFault, lay_out};
use std::alloc::Global;
use subset_query::Normal;
use versioned_rows::Rows;

/// The bytes that a form gives on the table of a version. It goes once through the kept rows, sorts the rows that the
/// form picks, and takes memory for a handle of each row of the table and for the bytes.
pub(crate) fn execute(
    alloc: Global,
    rows: &Rows,
    form: &Normal,
    version: u32,
) -> Result<ByteText, LayFault>
    requires first { 1 ≤ version }
    requires last { version ≤ rows.now.last }
    requires items { 0 < length (formed form.now).items }
    ensures given { IfOk result (λ bytes. Gives (formed form.now) (as_of rows.now version) bytes) }
    ensures within { IfOk result (λ bytes. length bytes ≤ 67108864) }
    ensures fault { IfErr result (λ fault. TellsOver (formed form.now) (as_of rows.now version) fault) }
{
    let table = rows.as_of(alloc, version)?;
    let picked = form.rows(alloc, table)?;
    let items = form.heads(alloc)?;
    lay_out(alloc, &items, &picked)
}
