// Carrying schemas.
ghost use Rattle.std.specs.Prelude.{◌≡◌, ◌≢◌, ◌<◌, ◌-◌, ◌^◌, IfOk, IfErr, Ok, Err, length, ◌≤◌};
ghost use Rattle.migration.specs.Columns.{columns_after_all, carry_schema};

use crate::columns::{columns_after, step_fault};
use crate::fault::StepFault;
use cite_schema::{Column, List, NoMemory, Schema, Step};
use std::alloc::Global;

/// The schema after the steps, with the next number, or the first fault: first that there are not 1 to 16 steps, then
/// step by step on the schema so far, for each step in the order of `StepFault`. A step costs a comparison with each
/// column; the names are copied once.
pub fn carry_schema(alloc: Global, schema: &Schema, steps: &List<Step>) -> Result<Schema, StepFault>
    requires { schema.now.number < 2 ^ 32 - 1 }
    ensures schema { IfOk result (λ carried. carry_schema schema.now steps.now ≡ Ok carried) }
    ensures fault { IfErr result (λ fault. fault ≢ StepFault.NoMemory → carry_schema schema.now steps.now ≡ Err fault) }
{
    if steps.is_empty() || steps.len() > 16 {
        return Err(StepFault::BadStep(0));
    }
    let columns = copied_columns(alloc, schema.columns().as_slice())?;
    let carried = carried_columns(columns, steps.as_slice())?;
    match Schema::make(schema.number() + 1, carried) {
        Ok(schema) => Ok(schema),
        Err(_) => unreachable!(),
    }
}

// The same columns again.
fn copied_columns(alloc: Global, columns: &[Column]) -> Result<List<Column>, NoMemory>
    ensures { IfOk result (λ copied. copied ≡ columns.now) }
{
    let mut copied = List::new(alloc);
    for column in columns {
        let name = column.name.copy()?;
        let kind = column.kind;
        copied.push(Column { name, kind })?;
    }
    Ok(copied)
}

// The columns after the steps, or the first fault.
fn carried_columns(columns: List<Column>, steps: &[Step]) -> Result<List<Column>, StepFault>
    requires { length steps.now ≤ 16 }
    ensures columns { IfOk result (λ carried. columns_after_all 1 columns steps.now ≡ Ok carried) }
    ensures fault { IfErr result (λ fault. fault ≢ StepFault.NoMemory → columns_after_all 1 columns steps.now ≡ Err fault) }
{
    let mut carried = columns;
    for i in 0..steps.len() {
        let n = (i + 1) as u16;
        if let Some(fault) = step_fault(carried.as_slice(), n, &steps[i]) {
            return Err(fault);
        }
        carried = columns_after(carried, &steps[i])?;
    }
    Ok(carried)
}
