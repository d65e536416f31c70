// Which steps harm no citation of a form.
ghost use Rattle.std.specs.Prelude.{◌≡◌, IfOk, IsOk};
ghost use Rattle.subset_query.specs.Forms.{IsSettled};
ghost use Rattle.migration.specs.Columns as columns_spec;
ghost use Rattle.migration.specs.Forms.{is_among};
ghost use Rattle.migration.specs.Harmless.{printed_of, harmless_at, all_harmless};
ghost use Rattle.migration.specs.Naming.{all_harmless_at};

use crate::named::step_places;
use crate::parts::is_shown;
use cite_schema::{List, NoMemory, Schema, Step};
use std::alloc::Global;
use subset_query::Normal;

/// Whether every step is `Rename`, `Add`, or `Scale` of a column that the form does not print as a column. Then, on
/// every table whose rows all have carried rows, the carried form exists and gives the bytes that the form gives
/// (`harmless_steps_carry`). Each step costs a comparison with each column and each item; no name is copied.
pub fn harmless(
    alloc: Global,
    schema: &Schema,
    steps: &List<Step>,
    normal: &Normal,
) -> Result<bool, NoMemory>
    requires steps { IsOk (columns_spec.carry_schema schema.now steps.now) }
    requires settled { IsSettled schema.now.columns normal.now }
    ensures { IfOk result (λ harmless. harmless ≡ all_harmless schema.now.columns steps.now (printed_of normal.now)) }
{
    let places = step_places(alloc, schema, steps)?;
    Ok(are_harmless(places.as_slice(), steps.as_slice(), normal))
}

// Whether each of the steps is. It takes no memory.
fn are_harmless(places: &[usize], steps: &[Step], normal: &Normal) -> bool
    ensures { result ≡ all_harmless_at places.now steps.now (printed_of normal.now) }
{
    for i in 0..steps.len() {
        if i >= places.len() {
            return true;
        }
        if !is_harmless(places[i], &steps[i], normal) {
            return false;
        }
    }
    true
}

// Whether the step, which names the column at a place, renames, adds, or scales a column that the form does not print as
// a column.
fn is_harmless(place: usize, step: &Step, normal: &Normal) -> bool
    ensures { result ≡ harmless_at place step.now (printed_of normal.now) }
{
    match step {
        Step::Rename { .. } | Step::Add { .. } => true,
        Step::Scale { .. } => !prints(normal, place),
        Step::DropColumn { .. } | Step::Recode { .. } | Step::RetypeToText { .. } => false,
    }
}

// Whether the form prints the column as a column.
fn prints(normal: &Normal, column: usize) -> bool
    ensures { result ≡ is_among column (printed_of normal.now) }
{
    match normal {
        Normal::Nothing { .. } => false,
        Normal::Some { items, .. } => is_shown(column, items.as_slice()),
    }
}
