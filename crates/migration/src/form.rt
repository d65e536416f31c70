// Carrying forms.
ghost use Rattle.std.specs.Prelude.{◌≡◌, IfOk, IsOk};
ghost use Rattle.subset_query.specs.Forms.{IsForm, IsSettled};
ghost use Rattle.migration.specs.Columns as columns_spec;
ghost use Rattle.migration.specs.Forms.{IsCarriedForm, parts_at};
ghost use Rattle.migration.specs.Carrying.{Columns, IsStage, IsOutcome, form_parts};

use crate::copies::copied_form;
use crate::named::step_places;
use crate::parts::{Parts, parts_after};
use cite_schema::{List, NoMemory, Schema, Step};
use std::alloc::Global;
use subset_query::{Normal, settle_parts};

/// What the steps make of a form, one after the other: after each step the settled form that gives the same bytes as
/// the form's parts after it. `None` exactly where a step makes nothing of the form that it meets: it drops a column
/// that is printed, orders, or has a set that is not full, or it retypes a column that orders or has a set that is
/// neither full nor of one number.
///
/// The form is copied once. A step costs a comparison with each column, the length of the set that it changes, of the
/// items and of the order: a set of n spans is scaled and recoded in one pass. For many forms, find the places once and
/// call `carry_normal_at`.
pub fn carry_normal(
    alloc: Global,
    schema: &Schema,
    steps: &List<Step>,
    normal: &Normal,
) -> Result<Option<Normal>, NoMemory>
    requires steps { IsOk (columns_spec.carry_schema schema.now steps.now) }
    requires settled { IsSettled schema.now.columns normal.now }
    ensures { IfOk result (λ carried. IsCarriedForm schema.now.columns steps.now normal.now carried) }
{
    let places = step_places(alloc, schema, steps)?;
    let carried = carry_normal_at(alloc, schema, &places, steps, normal)?;
    Ok(carried)
}

/// The same, with the places that `step_places` tells of the steps on the schema. No name is compared.
pub fn carry_normal_at(
    alloc: Global,
    schema: &Schema,
    places: &List<usize>,
    steps: &List<Step>,
    normal: &Normal,
) -> Result<Option<Normal>, NoMemory>
    requires places { places.now ≡ columns_spec.step_places schema.now.columns steps.now }
    requires steps { IsOk (columns_spec.carry_schema schema.now steps.now) }
    requires settled { IsSettled schema.now.columns normal.now }
    ensures { IfOk result (λ carried. IsCarriedForm schema.now.columns steps.now normal.now carried) }
{
    let form = copied_form(alloc, normal)?;
    let carried = carried_by_all(alloc, schema, places.as_slice(), steps.as_slice(), form)?;
    Ok(carried)
}

// What the steps make of a form.
fn carried_by_all(
    alloc: Global,
    schema: &Schema,
    places: &[usize],
    steps: &[Step],
    form: Normal,
) -> Result<Option<Normal>, NoMemory>
    requires places { places.now ≡ columns_spec.step_places schema.now.columns steps.now }
    requires steps { IsOk (columns_spec.carry_schema schema.now steps.now) }
    requires settled { IsSettled schema.now.columns form }
    ensures { IfOk result (λ carried. IsCarriedForm schema.now.columns steps.now form carried) }
{
    // That its columns make a schema is known once they were looked at.
    let _columns = schema.columns();
    let mut carried = form;
    for i in 0..steps.len() {
        match carried_form(alloc, &steps[i], places[i], carried)? {
            Some(next) => carried = next,
            None => return Ok(None),
        }
    }
    Ok(Some(carried))
}

// What one step makes of a form. The step names the column at a place.
fn carried_form(
    alloc: Global,
    step: &Step,
    place: usize,
    form: Normal,
) -> Result<Option<Normal>, NoMemory>
    requires { (before after : Columns) × IsStage step.now place before after × IsSettled before form }
    ensures { IfOk result (λ carried. (before after : Columns) → IsStage step.now place before after → IsSettled before form → IsOutcome after (form_parts step.now place form) carried) }
{
    match form {
        Normal::Nothing { labels } => Ok(Some(Normal::Nothing { labels })),
        Normal::Some { sets, items, order } => {
            let parts = Parts { sets, items, order };
            let carried = carried_parts(alloc, step, place, parts)?;
            Ok(carried)
        }
    }
}

// What one step makes of the parts of a form, settled.
fn carried_parts(
    alloc: Global,
    step: &Step,
    place: usize,
    parts: Parts,
) -> Result<Option<Normal>, NoMemory>
    requires { (before after : Columns) × IsStage step.now place before after × IsForm before parts.sets parts.items parts.order }
    ensures { IfOk result (λ carried. (before after : Columns) → IsStage step.now place before after → IsForm before parts.sets parts.items parts.order → IsOutcome after (parts_at step.now place parts.sets parts.items parts.order) carried) }
{
    match parts_after(alloc, step, place, parts)? {
        Some(Parts { sets, items, order }) => {
            let form = settle_parts(alloc, sets, items, order)?;
            Ok(Some(form))
        }
        None => Ok(None),
    }
}
