// Carrying rows.
ghost use Rattle.std.specs.Prelude.{◌≡◌, IfOk, IsOk, IsTrue, Some, None, if◌then◌else◌};
ghost use Rattle.std.specs.Ordering.{is_eq};
ghost use Rattle.cite_schema.specs.Values.{value_cmp, is_number};
ghost use Rattle.cite_schema.specs.Tables.{fits};
ghost use Rattle.migration.specs.Columns as columns_spec;
ghost use Rattle.migration.specs.Places.{changed_if};
ghost use Rattle.migration.specs.Rows.{image, value_after, row_at, row_at_all, carry_row};

use crate::columns::is_same;
use crate::named::step_places;
use crate::numbers::scaled;
use crate::places::without;
use cite_schema::{List, NoMemory, Row, Schema, Step, Value, print_value};
use std::alloc::Global;
use std::mem;

/// What the steps make of a row: `None` exactly where a step scales a number out of the range from −2^63 to 2^63 − 1.
/// Each step costs a comparison with each column; the row's values are copied once. For many rows, find the places once
/// and call `carry_row_at`.
pub fn carry_row(
    alloc: Global,
    schema: &Schema,
    steps: &List<Step>,
    row: &Row,
) -> Result<Option<Row>, NoMemory>
    requires steps { IsOk (columns_spec.carry_schema schema.now steps.now) }
    requires row { IsTrue (fits schema.now.columns row.now) }
    ensures { IfOk result (λ carried. carried ≡ carry_row schema.now.columns steps.now row.now) }
{
    let places = step_places(alloc, schema, steps)?;
    let carried = carry_row_at(alloc, &places, steps, row)?;
    Ok(carried)
}

/// What steps make of a row, where each names the column at its place; of places and steps as many count as there are of
/// both. At the places that `step_places` tells it is what the steps make of a row of the schema
/// (`rows_are_carried_at_places`). The row's values are copied once, and no name is compared.
pub fn carry_row_at(
    alloc: Global,
    places: &List<usize>,
    steps: &List<Step>,
    row: &Row,
) -> Result<Option<Row>, NoMemory>
    ensures { IfOk result (λ carried. carried ≡ row_at_all places.now steps.now row.now) }
{
    let values = row.to_values()?;
    match carried_values(alloc, places.as_slice(), steps.as_slice(), values)? {
        Some(values) => Ok(Some(Row::make(values))),
        None => Ok(None),
    }
}

// What the steps make of values.
fn carried_values(
    alloc: Global,
    places: &[usize],
    steps: &[Step],
    values: List<Value>,
) -> Result<Option<List<Value>>, NoMemory>
    ensures { IfOk result (λ carried. carried ≡ row_at_all places.now steps.now values) }
{
    let mut carried = values;
    for i in 0..steps.len() {
        if i >= places.len() {
            return Ok(Some(carried));
        }
        match values_after(alloc, places[i], &steps[i], carried)? {
            Some(after) => carried = after,
            None => return Ok(None),
        }
    }
    Ok(Some(carried))
}

// What a step that names the column at a place makes of the values of a row.
fn values_after(
    alloc: Global,
    place: usize,
    step: &Step,
    values: List<Value>,
) -> Result<Option<List<Value>>, NoMemory>
    ensures { IfOk result (λ after. after ≡ row_at place step.now values) }
{
    match step {
        Step::Rename { .. } => Ok(Some(values)),
        Step::Add { value, .. } => {
            let mut values = values;
            values.push(value.copy()?)?;
            Ok(Some(values))
        }
        Step::DropColumn { .. } => Ok(Some(without(place, values))),
        Step::Scale { .. } | Step::Recode { .. } | Step::RetypeToText { .. } => {
            let changed = changed_at(alloc, step, place, values)?;
            Ok(changed)
        }
    }
}

// The values, with the one at a place as it is after the step.
fn changed_at(
    alloc: Global,
    step: &Step,
    place: usize,
    values: List<Value>,
) -> Result<Option<List<Value>>, NoMemory>
    ensures { IfOk result (λ changed. changed ≡ changed_if (value_after step.now) place values) }
{
    let mut values = values.into_vec();
    if place >= values.len() {
        return Ok(Some(List::from_vec(values)));
    }
    let value = mem::replace(&mut values[place], Value::Int(0));
    match value_after(alloc, step, value)? {
        Some(value) => {
            values[place] = value;
            Ok(Some(List::from_vec(values)))
        }
        None => Ok(None),
    }
}

// What a step makes of a value in the column that it names. A value that stays is moved.
fn value_after(alloc: Global, step: &Step, value: Value) -> Result<Option<Value>, NoMemory>
    ensures { IfOk result (λ after. after ≡ value_after step.now value) }
{
    match (step, value) {
        (Step::Scale { by, plus, .. }, Value::Int(number)) => match scaled(*by, *plus, number) {
            Some(image) => Ok(Some(Value::Int(image))),
            None => Ok(None),
        },
        (Step::Recode { old, new, .. }, value) => {
            if is_same(&value, old) {
                Ok(Some(new.copy()?))
            } else {
                Ok(Some(value))
            }
        }
        (Step::RetypeToText { .. }, value) => Ok(Some(Value::Text(print_value(alloc, &value)?))),
        (_, value) => Ok(Some(value)),
    }
}
