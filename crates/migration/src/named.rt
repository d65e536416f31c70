// The places of the columns that steps name.
ghost use Rattle.std.specs.Prelude.{◌≡◌, IfOk, map};
ghost use Rattle.std.specs.List.{position};
ghost use Rattle.std.specs.Ordering.{is_eq};
ghost use Rattle.cite_schema.specs.Values.{text_cmp};
ghost use Rattle.migration.specs.Columns.{step_places};
ghost use Rattle.migration.specs.Naming.{name_place, names_after, named_places};
ghost use Rattle.migration.specs.Places.{changed, without};

use crate::columns::column_named;
use cite_schema::{ByteText, Column, List, NoMemory, Schema, Step};
use std::alloc::Global;

/// The place of the column that each step names, counted from 0, among the columns that the steps before it leave. It
/// serves for every row and form of the schema. Each step costs a comparison with each name; no name is copied.
pub fn step_places(
    alloc: Global,
    schema: &Schema,
    steps: &List<Step>,
) -> Result<List<usize>, NoMemory>
    ensures { IfOk result (λ places. places ≡ step_places schema.now.columns steps.now) }
{
    let places = places_among(alloc, schema.columns().as_slice(), steps.as_slice())?;
    Ok(places)
}

// The places, step by step, with the names of the columns as the steps leave them.
fn places_among(alloc: Global, columns: &[Column], steps: &[Step]) -> Result<List<usize>, NoMemory>
    ensures { IfOk result (λ places. places ≡ named_places (map (λ c. c.name) columns.now) steps.now) }
{
    let mut names = names_of(alloc, columns)?;
    let mut places = List::new(alloc);
    for step in steps {
        let place = name_place(names.as_slice(), column_named(step));
        places.push(place)?;
        names = names_after(place, step, names)?;
    }
    Ok(places)
}

// The names of the columns.
fn names_of<'a>(alloc: Global, columns: &'a [Column]) -> Result<Vec<&'a ByteText>, NoMemory>
    ensures { IfOk result (λ names. map (λ n. n.now) names.items ≡ map (λ c. c.name) columns.now) }
{
    let mut names = Vec::new(alloc);
    for column in columns {
        names.push(&column.name)?;
    }
    Ok(names)
}

// The place of a name; 0 where it is none of them.
fn name_place(names: &[&ByteText], name: &ByteText) -> usize
    ensures { result ≡ name_place (map (λ n. n.now) names.now) name.now }
{
    name_position(names, name).unwrap_or(0)
}

fn name_position(names: &[&ByteText], name: &ByteText) -> Option<usize>
    ensures { result ≡ position (λ n. is_eq (text_cmp n.now name.now)) names.now }
{
    names
        .iter()
        .position(|known| known.as_slice().cmp(name.as_slice()).is_eq())
}

// The names after a step that names the column at a place.
fn names_after<'a>(
    place: usize,
    step: &'a Step,
    names: Vec<&'a ByteText>,
) -> Result<Vec<&'a ByteText>, NoMemory>
    ensures { IfOk result (λ after. map (λ n. n.now) after.items ≡ names_after place step.now (map (λ n. n.now) names.entry.items)) }
{
    match step {
        Step::Rename { to, .. } => Ok(renamed(place, to, names)),
        Step::Add { column, .. } => {
            let mut names = names;
            names.push(column)?;
            Ok(names)
        }
        Step::DropColumn { .. } => Ok(shortened(place, names)),
        Step::Scale { .. } | Step::Recode { .. } | Step::RetypeToText { .. } => Ok(names),
    }
}

// The names, with another one at a place.
fn renamed<'a>(place: usize, name: &'a ByteText, names: Vec<&'a ByteText>) -> Vec<&'a ByteText>
    ensures { map (λ n. n.now) result.items ≡ changed (λ n. name.now) place (map (λ n. n.now) names.entry.items) }
{
    let mut names = names;
    if place >= names.len() {
        return names;
    }
    names[place] = name;
    names
}

// The names without the one at a place.
fn shortened<'a>(place: usize, names: Vec<&'a ByteText>) -> Vec<&'a ByteText>
    ensures { map (λ n. n.now) result.items ≡ without place (map (λ n. n.now) names.entry.items) }
{
    let mut names = names;
    if place >= names.len() {
        return names;
    }
    let _ = names.remove(place);
    names
}
