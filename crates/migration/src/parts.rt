// What a step makes of the parts of a form.
ghost use Rattle.std.specs.Prelude.{◌≡◌, ◌<◌, IfOk, map, length, slice_get, IsSomeAnd};
ghost use Rattle.subset_query.specs.Forms.{printed_columns, order_columns, columns_of};
ghost use Rattle.migration.specs.Forms.{is_among, number_without, item_without, dir_without};
ghost use Rattle.migration.specs.Carrying.{Changes, FitsStep, IsFullFor, AreDropped, AreChanged, ArePartsAfter};

use crate::places::without;
use crate::sets::{is_full, set_after};
use cite_schema::{Dir, Item, Kind, List, NoMemory, Shown, Step};
use interval_normal::Set;
use std::alloc::Global;
use subset_query::ColumnSet;

/// The parts of a form that may choose rows.
#[derive(Drop)]
pub struct Parts {
    /// One for each column.
    pub sets: List<ColumnSet>,
    pub items: List<Item>,
    pub order: List<Dir>,
}

/// What a step that names the column at a place makes of parts, if it makes some of them.
pub fn parts_after(
    alloc: Global,
    step: &Step,
    place: usize,
    parts: Parts,
) -> Result<Option<Parts>, NoMemory>
    requires { FitsStep step.now place parts.sets }
    ensures { IfOk result (λ after. ArePartsAfter step.now place parts after) }
{
    match step {
        Step::Rename { .. } => Ok(Some(parts)),
        Step::Add { value, .. } => {
            let mut parts = parts;
            let set = full_set(alloc, value.kind())?;
            parts.sets.push(set)?;
            Ok(Some(parts))
        }
        Step::DropColumn { .. } => {
            let after = dropped(alloc, place, parts)?;
            Ok(after)
        }
        Step::RetypeToText { .. } if is_ordered(place, parts.order.as_slice()) => Ok(None),
        Step::Scale { .. } | Step::Recode { .. } | Step::RetypeToText { .. } => {
            let after = changed(alloc, step, place, parts)?;
            Ok(after)
        }
    }
}

/// The set of all values of a kind.
fn full_set(alloc: Global, kind: Kind) -> Result<ColumnSet, NoMemory>
    ensures { IfOk result (λ set. IsFullFor kind set) }
{
    match kind {
        Kind::Int => {
            let numbers = Set::full(alloc)?;
            Ok(ColumnSet::Ints(numbers))
        }
        Kind::Text => {
            let texts = Set::full(alloc)?;
            Ok(ColumnSet::Texts(texts))
        }
    }
}

// Parts without a column that is not shown, does not order and whose set is full.
fn dropped(alloc: Global, place: usize, parts: Parts) -> Result<Option<Parts>, NoMemory>
    requires { place < length parts.sets }
    ensures { IfOk result (λ after. AreDropped place parts after) }
{
    if is_shown(place, parts.items.as_slice()) || is_ordered(place, parts.order.as_slice()) {
        return Ok(None);
    }
    if !is_full(alloc, &parts.sets.as_slice()[place])? {
        return Ok(None);
    }
    let sets = without(place, parts.sets);
    let items = items_without(alloc, place, parts.items)?;
    let order = order_without(alloc, place, parts.order.as_slice())?;
    Ok(Some(Parts { sets, items, order }))
}

// Parts with the set of the column at a place as it is after the step.
fn changed(
    alloc: Global,
    step: &Step,
    place: usize,
    parts: Parts,
) -> Result<Option<Parts>, NoMemory>
    requires { IsSomeAnd (slice_get parts.sets place) (Changes step.now) }
    ensures { IfOk result (λ after. AreChanged step.now place parts after) }
{
    let Parts { sets, items, order } = parts;
    let mut sets = sets.into_vec();
    match set_after(alloc, step, &sets[place])? {
        Some(set) => {
            sets[place] = set;
            let sets = List::from_vec(sets);
            Ok(Some(Parts { sets, items, order }))
        }
        None => Ok(None),
    }
}

/// Whether an item shows the column.
pub fn is_shown(column: usize, items: &[Item]) -> bool
    ensures { result ≡ is_among column (printed_columns items.now) }
{
    for item in items {
        if shows(column, &item.what) {
            return true;
        }
    }
    false
}

fn shows(column: usize, what: &Shown) -> bool
    ensures { result ≡ is_among column (columns_of what.now) }
{
    match what {
        Shown::Column(shown) => usize::from(*shown) == column,
        Shown::Constant(_) => false,
    }
}

// Whether the order names the column.
fn is_ordered(column: usize, order: &[Dir]) -> bool
    ensures { result ≡ is_among column (order_columns order.now) }
{
    order
        .iter()
        .map(|dir| dir.column)
        .any(|named| usize::from(named) == column)
}

// The number of a column where another is gone.
fn number_without(gone: usize, column: u16) -> u16
    ensures { result ≡ number_without gone column }
{
    if gone < usize::from(column) {
        column - 1
    } else {
        column
    }
}

// The items where a column is gone; their texts are moved.
fn items_without(alloc: Global, gone: usize, items: List<Item>) -> Result<List<Item>, NoMemory>
    ensures { IfOk result (λ left. left ≡ map (item_without gone) items) }
{
    let mut left = List::new(alloc);
    for item in items.into_vec() {
        left.push(item_without(gone, item))?;
    }
    Ok(left)
}

fn item_without(gone: usize, item: Item) -> Item
    ensures { result ≡ item_without gone item }
{
    let Item { label, what } = item;
    let what = match what {
        Shown::Column(column) => Shown::Column(number_without(gone, column)),
        Shown::Constant(bytes) => Shown::Constant(bytes),
    };
    Item { label, what }
}

// The order where a column is gone.
fn order_without(alloc: Global, gone: usize, dirs: &[Dir]) -> Result<List<Dir>, NoMemory>
    ensures { IfOk result (λ left. left ≡ map (dir_without gone) dirs.now) }
{
    let mut left = List::new(alloc);
    for dir in dirs {
        let column = number_without(gone, dir.column);
        let down = dir.down;
        left.push(Dir { column, down })?;
    }
    Ok(left)
}
