// Columns that are fixed to one value.
ghost use Rattle.std.specs.Prelude.{◌≡◌, ◌↔◌, IfOk, IsTrue, Some, map, is_some};
ghost use Rattle.std.specs.Option.{option_copied};
ghost use Rattle.cite_schema.specs.Layout.{labels};
ghost use Rattle.cite_schema.specs.declared.value.Kind.TheVariants as kinds;
ghost use Rattle.cite_schema.specs.declared.value.Value.{Value as Cell};
ghost use Rattle.subset_query.specs.Settling.{own_kind, IsCanonicalSet, HoldsNone, IsOne, IsFixing, fixed_at, is_fixed, settled_shown, settled_item};

use crate::form::ColumnSet;
use cite_schema::{ByteText, Item, List, NoMemory, Shown, Value, print_value};
use interval_normal::Set;
use std::alloc::Global;

/// Whether the set holds nothing.
fn is_empty(set: &ColumnSet) -> bool
    ensures empty { IsTrue result ↔ HoldsNone set.now }
    ensures canonical { IsCanonicalSet set.now }
{
    match set {
        ColumnSet::Ints(set) => set.spans().is_empty(),
        ColumnSet::Texts(set) => set.spans().is_empty(),
    }
}

/// The one number of the set, as a value, exactly where it holds one.
fn single_number(alloc: Global, set: &Set<i64>) -> Result<Option<Value>, NoMemory>
    ensures { IfOk result (λ found. (v : Cell) → (found ≡ Some v) ↔ IsOne kinds.Int (ColumnSet.Ints set.now) v) }
{
    match set.single(alloc)? {
        Some(number) => Ok(Some(Value::Int(*number))),
        None => Ok(None),
    }
}

/// The one text of the set, as a value, exactly where it holds one.
fn single_text(alloc: Global, set: &Set<ByteText>) -> Result<Option<Value>, NoMemory>
    ensures { IfOk result (λ found. (v : Cell) → (found ≡ Some v) ↔ IsOne kinds.Text (ColumnSet.Texts set.now) v) }
{
    match set.single(alloc)? {
        Some(text) => Ok(Some(Value::Text(text.copy()?))),
        None => Ok(None),
    }
}

/// The one value of the set, exactly where it holds one value.
fn single(alloc: Global, set: &ColumnSet) -> Result<Option<Value>, NoMemory>
    ensures { IfOk result (λ found. (v : Cell) → (found ≡ Some v) ↔ IsOne (own_kind set.now) set.now v) }
{
    match set {
        ColumnSet::Ints(set) => {
            let number = single_number(alloc, set)?;
            Ok(number)
        }
        ColumnSet::Texts(set) => {
            let text = single_text(alloc, set)?;
            Ok(text)
        }
    }
}

/// The one value of each set that has one alone; `None` exactly where a set holds nothing.
pub fn fixed_values(
    alloc: Global,
    sets: &[ColumnSet],
) -> Result<Option<List<Option<Value>>>, NoMemory>
    ensures { IfOk result (λ found. IsFixing sets.now found) }
{
    let mut fixed = List::new(alloc);
    for set in sets {
        if is_empty(set) {
            return Ok(None);
        }
        let value = single(alloc, set)?;
        fixed.push(value)?;
    }
    Ok(Some(fixed))
}

/// The value that a column is fixed to, if it is fixed to one.
pub fn fixed_value(fixed: &[Option<Value>], column: u16) -> Option<&Value>
    ensures { option_copied result ≡ fixed_at fixed.now column }
{
    match fixed.get(usize::from(column)) {
        Some(Some(value)) => Some(value),
        _ => None,
    }
}

/// Whether a column is fixed to one value.
pub fn is_fixed(fixed: &[Option<Value>], column: u16) -> bool
    ensures { result ≡ is_fixed fixed.now column }
{
    fixed_value(fixed, column).is_some()
}

/// What an item shows, where a column that is fixed to one value is a constant.
fn settled_shown(alloc: Global, what: Shown, fixed: &[Option<Value>]) -> Result<Shown, NoMemory>
    ensures { IfOk result (λ shown. shown ≡ settled_shown fixed.now what) }
{
    match what {
        Shown::Column(column) => match fixed_value(fixed, column) {
            Some(value) => Ok(Shown::Constant(print_value(alloc, value)?)),
            None => Ok(Shown::Column(column)),
        },
        Shown::Constant(bytes) => Ok(Shown::Constant(bytes)),
    }
}

/// The items, where a column that is fixed to one value is a constant.
pub fn settled_items(
    alloc: Global,
    items: List<Item>,
    fixed: &[Option<Value>],
) -> Result<List<Item>, NoMemory>
    ensures { IfOk result (λ settled. settled ≡ map (settled_item fixed.now) items) }
{
    let mut settled = List::new(alloc);
    for item in items.into_vec() {
        let Item { label, what } = item;
        let what = settled_shown(alloc, what, fixed)?;
        settled.push(Item { label, what })?;
    }
    Ok(settled)
}

/// The labels of the items.
pub fn labels_of(alloc: Global, items: List<Item>) -> Result<List<ByteText>, NoMemory>
    ensures { IfOk result (λ found. found ≡ labels items) }
{
    let mut found = List::new(alloc);
    for item in items.into_vec() {
        found.push(item.label)?;
    }
    Ok(found)
}
