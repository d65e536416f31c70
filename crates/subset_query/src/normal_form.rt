// The normal form of a query.
ghost use Rattle.std.specs.Prelude.{◌≡◌, ◌≤◌, ◌&&◌, IfOk, IsTrue, None, length, map, true, is_none, List as Listed};
ghost use Rattle.std.specs.List.{list_all, position};
ghost use Rattle.cite_schema.specs.Values.{is_value_of};
ghost use Rattle.cite_schema.specs.Tables.{fits};
ghost use Rattle.cite_schema.specs.Queries.{column_of, index_of, meets_on, asked};
ghost use Rattle.cite_schema.specs.Answers.{Alike};
ghost use Rattle.cite_schema.specs.declared.value.Value.{Value as Cell};
ghost use Rattle.subset_query.specs.Checks.{query_fault};
ghost use Rattle.subset_query.specs.Settling.{own_kind};
ghost use Rattle.subset_query.specs.Forms.{formed, in_set, in_sets, is_set_for, are_sets_for, IsSettled};

use crate::checks::place_of;
use crate::column_set::column_set;
use crate::form::{ColumnSet, Normal};
use crate::settle::settle_form;
use cite_schema::{
    Along, Asked, ByteText, Column, Dir, Item, Kind, List, NoMemory, OnColumn, Query, Schema, Shown,
};
use interval_normal::Set;
use std::alloc::Global;

/// The one settled form that gives the same bytes as the query on every table of the schema. Of two queries the forms
/// are equal exactly where the queries give the same bytes on every table. For conditions of n nodes it takes n set
/// operations, and for each `Among` of n members n log n comparisons.
pub fn normal(alloc: Global, schema: &Schema, query: &Query) -> Result<Normal, NoMemory>
    requires { query_fault schema.now.columns query.now ≡ None }
    ensures settled { IfOk result (λ form. IsSettled schema.now.columns form) }
    ensures alike { IfOk result (λ form. Alike schema.now.columns (asked schema.now.columns query.now) (formed form)) }
{
    let columns = schema.columns().as_slice();
    let sets = chosen_sets(alloc, columns, query.conds.as_slice())?;
    let items = placed_items(alloc, columns, query.items.as_slice())?;
    let order = placed_order(alloc, columns, query.order.as_slice())?;
    let form = settle_form(alloc, schema, sets, items, order)?;
    Ok(form)
}

/// For each column the set of the values that meet the conditions on it.
fn chosen_sets(
    alloc: Global,
    columns: &[Column],
    conds: &[OnColumn],
) -> Result<List<ColumnSet>, NoMemory>
    requires { position (λ o. is_none (column_of columns.now o.column)) conds.now ≡ None }
    ensures kinds { IfOk result (λ sets. IsTrue (are_sets_for columns.now sets)) }
    ensures chosen { IfOk result (λ sets. (r : Listed Cell) → IsTrue (fits columns.now r) → in_sets sets r ≡ list_all (λ o. meets_on columns.now o r) conds.now) }
{
    let mut sets = full_sets(alloc, columns)?.into_vec();
    for on in conds {
        let Some(place) = place_of(columns, &on.column) else {
            unreachable!()
        };
        let met = column_set(alloc, columns[place].kind, &on.cond)?;
        let narrowed = intersection(alloc, &sets[place], &met)?;
        sets[place] = narrowed;
    }
    Ok(List::from_vec(sets))
}

/// For each column the set of all values of its kind.
fn full_sets(alloc: Global, columns: &[Column]) -> Result<List<ColumnSet>, NoMemory>
    ensures kinds { IfOk result (λ sets. IsTrue (are_sets_for columns.now sets)) }
    ensures full { IfOk result (λ sets. (r : Listed Cell) → IsTrue (fits columns.now r) → in_sets sets r ≡ true) }
{
    let mut sets = List::new(alloc);
    for column in columns {
        let set = full_set(alloc, column.kind)?;
        sets.push(set)?;
    }
    Ok(sets)
}

/// The set of all values of a kind.
fn full_set(alloc: Global, kind: Kind) -> Result<ColumnSet, NoMemory>
    ensures kind { IfOk result (λ set. IsTrue (is_set_for kind set)) }
    ensures full { IfOk result (λ set. (v : Cell) → IsTrue (is_value_of kind v) → in_set set v ≡ true) }
{
    match kind {
        Kind::Int => {
            let numbers = Set::full(alloc)?;
            Ok(ColumnSet::Ints(numbers))
        }
        Kind::Text => {
            let texts = Set::full(alloc)?;
            Ok(ColumnSet::Texts(texts))
        }
    }
}

/// The values that are in both sets.
fn intersection(alloc: Global, set: &ColumnSet, other: &ColumnSet) -> Result<ColumnSet, NoMemory>
    requires { own_kind set.now ≡ own_kind other.now }
    ensures kind { IfOk result (λ both. own_kind both ≡ own_kind set.now) }
    ensures both { IfOk result (λ both. (v : Cell) → IsTrue (is_value_of (own_kind set.now) v) → in_set both v ≡ (in_set set.now v && in_set other.now v)) }
{
    match (set, other) {
        (ColumnSet::Ints(a), ColumnSet::Ints(b)) => {
            let both = a.intersect(alloc, b)?;
            Ok(ColumnSet::Ints(both))
        }
        (ColumnSet::Texts(a), ColumnSet::Texts(b)) => {
            let both = a.intersect(alloc, b)?;
            Ok(ColumnSet::Texts(both))
        }
        _ => unreachable!(),
    }
}

/// The place of the column with a name.
fn column_index(columns: &[Column], name: &ByteText) -> u16
    requires { length columns.now ≤ 64 }
    ensures { result ≡ index_of columns.now name.now }
{
    match place_of(columns, name) {
        Some(place) => place as u16,
        None => 0,
    }
}

/// The items, by the places of their columns.
fn placed_items(alloc: Global, columns: &[Column], items: &[Asked]) -> Result<List<Item>, NoMemory>
    requires { length columns.now ≤ 64 }
    ensures { IfOk result (λ placed. placed ≡ map (λ a. record { label = a.label; what = Shown.Column (index_of columns.now a.column) }) items.now) }
{
    let mut placed = List::new(alloc);
    for item in items {
        let label = item.label.copy()?;
        let what = Shown::Column(column_index(columns, &item.column));
        placed.push(Item { label, what })?;
    }
    Ok(placed)
}

/// The order columns, by their places.
fn placed_order(alloc: Global, columns: &[Column], order: &[Along]) -> Result<List<Dir>, NoMemory>
    requires { length columns.now ≤ 64 }
    ensures { IfOk result (λ placed. placed ≡ map (λ a. record { column = index_of columns.now a.column; down = a.down }) order.now) }
{
    let mut placed = List::new(alloc);
    for along in order {
        let column = column_index(columns, &along.column);
        let down = along.down;
        placed.push(Dir { column, down })?;
    }
    Ok(placed)
}
