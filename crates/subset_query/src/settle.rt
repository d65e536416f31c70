// The settled form of given parts.
ghost use Rattle.std.specs.Prelude.{◌≡◌, ◌≢◌, IfOk, IsTrue, [], List as Listed};
ghost use Rattle.cite_schema.specs.Answers.{Alike};
ghost use Rattle.cite_schema.specs.Headings.{is_heading};
ghost use Rattle.cite_schema.specs.declared.schema.Column as schema_column;
ghost use Rattle.subset_query.specs.Forms.{formed, in_sets, IsSettled, are_sets_for, AreShownIn, AreColumnsIn};

use crate::fixed::{fixed_values, labels_of, settled_items};
use crate::form::{ColumnSet, Normal};
use crate::order::needed_order;
use cite_schema::{Dir, Item, List, NoMemory, Schema};
use std::alloc::Global;

/// The settled form that gives the same bytes as the parts on every table of the schema: the rows whose cells are in
/// the sets, in the order of `order` and then of the key, each shown by the items.
///
/// - Where a set is empty no row is chosen, and only the labels are left.
/// - A column that its set fixes to one value is shown as a constant, and orders nothing.
/// - An order names no column twice, ends at the key at the latest, and ends as soon as every column that is shown has
///   occurred. Where the key is fixed, or no column is shown, it is empty.
pub fn settle_form(
    alloc: Global,
    schema: &Schema,
    sets: List<ColumnSet>,
    items: List<Item>,
    order: List<Dir>,
) -> Result<Normal, NoMemory>
    requires sets { IsTrue (are_sets_for schema.now.columns sets) }
    requires some_item { items ≢ [] }
    requires items_known { AreShownIn schema.now.columns items }
    requires order_known { AreColumnsIn schema.now.columns order }
    ensures settled { IfOk result (λ form. IsSettled schema.now.columns form) }
    ensures alike { IfOk result (λ form. Alike schema.now.columns (record { keeps = in_sets sets; order = order; items = items }) (formed form)) }
{
    let _columns = schema.columns();
    let form = settle_parts(alloc, sets, items, order)?;
    Ok(form)
}

/// The same without a schema: the form is settled, and gives the bytes of the parts, for all columns that they fit. The
/// texts are moved, but for the constants of fixed columns.
pub fn settle_parts(
    alloc: Global,
    sets: List<ColumnSet>,
    items: List<Item>,
    order: List<Dir>,
) -> Result<Normal, NoMemory>
    ensures settled { IfOk result (λ form. (columns : Listed schema_column.Column) → IsTrue (is_heading columns) → IsTrue (are_sets_for columns sets) → items ≢ [] → AreShownIn columns items → AreColumnsIn columns order → IsSettled columns form) }
    ensures alike { IfOk result (λ form. (columns : Listed schema_column.Column) → IsTrue (are_sets_for columns sets) → Alike columns (record { keeps = in_sets sets; order = order; items = items }) (formed form)) }
{
    let Some(fixed) = fixed_values(alloc, sets.as_slice())? else {
        let labels = labels_of(alloc, items)?;
        return Ok(Normal::Nothing { labels });
    };
    let items = settled_items(alloc, items, fixed.as_slice())?;
    let order = needed_order(items.as_slice(), order, fixed.as_slice())?;
    Ok(Normal::Some { sets, items, order })
}

#[cfg(test)]
mod tests;
