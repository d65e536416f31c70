// What a form picks of a table, and how it heads it.
ghost use Rattle.std.specs.Prelude.{◌≡◌, IfOk, [], filter, map};
ghost use Rattle.cite_schema.specs.Answers.{IsAnswer};
ghost use Rattle.subset_query.specs.Forms.{formed, in_set, in_sets};
ghost use Rattle.subset_query.specs.Keys.{HaveOwnKeys};

use crate::form::{ColumnSet, Normal};
use cite_schema::{ByteText, Item, List, NoMemory, Row, Shown, Value};
use stable_order::arrange;
use std::alloc::Global;

impl Normal {
    /// Whether the form picks the row: whether each cell is in its column's set. It takes no memory, and a search in
    /// each set.
    pub fn picks(&self, row: &Row) -> bool
        ensures { result ≡ (formed self.now).keeps row.now }
    {
        match self {
            Normal::Nothing { .. } => false,
            Normal::Some { sets, .. } => are_in_sets(sets.as_slice(), row.values().as_slice()),
        }
    }

    /// The items of the form's results; where it picks nothing, each label with an empty constant.
    pub fn heads(&self, alloc: Global) -> Result<List<Item>, NoMemory>
        ensures { IfOk result (λ items. items ≡ (formed self.now).items) }
    {
        match self {
            Normal::Nothing { labels } => empty_items(alloc, labels.as_slice()),
            Normal::Some { items, .. } => copied_items(alloc, items.as_slice()),
        }
    }

    /// The rows that the form picks, in its order and then by the key. The rows are moved: it takes one pass over them
    /// and one sort of those that are picked.
    pub fn rows(&self, alloc: Global, rows: List<Row>) -> Result<List<Row>, NoMemory>
        requires { HaveOwnKeys rows }
        ensures { IfOk result (λ picked. IsAnswer (formed self.now) rows picked) }
    {
        match self {
            Normal::Nothing { .. } => Ok(List::new(alloc)),
            Normal::Some { sets, order, .. } => {
                let kept = kept_rows(sets.as_slice(), rows);
                let picked = arrange(alloc, kept, order)?;
                Ok(picked)
            }
        }
    }
}

// Whether each cell is in its column's set, and there is one for each column.
fn are_in_sets(sets: &[ColumnSet], values: &[Value]) -> bool
    ensures { result ≡ in_sets sets.now values.now }
{
    if sets.len() != values.len() {
        return false;
    }
    for i in 0..sets.len() {
        if !is_in_set(&sets[i], &values[i]) {
            return false;
        }
    }
    true
}

// The rows whose cells are in the sets, in the order in which they stood.
fn kept_rows(sets: &[ColumnSet], rows: List<Row>) -> List<Row>
    ensures { result ≡ filter (λ r. in_sets sets.now r) rows }
{
    let mut kept = rows.into_vec();
    kept.retain(|row| are_in_sets(sets, row.values().as_slice()));
    List::from_vec(kept)
}

fn is_in_set(set: &ColumnSet, value: &Value) -> bool
    ensures { result ≡ in_set set.now value.now }
{
    match (set, value) {
        (ColumnSet::Ints(numbers), Value::Int(number)) => numbers.has(number),
        (ColumnSet::Texts(texts), Value::Text(text)) => texts.has(text),
        _ => false,
    }
}

fn empty_items(alloc: Global, labels: &[ByteText]) -> Result<List<Item>, NoMemory>
    ensures { IfOk result (λ items. items ≡ map (λ label. record { label = label; what = Shown.Constant [] }) labels.now) }
{
    let mut items = List::new(alloc);
    for label in labels {
        items.push(Item {
            label: label.copy()?,
            what: Shown::Constant(List::new(alloc)),
        })?;
    }
    Ok(items)
}

fn copied_items(alloc: Global, items: &[Item]) -> Result<List<Item>, NoMemory>
    ensures { IfOk result (λ copied. copied ≡ items.now) }
{
    let mut copied = List::new(alloc);
    for item in items {
        copied.push(copied_item(item)?)?;
    }
    Ok(copied)
}

fn copied_item(item: &Item) -> Result<Item, NoMemory>
    ensures { IfOk result (λ copied. copied ≡ item.now) }
{
    let label = item.label.copy()?;
    let what = match &item.what {
        Shown::Column(column) => Shown::Column(*column),
        Shown::Constant(text) => Shown::Constant(text.copy()?),
    };
    Ok(Item { label, what })
}

#[cfg(test)]
mod tests;
