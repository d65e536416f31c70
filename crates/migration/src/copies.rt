// Copies of forms.
ghost use Rattle.std.specs.Prelude.{◌≡◌, IfOk};

use cite_schema::{ByteText, Dir, Item, List, NoMemory, Shown};
use interval_normal::{Point, Set};
use std::alloc::Global;
use subset_query::{ColumnSet, Normal};

/// The same form again. It copies each text once.
pub fn copied_form(alloc: Global, form: &Normal) -> Result<Normal, NoMemory>
    ensures { IfOk result (λ copied. copied ≡ form.now) }
{
    match form {
        Normal::Nothing { labels } => {
            let labels = copied_labels(alloc, labels.as_slice())?;
            Ok(Normal::Nothing { labels })
        }
        Normal::Some { sets, items, order } => {
            let sets = copied_sets(alloc, sets.as_slice())?;
            let items = copied_items(alloc, items.as_slice())?;
            let order = List::from_slice(alloc, order.as_slice())?;
            Ok(Normal::Some { sets, items, order })
        }
    }
}

fn copied_labels(alloc: Global, labels: &[ByteText]) -> Result<List<ByteText>, NoMemory>
    ensures { IfOk result (λ copied. copied ≡ labels.now) }
{
    let mut copied = List::new(alloc);
    for label in labels {
        copied.push(label.copy()?)?;
    }
    Ok(copied)
}

fn copied_items(alloc: Global, items: &[Item]) -> Result<List<Item>, NoMemory>
    ensures { IfOk result (λ copied. copied ≡ items.now) }
{
    let mut copied = List::new(alloc);
    for item in items {
        copied.push(copied_item(item)?)?;
    }
    Ok(copied)
}

fn copied_item(item: &Item) -> Result<Item, NoMemory>
    ensures { IfOk result (λ copied. copied ≡ item.now) }
{
    let label = item.label.copy()?;
    let what = match &item.what {
        Shown::Column(column) => Shown::Column(*column),
        Shown::Constant(text) => Shown::Constant(text.copy()?),
    };
    Ok(Item { label, what })
}

fn copied_sets(alloc: Global, sets: &[ColumnSet]) -> Result<List<ColumnSet>, NoMemory>
    ensures { IfOk result (λ copied. copied ≡ sets.now) }
{
    let mut copied = List::new(alloc);
    for set in sets {
        copied.push(copied_set(alloc, set)?)?;
    }
    Ok(copied)
}

fn copied_set(alloc: Global, set: &ColumnSet) -> Result<ColumnSet, NoMemory>
    ensures { IfOk result (λ copied. copied ≡ set.now) }
{
    match set {
        ColumnSet::Ints(numbers) => {
            let numbers = copied_points(alloc, numbers)?;
            Ok(ColumnSet::Ints(numbers))
        }
        ColumnSet::Texts(texts) => {
            let texts = copied_points(alloc, texts)?;
            Ok(ColumnSet::Texts(texts))
        }
    }
}

// The same set again, as its union with the empty one: of two sets with the same points the lists are one.
fn copied_points<P: Point>(alloc: Global, set: &Set<P>) -> Result<Set<P>, NoMemory>
    ensures { IfOk result (λ copied. copied ≡ set.now) }
{
    let _spans = set.spans();
    let none = Set::empty(alloc);
    let copied = set.union(alloc, &none)?;
    let _copied_spans = copied.spans();
    Ok(copied)
}
