// How much of an order is needed.
ghost use Rattle.std.specs.Prelude.{◌≡◌, ◌≤◌, IfOk, [], length, take};
ghost use Rattle.subset_query.specs.Forms.{columns_of, printed_columns, names_all, ends_at_key};
ghost use Rattle.subset_query.specs.Settling.{names, is_enough, needed, needed_order};

use crate::fixed::is_fixed;
use cite_schema::{Dir, Item, List, NoMemory, Shown, Value};

/// Whether the order names the column.
fn names(order: &[Dir], column: u16) -> bool
    ensures { result ≡ names order.now column }
{
    order
        .iter()
        .map(|dir| dir.column)
        .any(|named| named == column)
}

/// Whether the order names what the item shows as a column.
fn is_named(what: &Shown, order: &[Dir]) -> bool
    ensures { result ≡ names_all (columns_of what.now) order.now }
{
    match what {
        Shown::Column(column) => names(order, *column),
        Shown::Constant(_) => true,
    }
}

/// Whether the order names every column that an item shows.
fn all_named(items: &[Item], order: &[Dir]) -> bool
    ensures { result ≡ names_all (printed_columns items.now) order.now }
{
    for item in items {
        if !is_named(&item.what, order) {
            return false;
        }
    }
    true
}

/// Whether the order ends at the key.
fn ends_at_key(order: &[Dir]) -> bool
    ensures { result ≡ ends_at_key order.now }
{
    match order {
        [.., last] => last.column == 0,
        [] => false,
    }
}

/// Whether no further column can change a byte: the order ends at the key, or names every column that is shown.
fn is_enough(items: &[Item], order: &[Dir]) -> bool
    ensures { result ≡ is_enough (printed_columns items.now) order.now }
{
    ends_at_key(order) || all_named(items, order)
}

// Moves the columns of the order that are needed to its front, and says how many they are. The order ends as soon as it
// is long enough; before that a column drops out where it is fixed to one value, or occurred before.
fn keep_needed(items: &[Item], order: &mut [Dir], fixed: &[Option<Value>]) -> usize
    ensures within { result ≤ length order.new }
    ensures kept { needed fixed.now (printed_columns items.now) (take result order.new) [] ≡ needed fixed.now (printed_columns items.now) [] order.old }
{
    let mut kept = 0;
    for at in 0..order.len() {
        if is_enough(items, &order[..kept]) {
            return kept;
        }
        let dir = order[at];
        if !is_fixed(fixed, dir.column) && !names(&order[..kept], dir.column) {
            order[kept] = dir;
            kept += 1;
        }
    }
    kept
}

/// The order without what decides nothing. A column drops out where it is fixed to one value, or occurred before. The
/// order is completed by the key, and ends as soon as it is at the key, or every column that is shown has occurred;
/// where the key is fixed it is empty. It takes memory for the key alone, and compares each column with those before it.
pub fn needed_order(
    items: &[Item],
    order: List<Dir>,
    fixed: &[Option<Value>],
) -> Result<List<Dir>, NoMemory>
    ensures { IfOk result (λ needed. needed ≡ needed_order fixed.now (printed_columns items.now) order) }
{
    let mut order = order.into_vec();
    if is_fixed(fixed, 0) {
        order.clear();
        return Ok(List::from_vec(order));
    }
    let kept = keep_needed(items, &mut order, fixed);
    order.truncate(kept);
    if !is_enough(items, &order) {
        order.push(Dir {
            column: 0,
            down: false,
        })?;
    }
    Ok(List::from_vec(order))
}
