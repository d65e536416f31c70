// Rows in an order of columns.
ghost use Rattle.std.specs.Prelude.{◌≡◌, IfOk, IsTrue, IsPermutation, OnOk, IsSortedBy};
ghost use Rattle.std.specs.Ordering.{is_lt};
ghost use Rattle.cite_schema.specs.Tables.{rises};
ghost use Rattle.stable_order.specs.Rows.{by_order, ToldApart};

use crate::keyed::Keyed;
use cite_schema::{Dir, List, NoMemory};
use std::alloc::Global;
use std::cmp::Ordering;

/// The rows in the order of the columns in turn, each in its direction, and then of column 0 ascending. No two of them
/// may be equal in column 0. The rows are moved and not copied. It is std's sort: for n rows a number of comparisons in
/// the order of n log n, each of which looks at the columns up to the first in which the two differ.
pub fn arrange<R: Keyed + Drop>(
    alloc: Global,
    rows: List<R>,
    order: &List<Dir>,
) -> Result<List<R>, NoMemory>
    requires { ToldApart R.at rows }
    ensures moved { IfOk result (λ out. IsPermutation rows out) }
    ensures in_order { IfOk result (λ out. IsTrue (rises (λ r t. is_lt (by_order R.at order.now r t)) out)) }
{
    let mut rows = rows.into_vec();
    sort_rows(alloc, rows.as_mut_slice(), order.as_slice())?;
    Ok(List::from_vec(rows))
}

fn sort_rows<R: Keyed>(alloc: Global, rows: &mut [R], order: &[Dir]) -> Result<(), NoMemory>
    ensures moved { IsPermutation rows.old rows.new }
    ensures sorted { OnOk result (IsSortedBy (λ a b. is_lt (by_order R.at order.now a b)) rows.new) }
{
    rows.sort_by(alloc, |a, b| compare_rows(order, a, b))?;
    Ok(())
}

fn compare_rows<R: Keyed>(order: &[Dir], a: &R, b: &R) -> Ordering
    ensures { result ≡ by_order R.at order.now a.now b.now }
{
    for dir in order {
        let ascending = a.compare_at(b, dir.column);
        let directed = if dir.down {
            ascending.reverse()
        } else {
            ascending
        };
        if !directed.is_eq() {
            return directed;
        }
    }
    a.compare_at(b, 0)
}
