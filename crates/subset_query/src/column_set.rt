// The values that meet a condition, as a set.
ghost use Rattle.std.specs.Prelude.{◌≡◌, IfOk, IsTrue};
ghost use Rattle.std.specs.List.{list_all, list_any};
ghost use Rattle.std.specs.Ordering.{is_lt, is_le, is_eq, is_ne, is_ge, is_gt};
ghost use Rattle.cite_schema.specs.Values.{value_cmp, is_value_of};
ghost use Rattle.cite_schema.specs.Conditions.{meets};
ghost use Rattle.cite_schema.specs.declared.value.Value.{Value as Cell};
ghost use Rattle.interval_normal.specs.Spans.{has};
ghost use Rattle.subset_query.specs.Forms.{in_set, is_set_for};

use crate::form::ColumnSet;
use crate::kind_point::KindPoint;
use cite_schema::{ByteText, Cond, Kind, List, NoMemory, Value};
use interval_normal::{Point, Set};
use std::alloc::Global;

/// The set of the values of a kind that meet a condition, whatever the kinds of the values in it. For a condition of n
/// nodes it takes n set operations, and for each `Among` of n members n log n comparisons.
pub fn column_set(alloc: Global, kind: Kind, cond: &Cond) -> Result<ColumnSet, NoMemory>
    ensures kind { IfOk result (λ set. IsTrue (is_set_for kind set)) }
    ensures meets { IfOk result (λ set. (v : Cell) → IsTrue (is_value_of kind v) → in_set set v ≡ meets cond.now v) }
{
    match kind {
        Kind::Int => {
            let numbers = meeting_set::<i64>(alloc, cond)?;
            Ok(ColumnSet::Ints(numbers))
        }
        Kind::Text => {
            let texts = meeting_set::<ByteText>(alloc, cond)?;
            Ok(ColumnSet::Texts(texts))
        }
    }
}

// The points that meet the condition.
#[cycle(meeting)]
fn meeting_set<P: KindPoint>(alloc: Global, cond: &Cond) -> Result<Set<P>, NoMemory>
    ensures { IfOk result (λ set. (x : P) → P.valid x → has P.cmp set x ≡ meets cond.now (P.cell x)) }
{
    match cond {
        Cond::Lt(value) => less_set(alloc, value),
        Cond::Le(value) => up_to_set(alloc, value),
        Cond::Eq(value) => equal_set(alloc, value),
        Cond::Ne(value) => unequal_set(alloc, value),
        Cond::Ge(value) => from_set(alloc, value),
        Cond::Gt(value) => above_set(alloc, value),
        Cond::Among(values) => among_set(alloc, values.as_slice()),
        Cond::Prefix(prefix) => P::prefix_set(alloc, prefix),
        Cond::AllOf(conds) => {
            let all = common_set(alloc, conds.as_slice())?;
            Ok(all)
        }
        Cond::AnyOf(conds) => {
            let any = joined_set(alloc, conds.as_slice())?;
            Ok(any)
        }
        Cond::Not(inner) => {
            let met = meeting_set::<P>(alloc, inner.get())?;
            let others = met.complement(alloc)?;
            Ok(others)
        }
    }
}

// The points that meet each of the conditions.
#[cycle(meeting)]
fn common_set<P: KindPoint>(alloc: Global, conds: &[Cond]) -> Result<Set<P>, NoMemory>
    ensures { IfOk result (λ set. (x : P) → P.valid x → has P.cmp set x ≡ list_all (λ c. meets c (P.cell x)) conds.now) }
{
    let mut common = Set::full(alloc)?;
    for cond in conds {
        let met = meeting_set::<P>(alloc, cond)?;
        common = common.intersect(alloc, &met)?;
    }
    Ok(common)
}

// The points that meet one of the conditions.
#[cycle(meeting)]
fn joined_set<P: KindPoint>(alloc: Global, conds: &[Cond]) -> Result<Set<P>, NoMemory>
    ensures { IfOk result (λ set. (x : P) → P.valid x → has P.cmp set x ≡ list_any (λ c. meets c (P.cell x)) conds.now) }
{
    let mut joined = Set::empty(alloc);
    for cond in conds {
        let met = meeting_set::<P>(alloc, cond)?;
        joined = joined.union(alloc, &met)?;
    }
    Ok(joined)
}

// The points below the value.
fn less_set<P: KindPoint>(alloc: Global, value: &Value) -> Result<Set<P>, NoMemory>
    ensures { IfOk result (λ set. (x : P) → P.valid x → has P.cmp set x ≡ is_lt (value_cmp (P.cell x) value.now)) }
{
    match P::point_of(value) {
        Some(point) => Set::below(alloc, point),
        None if P::comes_first() => Set::full(alloc),
        None => Ok(Set::empty(alloc)),
    }
}

// The points equal to the value: one, or none where it is of the other kind.
fn equal_set<P: KindPoint>(alloc: Global, value: &Value) -> Result<Set<P>, NoMemory>
    ensures { IfOk result (λ set. (x : P) → P.valid x → has P.cmp set x ≡ is_eq (value_cmp (P.cell x) value.now)) }
{
    match P::point_of(value) {
        Some(point) => Set::one(alloc, point),
        None => Ok(Set::empty(alloc)),
    }
}

// The points below the value or equal to it.
fn up_to_set<P: KindPoint>(alloc: Global, value: &Value) -> Result<Set<P>, NoMemory>
    ensures { IfOk result (λ set. (x : P) → P.valid x → has P.cmp set x ≡ is_le (value_cmp (P.cell x) value.now)) }
{
    let less = less_set::<P>(alloc, value)?;
    let equal = equal_set::<P>(alloc, value)?;
    less.union(alloc, &equal)
}

// The points that are not equal to the value.
fn unequal_set<P: KindPoint>(alloc: Global, value: &Value) -> Result<Set<P>, NoMemory>
    ensures { IfOk result (λ set. (x : P) → P.valid x → has P.cmp set x ≡ is_ne (value_cmp (P.cell x) value.now)) }
{
    let equal = equal_set::<P>(alloc, value)?;
    let others = equal.complement(alloc)?;
    Ok(others)
}

// The points that are not below the value.
fn from_set<P: KindPoint>(alloc: Global, value: &Value) -> Result<Set<P>, NoMemory>
    ensures { IfOk result (λ set. (x : P) → P.valid x → has P.cmp set x ≡ is_ge (value_cmp (P.cell x) value.now)) }
{
    let less = less_set::<P>(alloc, value)?;
    let others = less.complement(alloc)?;
    Ok(others)
}

// The points above the value.
fn above_set<P: KindPoint>(alloc: Global, value: &Value) -> Result<Set<P>, NoMemory>
    ensures { IfOk result (λ set. (x : P) → P.valid x → has P.cmp set x ≡ is_gt (value_cmp (P.cell x) value.now)) }
{
    let up_to = up_to_set::<P>(alloc, value)?;
    let others = up_to.complement(alloc)?;
    Ok(others)
}

// The points equal to one of the values.
fn among_set<P: KindPoint>(alloc: Global, values: &[Value]) -> Result<Set<P>, NoMemory>
    ensures { IfOk result (λ set. (x : P) → P.valid x → has P.cmp set x ≡ list_any (λ v. is_eq (value_cmp (P.cell x) v)) values.now) }
{
    let points = points_among::<P>(alloc, values)?;
    let set = Set::of_points(alloc, points.as_slice())?;
    Ok(set)
}

// The values that are points, in order.
fn points_among<P: KindPoint>(alloc: Global, values: &[Value]) -> Result<List<P>, NoMemory>
    ensures { IfOk result (λ points. (x : P) → list_any (λ p. is_eq (P.cmp x p)) points ≡ list_any (λ v. is_eq (value_cmp (P.cell x) v)) values.now) }
{
    let mut points = List::new(alloc);
    for value in values {
        if let Some(point) = P::point_of(value) {
            points.push(point.copy(alloc)?)?;
        }
    }
    Ok(points)
}

#[cfg(test)]
mod tests;
