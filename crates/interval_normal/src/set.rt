// Sets of values as canonical lists of spans.
ghost use Rattle.std.specs.Prelude.{◌≡◌, ◌↔◌, IfOk, IsTrue, not, true, false, [], ◌&&◌, ◌||◌, Some};
ghost use Rattle.std.specs.Option.{option_copied};
ghost use Rattle.std.specs.List.{list_any};
ghost use Rattle.std.specs.Ordering.{is_lt, is_eq, is_ge, is_gt};
ghost use Rattle.interval_normal.specs.Spans.{has, HoldsOne, IsCanonical};

use crate::bounds::{is_alone, is_under, is_whole};
use crate::complement::all_gaps;
use crate::intersection::all_common;
use crate::merge::all_joined;
use crate::point::Point;
use cite_schema::{List, NoMemory};
use std::alloc::Global;
use std::marker::Model;

/// The values from `low` up to and without `high`; where `high` is missing there is no upper end.
#[derive(Drop)]
pub struct Span<P> {
    pub low: P,
    pub high: Option<P>,
}

/// A set of values, seen as its list of spans: none is empty, they rise, and none touches the next.
#[derive(Drop)]
pub struct Set<P: Point> {
    spans: List<Span<P>>,
}

impl<P: Point> Model for Set<P> {
    ghost use Rattle.std.specs.Prelude.{List as Listed};
    ghost use Rattle.interval_normal.specs.declared.set.Span.{Span};

    ghost Value = { Listed (Span P) };

    ghost use Rattle.interval_normal.specs.Spans.{IsCanonical};

    ghost view = { λ s. s.spans };

    ghost invariant = { λ s. IsCanonical P.valid P.cmp s.spans };
}

impl<P: Point> Set<P> {
    /// The set that holds nothing. It takes no memory.
    pub fn empty(alloc: Global) -> Set<P>
        ensures { result ≡ [] }
    {
        Set {
            spans: List::new(alloc),
        }
    }

    /// The set with these spans, which have to be in the normal form: none empty, rising, and none touching the next. The
    /// list is moved; it takes no memory, and no time that depends on the number of spans.
    pub fn from_spans(spans: List<Span<P>>) -> Set<P>
        requires { IsCanonical P.valid P.cmp spans }
        ensures { result ≡ spans }
    {
        Set { spans }
    }

    /// The set of all values.
    pub fn full(alloc: Global) -> Result<Set<P>, NoMemory>
        ensures { IfOk result (λ r. (x : P) → P.valid x → has P.cmp r x ≡ true) }
    {
        let least = P::least(alloc)?;
        let set = Set::from(alloc, &least)?;
        Ok(set)
    }

    /// The values below p.
    pub fn below(alloc: Global, p: &P) -> Result<Set<P>, NoMemory>
        ensures { IfOk result (λ r. (x : P) → P.valid x → has P.cmp r x ≡ is_lt (P.cmp x p.now)) }
    {
        let low = P::least(alloc)?;
        let mut spans = List::new(alloc);
        if low.compare(p).is_lt() {
            let high = Some(p.copy(alloc)?);
            spans.push(Span { low, high })?;
        }
        Ok(Set { spans })
    }

    /// The values that are not below p.
    pub fn from(alloc: Global, p: &P) -> Result<Set<P>, NoMemory>
        ensures { IfOk result (λ r. (x : P) → P.valid x → has P.cmp r x ≡ is_ge (P.cmp x p.now)) }
    {
        let low = p.copy(alloc)?;
        let mut spans = List::new(alloc);
        spans.push(Span { low, high: None })?;
        Ok(Set { spans })
    }

    /// The values above p.
    pub fn above(alloc: Global, p: &P) -> Result<Set<P>, NoMemory>
        ensures { IfOk result (λ r. (x : P) → P.valid x → has P.cmp r x ≡ is_gt (P.cmp x p.now)) }
    {
        let _same = p.compare(p);
        match p.after(alloc)? {
            None => Ok(Set::empty(alloc)),
            Some(next) => {
                let set = Set::from(alloc, &next)?;
                Ok(set)
            }
        }
    }

    /// The value p alone.
    pub fn one(alloc: Global, p: &P) -> Result<Set<P>, NoMemory>
        ensures { IfOk result (λ r. (x : P) → P.valid x → has P.cmp r x ≡ is_eq (P.cmp x p.now)) }
    {
        let low = p.copy(alloc)?;
        let high = p.after(alloc)?;
        let mut spans = List::new(alloc);
        spans.push(Span { low, high })?;
        Ok(Set { spans })
    }

    /// The values that equal one of the points, in any order and however often each stands there. It joins the sets of
    /// the two halves of the list: for n points it takes n log n comparisons and copies.
    pub fn of_points(alloc: Global, points: &[P]) -> Result<Set<P>, NoMemory>
        ensures { IfOk result (λ r. (x : P) → P.valid x → has P.cmp r x ≡ list_any (λ p. is_eq (P.cmp x p)) points.now) }
    {
        match points {
            [] => Ok(Set::empty(alloc)),
            [point] => {
                let set = Set::one(alloc, point)?;
                Ok(set)
            }
            _ => {
                let half = points.len() / 2;
                let left = Set::of_points(alloc, &points[..half])?;
                let right = Set::of_points(alloc, &points[half..])?;
                let both = left.union(alloc, &right)?;
                Ok(both)
            }
        }
    }

    /// The values that are in one of the two sets. One merge over both lists: it takes time linear in their lengths,
    /// and copies each end once.
    pub fn union(&self, alloc: Global, other: &Set<P>) -> Result<Set<P>, NoMemory>
        ensures { IfOk result (λ r. (x : P) → P.valid x → has P.cmp r x ≡ (has P.cmp self.now x || has P.cmp other.now x)) }
    {
        let spans = all_joined(alloc, self.spans.as_slice(), other.spans.as_slice())?;
        Ok(Set { spans })
    }

    /// The values that are in both sets. One merge over both lists: it takes time linear in their lengths.
    pub fn intersect(&self, alloc: Global, other: &Set<P>) -> Result<Set<P>, NoMemory>
        ensures { IfOk result (λ r. (x : P) → P.valid x → has P.cmp r x ≡ (has P.cmp self.now x && has P.cmp other.now x)) }
    {
        let spans = all_common(alloc, self.spans.as_slice(), other.spans.as_slice())?;
        Ok(Set { spans })
    }

    /// The values that are not in the set. One pass over the list: it takes time linear in its length.
    pub fn complement(&self, alloc: Global) -> Result<Set<P>, NoMemory>
        ensures { IfOk result (λ r. (x : P) → P.valid x → has P.cmp r x ≡ not (has P.cmp self.now x)) }
    {
        let spans = all_gaps(alloc, self.spans.as_slice())?;
        Ok(Set { spans })
    }

    /// Whether the set holds p. A binary search: it makes a number of comparisons logarithmic in the number of spans,
    /// and takes no memory.
    pub fn has(&self, p: &P) -> bool
        ensures { result ≡ has P.cmp self.now p.now }
    {
        let spans = self.spans.as_slice();
        let started = spans.partition_point(|span| p.compare(&span.low).is_ge());
        started > 0 && is_under(&spans[started - 1].high, p)
    }

    /// Whether the set holds nothing. It takes no memory.
    pub fn is_empty(&self) -> bool
        ensures { IsTrue result ↔ ((x : P) → P.valid x → has P.cmp self.now x ≡ false) }
    {
        self.spans.is_empty()
    }

    /// The one value of the set, exactly where it holds one value. It compares one value, and takes the memory of one.
    pub fn single(&self, alloc: Global) -> Result<Option<&P>, NoMemory>
        ensures { IfOk result (λ found. (p : P) → (option_copied found ≡ Some p) ↔ HoldsOne P.valid P.cmp self.now p) }
    {
        let spans = self.spans.as_slice();
        if spans.len() != 1 {
            return Ok(None);
        }
        let span = &spans[0];
        if is_alone(alloc, span)? {
            Ok(Some(&span.low))
        } else {
            Ok(None)
        }
    }

    /// Whether the set holds every value. It compares one value, and takes the memory of one.
    pub fn is_full(&self, alloc: Global) -> Result<bool, NoMemory>
        ensures { IfOk result (λ full. IsTrue full ↔ ((x : P) → P.valid x → has P.cmp self.now x ≡ true)) }
    {
        match self.spans.as_slice() {
            [span] => {
                let whole = is_whole(alloc, span)?;
                Ok(whole)
            }
            _ => Ok(false),
        }
    }

    /// The list that the set is seen as, which is canonical. It takes no memory.
    pub fn spans(&self) -> &List<Span<P>>
        ensures value { result.now ≡ self.now }
        ensures canonical { IsCanonical P.valid P.cmp self.now }
    {
        &self.spans
    }
}
