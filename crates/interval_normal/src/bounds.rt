// The ends of spans.
ghost use Rattle.std.specs.Prelude.{◌≡◌, ◌↔◌, IfOk, IsTrue, None};
ghost use Rattle.interval_normal.specs.Spans.{under};
ghost use Rattle.interval_normal.specs.Ends.{ends_before, sooner, later, reaches, farther};

use crate::point::Point;
use crate::set::Span;
use cite_schema::NoMemory;
use std::alloc::Global;

/// Whether p is below an upper end.
pub fn is_under<P: Point>(end: &Option<P>, p: &P) -> bool
    ensures { result ≡ under P.cmp end.now p.now }
{
    match end {
        None => true,
        Some(high) => p.compare(high).is_lt(),
    }
}

/// Whether the first of two upper ends comes before the other.
pub fn ends_before<P: Point>(first: &Option<P>, second: &Option<P>) -> bool
    ensures { result ≡ ends_before P.cmp first.now second.now }
{
    match (first, second) {
        (None, _) => false,
        (Some(_), None) => true,
        (Some(a), Some(b)) => a.compare(b).is_lt(),
    }
}

/// Whether a span with this upper end meets or touches one that starts at `low`.
pub fn reaches<P: Point>(end: &Option<P>, low: &P) -> bool
    ensures { result ≡ reaches P.cmp end.now low.now }
{
    match end {
        None => true,
        Some(high) => low.compare(high).is_le(),
    }
}

/// The same upper end again.
pub fn copied<P: Point>(alloc: Global, end: &Option<P>) -> Result<Option<P>, NoMemory>
    ensures { IfOk result (λ r. r ≡ end.now) }
{
    match end {
        None => Ok(None),
        Some(high) => Ok(Some(high.copy(alloc)?)),
    }
}

/// The later of two values.
pub fn later_of<'a, P: Point>(a: &'a P, b: &'a P) -> &'a P
    ensures { result.now ≡ later P.cmp a.now b.now }
{
    if a.compare(b).is_lt() { b } else { a }
}

/// The sooner of two upper ends.
pub fn sooner_of<'a, P: Point>(first: &'a Option<P>, second: &'a Option<P>) -> &'a Option<P>
    ensures { result.now ≡ sooner P.cmp first.now second.now }
{
    if ends_before(first, second) {
        first
    } else {
        second
    }
}

/// The farther of two upper ends.
pub fn farther_of<P: Point>(first: Option<P>, second: Option<P>) -> Option<P>
    ensures { result ≡ farther P.cmp first second }
{
    if ends_before(&first, &second) {
        second
    } else {
        first
    }
}

/// Whether the span holds its low end alone.
pub fn is_alone<P: Point>(alloc: Global, span: &Span<P>) -> Result<bool, NoMemory>
    ensures { IfOk result (λ alone. IsTrue alone ↔ (P.next span.now.low ≡ span.now.high)) }
{
    match (span.low.after(alloc)?, &span.high) {
        (None, None) => Ok(true),
        (Some(next), Some(high)) => Ok(next.compare(high).is_eq()),
        _ => Ok(false),
    }
}

/// Whether the span holds every value: it starts at the least one and has no end.
pub fn is_whole<P: Point>(alloc: Global, span: &Span<P>) -> Result<bool, NoMemory>
    ensures { IfOk result (λ whole. IsTrue whole ↔ ((span.now.low ≡ P.bottom) × (span.now.high ≡ None))) }
{
    match &span.high {
        None => {
            let least = P::least(alloc)?;
            Ok(span.low.compare(&least).is_eq())
        }
        Some(_) => Ok(false),
    }
}
