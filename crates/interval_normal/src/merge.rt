// Two lists of spans made one.
ghost use Rattle.std.specs.Prelude.{◌≡◌, IfOk, OnOk, ◌||◌, [], ◌∷◌, ◌++◌};
ghost use Rattle.interval_normal.specs.Spans.{has, IsCanonical};
ghost use Rattle.interval_normal.specs.Joined.{join_last, join_all};

use crate::bounds::{copied, farther_of, reaches};
use crate::point::Point;
use crate::set::Span;
use cite_schema::{List, NoMemory};
use std::alloc::{AllocError, Global};

/// The spans of two canonical lists in one, from the left: of the two spans at hand, the one that starts first is taken,
/// and joined with the last one written where the two meet or touch.
pub fn all_joined<P: Point>(
    alloc: Global,
    left: &[Span<P>],
    right: &[Span<P>],
) -> Result<List<Span<P>>, NoMemory>
    requires left { IsCanonical P.valid P.cmp left.now }
    requires right { IsCanonical P.valid P.cmp right.now }
    ensures canonical { IfOk result (λ r. IsCanonical P.valid P.cmp r) }
    ensures values { IfOk result (λ r. (x : P) → has P.cmp r x ≡ (has P.cmp left.now x || has P.cmp right.now x)) }
{
    let mut out = Vec::new(alloc);
    let mut i = 0;
    let mut j = 0;
    while i < left.len() && j < right.len() {
        let s = &left[i];
        let t = &right[j];
        if s.low.compare(&t.low).is_lt() {
            join_last(alloc, &mut out, s)?;
            i += 1;
        } else {
            join_last(alloc, &mut out, t)?;
            j += 1;
        }
    }
    join_all(alloc, &mut out, &left[i..])?;
    join_all(alloc, &mut out, &right[j..])?;
    Ok(List::from_vec(out))
}

// Joins each of the spans in turn.
fn join_all<P: Point>(
    alloc: Global,
    out: &mut Vec<Span<P>>,
    spans: &[Span<P>],
) -> Result<(), NoMemory>
    ensures { OnOk result (out.new.items ≡ join_all P.cmp out.old.items spans.now) }
{
    for span in spans {
        join_last(alloc, out, span)?;
    }
    Ok(())
}

// Puts a span behind the others, or widens the last one where the two meet or touch.
fn join_last<P: Point>(
    alloc: Global,
    out: &mut Vec<Span<P>>,
    span: &Span<P>,
) -> Result<(), NoMemory>
    ensures { OnOk result (out.new.items ≡ join_last P.cmp out.old.items span.now) }
{
    let mut next = Span {
        low: span.low.copy(alloc)?,
        high: copied(alloc, &span.high)?,
    };
    if let Some(last) = out.pop() {
        if reaches(&last.high, &next.low) {
            let high = farther_of(last.high, next.high);
            next = Span {
                low: last.low,
                high,
            };
        } else {
            push(out, last)?;
        }
    }
    push(out, next)?;
    Ok(())
}

fn push<T: Drop>(out: &mut Vec<T>, item: T) -> Result<(), AllocError>
    ensures { OnOk result (out.new.items ≡ out.old.items ++ item ∷ []) }
{
    out.push(item)?;
    Ok(())
}
