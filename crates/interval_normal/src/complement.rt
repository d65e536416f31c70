// What lies between the spans of a list.
ghost use Rattle.std.specs.Prelude.{◌≡◌, ◌++◌, IfOk, OnOk, Some};
ghost use Rattle.interval_normal.specs.Flip.{gap_from, ends_at, gaps};

use crate::bounds::copied;
use crate::point::Point;
use crate::set::Span;
use cite_schema::{List, NoMemory};
use std::alloc::Global;

/// The gaps of a canonical list: before the first span, between each two, and behind the last.
pub fn all_gaps<P: Point>(alloc: Global, spans: &[Span<P>]) -> Result<List<Span<P>>, NoMemory>
    ensures { IfOk result (λ r. r ≡ gaps P.cmp (Some P.bottom) spans.now) }
{
    let mut out = List::new(alloc);
    let mut from = Some(P::least(alloc)?);
    for s in spans {
        from = write_gap(alloc, &mut out, from, s)?;
    }
    if let Some(low) = from {
        out.push(Span { low, high: None })?;
    }
    Ok(out)
}

// Writes the gap before a span, and answers where the next one starts.
fn write_gap<P: Point>(
    alloc: Global,
    out: &mut List<Span<P>>,
    from: Option<P>,
    span: &Span<P>,
) -> Result<Option<P>, NoMemory>
    ensures next { IfOk result (λ r. r ≡ ends_at from span.now.high) }
    ensures out { OnOk result (out.new ≡ out.old ++ gap_from P.cmp from span.now.low) }
{
    match from {
        None => Ok(None),
        Some(low) => {
            let next = copied(alloc, &span.high)?;
            if low.compare(&span.low).is_lt() {
                let high = Some(span.low.copy(alloc)?);
                out.push(Span { low, high })?;
            }
            Ok(next)
        }
    }
}
