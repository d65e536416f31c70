// What two lists of spans have in common.
ghost use Rattle.std.specs.Prelude.{◌≡◌, ◌++◌, IfOk, OnOk};
ghost use Rattle.interval_normal.specs.Spans.{IsCanonical};
ghost use Rattle.interval_normal.specs.Cross.{piece, cross};

use crate::bounds::{copied, ends_before, is_under, later_of, sooner_of};
use crate::point::Point;
use crate::set::Span;
use cite_schema::{List, NoMemory};
use std::alloc::Global;

/// What two canonical lists have in common, from the left: of the two spans at hand, the one that ends first is left
/// behind.
pub fn all_common<P: Point>(
    alloc: Global,
    left: &[Span<P>],
    right: &[Span<P>],
) -> Result<List<Span<P>>, NoMemory>
    requires left { IsCanonical P.valid P.cmp left.now }
    requires right { IsCanonical P.valid P.cmp right.now }
    ensures { IfOk result (λ r. r ≡ cross P.cmp left.now right.now) }
{
    let mut out = List::new(alloc);
    let mut i = 0;
    let mut j = 0;
    while i < left.len() && j < right.len() {
        let s = &left[i];
        let t = &right[j];
        write_piece(alloc, &mut out, s, t)?;
        if ends_before(&s.high, &t.high) {
            i += 1;
        } else {
            j += 1;
        }
    }
    Ok(out)
}

// Writes what two spans have in common, unless that is nothing.
fn write_piece<P: Point>(
    alloc: Global,
    out: &mut List<Span<P>>,
    s: &Span<P>,
    t: &Span<P>,
) -> Result<(), NoMemory>
    ensures { OnOk result (out.new ≡ out.old ++ piece P.cmp s.now t.now) }
{
    let low = later_of(&s.low, &t.low);
    let high = sooner_of(&s.high, &t.high);
    if is_under(high, low) {
        out.push(Span {
            low: low.copy(alloc)?,
            high: copied(alloc, high)?,
        })?;
    }
    Ok(())
}
