// What holds of all sets.
ghost use Rattle.std.specs.Prelude.{◌≡◌, List as Listed};
ghost use Rattle.interval_normal.specs.Spans.{has, IsCanonical};
ghost use Rattle.interval_normal.specs.declared.set.Span.{Span as Interval};

use crate::point::Point;

/// Two canonical lists that hold the same values are one list, for every `Point`: so the list of a set is its normal
/// form. A law: the call does nothing.
pub fn same_values_same_list<P: Point>()
    ensures { (a b : Listed (Interval P)) → IsCanonical P.valid P.cmp a → IsCanonical P.valid P.cmp b → ((x : P) → P.valid x → has P.cmp a x ≡ has P.cmp b x) → a ≡ b }
{}
