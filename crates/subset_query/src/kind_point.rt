// Points that are the values of one kind.
ghost use Rattle.std.specs.Prelude.{◌≡◌, IfOk, IfNone, IfSome, false, refl};
ghost use Rattle.std.specs.declared.cmp.Ordering.{Ordering};
ghost use Rattle.std.specs.declared.cmp.Ordering.TheVariants.{Less, Greater};
ghost use Rattle.std.specs.Ordering.{is_eq, is_lt};
ghost use Rattle.cite_schema.specs.Values.{value_cmp};
ghost use Rattle.cite_schema.specs.Conditions.{begins_with};
ghost use Rattle.cite_schema.specs.declared.value.Value.{Value as Cell};
ghost use Rattle.cite_schema.specs.declared.value.Value.TheVariants.{Int, Text};
ghost use Rattle.interval_normal.specs.Spans.{has};

use cite_schema::{ByteText, NoMemory, Value};
use interval_normal::{Point, Set, prefix_set};
use std::alloc::Global;

/// Points that are the values of one kind. A value of the other kind comes before or after all of them.
pub trait KindPoint: Point {
    /// The value that a point is.
    ghost cell: { Self → Cell };

    /// How a point compares with each value of the other kind.
    ghost beside: { Ordering };

    /// The point that a value is, or `None` where the value is of the other kind. It takes no memory.
    fn point_of(value: &Value) -> Option<&Self>
        ensures found { IfSome result (λ p. value.now ≡ cell p.now) }
        ensures other { IfNone result ((x : Self) → value_cmp (cell x) value.now ≡ beside) };

    /// Whether the points come before the values of the other kind. It takes no memory.
    fn comes_first() -> bool
        ensures { result ≡ is_lt beside };

    /// The points that begin with the bytes.
    fn prefix_set(alloc: Global, prefix: &ByteText) -> Result<Set<Self>, NoMemory>
        ensures { IfOk result (λ set. (x : Self) → Self.valid x → has Self.cmp set x ≡ begins_with prefix.now (cell x)) };

    /// The order of points is that of values.
    ghost as_values: { (x y : Self) → value_cmp (cell x) (cell y) ≡ Self.cmp x y };

    /// No point equals a value of the other kind.
    ghost apart: { is_eq beside ≡ false };
}

impl KindPoint for i64 {
    ghost cell = { λ z. Int z };

    ghost beside = { Less };

    fn point_of(value: &Value) -> Option<&i64> {
        match value {
            Value::Int(number) => Some(number),
            Value::Text(_) => None,
        }
    }

    fn comes_first() -> bool {
        true
    }

    fn prefix_set(alloc: Global, _prefix: &ByteText) -> Result<Set<i64>, NoMemory> {
        Ok(Set::empty(alloc))
    }

    ghost as_values = { λ x y. refl };

    ghost apart = { refl };
}

impl KindPoint for ByteText {
    ghost cell = { λ t. Text t };

    ghost beside = { Greater };

    fn point_of(value: &Value) -> Option<&ByteText> {
        match value {
            Value::Int(_) => None,
            Value::Text(text) => Some(text),
        }
    }

    fn comes_first() -> bool {
        false
    }

    fn prefix_set(alloc: Global, prefix: &ByteText) -> Result<Set<ByteText>, NoMemory> {
        prefix_set(alloc, prefix)
    }

    ghost as_values = { λ x y. refl };

    ghost apart = { refl };
}
