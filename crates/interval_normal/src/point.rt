// Values that intervals are made of.
ghost use Rattle.std.specs.Prelude.{◌≡◌, ◌≢◌, IfOk, Option, Some, None};
ghost use Rattle.std.specs.Cmp.{IsTotalOrder};
ghost use Rattle.std.specs.declared.cmp.Ordering.{Ordering};
ghost use Rattle.std.specs.declared.cmp.Ordering.TheVariants.{Less, Equal};
ghost use Rattle.interval_normal.specs.Spans.{IsNextOf};

use cite_schema::NoMemory;
use std::alloc::Global;
use std::cmp::Ordering;

/// Values of a total order that has a least value, and in which each value has a next one or is the greatest.
pub trait Point: Drop {
    /// Which terms are values of the type.
    ghost valid: { Self → Type 0 };

    /// The order.
    ghost cmp: { Self → Self → Ordering };

    /// The least value.
    ghost bottom: { Self };

    /// The value that comes next, with nothing between; none at the greatest value.
    ghost next: { Self → Option Self };

    /// Which of the two comes first. Both are values of the type. It takes no memory.
    fn compare(&self, other: &Self) -> Ordering
        ensures order { result ≡ cmp self.now other.now }
        ensures left { valid self.now }
        ensures right { valid other.now };

    /// The least value.
    fn least(alloc: Global) -> Result<Self, NoMemory>
        ensures { IfOk result (λ p. p ≡ bottom) };

    /// The value that comes next, or `None` at the greatest value.
    fn after(&self, alloc: Global) -> Result<Option<Self>, NoMemory>
        ensures { IfOk result (λ o. o ≡ next self.now) };

    /// The same value again, which is a value of the type.
    fn copy(&self, alloc: Global) -> Result<Self, NoMemory>
        ensures same { IfOk result (λ p. p ≡ self.now) }
        ensures value { valid self.now };

    /// The order is total.
    ghost total: { IsTotalOrder cmp };

    /// Values of equal order are one.
    ghost exact: { (x y : Self) → cmp x y ≡ Equal → x ≡ y };

    /// `next` is the least value above x, and is missing exactly where nothing is above x.
    ghost next_is: { (x : Self) → valid x → IsNextOf valid cmp x (next x) };

    /// The least value is a value of the type.
    ghost bottom_valid: { valid bottom };

    /// No value is below the least one.
    ghost from_bottom: { (x : Self) → valid x → cmp x bottom ≢ Less };
}
