// What can be compared at columns.
ghost use Rattle.std.specs.Prelude.{◌≡◌, ℕ};
ghost use Rattle.std.specs.Cmp.{IsTotalOrder};
ghost use Rattle.std.specs.declared.cmp.Ordering.{Ordering};

use std::cmp::Ordering;

/// What can be compared at columns, which are counted from 0; column 0 is the key.
pub trait Keyed {
    /// How two of them compare at a column.
    ghost at: { Self → Self → ℕ → Ordering };

    /// Which of the two comes first at a column. It takes no memory.
    fn compare_at(&self, other: &Self, column: u16) -> Ordering
        ensures { result ≡ at self.now other.now column };

    /// At each column the comparison is transitive, `Equal` included, and swapping the sides swaps the answer.
    ghost comparison: { (c : ℕ) → IsTotalOrder (λ r t. at r t c) };
}
