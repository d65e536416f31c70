// Data that is compared exactly.
ghost use Rattle.std.specs.Prelude.{◌≡◌, IsTrue, ◌↔◌};

use crate::item::{Dir, Item, Shown};
use crate::list::List;
use crate::value::Value;

/// Values that can be told apart exactly, with no memory taken.
pub trait Same {
    /// Whether the two are one value. It takes time linear in their size.
    fn same(&self, other: &Self) -> bool
        ensures { IsTrue result ↔ (self.now ≡ other.now) };
}

/// Whether two slices have the same elements in the same order.
pub fn same_slice<T: Same>(a: &[T], b: &[T]) -> bool
    ensures { IsTrue result ↔ (a.now ≡ b.now) }
{
    if a.len() != b.len() {
        return false;
    }
    for i in 0..a.len() {
        if !a[i].same(&b[i]) {
            return false;
        }
    }
    true
}

impl Same for u8 {
    fn same(&self, other: &u8) -> bool {
        *self == *other
    }
}

impl Same for i64 {
    fn same(&self, other: &i64) -> bool {
        *self == *other
    }
}

impl<T: Same> Same for List<T> {
    fn same(&self, other: &List<T>) -> bool {
        same_slice(self.as_slice(), other.as_slice())
    }
}

impl<T: Same> Same for Option<T> {
    fn same(&self, other: &Option<T>) -> bool {
        match (self, other) {
            (None, None) => true,
            (Some(a), Some(b)) => a.same(b),
            _ => false,
        }
    }
}

impl Same for Shown {
    fn same(&self, other: &Shown) -> bool {
        match (self, other) {
            (Shown::Column(a), Shown::Column(b)) => *a == *b,
            (Shown::Constant(a), Shown::Constant(b)) => a.same(b),
            _ => false,
        }
    }
}

impl Same for Item {
    fn same(&self, other: &Item) -> bool {
        self.label.same(&other.label) && self.what.same(&other.what)
    }
}

impl Same for Dir {
    fn same(&self, other: &Dir) -> bool {
        self.column == other.column && self.down == other.down
    }
}

impl Same for Value {
    fn same(&self, other: &Value) -> bool {
        match (self, other) {
            (Value::Int(a), Value::Int(b)) => *a == *b,
            (Value::Text(a), Value::Text(b)) => a.same(b),
            _ => false,
        }
    }
}
