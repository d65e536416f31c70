// The moments that a clock gave, which only clauses read: no memory can hold all that a clock may give.
ghost use Rattle.std.specs.Prelude.{◌≡◌, List, ℕ, [], ◌∷◌, ◌++◌};
ghost use Rattle.std.specs.Borrow.{ftrue};

use std::marker::Model;

// A list of moments. It has no bytes.
#[derive(Drop)]
pub(crate) struct Given {
    pub ghost moments: { List ℕ },
}

impl Model for Given {
    ghost also_owns = { λ _. ftrue };
}

// It owns nothing.
unsafe impl Send for Given {}

impl Given {
    // No moment.
    pub(crate) fn nothing() -> Given
        ensures { result.moments ≡ [] }
    {
        Given {}
    }

    // These moments, and then this one.
    pub(crate) fn then(&self, _moment: &u64) -> Given
        ensures { result.moments ≡ self.now.moments ++ _moment.now ∷ [] }
    {
        Given {}
    }
}
