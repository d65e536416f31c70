// What tells the time.
ghost use Rattle.std.specs.Prelude.{ℕ, List, Option};
ghost use Rattle.cite_ports.specs.Ports.{Shows};

/// Tells the time.
///
/// A clock that reads the time outside the program tells nothing of the moments that it gave. What is said
/// of them then says nothing.
pub trait Clock {
    /// The moments that were given so far, the first one first, where the clock tells them.
    ghost given: { Self → Option (List ℕ) };

    /// The present moment, in whole seconds since 1970-01-01T00:00:00Z. It never fails. A clock may be set
    /// back, so a moment may be less than the one before it.
    fn now(&mut self) -> u64
        ensures { Shows result (given self.old) (given self.new) };
}
