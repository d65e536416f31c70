// What gives bytes.
ghost use Rattle.std.specs.Prelude.{◌≡◌, ◌<◌, ◌≤◌, ℕ, List, Option, length, IfOk, OnErr};
ghost use Rattle.std.specs.Io.KnownBytes.{Keeps};
ghost use Rattle.cite_ports.specs.Ports.{Gives, EndsExactly, Rose};

use crate::failed::Failed;

/// Gives bytes in pieces, until its end.
///
/// A source that reads from outside the program tells nothing of its content. What is said of the content
/// then says nothing, and what is said of the count of faults holds all the same.
pub trait Source {
    /// The bytes that are left, where the source tells them.
    ghost left: { Self → Option (List ℕ) };

    /// How many faults the source has counted.
    ghost faults_of: { Self → ℕ };

    /// Takes the next bytes into the front of `into`, and says how many they are. What stands behind
    /// them in `into` is left open. 0 is the end, and comes nowhere else.
    ///
    /// # Errors
    ///
    /// `Failed` where the source counted a fault in this call, or its count of faults stands at the last
    /// number. What is left stays as it was, so the call may be made again.
    fn take(&mut self, into: &mut [u8]) -> Result<usize, Failed>
        requires { 0 < length into.old }
        ensures room { IfOk result (λ n. n ≤ length into.new) }
        ensures gives { IfOk result (λ n. Gives n into.new (left self.old) (left self.new)) }
        ensures end { IfOk result (λ n. EndsExactly n (left self.old)) }
        ensures kept { OnErr result (Keeps (left self.old) (left self.new)) }
        ensures never_falls { faults_of self.old ≤ faults_of self.new }
        ensures cause { OnErr result (Rose (faults_of self.old) (faults_of self.new)) };

    /// How many faults the source has counted. The count never falls, and stands still at the last `u64`.
    fn faults(&self) -> u64
        ensures { result ≡ faults_of self.now };
}
