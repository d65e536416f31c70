// What takes bytes.
ghost use Rattle.std.specs.Prelude.{◌≡◌, ◌<◌, ◌≤◌, ℕ, List, Option, length, take, IfOk, OnErr};
ghost use Rattle.std.specs.Io.KnownBytes.{Keeps};
ghost use Rattle.cite_ports.specs.Ports.{Holds, Rose};

use crate::failed::Failed;

/// Takes bytes in pieces.
///
/// A sink that writes outside the program tells nothing of its content. What is said of the content then
/// says nothing, and what is said of the count of faults holds all the same.
pub trait Sink {
    /// The bytes that were written, where the sink tells them.
    ghost written: { Self → Option (List ℕ) };

    /// How many faults the sink has counted.
    ghost faults_of: { Self → ℕ };

    /// Puts the first bytes of `piece` behind what was written, and says how many they are: at least one,
    /// and maybe not all.
    ///
    /// # Errors
    ///
    /// `Failed` where the sink counted a fault in this call, or its count of faults stands at the last
    /// number. A sink that would take no byte fails so too. What was written stays as it was, so the call
    /// may be made again.
    fn put(&mut self, piece: &[u8]) -> Result<usize, Failed>
        requires { 0 < length piece.now }
        ensures some { IfOk result (λ n. 0 < n) }
        ensures room { IfOk result (λ n. n ≤ length piece.now) }
        ensures puts { IfOk result (λ n. Holds (take n piece.now) (written self.old) (written self.new)) }
        ensures kept { OnErr result (Keeps (written self.old) (written self.new)) }
        ensures never_falls { faults_of self.old ≤ faults_of self.new }
        ensures cause { OnErr result (Rose (faults_of self.old) (faults_of self.new)) };

    /// How many faults the sink has counted. The count never falls, and stands still at the last `u64`.
    fn faults(&self) -> u64
        ensures { result ≡ faults_of self.now };
}
