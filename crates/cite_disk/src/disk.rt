// What the journal asks of a disk.
ghost use Rattle.std.specs.Prelude.{◌≡◌, ◌+◌, ◌<◌, ◌≤◌, ◌^◌, ◌++◌, List, ℕ, length, take, drop, min, OnOk, OnErr, IfOk};
ghost use Rattle.cite_disk.specs.Device.{Only, Follows, Holds, Elapses, RoseBy};

use cite_ports::Failed;

/// A file of bytes, read and written at places, that keeps for certain only what was synced.
///
/// A disk whose type is `honest` tells what it does: what a read gives, and which files a crash may leave, now or at
/// some moment since an earlier one. Between two syncs each written range, and what lies past the synced end, may hold
/// any bytes after a crash, and the length may be any from the synced one to the greatest end that was written; all
/// else stays. Of a disk that is not honest the causes alone are told: a call answers [`Failed`] only where the count
/// of faults rose.
pub trait Disk: Drop {
    /// Whether disks of this type tell what they do.
    ghost honest: { Type 0 };

    /// The bytes that a read gives.
    ghost seen: { Self → List ℕ };

    /// The images that a crash at this moment may leave.
    ghost images: { Self → List ℕ → Type 0 };

    /// The moment, as a number that doesn't fall.
    ghost moment: { Self → ℕ };

    /// The images that a crash at some moment since that one may have left.
    ghost left_since: { Self → ℕ → List ℕ → Type 0 };

    /// How often the disk has failed.
    ghost fault_count: { Self → ℕ };

    /// How many bytes there are. Nothing that is told changes.
    fn length(&mut self) -> Result<u64, Failed>
        ensures length { honest → IfOk result (λ n. n ≡ length (seen self.old)) }
        ensures seen { honest → seen self.new ≡ seen self.old }
        ensures images { honest → (b : List ℕ) → images self.new b → images self.old b }
        ensures time { honest → Elapses (moment self.old) (moment self.new) (left_since self.old) (left_since self.new) (images self.new) }
        ensures later { fault_count self.old ≤ fault_count self.new }
        ensures cause { OnErr result (RoseBy (fault_count self.old) 1 (fault_count self.new)) };

    /// Reads the bytes from a place on into the front of `into`, as many as there are, and answers their number. Nothing
    /// that is told changes.
    fn read(&mut self, at: u64, into: &mut [u8]) -> Result<usize, Failed>
        ensures count { honest → IfOk result (λ n. n ≡ min (length into.old) (length (drop at (seen self.old)))) }
        ensures bytes { honest → IfOk result (λ n. into.new ≡ take n (drop at (seen self.old)) ++ drop n into.old) }
        ensures seen { honest → seen self.new ≡ seen self.old }
        ensures images { honest → (b : List ℕ) → images self.new b → images self.old b }
        ensures time { honest → Elapses (moment self.old) (moment self.new) (left_since self.old) (left_since self.new) (images self.new) }
        ensures later { fault_count self.old ≤ fault_count self.new }
        ensures cause { OnErr result (RoseBy (fault_count self.old) 1 (fault_count self.new)) };

    /// Writes bytes at a place, which is at most the length. After an error none, a part or all of them may be written.
    fn write_at(&mut self, at: u64, bytes: &[u8]) -> Result<(), Failed>
        requires place { honest → at ≤ length (seen self.old) }
        requires fits { at + length bytes.now < 2 ^ 64 }
        ensures written { OnOk result (honest → Holds (seen self.old) at bytes.now (seen self.new)) }
        ensures images { honest → Follows at (length bytes.now) (images self.old) (images self.new) }
        ensures time { honest → Elapses (moment self.old) (moment self.new) (left_since self.old) (left_since self.new) (images self.new) }
        ensures later { fault_count self.old ≤ fault_count self.new }
        ensures cause { OnErr result (RoseBy (fault_count self.old) 1 (fault_count self.new)) };

    /// Makes what is there durable: afterwards a crash leaves just that. After an error a crash may leave what it might
    /// have left before.
    fn sync(&mut self) -> Result<(), Failed>
        ensures durable { OnOk result (honest → Only (seen self.old) (images self.new)) }
        ensures seen { honest → seen self.new ≡ seen self.old }
        ensures images { honest → (b : List ℕ) → images self.new b → images self.old b }
        ensures time { honest → Elapses (moment self.old) (moment self.new) (left_since self.old) (left_since self.new) (images self.new) }
        ensures later { fault_count self.old ≤ fault_count self.new }
        ensures cause { OnErr result (RoseBy (fault_count self.old) 1 (fault_count self.new)) };

    /// How often the disk has failed; the count never falls, and stands still at its last value.
    fn faults(&self) -> u64
        ensures { result ≡ fault_count self.now };

    /// A disk as it reads is one of its images.
    ghost reads: { honest → (d : Self) → images d (seen d) };

    /// This moment is one of those since an earlier one.
    ghost counts_now: { honest → (d : Self) (t : ℕ) (b : List ℕ) → t ≤ moment d → images d b → left_since d t b };

    /// Since this moment there is no other.
    ghost only_now: { honest → (d : Self) (b : List ℕ) → left_since d (moment d) b → images d b };
}
