// Calls of any disk, with what a crash at any moment of the call may leave.
ghost use Rattle.std.specs.Prelude.{◌≡◌, ◌+◌, ◌<◌, ◌≤◌, ◌^◌, ◌++◌, length, take, drop, min, OnOk, OnErr, IfOk};
ghost use Rattle.cite_disk.specs.Device.{Only, Follows, Within, TornFrom, Holds, LeavesOnly, Quiet, RoseBy};

use crate::disk::Disk;
use cite_ports::Failed;

/// Writes bytes at a place and syncs, in two disk calls. Whatever the answer, a crash leaves what it might have left
/// before, or that with the write torn.
pub fn write_synced<D: Disk>(disk: &mut D, at: u64, bytes: &[u8]) -> Result<(), Failed>
    requires place { D.honest → at ≤ length (D.seen disk.old) }
    requires fits { at + length bytes.now < 2 ^ 64 }
    ensures durable { OnOk result (D.honest → Only (D.seen disk.new) (D.images disk.new)) }
    ensures written { OnOk result (D.honest → Holds (D.seen disk.old) at bytes.now (D.seen disk.new)) }
    ensures images { D.honest → Follows at (length bytes.now) (D.images disk.old) (D.images disk.new) }
    ensures moments { D.honest → LeavesOnly D.moment D.left_since disk.old disk.new (TornFrom at (length bytes.now) (D.images disk.old)) }
    ensures later { D.fault_count disk.old ≤ D.fault_count disk.new }
    ensures cause { OnErr result (RoseBy (D.fault_count disk.old) 1 (D.fault_count disk.new)) }
{
    disk.write_at(at, bytes)?;
    disk.sync()
}

/// Syncs. Whatever the answer, a crash leaves what it might have left before.
pub fn just_sync<D: Disk>(disk: &mut D) -> Result<(), Failed>
    ensures durable { OnOk result (D.honest → Only (D.seen disk.new) (D.images disk.new)) }
    ensures seen { D.honest → D.seen disk.new ≡ D.seen disk.old }
    ensures images { D.honest → Within (D.images disk.old) (D.images disk.new) }
    ensures moments { D.honest → LeavesOnly D.moment D.left_since disk.old disk.new (D.images disk.old) }
    ensures later { D.fault_count disk.old ≤ D.fault_count disk.new }
    ensures cause { OnErr result (RoseBy (D.fault_count disk.old) 1 (D.fault_count disk.new)) }
{
    disk.sync()
}

/// Reads the length. Nothing changes, and a crash leaves what it might have left before.
pub fn read_length<D: Disk>(disk: &mut D) -> Result<u64, Failed>
    ensures length { IfOk result (λ n. D.honest → n ≡ length (D.seen disk.old)) }
    ensures quiet { D.honest → Quiet D.seen D.images D.moment D.left_since disk.old disk.new }
    ensures later { D.fault_count disk.old ≤ D.fault_count disk.new }
    ensures cause { OnErr result (RoseBy (D.fault_count disk.old) 1 (D.fault_count disk.new)) }
{
    disk.length()
}

/// Reads bytes from a place on. Nothing changes, and a crash leaves what it might have left before.
pub fn read_at<D: Disk>(disk: &mut D, at: u64, into: &mut [u8]) -> Result<usize, Failed>
    ensures count { IfOk result (λ n. D.honest → n ≡ min (length into.old) (length (drop at (D.seen disk.old)))) }
    ensures bytes { IfOk result (λ n. D.honest → into.new ≡ take n (drop at (D.seen disk.old)) ++ drop n into.old) }
    ensures quiet { D.honest → Quiet D.seen D.images D.moment D.left_since disk.old disk.new }
    ensures later { D.fault_count disk.old ≤ D.fault_count disk.new }
    ensures cause { OnErr result (RoseBy (D.fault_count disk.old) 1 (D.fault_count disk.new)) }
{
    disk.read(at, into)
}
