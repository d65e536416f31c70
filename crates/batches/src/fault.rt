// Why a body spells no batch.
ghost use Rattle.std.specs.Prelude.{◌≡◌};
ghost use Rattle.batches.specs.declared.fault.BatchFault.TheVariants as faults;

use cite_schema::NoMemory;
use std::alloc::AllocError;

/// The first rule that a body breaks. Lines are counted from 1 after the header, columns from 0.
#[derive(Clone, Copy, Debug, PartialEq, Eq, Drop)]
pub enum BatchFault {
    /// There is no record, or the first one is not `op` and then the names of the columns.
    BadHeader,
    /// There is no line.
    EmptyBatch,
    /// There are more than 20,000 lines.
    TooManyLines,
    /// The line has another number of fields than the header.
    BadWidth(u32),
    /// The line's first field is none of `+`, `~` and `-`.
    BadOp(u32),
    /// The field of this column says no value there, or is not empty behind the key of a `-` line; it is the first such
    /// field of the line.
    BadCell { line: u32, column: u16 },
    /// An earlier line names the key of this line.
    KeyTwice(u32),
    /// Want of memory.
    NoMemory,
}

impl From<AllocError> for BatchFault {
    ghost from_gives = { λ _ fault. fault ≡ faults.NoMemory };

    fn from(_: AllocError) -> BatchFault {
        BatchFault::NoMemory
    }
}

impl From<NoMemory> for BatchFault {
    ghost from_gives = { λ _ fault. fault ≡ faults.NoMemory };

    fn from(_: NoMemory) -> BatchFault {
        BatchFault::NoMemory
    }
}
