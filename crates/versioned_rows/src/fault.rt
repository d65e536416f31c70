// Why there is no next version.
ghost use Rattle.std.specs.Prelude.{◌≡◌};

use cite_schema::{NoMemory, Value};

/// The first line of a batch that does not go with the table. Lines are counted from 1.
#[derive(Clone, Copy, Debug, PartialEq, Eq, Drop)]
pub enum ApplyFault {
    /// The line adds a key that the table has.
    KeyTaken(u32),
    /// The line changes or removes a key that the table has not.
    KeyMissing(u32),
    /// Memory was wanting.
    NoMemory,
}

impl From<NoMemory> for ApplyFault {
    ghost use Rattle.versioned_rows.specs.declared.fault.ApplyFault.TheVariants.{NoMemory as no_memory};

    ghost from_gives = { λ _ r. r ≡ no_memory };

    fn from(_: NoMemory) -> ApplyFault {
        ApplyFault::NoMemory
    }
}

/// Why the rows can't be replaced.
#[derive(Debug, Drop)]
pub enum MapFault {
    /// Nothing comes of a row: the lowest version with such a row, and the lowest key of one in it.
    Overflow {
        /// The version.
        version: u32,
        /// The key.
        key: Value,
    },
    /// Memory was wanting.
    NoMemory,
}

impl From<NoMemory> for MapFault {
    ghost use Rattle.versioned_rows.specs.declared.fault.MapFault.TheVariants.{NoMemory as no_memory};

    ghost from_gives = { λ _ r. r ≡ no_memory };

    fn from(_: NoMemory) -> MapFault {
        MapFault::NoMemory
    }
}
