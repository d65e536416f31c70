// Why a result is not laid out.
ghost use Rattle.std.specs.Prelude.{◌≡◌};
ghost use Rattle.result_bytes.specs.declared.fault.LayFault.TheVariants as faults;

use cite_schema::NoMemory;

/// The most bytes that a result may have: 64 MiB.
pub const LIMIT: u64 = 67_108_864;

/// Why a result is not laid out.
#[derive(Clone, Copy, Debug, PartialEq, Eq)]
pub enum LayFault {
    /// The result has more bytes than `LIMIT`: so many.
    TooLarge { bytes: u64 },
    /// Want of memory.
    NoMemory,
}

impl From<NoMemory> for LayFault {
    ghost from_gives = { λ _ e. e ≡ faults.NoMemory };

    fn from(_: NoMemory) -> LayFault {
        LayFault::NoMemory
    }
}
