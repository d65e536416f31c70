// The limits of an archive.
ghost use Rattle.std.specs.Prelude.{◌≡◌, ◌∷◌, []};
ghost use Rattle.archive_model.specs.Limits.{KeptRows, Versions, Citations, Weight, JournalBytes};
ghost use Rattle.archive_state.specs.Limiting.{amount, passed};

/// The most rows that are kept.
pub const KEPT_ROWS: u64 = 1_000_000;
/// The most versions.
pub const VERSIONS: u32 = 200_000;
/// The most citations.
pub const CITATIONS: u32 = 100_000;
/// The most that the kept rows weigh: 16 for each cell, and the length of each text.
pub const WEIGHT: u64 = 1_073_741_824;
/// The most bytes of a journal.
pub const JOURNAL: u64 = 1_073_741_824;
/// The most bytes of an entry's payload.
pub const PAYLOAD: u64 = 16_777_216;
/// The first moment that is no stamp, in seconds since 1970: the year 10000.
pub const CLOCK_END: u64 = 253_402_300_800;

/// The number of the first limit that an archive would pass with one version more, where so much is counted after it.
pub fn passed_by_version(versions: u32, kept: u64, weight: u64, journal: u64) -> Option<u8>
    ensures { result ≡ passed (amount versions kept weight 0 journal) (Versions ∷ KeptRows ∷ Weight ∷ JournalBytes ∷ []) }
{
    if versions > VERSIONS {
        Some(2)
    } else if kept > KEPT_ROWS {
        Some(1)
    } else if weight > WEIGHT {
        Some(4)
    } else if journal > JOURNAL {
        Some(5)
    } else {
        None
    }
}

/// The number of the first limit that an archive would pass with its rows carried, where so much is counted after it.
pub fn passed_by_migration(weight: u64, journal: u64) -> Option<u8>
    ensures { result ≡ passed (amount 0 0 weight 0 journal) (Weight ∷ JournalBytes ∷ []) }
{
    if weight > WEIGHT {
        Some(4)
    } else if journal > JOURNAL {
        Some(5)
    } else {
        None
    }
}

/// The number of the first limit that an archive would pass with one citation more, where so much is counted after it.
pub fn passed_by_citation(citations: u32, journal: u64) -> Option<u8>
    ensures { result ≡ passed (amount 0 0 0 citations journal) (Citations ∷ JournalBytes ∷ []) }
{
    if citations > CITATIONS {
        Some(3)
    } else if journal > JOURNAL {
        Some(5)
    } else {
        None
    }
}
