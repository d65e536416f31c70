// What an identifier names.

/// What an identifier names.
#[derive(Clone, Copy, Debug, PartialEq, Eq)]
pub enum Named {
    /// The data set as a whole.
    Superset,
    /// The citation of this number, counted from 1.
    Subset(u32),
}
