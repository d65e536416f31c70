// The parts of a query's form.
use crate::list::ByteText;

/// What an item of a result shows.
#[derive(Clone, Debug, Drop)]
pub enum Shown {
    /// The column with this number, counted from 0.
    Column(u16),
    /// The same bytes in each row.
    Constant(ByteText),
}

/// A column of a result: its label, and what it shows.
#[derive(Clone, Debug, Drop)]
pub struct Item {
    pub label: ByteText,
    pub what: Shown,
}

/// An order by the column with this number, counted from 0, descending where `down` is true.
#[derive(Clone, Copy, Debug, PartialEq, Eq, Drop)]
pub struct Dir {
    pub column: u16,
    pub down: bool,
}
