//! The records of a CSV text, one at a time, and what their fields say of a table.
//!
//! `records_in` reads a text as RFC 4180 does, with a few liberties that `csv` takes: commas, double quotes with inner
//! ones doubled, records of any width ended by LF, CR or CRLF, empty lines passed over, and one byte order mark in front
//! dropped. `records_of` of `specs/Records` says which records a text has, and each `read_next` takes the first of those
//! that are left. `read_schema` reads the header `name:int` or `name:text` of a table, and `read_cells` the values of a
//! line under columns, by the words of `cite_schema`'s `TableTexts`.
#![tactic(auto)]

mod cells;
mod header;
mod keys;
mod records;

pub use cells::{Cells, read_cells};
pub use header::{read_column, read_schema};
pub use keys::Keys;
pub use records::{field, read_next, records_in};

#[cfg(test)]
mod tests;
