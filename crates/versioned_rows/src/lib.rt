//! The rows of a table in all its versions.
//!
//! `Rows` keeps each row once, with the version that brought it and the version that ended it. Contracts see the list
//! of kept rows in the order of their keys and then of the versions that brought them, so the table of a version is
//! what of them is valid in it. The kept rows stand in shared pages: a version costs what its lines touch, and each
//! value stays as it is for as long as it is held.
//!
//! What lines do to a table stands in `specs/Changes`, line after line; the kept rows and the tables of versions in
//! `specs/Histories`; what one version is after another in `specs/Nexts`. No clause of a public call speaks of pages.
#![tactic(auto)]

mod edits;
mod fault;
mod laws;
mod mapping;
mod order;
mod rows;
#[cfg(test)]
mod tests;
mod weight;

pub use fault::{ApplyFault, MapFault};
pub use laws::lines_make_tables;
pub use rows::{KeptRow, Rows};
