//! The bodies of batches: CSV texts in which each line has an operation in front of what would be a line of a table.
//!
//! `read_batch` reads a body under a schema. Its lines, or the first rule that it breaks, are `lines_of` of
//! `specs/Bodies`, over the records that csv reads. Two laws say of `lines_of` when it tells which fault
//! (`the_first_broken_line_is_told`), and when it tells lines (`batches_break_no_rule`). `body_digest` tells bodies apart,
//! and `curator_ok` says who may send one.
#![tactic(auto)]

mod body;
mod curator;
mod digest;
mod fault;
mod header;
mod keys;
mod laws;
mod line;
mod reading;

pub use body::read_batch;
pub use curator::curator_ok;
pub use digest::body_digest;
pub use fault::BatchFault;
pub use laws::{batches_break_no_rule, the_first_broken_line_is_told};

#[cfg(test)]
mod tests;
