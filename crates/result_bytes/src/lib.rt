//! The bytes of a result: a line of labels and a line for each row, every field in quotes.
//!
//! `lay_out` makes them. They are `laid_out items rows` of `cite_schema`'s `Layout`, byte for byte, and at most
//! `LIMIT`; where they would be more, the refusal tells how many, and comes before any memory is taken. `fingerprint` is
//! the SHA-256 digest by which a result is verified later, and `digest_text` prints it.
#![tactic(auto)]

mod digest;
mod fault;
mod field;
mod layout;
mod size;
#[cfg(test)]
mod tests;

pub use digest::{digest_text, fingerprint};
pub use fault::{LIMIT, LayFault};
pub use layout::lay_out;
