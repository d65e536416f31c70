//! The store of citations.
//!
//! A `Store` is seen as the list of its citations in the order of their numbers, from 1 on, and never changes: with one
//! citation more it is another store, which shares the citations of the first. Beside them it keeps an index by two
//! digests, of the printed form and of the bytes, so that the citations of one form that gave the same bytes are found
//! without a look at the others. Forms are compared as data: what is found never rests on the digests.
//!
//! `get` and `count` take no memory. What a number stands for, which citations are candidates, and what citations are
//! with other forms, stands in `specs/Citations`.
#![tactic(auto)]

mod carrying;
mod citation;
mod copies;
mod finding;
mod kept;
mod numbered;
mod picking;
mod room;
mod store;
#[cfg(test)]
mod tests;

pub use citation::Citation;
pub use copies::{copy_meta, copy_query};
pub use finding::form_digest;
pub use store::Store;
