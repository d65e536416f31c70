//! Landing pages: what a browser shows of a citation and of the data set (RDA R11).
//!
//! `page` is the page of a citation: its citation text, what its bytes are verified by, its query in normal form, and the
//! paths of its data and its metadata. `dataset_page` is that of the data set. `specs/Pages` has both, byte for byte; each
//! call gives exactly these bytes, or finds no memory. Every text that is put into a page is escaped, whatever its bytes
//! are, so no text can begin or end an element or an attribute's value (`no_markup_escapes`).
#![tactic(auto)]

mod laws;
mod markup;
mod pages;

pub use laws::no_markup_escapes;
pub use pages::{dataset_page, page};

#[cfg(test)]
mod tests;
