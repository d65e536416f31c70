//! An ordered sequence of items in immutable pages that are shared.
//!
//! A `Sequence` is seen as the list of its items, in strictly rising order, and never changes. An edit makes another
//! sequence, which shares with the first one each page that no edit falls on; so any number of versions can be held at
//! once, and a version costs what was changed in it. Items stand in pages, pages in pages, and those in pages again, so
//! an edit of one item copies some hundred handles, however many items there are.
//!
//! What an edit does is said of plain lists (`specs/Edits`), and no clause of a public call speaks of pages.
#![tactic(auto)]

mod edit;
mod item;
mod level;
mod node;
mod page;
mod search;
mod sequence;
#[cfg(test)]
mod tests;
mod walk;

pub use edit::{Edit, are_rising};
pub use item::Item;
pub use sequence::Sequence;
pub use walk::Items;
