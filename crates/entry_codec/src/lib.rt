//! The entries of an archive's history, and the bytes that a journal keeps of them.
//!
//! `payload` of `specs/Payloads` says the bytes of each entry; `specs/Spellable` says which entries have some. Printing
//! gives them, reading gives the entry back exactly, and no payload is the front of another
//! ([`payloads_tell_entries_apart`]), so a history can be read off its bytes in one way alone.
//!
//! Each part is a small codec (`specs/Codecs`): how values are spelled, which have a spelling, how one is read off the
//! front of a text, and the two laws that make these fit. Larger codecs are made of smaller ones (`specs/Grammar`), and
//! the code follows them part by part (`Spelled`).
#![tactic(auto)]

mod codec;
mod condition;
mod cursor;
mod entries;
mod entry;
mod lists;
mod parts;
mod sink;
mod spelled;
#[cfg(test)]
mod tests;

pub use codec::{entry_length, known_entry, payloads_tell_entries_apart, print_entry, read_entry};
pub use entry::{BatchEntry, CiteEntry, Entry, FoundEntry, MigrateEntry};
