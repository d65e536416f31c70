//! The journal of an archive: payloads on a disk, one behind another, of which no crash loses one that was acknowledged.
//!
//! A record is a gate, the length of a payload, the payload and its SHA-256 (FIPS 180-4). Its gate is opened only after
//! all else of it was synced, so at each moment a crash leaves a file of the payloads before a call, or of these and the
//! new one (`Between` of `specs/Records`). [`Journal`] writes, [`Walk`] reads, and what a payload says is none of their
//! business. That a file stands for one list of payloads at most is a law, [`one_file_one_list`].
#![tactic(auto)]

mod journal;
mod laws;
#[cfg(test)]
mod tests;
mod walk;

pub use journal::{Journal, JournalFault, Stage};
pub use laws::one_file_one_list;
pub use walk::Walk;
