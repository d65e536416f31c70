//! The desk, where an archive's calls are made, over a journal on a disk.
//!
//! A desk holds what is kept of an archive (`archive_state`) and the journal that its disk carries. Contracts say that its
//! answers are those of the archive of whole past tables (`archive_model`), and that a crash at any moment leaves a file of
//! the history before a call, or of it and the one new entry (`specs/Keeping`): nothing that was acknowledged is lost.
//! [`Desk::resume`] opens such a file, and runs every entry anew.
#![tactic(auto)]

mod desk;
mod laws;
mod opening;
#[cfg(test)]
mod tests;
mod writing;

pub use archive_state::{Follower, LookFault, Snapshot};
pub use desk::Desk;
pub use laws::{a_refused_file_stands_for_none, one_file_one_history};
pub use opening::ResumeFault;
