//! The answer to one message of HTTP: what is asked for is read of a snapshot, or done by a desk, and told in a reply.
//!
//! `specs/Messages` has what a message does to the archive (`One`), by the words of `archive_model` for what changes, and by
//! `specs/Reads` for what is read. [`answer`] does it, over the desk of an archive; [`read`] is its part that needs no desk,
//! over any snapshot. A reply may differ from `One` in two ways alone (`specs/Fates`): where the disk failed under a new
//! entry it tells so, and where memory was wanting likewise; both leave the archive as it was.
#![tactic(auto)]

mod answering;
mod bodies;
mod reading;
mod replies;
mod words;

pub use answering::answer;
pub use reading::read;

#[cfg(test)]
mod tests;
