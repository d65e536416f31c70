//! A conversation with an archive: the messages of a source are answered one after the other, and the responses put into a
//! sink.
//!
//! [`converse`] tells what a conversation came to, by its end, of each source, sink, disk and clock that tell their content:
//! which bytes were taken and which were written, how each message went, which moments it took of the clock, and for which
//! history the disk stands afterwards. A response that is cut is a front of the one that was due, and the messages before it
//! were answered whole. Where memory is wanting nothing is told of what was written.
#![tactic(auto)]

mod answers;
mod conversing;
mod end;
mod laws;
mod output;
mod turn;

pub use conversing::converse;
pub use end::LinkEnd;
pub use laws::answered_messages_come_first;
pub use output::put_all;

#[cfg(test)]
mod tests;
