//! The outside of the archive: where bytes come from and where they go, and what tells the time.
//!
//! A [`Source`] gives bytes in pieces, and a [`Sink`] takes them in pieces. Each says what is left or what
//! was written as a list of bytes, if it tells its content at all, and each counts its faults. A call
//! answers [`Failed`] only where that count rose, so code that works over any source and any sink cannot
//! blame the outside for a failure of its own.
//!
//! A [`Clock`] gives moments, and never fails. If it tells them, it says as a list which it gave: so a
//! caller can be held to the moments that it may ask for.
//!
//! [`MemorySource`] and [`MemorySink`] lie in memory, tell all of their content, and fail at the calls that
//! they are told to fail at: a caller's answer to a fault is tried on them. [`MemoryClock`] gives the
//! moments that it was made with.
#![tactic(auto)]

mod clocks;
mod failed;
mod given;
mod memory_clock;
mod memory_sink;
mod memory_source;
mod sinks;
mod sources;
#[cfg(test)]
mod tests;

pub use clocks::Clock;
pub use failed::{Failed, NoMemory};
pub use memory_clock::MemoryClock;
pub use memory_sink::MemorySink;
pub use memory_source::MemorySource;
pub use sinks::Sink;
pub use sources::Source;
