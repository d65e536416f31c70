//! Disks: files of bytes that keep for certain only what was synced.
//!
//! [`Disk`] is what a journal asks of a file, with a written meaning of what a crash may leave at each moment. A caller
//! that works over any disk proves its promise about crashes from the trait alone: `write_synced`, `just_sync`,
//! `read_at` and `read_length` are the trait's calls with what a crash *during* the call may leave, and the lemmas of
//! `proofs/Moments` put such calls one behind another.
//!
//! [`MemoryDisk`] lies in memory, is honest, fails at the calls that it is told to fail at, and can be made to crash.
//! [`FileDisk`] is a file of the system. It tells nothing of its content and is trusted: that a real file keeps what was
//! synced is the promise of the operating system.
#![tactic(auto)]

mod calls;
mod disk;
mod epoch;
mod file;
mod memory;
mod plan;
#[cfg(test)]
mod tests;

pub use calls::{just_sync, read_at, read_length, write_synced};
pub use cite_ports::{Failed, NoMemory};
pub use disk::Disk;
pub use file::FileDisk;
pub use memory::{Choice, MemoryDisk};
