//! The program's commands, over a source, a sink, a disk and a clock whose content and faults a contract can name.
//!
//! `run` reads the words and does what they say: `select` takes the input, reads the table of its lines, and writes the
//! result of the query that the words ask; `init` founds an archive on the disk; `verify` opens the disk's archive and
//! tells what each of its citations resolves to; `session` opens it and answers messages of HTTP. Its one clause tells, for
//! each status, what was taken, asked for and written, what the disk holds, and why: the definitions stand in `specs/`, from
//! `Run` down to `Streams`.
#![tactic(auto)]

mod asking;
mod bounds;
mod command;
mod ending;
mod header;
mod init;
mod input;
mod laws;
mod lines;
mod opening;
mod output;
mod refusal;
mod rows;
mod select;
mod session;
mod verify;
mod words;

pub use command::run;
pub use laws::{a_run_without_a_fault_is_done, one_output_is_due, the_first_broken_line_is_told};

#[cfg(test)]
mod tests;
