//! The program: `cite_prog FILE WORD..` runs the command of the words over the archive in FILE, standard input, standard
//! output and the system's clock, and ends with its status. The file is opened by a command that asks for it, and made
//! where it is missing. Without FILE the status is 2. Nothing is written to standard error.
//!
//! `answer` is the program over any source, sink, disk and clock, and `Started::of` reads its words; `main` hands them
//! what the system has. `FileDisk` and `SystemClock` tell nothing of what they give: with the streams of the system they
//! are the trusted edge.
#![tactic(auto)]

mod clock;
mod program;
mod streams;
#[cfg(test)]
mod tests;
mod words;

use cite_disk::FileDisk;
use clock::SystemClock;
use program::answer;
use std::process::ExitCode;
use std::{env, io};
use streams::{Input, Output};
use words::Started;

fn main(rt: HostRuntime) -> ExitCode {
    let alloc = rt.alloc();
    let started = Started::of(alloc, env::args(&rt));
    let mut source = Input::new(rt.reader());
    let mut sink = Output::new(io::writer(&rt));
    let mut disk = FileDisk::make(rt, started.file);
    let mut clock = SystemClock::new(rt);
    let words = &started.words;
    let status = answer(
        &rt,
        alloc,
        words,
        &mut source,
        &mut sink,
        &mut disk,
        &mut clock,
    );
    ExitCode::from(status)
}
