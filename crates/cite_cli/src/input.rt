// The whole input of a command.
ghost use Rattle.std.specs.Prelude.{◌≡◌, ◌≤◌, length, IfOk, IfErr};
ghost use Rattle.cite_conversation.specs.Streams.{AllTaken};
ghost use Rattle.cite_cli.specs.Streams.{StopsBecause};

use cite_ports::Source;
use std::alloc::Global;

/// The most bytes of an input.
pub const LIMIT: usize = 67_108_864;

/// Why an input was not read to its end.
#[derive(Clone, Copy, Debug, PartialEq, Eq)]
pub enum Stop {
    /// The source failed.
    Failed,
    /// One byte more than the limit was taken.
    TooLong,
    /// Want of memory.
    NoMemory,
}

// The most bytes that are asked for at once.
const PIECE: usize = 4096;

/// The bytes of the source, which is taken to its end. Each turn takes a byte or ends, and the cost is linear in the
/// bytes.
pub fn take_all<S: Source>(alloc: Global, source: &mut S) -> Result<Vec<u8>, Stop>
    ensures all { IfOk result (λ bytes. AllTaken bytes.items (S.left source.old) (S.left source.new)) }
    ensures few { IfOk result (λ bytes. length bytes.items ≤ LIMIT) }
    ensures never_falls { S.faults_of source.old ≤ S.faults_of source.new }
    ensures why { IfErr result (λ stop. StopsBecause LIMIT (S.left source.old) (S.left source.new) (S.faults_of source.old) (S.faults_of source.new) stop) }
{
    let mut taken = Vec::new(alloc);
    let mut buffer = [0u8; PIECE];
    while taken.len() <= LIMIT {
        let room = PIECE.min(LIMIT + 1 - taken.len());
        match source.take(&mut buffer[..room]) {
            Err(_) => return Err(Stop::Failed),
            Ok(0) => return Ok(taken),
            Ok(n) => {
                if taken.extend_from_slice(&buffer[..n]).is_err() {
                    return Err(Stop::NoMemory);
                }
            }
        }
    }
    Err(Stop::TooLong)
}
