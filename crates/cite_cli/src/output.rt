// The output of a command.
ghost use Rattle.std.specs.Prelude.{◌≡◌, MatchResult};
ghost use Rattle.cite_cli.specs.Parts.{Delivers};
ghost use Rattle.cite_cli.specs.declared.output.Due.TheVariants as dues;

use crate::ending::Ending;
use cite_conversation::put_all;
use cite_ports::Sink;
use cite_schema::{ByteText, NoMemory};

/// What a command has to write and how it then ends, or why there is nothing.
#[derive(Debug, Drop)]
pub enum Due {
    /// These bytes, with the ending.
    Writes(Ending, ByteText),
    /// The disk failed.
    DiskFault,
    /// Want of memory.
    NoMemory,
}

impl Due {
    /// A text that is due with an ending, if there was memory for it.
    pub fn of(ending: Ending, text: Result<ByteText, NoMemory>) -> Due
        ensures { MatchResult text (λ bytes. result ≡ dues.Writes ending bytes) (λ _. result ≡ dues.NoMemory) }
    {
        match text {
            Ok(bytes) => Due::Writes(ending, bytes),
            Err(NoMemory) => Due::NoMemory,
        }
    }

    /// Puts what is due into the sink, and answers how the command ends.
    pub fn deliver<K: Sink>(&self, sink: &mut K) -> Ending
        ensures { Delivers self.now (K.written sink.old) (K.written sink.new) (K.faults_of sink.old) (K.faults_of sink.new) result }
    {
        match self {
            Due::Writes(ending, bytes) => match put_all(sink, bytes.as_slice()) {
                Ok(()) => *ending,
                Err(_) => Ending::WriteFault,
            },
            Due::DiskFault => Ending::DiskFault,
            Due::NoMemory => Ending::NoMemory,
        }
    }
}
