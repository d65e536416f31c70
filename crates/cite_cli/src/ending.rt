// How a run ends.
ghost use Rattle.std.specs.Prelude.{◌≡◌};
ghost use Rattle.cite_cli.specs.Run.{status_of};

/// How a run ends.
#[derive(Clone, Copy, Debug, PartialEq, Eq)]
pub enum Ending {
    /// All is written.
    Done,
    /// The words have no form.
    Usage,
    /// The source failed.
    ReadFault,
    /// The sink failed.
    WriteFault,
    /// The disk failed.
    DiskFault,
    /// The disk has no archive that can be opened; the line names the place.
    NotArchive,
    /// The disk holds something already.
    Occupied,
    /// Want of memory.
    NoMemory,
    /// The input is longer than 67,108,864 bytes, or that of a session has 4,294,967,296 bytes and no message of it closes.
    TooLong,
    /// The input, the words or the moment break a rule; the line names it.
    Refused,
    /// The input of a session ends inside a message.
    Cut,
    /// A message of a session could not be told from what follows it; that is answered.
    Broken,
}

/// The status that tells an ending.
pub fn status(ending: Ending) -> u8
    ensures { result ≡ status_of ending }
{
    match ending {
        Ending::Done => 0,
        Ending::Usage => 2,
        Ending::ReadFault => 3,
        Ending::WriteFault => 4,
        Ending::DiskFault => 5,
        Ending::NotArchive => 6,
        Ending::Occupied => 7,
        Ending::NoMemory => 8,
        Ending::TooLong => 9,
        Ending::Refused => 10,
        Ending::Cut => 11,
        Ending::Broken => 12,
    }
}
