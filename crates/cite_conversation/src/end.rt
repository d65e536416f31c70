// How a conversation ends.

/// How a conversation ends.
#[derive(Clone, Copy, Debug, PartialEq, Eq)]
pub enum LinkEnd {
    /// The input ended between two messages, or a message closed it.
    Done,
    /// A message could not be told from what follows it, and was answered.
    Broken,
    /// The input ended inside a message.
    Cut,
    /// 4,294,967,296 bytes were taken, and no message closed.
    TooLong,
    /// The source failed.
    ReadFault,
    /// The sink failed.
    WriteFault,
    /// Want of memory.
    NoMemory,
}
