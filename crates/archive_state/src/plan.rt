// What is planned for a call.
use crate::present::Present;
use cite_schema::ByteText;

/// A new entry that is planned: the reply, the entry's payload, and the present state after it. All memory for it has
/// been taken.
#[derive(Drop)]
pub struct Made<R> {
    /// What the call answers once the entry is written.
    pub reply: R,
    /// The payload of the entry.
    pub payload: ByteText,
    /// What is kept after the entry.
    pub next: Present,
}

/// What is planned for a call that is not refused.
#[derive(Drop)]
pub enum Planned<R> {
    /// It was done before, and nothing is to be written.
    Repeat(R),
    /// An entry is to be written.
    New(Made<R>),
}
