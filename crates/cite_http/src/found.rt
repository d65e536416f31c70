// What stands at the front of a text.
use crate::status::Status;
use httparse::spans::Span;

/// How far a text was searched for a message in vain: no head ends within `searched` bytes, and no message is whole
/// with fewer than `wanted`.
#[derive(Clone, Copy, Debug, Drop)]
pub struct Progress {
    pub searched: usize,
    pub wanted: usize,
}

/// Nothing was searched.
pub const UNSEARCHED: Progress = Progress {
    searched: 0,
    wanted: 0,
};

/// A whole message, by offsets into its text: its method and its target, whether it closes, where its body begins, and
/// where that ends.
#[derive(Clone, Copy, Drop)]
pub struct Frame {
    pub method: Span,
    pub target: Span,
    pub closing: bool,
    pub body: usize,
    pub end: usize,
}

/// What stands at the front of a text: no whole message yet, a refused message of so many bytes, or a message.
#[derive(Clone, Copy, Drop)]
pub enum Found {
    Unfinished(Progress),
    Refused(Status, usize),
    Whole(Frame),
}
