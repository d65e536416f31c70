// What a call on the outside answers where it can't do its work.
use std::alloc::AllocError;

/// The outside failed: a source, a sink or the like counted a fault and did nothing else.
#[derive(Clone, Copy, Debug, PartialEq, Eq)]
pub struct Failed;

/// No memory was left for the call.
#[derive(Clone, Copy, Debug, PartialEq, Eq)]
pub struct NoMemory;

impl From<AllocError> for NoMemory {
    fn from(_error: AllocError) -> NoMemory {
        NoMemory
    }
}
