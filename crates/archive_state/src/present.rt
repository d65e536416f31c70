// What is kept of an archive.
ghost use Rattle.std.specs.Prelude.{◌≡◌};
ghost use Rattle.std.specs.Arc.{arc_value};

use crate::snapshot::Snapshot;
use crate::used::UsedNumber;
use shared_pages::Sequence;
use std::sync::Arc;

/// What is kept of an archive: what readers see, the numbers that batches have used, the moment of the last entry, how
/// many entries there are, and how many bytes the journal has. It never changes: a call plans the next one.
#[derive(Drop)]
pub struct Present {
    pub(crate) snapshot: Arc<Snapshot>,
    pub(crate) used: Sequence<UsedNumber>,
    pub(crate) stamp: u64,
    pub(crate) entries: u64,
    pub(crate) journal: u64,
}

impl Present {
    /// What readers see. It takes no memory.
    pub fn snapshot(&self) -> &Arc<Snapshot>
        ensures { arc_value result.now ≡ arc_value self.now.snapshot }
    {
        &self.snapshot
    }

    /// How many entries the history has. It takes no memory.
    pub fn entries(&self) -> u64
        ensures { result ≡ self.now.entries }
    {
        self.entries
    }

    // What readers see, without its handle.
    pub(crate) fn seen(&self) -> &Snapshot
        ensures { result.now ≡ arc_value self.now.snapshot }
    {
        &self.snapshot
    }
}
