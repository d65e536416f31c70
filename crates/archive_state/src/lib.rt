//! What is kept of an archive: what readers see of it, how it plans the next entry, and how it follows a history that is
//! written already.
//!
//! What is promised stands in `archive_model`, over whole past tables. What is kept is much less: the rows of all
//! versions once each, the citations without the bytes of their results, the numbers that batches have used. Contracts
//! say that what is kept stands for a legal history (`specs/Standing`), and that a planned answer is that of the
//! archive of that history (`specs/Planning`).
#![tactic(auto)]

mod batching;
mod citing;
mod executing;
mod follower;
mod founding;
mod limits;
mod migrating;
mod next;
mod plan;
mod present;
mod resolving;
mod snapshot;
mod used;

pub use follower::Follower;
pub use limits::{
    CITATIONS, CLOCK_END, JOURNAL, KEPT_ROWS, PAYLOAD, VERSIONS, WEIGHT, passed_by_citation,
    passed_by_migration, passed_by_version,
};
pub use plan::{Made, Planned};
pub use present::Present;
pub use snapshot::{LookFault, Snapshot};
pub use used::UsedNumber;
