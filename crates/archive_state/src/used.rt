// The numbers that batches have used.
ghost use Rattle.std.specs.Prelude.{◌≡◌, IfOk};
ghost use Rattle.sha2.specs.Sha256.{sha256};
ghost use Rattle.archive_state.specs.Used.{used_by};

use batches::body_digest;
use cite_schema::{BatchAsk, ByteText, NoMemory, Shared};
use shared_pages::Item;
use std::alloc::Global;
use std::cmp::Ordering;

/// A number that a curator's batch has used, with the digest of its body and the version that it made.
#[derive(Drop)]
pub struct UsedNumber {
    /// Who sent the batch.
    pub curator: Shared<ByteText>,
    /// The curator's own number for it.
    pub number: u32,
    /// The SHA-256 of its body.
    pub digest: [u8; 32],
    /// The version that it made.
    pub version: u32,
}

/// By curator, and then by number.
impl Item for UsedNumber {
    ghost use Rattle.archive_state.specs.Used.{used_cmp, used_total};

    ghost cmp = { used_cmp };

    fn compare(&self, other: &UsedNumber) -> Ordering {
        let mine = self.curator.get().bytes();
        let by_curator = mine.cmp(other.curator.get().bytes());
        by_curator.then(self.number.cmp(&other.number))
    }

    fn share(&self) -> Result<UsedNumber, NoMemory> {
        let curator = self.curator.share()?;
        Ok(UsedNumber {
            curator,
            number: self.number,
            digest: self.digest,
            version: self.version,
        })
    }

    ghost total = { used_total };
}

impl UsedNumber {
    /// What a batch uses that makes a version. It goes once through the body.
    pub(crate) fn by(alloc: Global, ask: &BatchAsk, version: u32) -> Result<UsedNumber, NoMemory>
        ensures { IfOk result (λ used. used ≡ used_by ask.now version) }
    {
        let curator = Shared::make(alloc, ask.curator.copy()?)?;
        Ok(UsedNumber {
            curator,
            number: ask.number,
            digest: body_digest(ask.body.as_slice()),
            version,
        })
    }
}
