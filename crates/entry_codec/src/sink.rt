// Where bytes are printed to.
ghost use Rattle.std.specs.Prelude.{◌≡◌, ◌+◌, ◌-◌, ◌^◌, ◌++◌, List, ℕ, OnOk, IfOk, length, min};

use std::alloc::{AllocError, Global};
use std::convert::Infallible;
use std::marker::Model;

/// What takes bytes one after the other: a printer writes to one, so that one printer prints and counts.
pub trait Sink {
    /// Why bytes were not taken.
    type Fault;

    /// The sink after more bytes.
    ghost after: { Self → List ℕ → Self };

    /// Takes bytes.
    fn put(&mut self, bytes: &[u8]) -> Result<(), Self::Fault>
        ensures { OnOk result (self.new ≡ after self.old bytes.now) };

    /// Bytes in two pieces are the bytes in one.
    ghost joins: { (s : Self) (x y : List ℕ) → after (after s x) y ≡ after s (x ++ y) };
}

/// A sink that keeps the bytes.
#[derive(Drop)]
pub struct Page {
    bytes: Vec<u8>,
}

impl Model for Page {
    ghost use Rattle.std.specs.Prelude.{List, ℕ};

    ghost Value = { List ℕ };

    ghost view = { λ p. p.bytes.items };
}

impl Page {
    /// An empty page with room for so many bytes.
    pub fn with_room(alloc: Global, count: u64) -> Result<Page, AllocError>
        ensures { IfOk result (λ page. page ≡ []) }
    {
        let bytes = Vec::with_capacity(alloc, count as usize)?;
        Ok(Page { bytes })
    }

    /// What the page keeps.
    pub fn into_bytes(self) -> Vec<u8>
        ensures { result.items ≡ self }
    {
        let Page { bytes } = self;
        bytes
    }
}

ghost use Rattle.std.specs.Prelude.{[]};
ghost use Rattle.std.proofs.Common.{append_assoc};

impl Sink for Page {
    type Fault = AllocError;

    ghost after = { λ s x. s ++ x };

    fn put(&mut self, bytes: &[u8]) -> Result<(), AllocError> {
        self.bytes.extend_from_slice(bytes)?;
        Ok(())
    }

    ghost joins = { λ s x y. append_assoc s x y };
}

/// A sink that counts the bytes, up to the greatest number that it can hold.
#[derive(Clone, Copy, Drop)]
pub struct Count(pub u64);

ghost use Rattle.entry_codec.specs.Counting.{counted, counted_joins};

impl Sink for Count {
    type Fault = Infallible;

    ghost after = { counted };

    fn put(&mut self, bytes: &[u8]) -> Result<(), Infallible> {
        self.0 = self.0.saturating_add(bytes.len() as u64);
        Ok(())
    }

    ghost joins = { counted_joins };
}
