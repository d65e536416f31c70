// Reading off the front of bytes.
ghost use Rattle.std.specs.Prelude.{◌≡◌, ◌==◌, List, length};
ghost use Rattle.entry_codec.specs.declared.cursor.Stop.TheVariants.{Memory};

use std::alloc::{AllocError, AllocFailed, Global};
use std::marker::Model;

/// Why nothing was read: the bytes do not begin with a spelling, or memory ran out.
#[derive(Clone, Copy, Debug, PartialEq, Eq, Drop)]
pub enum Stop {
    Nothing,
    Memory,
}

impl From<AllocError> for Stop {
    ghost from_gives = { λ _ e. e ≡ Memory };

    fn from(_e: AllocError) -> Stop {
        Stop::Memory
    }
}

impl<T: Drop> From<AllocFailed<T>> for Stop {
    ghost from_gives = { λ _ e. e ≡ Memory };

    fn from(_e: AllocFailed<T>) -> Stop {
        Stop::Memory
    }
}

/// The bytes that are left to read, and where what is read is kept.
#[derive(Drop)]
pub struct Cursor<'a> {
    alloc: Global,
    rest: &'a [u8],
}

impl<'a> Model for Cursor<'a> {
    ghost use Rattle.std.specs.Prelude.{List, ℕ};

    ghost Value = { List ℕ };

    ghost view = { λ c. c.rest.now };
}

impl<'a> Cursor<'a> {
    /// At the front of these bytes; what is read is kept in memory of `alloc`.
    pub fn new(alloc: Global, bytes: &'a [u8]) -> Cursor<'a>
        ensures { result ≡ bytes.now }
    {
        Cursor { alloc, rest: bytes }
    }

    /// Where memory is taken.
    pub fn alloc(&self) -> Global {
        self.alloc
    }
}

ghost use Rattle.entry_codec.specs.Codecs.{Gives, byte_at};

impl Cursor<'_> {
    /// The next byte.
    pub fn byte(&mut self) -> Result<u8, Stop>
        ensures { Gives result self.new (byte_at self.old) }
    {
        match self.rest {
            [] => Err(Stop::Nothing),
            [first, rest @ ..] => {
                self.rest = rest;
                Ok(*first)
            }
        }
    }
}

ghost use Rattle.entry_codec.specs.Codecs.{raw_at};

use cite_schema::ByteText;

impl Cursor<'_> {
    /// The next so many bytes.
    pub fn take(&mut self, length: usize) -> Result<ByteText, Stop>
        ensures { Gives result self.new (raw_at length self.old) }
    {
        if self.rest.len() < length {
            return Err(Stop::Nothing);
        }
        let (taken, rest) = self.rest.split_at(length);
        self.rest = rest;
        Ok(ByteText::from_slice(self.alloc, taken)?)
    }

    /// The next 32 bytes.
    pub fn digest(&mut self) -> Result<[u8; 32], Stop>
        ensures { Gives result self.new (raw_at 32 self.old) }
    {
        if self.rest.len() < 32 {
            return Err(Stop::Nothing);
        }
        let (taken, rest) = self.rest.split_at(32);
        self.rest = rest;
        let mut digest = [0; 32];
        digest.copy_from_slice(taken);
        Ok(digest)
    }

    /// Whether no byte is left.
    pub fn is_empty(&self) -> bool
        ensures { result ≡ (length self.now == 0) }
    {
        self.rest.is_empty()
    }
}
