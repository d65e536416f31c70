// A source in two pieces.
ghost use Rattle.std.specs.Prelude.{◌≡◌, ◌<◌, ◌≤◌, length, None, IfOk, IsOk};
ghost use Rattle.cite_ports.specs.Ports.{Gives, EndsExactly};

use cite_ports::{Failed, Source};

/// Gives the bytes before a place at the first call, and those behind it afterwards. It tells nothing of them.
#[derive(Drop)]
pub struct Halves<'a> {
    first: &'a [u8],
    second: &'a [u8],
}

impl<'a> Halves<'a> {
    /// Bytes that are cut at a place.
    pub fn of(bytes: &'a [u8], place: usize) -> Halves<'a> {
        let place = place.min(bytes.len());
        Halves {
            first: &bytes[..place],
            second: &bytes[place..],
        }
    }
}

impl Source for Halves<'_> {
    ghost left = { λ s. None };

    ghost faults_of = { λ s. 0 };

    fn take(&mut self, into: &mut [u8]) -> Result<usize, Failed> {
        if self.first.is_empty() {
            self.first = self.second;
            self.second = &[];
        }
        let count = into.len().min(self.first.len());
        into[..count].copy_from_slice(&self.first[..count]);
        self.first = &self.first[count..];
        Ok(count)
    }

    fn faults(&self) -> u64 {
        0
    }
}
