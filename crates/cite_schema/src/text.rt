// Texts of bytes.
ghost use Rattle.std.specs.Prelude.{◌≡◌, IfOk, IsTrue};
ghost use Rattle.cite_schema.specs.Values.{is_text};

use crate::list::List;
use crate::memory::NoMemory;

/// Each element of a slice of bytes is below 256: a law that proofs about texts stand on.
pub fn known_bytes(bytes: &[u8])
    ensures { IsTrue (is_text bytes.now) }
{
    let _count = bytes.len();
}

impl List<u8> {
    /// The bytes, each below 256.
    pub fn bytes(&self) -> &[u8]
        ensures value { result.now ≡ self.now }
        ensures text { IsTrue (is_text self.now) }
    {
        let bytes = self.as_slice();
        known_bytes(bytes);
        bytes
    }

    /// The same text again.
    pub fn copy(&self) -> Result<List<u8>, NoMemory>
        ensures { IfOk result (λ copied. copied ≡ self.now) }
    {
        Ok(self.clone()?)
    }
}
