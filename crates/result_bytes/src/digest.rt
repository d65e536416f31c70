// Digests of bytes.
ghost use Rattle.std.specs.Prelude.{◌≡◌, IfOk};
ghost use Rattle.sha2.specs.Sha256.{sha256};
ghost use Rattle.hex.specs.Hex.{encode_lower};

use cite_schema::{ByteText, NoMemory};
use sha2::{Digest, Sha256};
use std::alloc::Global;

/// The SHA-256 digest of the bytes (FIPS 180-4, section 6.2), by which a result is verified (RDA R6). It takes no memory,
/// and its time is linear in the bytes.
pub fn fingerprint(bytes: &[u8]) -> [u8; 32]
    ensures { result ≡ sha256 bytes.now }
{
    Sha256::digest(bytes)
}

/// A digest as 64 lower-case hexadecimal digits.
pub fn digest_text(alloc: Global, digest: &[u8; 32]) -> Result<ByteText, NoMemory>
    ensures { IfOk result (λ text. text ≡ encode_lower digest.now) }
{
    let digits = hex::encode(alloc, digest.as_slice())?;
    Ok(ByteText::from_vec(digits.into_bytes()))
}
