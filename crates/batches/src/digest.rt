// Digests of bodies.
ghost use Rattle.std.specs.Prelude.{◌≡◌};
ghost use Rattle.sha2.specs.Sha256.{sha256};

use sha2::{Digest, Sha256};

/// The SHA-256 digest of a body (FIPS 180-4, section 6.2), by which a batch that comes again is known. It takes no memory,
/// and its time is linear in the bytes.
pub fn body_digest(body: &[u8]) -> [u8; 32]
    ensures { result ≡ sha256 body.now }
{
    Sha256::digest(body)
}
