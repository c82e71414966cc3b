//! SHA-256, of FIPS 180-4.
ghost use Rattle.std.specs.Prelude.{◌≡◌};
ghost use Rattle.sig_base.specs.Sha256 as standard;

use sha2::{Digest, Sha256};

/// SHA-256 of these bytes (FIPS 180-4 section 6.2).
pub fn sha256(bytes: &[u8]) -> [u8; 32]
    ensures { result ≡ standard.sha256 bytes.now }
{
    Sha256::digest(bytes)
}
