//! `ArtifactDigest`: the digest of an artifact, with its algorithm.
ghost use Rattle.std.specs.Prelude.{◌≡◌, IfOk};
ghost use Rattle.hex.specs.Hex.{encode_lower};
ghost use Rattle.sig_dsse.specs.Digest.{digest_algorithm, digest_bytes};

use sha2::{Digest, Sha256, Sha512};
use sig_base::{OutOfMemory, OwnedList, Text};
use std::alloc::Global;

/// The digest of an artifact. Two are equal if and only if algorithm and bytes are.
#[derive(Clone, Copy, Debug, PartialEq, Eq)]
pub enum ArtifactDigest {
    /// SHA-256 (FIPS 180-4 section 6.2).
    Sha256([u8; 32]),
    /// SHA-512 (FIPS 180-4 section 6.4).
    Sha512([u8; 64]),
}

/// Digests in order.
pub type Digests = OwnedList<ArtifactDigest>;

impl ArtifactDigest {
    ghost use Rattle.std.specs.Prelude.{ℕ, List};
    ghost use Rattle.sha2.specs.Hashers.{Holds256, Holds512};
    ghost use Rattle.sha2.specs.Sha256.{sha256};
    ghost use Rattle.sha2.specs.Sha512.{sha512};
    ghost use Rattle.sig_dsse.specs.declared.artifact_digest.ArtifactDigest.TheVariants.{Sha256 as IsSha256};
    ghost use Rattle.sig_dsse.specs.declared.artifact_digest.ArtifactDigest.TheVariants.{Sha512 as IsSha512};

    /// The algorithm's name, `sha256` or `sha512`.
    pub fn algorithm(&self) -> &'static str
        ensures { result.now ≡ digest_algorithm self.now }
    {
        match self {
            ArtifactDigest::Sha256(_) => "sha256",
            ArtifactDigest::Sha512(_) => "sha512",
        }
    }

    /// The digest's bytes, 32 or 64.
    pub fn as_bytes(&self) -> &[u8]
        ensures { result.now ≡ digest_bytes self.now }
    {
        match self {
            ArtifactDigest::Sha256(bytes) => bytes,
            ArtifactDigest::Sha512(bytes) => bytes,
        }
    }

    /// The bytes as hexadecimal digits in lower case. Fails only if out of memory.
    pub fn to_hex(&self, alloc: Global) -> Result<Text, OutOfMemory>
        ensures { IfOk result (λ text. text ≡ encode_lower (digest_bytes self.now)) }
    {
        let text = hex::encode(alloc, self.as_bytes())?;
        Ok(Text::from(text))
    }

    /// The SHA-256 digest of the bytes that a hasher took.
    pub fn from_sha256(hasher: Sha256) -> ArtifactDigest
        ensures { (bytes : List ℕ) → Holds256 hasher bytes → result ≡ IsSha256 (sha256 bytes) }
    {
        ArtifactDigest::Sha256(hasher.finalize())
    }

    /// The SHA-512 digest of the bytes that a hasher took.
    pub fn from_sha512(hasher: Sha512) -> ArtifactDigest
        ensures { (bytes : List ℕ) → Holds512 hasher bytes → result ≡ IsSha512 (sha512 bytes) }
    {
        ArtifactDigest::Sha512(hasher.finalize())
    }
}

impl From<[u8; 32]> for ArtifactDigest {
    ghost use Rattle.std.specs.Prelude.{◌≡◌};
    ghost use Rattle.sig_dsse.specs.declared.artifact_digest.ArtifactDigest.TheVariants.{Sha256 as IsSha256};

    ghost from_gives = { λ bytes digest. digest ≡ IsSha256 bytes };

    fn from(bytes: [u8; 32]) -> ArtifactDigest {
        ArtifactDigest::Sha256(bytes)
    }
}

impl From<[u8; 64]> for ArtifactDigest {
    ghost use Rattle.std.specs.Prelude.{◌≡◌};
    ghost use Rattle.sig_dsse.specs.declared.artifact_digest.ArtifactDigest.TheVariants.{Sha512 as IsSha512};

    ghost from_gives = { λ bytes digest. digest ≡ IsSha512 bytes };

    fn from(bytes: [u8; 64]) -> ArtifactDigest {
        ArtifactDigest::Sha512(bytes)
    }
}
