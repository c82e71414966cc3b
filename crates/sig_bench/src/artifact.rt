//! Artifacts of zero bytes, only hashed, or read and verified.
ghost use Rattle.std.specs.Prelude.{None};

use sha2::{Digest, Sha256};
use sig_base::{Entries, Failed, KeyMap, Source, TableChecker};
use sig_bundle::{Bundle, read_bundle};
use sig_verify::{ManualTrustRoot, VerificationError, Verifier};
use sig_x509::{OIDCIssuer, SingleX509ExtPolicy};
use std::alloc::Global;

/// How many bytes are hashed at a time: as many as a verifier asks a source for.
const PIECE: usize = 65_536;

/// A source of zero bytes: it leaves the buffer as it is.
#[derive(Drop)]
struct Zeros {
    left: u64,
}

impl Source for Zeros {
    ghost left = { λ _. None };

    ghost faults = { λ _. 0 };

    fn read(&mut self, buf: &mut [u8]) -> Result<usize, Failed> {
        let count = self.left.min(buf.len() as u64);
        self.left -= count;
        Ok(count as usize)
    }
}

/// Returns the first byte of SHA-256 of `length` zero bytes.
pub fn hashed(count: u64) -> u64 {
    let piece = [0; PIECE];
    let mut hasher = Sha256::new();
    for _ in 0..count / PIECE as u64 {
        hasher.update(&piece);
    }
    hasher.update(&piece[..(count % PIECE as u64) as usize]);
    u64::from(hasher.finalize()[0])
}

/// Verifies the bundle that this text is for an artifact of `length` zero bytes, where nothing is trusted. Returns 0;
/// `None` if the text is not a bundle, or the artifact could not be read.
pub fn verified(alloc: Global, text: &[u8], count: u64) -> Option<u64> {
    let bundle = read_bundle(alloc, text).ok()?;
    let answer = untrusted(alloc, &bundle, count);
    drop(bundle);
    answer
}

/// The same for a bundle.
fn untrusted(alloc: Global, bundle: &Bundle, count: u64) -> Option<u64> {
    let policy = OIDCIssuer::new(alloc, "https://issuer.example").ok()?;
    let verifier = Verifier::new(alloc, &nothing(alloc), 0).ok()?;
    let checker = TableChecker::new(alloc);
    let mut zeros = Zeros { left: count };
    let ended = verifier.verify(alloc, &mut zeros, bundle, &policy, true, &checker);
    drop(verifier);
    let answer = match &ended {
        Ok(()) | Err(VerificationError::Input(_) | VerificationError::OutOfMemory) => None,
        Err(_) => Some(0),
    };
    drop(ended);
    answer
}

/// Returns the trust root without keys and certificates.
fn nothing(alloc: Global) -> ManualTrustRoot {
    ManualTrustRoot {
        fulcio_certs: Entries::new(alloc),
        rekor_keys: KeyMap::new(alloc),
        ctfe_keys: KeyMap::new(alloc),
    }
}
