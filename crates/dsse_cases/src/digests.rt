//! Digests of artifacts, and those that are taken of statements.
use sha2::{Digest, Sha256, Sha512};
use sig_cases::{Answer, Arguments};
use sig_dsse::{ArtifactDigest, Digests, laws, payload_digests};
use std::alloc::Global;
use std::fmt::{Debug, Display};

/// `payload_digests PAYLOAD`: the digests of the statement that the payload is.
pub(crate) fn of_payload(arguments: &mut Arguments<'_>, answer: &mut Answer) {
    let alloc = arguments.alloc();
    let payload = arguments.rest().as_bytes();
    add_taken(alloc, answer, payload_digests(alloc, payload));
}

/// Adds the digests that were taken.
pub(crate) fn add_taken<E: Debug + Display + Drop>(
    alloc: Global,
    answer: &mut Answer,
    taken: Result<Digests, E>,
) {
    match taken {
        Ok(digests) => {
            answer.ok();
            for digest in digests.as_slice() {
                add_digest(alloc, answer, digest);
            }
        }
        Err(error) => answer.error(error),
    }
}

/// Adds a digest with its algorithm.
fn add_digest(alloc: Global, answer: &mut Answer, digest: &ArtifactDigest) {
    answer.value(&digest.algorithm());
    match digest.to_hex(alloc) {
        Ok(text) => answer.value(&text.as_str()),
        Err(_) => answer.out_of_memory(),
    }
}

/// `sha256 BYTES`: the digest of the bytes, by a hasher that took them.
pub(crate) fn sha256(arguments: &mut Arguments<'_>, answer: &mut Answer) {
    let mut hasher = Sha256::new();
    hasher.update(arguments.hex().as_slice());
    let digest = ArtifactDigest::from_sha256(hasher);
    answer.ok();
    add_digest(arguments.alloc(), answer, &digest);
}

/// `sha512 BYTES`: the same.
pub(crate) fn sha512(arguments: &mut Arguments<'_>, answer: &mut Answer) {
    let mut hasher = Sha512::new();
    hasher.update(arguments.hex().as_slice());
    let digest = ArtifactDigest::from_sha512(hasher);
    answer.ok();
    add_digest(arguments.alloc(), answer, &digest);
}

/// `equal_digests BYTES BYTES`: whether two digests of these bytes are equal.
pub(crate) fn equal_digests(arguments: &mut Arguments<'_>, answer: &mut Answer) {
    let one = digest_of(arguments.hex().as_slice());
    let other = digest_of(arguments.hex().as_slice());
    let (Some(one), Some(other)) = (one, other) else {
        return arguments.refuse();
    };
    answer.ok();
    answer.value(&laws::equal_digests(&one, &other));
}

/// A digest of its bytes; `None` if they are neither 32 nor 64.
fn digest_of(bytes: &[u8]) -> Option<ArtifactDigest> {
    if let Ok(short) = <[u8; 32]>::try_from(bytes) {
        return Some(ArtifactDigest::from(short));
    }
    let long = <[u8; 64]>::try_from(bytes).ok()?;
    Some(ArtifactDigest::from(long))
}
