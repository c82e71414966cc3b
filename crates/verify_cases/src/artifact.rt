//! Bundles of artifacts that are given by their bytes, or by their SHA-256.

use crate::parts::Parts;
use sig_base::{Bytes, MemorySource, Numbers};
use sig_cases::{Answer, Arguments};
use sig_verify::{VerificationResult, Verifier};
use std::alloc::Global;

/// `verify NOW BYTES PIECE FAILING POLICY ROOT BUNDLE ROW ..`, for a source that gives the bytes in pieces, and whose
/// call with the number `FAILING` fails: `ok`, or the error.
pub(crate) fn by_source(arguments: &mut Arguments<'_>, answer: &mut Answer) {
    let now = arguments.integer();
    let mut source = source(arguments);
    let parts = Parts::read(arguments, answer);
    of_source(arguments.alloc(), now, &mut source, &parts, answer);
    drop(parts);
}

/// The source of the next arguments, `BYTES PIECE FAILING`. A piece has at least one byte.
fn source(arguments: &mut Arguments<'_>) -> MemorySource {
    let bytes = Bytes::from(arguments.hex());
    let piece = arguments.natural() as usize;
    let mut failing = Numbers::new(arguments.alloc());
    if failing.push(arguments.natural() as usize).is_err() || piece == 0 {
        arguments.refuse();
    }
    MemorySource::new(bytes, piece.max(1), failing)
}

fn of_source(
    alloc: Global,
    now: i64,
    source: &mut MemorySource,
    parts: &Parts,
    answer: &mut Answer,
) {
    match Verifier::new(alloc, &parts.root, now) {
        Ok(verifier) => {
            let (bundle, policy, checker) = (&parts.bundle, &parts.policy, &parts.checker);
            told(
                answer,
                verifier.verify(alloc, source, bundle, policy, true, checker),
            );
            drop(verifier);
        }
        Err(error) => answer.error(error),
    }
}

/// `verify_digest NOW DIGEST POLICY ROOT BUNDLE ROW ..`, for an artifact of this SHA-256: `ok`, or the error.
pub(crate) fn by_digest(arguments: &mut Arguments<'_>, answer: &mut Answer) {
    let now = arguments.integer();
    let digest = arguments.digest();
    let parts = Parts::read(arguments, answer);
    of_digest(arguments.alloc(), now, digest, &parts, answer);
    drop(parts);
}

fn of_digest(alloc: Global, now: i64, digest: [u8; 32], parts: &Parts, answer: &mut Answer) {
    match Verifier::new(alloc, &parts.root, now) {
        Ok(verifier) => {
            let (bundle, policy, checker) = (&parts.bundle, &parts.policy, &parts.checker);
            told(
                answer,
                verifier.verify_digest(alloc, digest, bundle, policy, true, checker),
            );
            drop(verifier);
        }
        Err(error) => answer.error(error),
    }
}

/// What a verifier returned.
fn told(answer: &mut Answer, verified: VerificationResult) {
    match verified {
        Ok(()) => answer.ok(),
        Err(error) => answer.error(error),
    }
}
