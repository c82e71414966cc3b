//! Bundles and log entries under a given trust root.

use crate::parts::{self, Parts, keys};
use crate::verified::{digest, known};
use sig_base::{KeyMap, TableChecker};
use sig_bundle::{ArtifactDigest, Bundle, TransparencyLogEntry};
use sig_cases::{Answer, Arguments};
use sig_verify::{TrustRoot, VerificationResult, Verifier, verify_log_entry};
use std::alloc::Global;

/// `verify_digest_with NOW DIGEST POLICY ROOT BUNDLE ROW ..`, by a verifier of the trust root: `ok`, and how many log
/// keys the root has; or the error of the verifier or of the bundle.
pub(crate) fn bundle(arguments: &mut Arguments<'_>, answer: &mut Answer) {
    let now = arguments.integer();
    let digest = digest(arguments);
    let parts = Parts::read(arguments, answer);
    of_bundle(arguments.alloc(), now, &digest, &parts, answer);
    drop(parts);
}

fn of_bundle(alloc: Global, now: i64, digest: &ArtifactDigest, parts: &Parts, answer: &mut Answer) {
    match Verifier::new(alloc, &parts.root, now) {
        Ok(verifier) => {
            let (bundle, policy, checker) = (&parts.bundle, &parts.policy, &parts.checker);
            let verified = verifier.verify_digest_with(
                alloc, digest, bundle, policy, true, checker,
            );
            drop(verifier);
            told(alloc, now, parts, verified, answer);
        }
        Err(error) => answer.error(error),
    }
}

/// What a verifier returned, with how many log keys the root has.
fn told(alloc: Global, now: i64, parts: &Parts, verified: VerificationResult, answer: &mut Answer) {
    match verified {
        Ok(()) => log_keys(alloc, now, parts, answer),
        Err(error) => answer.error(error),
    }
}

/// `ok`, and how many log keys the root has.
fn log_keys(alloc: Global, now: i64, parts: &Parts, answer: &mut Answer) {
    match parts.root.rekor_keys(alloc, now) {
        Ok(keys) => {
            answer.ok();
            answer.value(&keys.len());
        }
        Err(error) => answer.error(error),
    }
}

/// `verify_log_entry KEYS BUNDLE ROW ..`, of the bundle's first log entry: `ok`, and index and tree size of its proof;
/// or the name of the first link that fails, and the error.
pub(crate) fn entry(arguments: &mut Arguments<'_>, answer: &mut Answer) {
    let keys = keys(arguments, answer);
    let bundle = parts::bundle(arguments);
    let checker = arguments.checker();
    match first_entry(&bundle) {
        Some(entry) => of_entry(arguments.alloc(), entry, &keys, &checker, answer),
        None => arguments.refuse(),
    }
    drop(bundle);
    drop(checker);
}

/// The bundle's first log entry.
fn first_entry(bundle: &Bundle) -> Option<&TransparencyLogEntry> {
    bundle.verification_material.as_ref()?.tlog_entries.get(0)
}

fn of_entry(
    alloc: Global,
    entry: &TransparencyLogEntry,
    keys: &KeyMap,
    checker: &TableChecker,
    answer: &mut Answer,
) {
    known(verify_log_entry(alloc, entry, keys, checker), answer);
}
