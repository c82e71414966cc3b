//! Bundles that are verified.

use crate::policy::policy;
use sig_bundle::ArtifactDigest;
use sig_cases::{Answer, Arguments};
use sig_verify::{LoggedEntry, OfflineError, verify_offline};

/// `verify_offline NOW DIGEST POLICY ROOT BUNDLE ROW ..`: `ok`, and index and tree size of the proof; or the name of
/// the first link that fails, and the error.
pub(crate) fn offline(arguments: &mut Arguments<'_>, answer: &mut Answer) {
    let now = arguments.integer();
    let digest = digest(arguments);
    let policy = policy(arguments, answer);
    let root = arguments.text();
    let bundle = arguments.text();
    let checker = arguments.checker();
    let (root, bundle) = (root.as_bytes(), bundle.as_bytes());
    known(
        verify_offline(
            arguments.alloc(),
            root,
            now,
            &digest,
            bundle,
            &policy,
            &checker,
        ),
        answer,
    );
    drop(policy);
    drop(checker);
}

/// The digest of the next argument, `sha256:DIGITS` or `sha512:DIGITS`.
pub(crate) fn digest(arguments: &mut Arguments<'_>) -> ArtifactDigest {
    match digest_of(arguments) {
        Some(digest) => digest,
        None => {
            arguments.refuse();
            ArtifactDigest::Sha256([0; 32])
        }
    }
}

fn digest_of(arguments: &mut Arguments<'_>) -> Option<ArtifactDigest> {
    let (algorithm, digits) = arguments.word().split_once(':')?;
    let bytes = hex::decode(arguments.alloc(), digits).ok()?;
    match algorithm {
        "sha256" => Some(ArtifactDigest::Sha256(sized(&bytes)?)),
        "sha512" => Some(ArtifactDigest::Sha512(sized(&bytes)?)),
        _ => None,
    }
}

/// The bytes, if there are as many.
fn sized<const N: usize>(bytes: &[u8]) -> Option<[u8; N]> {
    bytes.try_into().ok()
}

/// `ok`, and index and tree size of the proof; or the name of the first link that fails, and the error.
pub(crate) fn known(verified: Result<LoggedEntry, OfflineError>, answer: &mut Answer) {
    match verified {
        Ok(known) => {
            answer.ok();
            answer.value(&known.proof.log_index);
            answer.value(&known.proof.tree_size);
            drop(known);
        }
        Err(error) => {
            failed(&error, answer);
            drop(error);
        }
    }
}

/// The name of the link that fails, and the error. Out of memory has no link.
fn failed(error: &OfflineError, answer: &mut Answer) {
    match error.link() {
        Some(link) => {
            answer.value(&link.name());
            answer.shown(error);
        }
        None => answer.out_of_memory(),
    }
}
