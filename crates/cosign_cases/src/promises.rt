//! What Rekor promised.

use crate::keys::keys;
use sig_cases::{Answer, Arguments};
use sig_payload::{Bundle, SignedArtifactBundle};

/// `promise TEXT KEYS ROWS`: what Rekor promised, under these keys and a checker of these rows.
pub(crate) fn promise(arguments: &mut Arguments<'_>, answer: &mut Answer) {
    let alloc = arguments.alloc();
    let text = arguments.text();
    let keys = keys(arguments);
    let checker = arguments.checker();
    match Bundle::new_verified(alloc, text.as_str(), &keys, &checker) {
        Ok(bundle) => {
            answer.ok();
            show(answer, &bundle);
            drop(bundle);
        }
        Err(error) => answer.error(error),
    }
    drop(keys);
}

/// `artifact TEXT KEYS ROWS`: a signature over an artifact with what Rekor promised of it.
pub(crate) fn artifact(arguments: &mut Arguments<'_>, answer: &mut Answer) {
    let alloc = arguments.alloc();
    let text = arguments.text();
    let keys = keys(arguments);
    let checker = arguments.checker();
    match SignedArtifactBundle::new_verified(alloc, text.as_str(), &keys, &checker) {
        Ok(artifact) => {
            answer.ok();
            answer.debug(&artifact.base64_signature);
            answer.debug(&artifact.cert);
            show(answer, &artifact.rekor_bundle);
            drop(artifact);
        }
        Err(error) => answer.error(error),
    }
    drop(keys);
}

/// `equal TEXT TEXT KEYS ROWS`: whether two signatures over artifacts are equal, with what Rekor promised of them.
pub(crate) fn equal(arguments: &mut Arguments<'_>, answer: &mut Answer) {
    let alloc = arguments.alloc();
    let one = arguments.text();
    let other = arguments.text();
    let keys = keys(arguments);
    let checker = arguments.checker();
    let one = SignedArtifactBundle::new_verified(alloc, one.as_str(), &keys, &checker);
    let other = SignedArtifactBundle::new_verified(alloc, other.as_str(), &keys, &checker);
    match (&one, &other) {
        (Ok(one), Ok(other)) => {
            answer.ok();
            answer.value(&(one == other));
            answer.value(&(one.rekor_bundle == other.rekor_bundle));
            answer.value(&(one.rekor_bundle.payload == other.rekor_bundle.payload));
        }
        _ => arguments.refuse(),
    }
    drop(one);
    drop(other);
    drop(keys);
}

fn show(answer: &mut Answer, bundle: &Bundle) {
    answer.debug(&bundle.signed_entry_timestamp);
    answer.debug(&bundle.payload.body);
    answer.value(&bundle.payload.integrated_time);
    answer.value(&bundle.payload.log_index);
    answer.debug(&bundle.payload.log_id);
}
