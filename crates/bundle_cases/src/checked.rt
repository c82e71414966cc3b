//! The checks of a bundle.

use crate::read::{add_copied, bundle, entry};
use sig_bundle::{ArtifactDigest, Bundle};
use sig_cases::{Answer, Arguments};
use sig_checked_bundle::{CheckedBundle, CheckedContent};
use std::alloc::Global;

/// `try_from_bundle TEXT`: the digests of the subjects, in order.
pub(crate) fn digests(arguments: &mut Arguments<'_>, answer: &mut Answer) {
    let bundle = bundle(arguments.rest(), arguments, answer);
    match CheckedBundle::try_from_bundle(arguments.alloc(), &bundle) {
        Ok(checked) => {
            add_digests(answer, checked.content());
            drop(checked);
        }
        Err(error) => answer.error(error),
    }
    drop(bundle);
}

/// `ok`, and the digests of the subjects.
fn add_digests(answer: &mut Answer, content: &CheckedContent) {
    answer.ok();
    if let CheckedContent::Dsse {
        subject_digests,
        ..
    } = content
    {
        for digest in subject_digests.as_slice() {
            add_digest(answer, digest);
        }
    }
}

/// Adds a digest: its algorithm and its bytes.
pub(crate) fn add_digest(answer: &mut Answer, digest: &ArtifactDigest) {
    answer.value(&digest.algorithm());
    answer.hex(digest.as_bytes());
}

/// `checked TEXT`: what the checked bundle has: certificate, signature, whether the entry is the bundle's first
/// and a copy of it is equal, the pre-authentication encoding, the payload, the envelope's text, and the further
/// certificates.
pub(crate) fn lent(arguments: &mut Arguments<'_>, answer: &mut Answer) {
    let bundle = bundle(arguments.rest(), arguments, answer);
    match CheckedBundle::try_from_bundle(arguments.alloc(), &bundle) {
        Ok(checked) => {
            add_parts(answer, arguments.alloc(), &checked, &bundle);
            drop(checked);
        }
        Err(error) => answer.error(error),
    }
    drop(bundle);
}

/// `ok`, and what is borrowed of the checked bundle.
fn add_parts(answer: &mut Answer, alloc: Global, checked: &CheckedBundle, bundle: &Bundle) {
    answer.ok();
    answer.hex(checked.certificate().der());
    answer.hex(checked.signature());
    answer.value(&(entry(bundle) == Some(checked.entry())));
    add_copied(answer, alloc, checked.entry());
    add_content(answer, checked.content());
    for further in checked.further() {
        answer.hex(further.der());
    }
}

/// Adds what the signature is over.
fn add_content(answer: &mut Answer, content: &CheckedContent) {
    match content {
        CheckedContent::Dsse {
            pae,
            payload_bytes,
            envelope_json,
            ..
        } => {
            answer.hex(pae.as_slice());
            answer.hex(payload_bytes.as_slice());
            answer.value(&envelope_json.as_str());
        }
        CheckedContent::MessageSignature => answer.value(&"-"),
    }
}
