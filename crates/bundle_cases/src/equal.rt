//! Bundles compared, and their parts.

use crate::read::{bundle, entry, proof_fields};
use sig_bundle::{Bundle, KindVersion, MaterialContent, VerificationMaterial};
use sig_cases::{Answer, Arguments};

/// `equal TEXT TEXT`: whether two bundles are equal, their contents, their material, the signers of it, their first
/// log entries, the kinds and the inclusion proofs of these; `-` where a part is missing on one side. The first text
/// has no space.
pub(crate) fn equal_parts(arguments: &mut Arguments<'_>, answer: &mut Answer) {
    let one = bundle(arguments.word(), arguments, answer);
    let other = bundle(arguments.rest(), arguments, answer);
    answer.ok();
    answer.value(&(one == other));
    compare(answer, one.content.as_ref(), other.content.as_ref());
    compare(answer, material(&one), material(&other));
    compare(answer, signer(&one), signer(&other));
    compare(answer, entry(&one), entry(&other));
    compare(answer, kind(&one), kind(&other));
    compare(answer, proof_fields(&one), proof_fields(&other));
    drop(one);
    drop(other);
}

/// Adds whether two parts are equal.
fn compare<T: PartialEq>(answer: &mut Answer, one: Option<&T>, other: Option<&T>) {
    match (one, other) {
        (Some(one), Some(other)) => answer.value(&(*one == *other)),
        _ => answer.value(&"-"),
    }
}

fn material(bundle: &Bundle) -> Option<&VerificationMaterial> {
    bundle.verification_material.as_ref()
}

fn signer(bundle: &Bundle) -> Option<&MaterialContent> {
    material(bundle)?.content.as_ref()
}

fn kind(bundle: &Bundle) -> Option<&KindVersion> {
    entry(bundle)?.kind_version.as_ref()
}
