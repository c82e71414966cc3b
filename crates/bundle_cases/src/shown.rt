//! Errors inside errors, and out of memory: each shows the name of its variant.

use sig_base::Text;
use sig_cases::{Answer, Arguments};
use sig_checked_bundle::{
    Bundle01ProfileErrorKind, Bundle02ProfileErrorKind, BundleErrorKind, BundleProfileErrorKind,
};
use std::alloc::Global;

/// `shown NAME`: the error of this name; out of memory comes after `ok`, since by itself it would end the program.
pub(crate) fn shown(arguments: &mut Arguments<'_>, answer: &mut Answer) {
    let promise = Bundle01ProfileErrorKind::InclusionPromiseMissing;
    let proof = Bundle02ProfileErrorKind::InclusionProofMissing;
    let checkpoint = Bundle02ProfileErrorKind::CheckpointMissing;
    match arguments.word() {
        "InclusionPromiseMissing" => answer.error(promise),
        "InclusionProofMissing" => answer.error(proof),
        "CheckpointMissing" => answer.error(checkpoint),
        "Bundle01Profile" => answer.error(BundleProfileErrorKind::Bundle01Profile(promise)),
        "Bundle02Profile" => answer.error(BundleProfileErrorKind::Bundle02Profile(checkpoint)),
        "Unknown" => unknown(answer, arguments.alloc()),
        "OutOfMemory" => {
            answer.ok();
            answer.value(&BundleErrorKind::OutOfMemory);
        }
        _ => arguments.refuse(),
    }
}

fn unknown(answer: &mut Answer, alloc: Global) {
    match Text::copy_of(alloc, "text/plain") {
        Ok(text) => answer.error(BundleProfileErrorKind::Unknown(text)),
        Err(_) => answer.out_of_memory(),
    }
}
