//! The log entry of a bundle: its proof, and whether it is about what the bundle holds.

use crate::read::{bundle, proof_fields};
use sig_bundle::ProofFieldsError;
use sig_cases::{Answer, Arguments};
use sig_checked_bundle::CheckedBundle;
use sig_rekor::{InclusionProof, SignedCheckpoint};
use std::alloc::Global;

/// `to_proof TEXT`: the inclusion proof of the first log entry: index, root, size, how many hashes, the hashes, and
/// of the checkpoint the origin, the size, the root and how many signatures.
pub(crate) fn proof(arguments: &mut Arguments<'_>, answer: &mut Answer) {
    let bundle = bundle(arguments.rest(), arguments, answer);
    match proof_fields(&bundle) {
        Some(fields) => answer_to(answer, fields.to_proof(arguments.alloc())),
        None => arguments.refuse(),
    }
    drop(bundle);
}

fn answer_to(answer: &mut Answer, made: Result<InclusionProof, ProofFieldsError>) {
    match made {
        Ok(proof) => add_proof(answer, &proof),
        Err(error) => answer.error(error),
    }
}

/// `ok`, and a proof.
fn add_proof(answer: &mut Answer, proof: &InclusionProof) {
    answer.ok();
    answer.value(&proof.log_index);
    answer.hex(&proof.root_hash);
    answer.value(&proof.tree_size);
    answer.value(&proof.hashes.len());
    for hash in proof.hashes.as_slice() {
        answer.hex(hash);
    }
    match &proof.checkpoint {
        Some(checkpoint) => add_checkpoint(answer, checkpoint),
        None => answer.value(&"-"),
    }
}

fn add_checkpoint(answer: &mut Answer, checkpoint: &SignedCheckpoint) {
    answer.debug(&checkpoint.note.origin);
    answer.value(&checkpoint.note.size);
    answer.hex(&checkpoint.note.hash);
    answer.value(&checkpoint.signatures.len());
}

/// `tlog_entry OFFLINE DIGEST TEXT`: whether the checked bundle hands out its log entry, for an artifact of this
/// SHA-256 digest. The line is a bad one where the bundle does not pass its checks.
pub(crate) fn logged(arguments: &mut Arguments<'_>, answer: &mut Answer) {
    let offline = arguments.word() == "true";
    let digest = arguments.hex();
    let bundle = bundle(arguments.rest(), arguments, answer);
    match CheckedBundle::try_from_bundle(arguments.alloc(), &bundle) {
        Ok(checked) => {
            add_logged(answer, arguments.alloc(), &checked, offline, &digest);
            drop(checked);
        }
        Err(error) => {
            drop(error);
            arguments.refuse();
        }
    }
    drop(bundle);
}

/// `ok`, and whether the checked bundle hands out its log entry.
fn add_logged(
    answer: &mut Answer,
    alloc: Global,
    checked: &CheckedBundle,
    offline: bool,
    digest: &[u8],
) {
    answer.ok();
    match checked.tlog_entry(alloc, offline, digest) {
        Ok(found) => answer.value(&(found == Some(checked.entry()))),
        Err(_) => answer.out_of_memory(),
    }
}
