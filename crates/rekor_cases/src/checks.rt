//! What a checkpoint and a proof answer under a table of accepted signatures.

use crate::parts::{KEY, keyed};
use crate::shown::answer_to;
use sig_cases::{Answer, Arguments};
use sig_part_cases::checkpoint;
use sig_rekor::{InclusionProof, SignedCheckpoint, SignedNote};
use sig_rekor_models::LogEntry;

/// `signed CHECKPOINT NOTES SIGNATURES`: whether one of the checkpoint's signatures is accepted over its note.
pub(crate) fn signed(arguments: &mut Arguments<'_>, answer: &mut Answer) {
    let checkpoint = checkpoint(arguments);
    let by = keyed(arguments, answer, KEY);
    let check = checkpoint.verify_signature(arguments.alloc(), &by.key, &by.table);
    answer_to(answer, check);
    drop(by);
    drop(checkpoint);
}

/// `tree CHECKPOINT ROOT SIZE`: whether the checkpoint is of that tree.
pub(crate) fn tree(arguments: &mut Arguments<'_>, answer: &mut Answer) {
    let checkpoint = checkpoint(arguments);
    let root = arguments.digest();
    let size = arguments.natural();
    answer_to(answer, checkpoint.is_valid_for_proof(&root, size));
    drop(checkpoint);
}

/// `borrowed_signed CHECKPOINT NOTES SIGNATURES`: whether one of the signatures is accepted over the note.
pub(crate) fn borrowed_signed(arguments: &mut Arguments<'_>, answer: &mut Answer) {
    let text = arguments.text();
    let by = keyed(arguments, answer, KEY);
    match SignedNote::decode(arguments.alloc(), text.as_str()) {
        Ok(note) => {
            let check = note.verify_signature(arguments.alloc(), &by.key, &by.table);
            answer_to(answer, check);
            drop(note);
        }
        Err(error) => answer.error(error),
    }
    drop(by);
}

/// `borrowed_tree CHECKPOINT ROOT SIZE`: whether the checkpoint is of that tree.
pub(crate) fn borrowed_tree(arguments: &mut Arguments<'_>, answer: &mut Answer) {
    let text = arguments.text();
    let root = arguments.digest();
    let size = arguments.natural();
    match SignedNote::decode(arguments.alloc(), text.as_str()) {
        Ok(note) => {
            answer_to(answer, note.is_valid_for_proof(&root, size));
            drop(note);
        }
        Err(error) => answer.error(error),
    }
}

/// `proof ENTRY INDEX ROOT SIZE HASHES NOTES SIGNATURES CHECKPOINT`: what the proof of the entry is answered; without
/// the last there is no checkpoint.
pub(crate) fn proof(arguments: &mut Arguments<'_>, answer: &mut Answer) {
    let entry = arguments.hex();
    let index = arguments.integer();
    let root = arguments.digest();
    let size = arguments.natural();
    let hashes = arguments.hashes();
    let by = keyed(arguments, answer, KEY);
    let proof = InclusionProof::new(index, root, size, hashes, last_checkpoint(arguments));
    let check = proof.verify(arguments.alloc(), &entry, &by.key, &by.table);
    answer_to(answer, check);
    drop(proof);
    drop(by);
}

/// `audit_path ENTRY INDEX ROOT SIZE HASHES`: whether the path of the entry leads to the root.
pub(crate) fn audit_path(arguments: &mut Arguments<'_>, answer: &mut Answer) {
    let entry = arguments.hex();
    let index = arguments.integer();
    let root = arguments.digest();
    let size = arguments.natural();
    let hashes = arguments.hashes();
    let proof = InclusionProof::new(index, root, size, hashes, None);
    answer_to(answer, proof.verify_audit_path(&entry));
    drop(proof);
}

/// The last argument as a checkpoint, if it is there.
fn last_checkpoint(arguments: &mut Arguments<'_>) -> Option<SignedCheckpoint> {
    if arguments.is_empty() {
        None
    } else {
        Some(checkpoint(arguments))
    }
}

/// `entry_inclusion KEY NOTES SIGNATURES TEXT`: what `LogEntry::verify_inclusion` says of the entry of the text.
pub(crate) fn entry_inclusion(arguments: &mut Arguments<'_>, answer: &mut Answer) {
    let key = arguments.hex();
    let by = keyed(arguments, answer, &key);
    match LogEntry::from_json_text(arguments.alloc(), arguments.text().as_str()) {
        Ok(entry) => {
            let check = entry.verify_inclusion(arguments.alloc(), &by.key, &by.table);
            answer_to(answer, check);
            drop(entry);
        }
        Err(error) => {
            drop(error);
            arguments.refuse();
        }
    }
    drop(by);
}
