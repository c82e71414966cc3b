//! Entries and inclusion proofs of Rekor's API.

use crate::parts::text;
use crate::shown::{Shown, answer_to};
use sig_base::{Hashes, Result as Made, UnexpectedKind};
use sig_cases::{Answer, Arguments};
use sig_json::{Document, Json};
use sig_json_text::compact;
use sig_rekor::{InclusionProof, RekorInclusionProof, decode_hash, decode_hashes};
use sig_rekor_models::{Attestation, LogEntry};
use std::alloc::Global;

/// `hash PLACE TEXT`: what `decode_hash` reads; another length is that of the hash at the place.
pub(crate) fn hash(arguments: &mut Arguments<'_>, answer: &mut Answer) {
    let place = arguments.natural() as usize;
    let text = arguments.text();
    let read = decode_hash(text.as_str().as_bytes(), UnexpectedKind::HashLength(place));
    answer_to(answer, read);
}

/// The digits.
impl Shown for [u8; 32] {
    fn add_to(&self, answer: &mut Answer) {
        answer.hex(self);
    }
}

/// `hashes TEXTS`: what `decode_hashes` reads.
pub(crate) fn hashes(arguments: &mut Arguments<'_>, answer: &mut Answer) {
    let texts = arguments.entries();
    answer_to(answer, decode_hashes(arguments.alloc(), &texts));
}

impl Shown for Hashes {
    fn add_to(&self, answer: &mut Answer) {
        for hash in self.as_slice() {
            answer.hex(hash);
        }
    }
}

/// `from_rekor HASHES INDEX ROOT SIZE CHECKPOINT`: what `InclusionProof::try_from_rekor` reads.
pub(crate) fn inclusion_proof(arguments: &mut Arguments<'_>, answer: &mut Answer) {
    let api = RekorInclusionProof {
        hashes: arguments.entries(),
        log_index: arguments.integer(),
        root_hash: text(arguments),
        tree_size: arguments.natural(),
        checkpoint: text(arguments),
    };
    let read = InclusionProof::try_from_rekor(arguments.alloc(), &api);
    answer_to(answer, read);
}

/// The index, the root, the size, each hash, and the checkpoint.
impl Shown for InclusionProof {
    fn add_to(&self, answer: &mut Answer) {
        answer.value(&self.log_index);
        answer.hex(&self.root_hash);
        answer.value(&self.tree_size);
        for hash in self.hashes.as_slice() {
            answer.hex(hash);
        }
        self.checkpoint.add_to(answer);
    }
}

/// `entry TEXT`: what `LogEntry::from_json_text` reads.
pub(crate) fn entry(arguments: &mut Arguments<'_>, answer: &mut Answer) {
    match LogEntry::from_json_text(arguments.alloc(), arguments.text().as_str()) {
        Ok(entry) => {
            add_entry(answer, &entry);
            add_json(
                answer,
                arguments.alloc(),
                entry.body.json(arguments.alloc()),
            );
            drop(entry);
        }
        Err(error) => answer.error(error),
    }
}

/// `ok`, and the members of an entry in order, without its body.
fn add_entry(answer: &mut Answer, entry: &LogEntry) {
    answer.ok();
    entry.uuid.add_to(answer);
    entry.attestation.add_to(answer);
    answer.value(&entry.body.kind().name());
    answer.value(&entry.integrated_time);
    answer.debug(&entry.log_i_d);
    answer.value(&entry.log_index);
    answer.debug(&entry.verification.signed_entry_timestamp);
    entry.verification.inclusion_proof.add_to(answer);
}

impl Shown for Attestation {
    fn add_to(&self, answer: &mut Answer) {
        answer.value(&"attestation");
        self.dummy.add_to(answer);
    }
}

/// The members as they are.
impl Shown for RekorInclusionProof {
    fn add_to(&self, answer: &mut Answer) {
        answer.value(&self.log_index);
        answer.debug(&self.root_hash);
        answer.value(&self.tree_size);
        answer.debug(&self.checkpoint);
        for hash in self.hashes.as_slice() {
            answer.hex(hash.as_slice());
        }
    }
}

/// Adds the compact text of a document that was made.
pub(crate) fn add_json(answer: &mut Answer, alloc: Global, made: Made<Document>) {
    match made {
        Ok(document) => {
            add_compact(answer, alloc, document.view());
            drop(document);
        }
        Err(error) => answer.error(error),
    }
}

fn add_compact(answer: &mut Answer, alloc: Global, document: Json<'_, '_>) {
    match compact(alloc, document) {
        Ok(text) => answer.value(&text.as_str()),
        Err(_) => answer.out_of_memory(),
    }
}
