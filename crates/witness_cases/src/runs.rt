//! Sequences of origins and updates.

use crate::parts::{Update, key, updates};
use sig_base::{TableChecker, sha256};
use sig_cases::{Answer, Arguments};
use sig_witness::Witness;
use std::alloc::Global;

/// `run STATE ORIGINS UPDATES ROWS`: for the witness of a text, which `-` is without origins, what it returns for each
/// origin that is added and for each update, under a checker of these rows; after each update how SHA-256 of its text
/// begins, once that text was read and written again; and at the end the text.
pub(crate) fn ran(arguments: &mut Arguments<'_>, answer: &mut Answer) {
    let alloc = arguments.alloc();
    let state = arguments.text();
    match Witness::decode(alloc, state.as_str()) {
        Ok(mut witness) => {
            answer.ok();
            add_origins(arguments, answer, &mut witness);
            make_updates(arguments, answer, &mut witness);
            drop(witness);
        }
        Err(error) => answer.error(error),
    }
}

/// The next arguments as origins that are added: how many there are, and for each its text, its scheme and its key.
pub(crate) fn add_origins(
    arguments: &mut Arguments<'_>,
    answer: &mut Answer,
    witness: &mut Witness,
) {
    let count = arguments.natural();
    for _ in 0..count {
        if arguments.is_empty() {
            break;
        }
        let origin = arguments.text();
        let key = key(arguments, answer);
        match witness.add_origin(origin.as_str(), key) {
            Ok(()) => answer.value(&"added"),
            Err(error) => answer.error(error),
        }
    }
}

fn make_updates(arguments: &mut Arguments<'_>, answer: &mut Answer, witness: &mut Witness) {
    let alloc = arguments.alloc();
    let updates = updates(arguments, answer);
    let checker = arguments.checker();
    for update in updates.as_slice() {
        make(alloc, answer, witness, update, &checker);
        show_state(alloc, answer, witness);
    }
    match witness.encode(alloc) {
        Ok(text) => answer.debug(&text.as_str()),
        Err(_) => answer.out_of_memory(),
    }
    drop(updates);
}

/// Makes an update as often as it says, and adds what the last one returns.
pub(crate) fn make(
    alloc: Global,
    answer: &mut Answer,
    witness: &mut Witness,
    update: &Update,
    checker: &TableChecker,
) {
    for _ in 1..update.times {
        let made = witness.update(
            alloc,
            &update.checkpoint,
            update.old_size,
            update.hashes.as_slice(),
            checker,
        );
        if let Err(error) = made {
            answer.error(error);
        }
    }
    match witness.update(
        alloc,
        &update.checkpoint,
        update.old_size,
        update.hashes.as_slice(),
        checker,
    ) {
        Ok(()) => show_head(answer, witness, update.checkpoint.note.origin.as_str()),
        Err(error) => answer.error(error),
    }
}

/// Adds the size of the kept head of an origin.
fn show_head(answer: &mut Answer, witness: &Witness, origin: &str) {
    match witness.head(origin) {
        Some((size, _)) => answer.value(&size),
        None => answer.value(&"none"),
    }
}

/// Adds how SHA-256 of the witness's text begins, once it was read and written again.
fn show_state(alloc: Global, answer: &mut Answer, witness: &Witness) {
    match witness.encode(alloc) {
        Ok(text) => match Witness::decode(alloc, text.as_str()) {
            Ok(again) => show_digest(alloc, answer, &again),
            Err(error) => answer.error(error),
        },
        Err(_) => answer.out_of_memory(),
    }
}

fn show_digest(alloc: Global, answer: &mut Answer, witness: &Witness) {
    match witness.encode(alloc) {
        Ok(text) => answer.hex(&sha256(text.as_str().as_bytes())[..4]),
        Err(_) => answer.out_of_memory(),
    }
}
