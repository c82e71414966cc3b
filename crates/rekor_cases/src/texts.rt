//! Notes, signatures and checkpoints that are read and written.

use crate::shown::{add_signatures, answer_to};
use sig_cases::{Answer, Arguments};
use sig_rekor::{Checkpoint, CheckpointSignature, Note, SignedCheckpoint, SignedNote};

/// What a call on a text returns.
pub(crate) fn answer(call: &str, arguments: &mut Arguments<'_>, answer: &mut Answer) {
    match call {
        "note" => note(arguments, answer),
        "note_text" => note_text(arguments, answer),
        "signature" => signature(arguments, answer),
        "signature_text" => signature_text(arguments, answer),
        "checkpoint" => checkpoint(arguments, answer),
        "checkpoint_text" => checkpoint_text(arguments, answer),
        "counts" => counts(arguments, answer),
        "borrowed" => borrowed(arguments, answer),
        "borrowed_text" => borrowed_text(arguments, answer),
        _ => arguments.refuse(),
    }
}

/// `note TEXT`: what a text is read as by `Checkpoint::unmarshal`.
fn note(arguments: &mut Arguments<'_>, answer: &mut Answer) {
    let read = Checkpoint::unmarshal(arguments.alloc(), arguments.text().as_str());
    answer_to(answer, read);
}

/// `note_text TEXT`: what a note that was read is written as.
fn note_text(arguments: &mut Arguments<'_>, answer: &mut Answer) {
    match Checkpoint::unmarshal(arguments.alloc(), arguments.text().as_str()) {
        Ok(note) => {
            answer_to(answer, note.marshal(arguments.alloc()));
            drop(note);
        }
        Err(error) => answer.error(error),
    }
}

/// `signature TEXT`: what a text is read as by `CheckpointSignature::decode`.
fn signature(arguments: &mut Arguments<'_>, answer: &mut Answer) {
    let read = CheckpointSignature::decode(arguments.alloc(), arguments.text().as_str());
    answer_to(answer, read);
}

/// `signature_text TEXT`: what a signature that was read is written as.
fn signature_text(arguments: &mut Arguments<'_>, answer: &mut Answer) {
    match CheckpointSignature::decode(arguments.alloc(), arguments.text().as_str()) {
        Ok(signature) => answer_to(answer, signature.encode(arguments.alloc())),
        Err(error) => answer.error(error),
    }
}

/// `checkpoint TEXT`: what a text is read as by `SignedCheckpoint::decode`: the note, and each signature.
fn checkpoint(arguments: &mut Arguments<'_>, answer: &mut Answer) {
    let read = SignedCheckpoint::decode(arguments.alloc(), arguments.text().as_str());
    answer_to(answer, read);
}

/// `checkpoint_text TEXT`: what a checkpoint that was read is written as.
fn checkpoint_text(arguments: &mut Arguments<'_>, answer: &mut Answer) {
    match SignedCheckpoint::decode(arguments.alloc(), arguments.text().as_str()) {
        Ok(checkpoint) => {
            answer_to(answer, checkpoint.encode(arguments.alloc()));
            drop(checkpoint);
        }
        Err(error) => answer.error(error),
    }
}

/// `counts BYTES`: how many contents and signatures the checkpoint of a text has.
fn counts(arguments: &mut Arguments<'_>, answer: &mut Answer) {
    let bytes = arguments.hex();
    let Ok(text) = std::str::from_utf8(&bytes) else {
        return arguments.refuse();
    };
    match SignedCheckpoint::decode(arguments.alloc(), text) {
        Ok(checkpoint) => {
            answer.ok();
            answer.value(&checkpoint.note.other_content.len());
            answer.value(&checkpoint.signatures.len());
            drop(checkpoint);
        }
        Err(error) => answer.error(error),
    }
}

/// `borrowed TEXT`: what a text is read as by `SignedNote::decode`: the note's text, and each signature.
fn borrowed(arguments: &mut Arguments<'_>, answer: &mut Answer) {
    let text = arguments.text();
    match SignedNote::decode(arguments.alloc(), text.as_str()) {
        Ok(note) => {
            answer_to(answer, note.marshal(arguments.alloc()));
            add_signatures(answer, note.signatures());
            drop(note);
        }
        Err(error) => answer.error(error),
    }
}

/// `borrowed_text TEXT`: what a note that was read in its text is written as.
fn borrowed_text(arguments: &mut Arguments<'_>, answer: &mut Answer) {
    let text = arguments.text();
    match Note::read(arguments.alloc(), text.as_str()) {
        Ok(note) => answer_to(answer, note.marshal(arguments.alloc())),
        Err(error) => answer.error(error),
    }
}
