//! Which signatures a checker is asked about, and in which order.

use crate::parts::{Accepted, KEY, keyed};
use crate::shown::answer_to;
use sig_cases::{Answer, Arguments, Recorder};
use sig_part_cases::checkpoint;
use sig_rekor::SignedNote;

/// `asked CHECKPOINT NOTES SIGNATURES`: as `signed`, and each signature that the checker was asked about, in order.
pub(crate) fn asked(arguments: &mut Arguments<'_>, answer: &mut Answer) {
    let checkpoint = checkpoint(arguments);
    let Accepted { key, table } = keyed(arguments, answer, KEY);
    let recorder = Recorder::new(arguments.alloc(), table);
    let check = checkpoint.verify_signature(arguments.alloc(), &key, &recorder);
    answer_to(answer, check);
    recorder.signatures_in(answer);
    drop(checkpoint);
}

/// `borrowed_asked CHECKPOINT NOTES SIGNATURES`: as `borrowed_signed`, and each signature that the checker was asked
/// about, in order.
pub(crate) fn borrowed_asked(arguments: &mut Arguments<'_>, answer: &mut Answer) {
    let text = arguments.text();
    let Accepted { key, table } = keyed(arguments, answer, KEY);
    let recorder = Recorder::new(arguments.alloc(), table);
    match SignedNote::decode(arguments.alloc(), text.as_str()) {
        Ok(note) => {
            let check = note.verify_signature(arguments.alloc(), &key, &recorder);
            answer_to(answer, check);
            drop(note);
        }
        Err(error) => answer.error(error),
    }
    recorder.signatures_in(answer);
}
