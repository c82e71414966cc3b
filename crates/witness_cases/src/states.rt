//! Texts of states.

use sig_cases::{Answer, Arguments};
use sig_witness::Witness;

/// `state TEXT`: how many origins the witness of a text has, and `same` if it is written as that text again.
pub(crate) fn read(arguments: &mut Arguments<'_>, answer: &mut Answer) {
    let alloc = arguments.alloc();
    let text = arguments.text();
    match Witness::decode(alloc, text.as_str()) {
        Ok(witness) => {
            answer.ok();
            answer.value(&witness.len());
            match witness.encode(alloc) {
                Ok(again) if again.as_str() == text.as_str() => answer.value(&"same"),
                Ok(again) => answer.debug(&again.as_str()),
                Err(_) => answer.out_of_memory(),
            }
            drop(witness);
        }
        Err(error) => answer.error(error),
    }
}
