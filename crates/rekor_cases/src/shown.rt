//! How what was read is shown.

use sig_base::Text;
use sig_cases::Answer;
use sig_rekor::{Checkpoint, CheckpointSignature, OtherContent, SignedCheckpoint};
use std::fmt::{Debug, Display};

/// What a call may return, as values of a line.
pub(crate) trait Shown: Drop {
    /// Adds the values.
    fn add_to(&self, answer: &mut Answer);
}

/// The line for what a call returned: `ok` and its values, or the error.
pub(crate) fn answer_to<T: Shown, E: Debug + Display + Drop>(
    answer: &mut Answer,
    returned: Result<T, E>,
) {
    match returned {
        Ok(value) => {
            answer.ok();
            value.add_to(answer);
        }
        Err(error) => answer.error(error),
    }
}

/// A check that passed has no values.
impl Shown for () {
    fn add_to(&self, _answer: &mut Answer) {}
}

impl Shown for Text {
    fn add_to(&self, answer: &mut Answer) {
        answer.debug(self);
    }
}

/// The value, or `none`.
impl<T: Shown> Shown for Option<T> {
    fn add_to(&self, answer: &mut Answer) {
        match self {
            Some(value) => value.add_to(answer),
            None => answer.value(&"none"),
        }
    }
}

/// The note and the signatures.
impl Shown for SignedCheckpoint {
    fn add_to(&self, answer: &mut Answer) {
        self.note.add_to(answer);
        add_signatures(answer, self.signatures.as_slice());
    }
}

/// The origin, the size, the hash, and each content.
impl Shown for Checkpoint {
    fn add_to(&self, answer: &mut Answer) {
        answer.debug(&self.origin);
        answer.value(&self.size);
        answer.hex(&self.hash);
        for content in self.other_content.as_slice() {
            add_content(answer, content);
        }
    }
}

/// Adds a content: what it is, its texts, and after `=` how it prints.
fn add_content(answer: &mut Answer, content: &OtherContent) {
    match content {
        OtherContent::KeyValue(key, value) => {
            answer.value(&"key");
            answer.debug(key);
            answer.debug(value);
        }
        OtherContent::Value(value) => {
            answer.value(&"value");
            answer.debug(value);
        }
    }
    answer.value(&"=");
    answer.value(content);
}

/// Adds signatures, each after its word.
pub(crate) fn add_signatures(answer: &mut Answer, signatures: &[CheckpointSignature]) {
    for signature in signatures {
        answer.value(&"signature");
        signature.add_to(answer);
    }
}

/// The name, the key's fingerprint, and the bytes.
impl Shown for CheckpointSignature {
    fn add_to(&self, answer: &mut Answer) {
        answer.debug(&self.name);
        answer.hex(&self.key_fingerprint);
        answer.hex(self.raw.as_slice());
    }
}
