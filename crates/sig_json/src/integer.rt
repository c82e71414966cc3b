//! Integers: whole JSON numbers, and texts of an optional `-` and digits.
ghost use Rattle.std.specs.Prelude.{◌≡◌, ◌==◌, option_and_then, slice_index};
ghost use Rattle.sig_json.specs.Integer.{natural_text, integer_text, integer_of, in_u64, in_i64};
ghost use Rattle.sig_json.specs.Kinds.{u64_of, i64_of};
ghost use Rattle.sig_json.specs.Numerals.{below_word};
ghost use Rattle.sig_json.specs.Tree.{tree};

use crate::view::Json;

/// The integer from 0 to 2^64 - 1 that a value is.
#[tactic(auto, using(crate::proofs::Numerals::values), unfolding(crate::specs::Kinds::u64_of))]
pub(crate) fn u64_of(json: Json<'_, '_>) -> Option<u64>
    ensures { result ≡ u64_of (tree json.entry) }
{
    match json.integer() {
        Some(number) => u64::try_from(number).ok(),
        None => match json.text() {
            Some(text) => unsigned_in(text),
            None => None,
        },
    }
}

/// The number of a text, where it is from 0 to 2^64 - 1.
#[tactic(auto, using(crate::proofs::Numerals::unsigned_texts))]
fn unsigned_in(text: &str) -> Option<u64>
    ensures { result ≡ option_and_then in_u64 (integer_text text.now) }
{
    match text.strip_prefix('-') {
        Some(digits) => match natural_in(digits) {
            Some(0) => Some(0),
            _ => None,
        },
        None => natural_in(text),
    }
}

/// The number of a text of one digit or more, where it is below 2^64.
#[tactic(auto, using(crate::proofs::Numerals::naturals))]
fn natural_in(text: &str) -> Option<u64>
    ensures { result ≡ option_and_then below_word (natural_text text.now) }
{
    if has_plus(text) {
        None
    } else {
        text.parse::<u64>().ok()
    }
}

/// Whether the text begins with a plus sign, which `parse` takes and no integer here has.
fn has_plus(text: &str) -> bool
    ensures { result ≡ (slice_index text.now 0 == 43) }
{
    let bytes = text.as_bytes();
    !bytes.is_empty() && bytes[0] == b'+'
}

/// The integer from -2^63 to 2^63 - 1 that a value is.
#[tactic(auto, using(crate::proofs::Numerals::values), unfolding(crate::specs::Kinds::i64_of))]
pub(crate) fn i64_of(json: Json<'_, '_>) -> Option<i64>
    ensures { result ≡ i64_of (tree json.entry) }
{
    match json.integer() {
        Some(number) => i64::try_from(number).ok(),
        None => match json.text() {
            Some(text) => signed_in(text),
            None => None,
        },
    }
}

/// The number of a text, where it is from -2^63 to 2^63 - 1.
#[tactic(auto, using(crate::proofs::Numerals::signed_texts))]
fn signed_in(text: &str) -> Option<i64>
    ensures { result ≡ option_and_then in_i64 (integer_text text.now) }
{
    if has_plus(text) {
        None
    } else {
        text.parse::<i64>().ok()
    }
}
