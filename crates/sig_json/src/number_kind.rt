//! The kinds of JSON numbers: integers, and not texts of digits.
ghost use Rattle.std.specs.Prelude.{◌≡◌};
ghost use Rattle.sig_json.specs.NumberKinds.{i64_number_of, u64_number_of};
ghost use Rattle.sig_json.specs.Tree.{tree};

use crate::element::ElementReader;
use crate::error::MemberError;
use crate::view::Json;
use std::alloc::Global;

/// Reads JSON numbers from -2^63 to 2^63 - 1.
pub enum I64NumberReader {}

/// Reads JSON numbers from 0 to 2^64 - 1.
pub enum U64NumberReader {}

impl ElementReader for I64NumberReader {
    ghost use Rattle.sig_json.specs.NumberKinds.{i64_number_of};

    type Item = i64;

    ghost meaning = { i64_number_of };

    fn read(_alloc: Global, json: Json<'_, '_>) -> Result<i64, MemberError> {
        signed_number(json).ok_or(MemberError::Member)
    }
}

impl ElementReader for U64NumberReader {
    ghost use Rattle.sig_json.specs.NumberKinds.{u64_number_of};

    type Item = u64;

    ghost meaning = { u64_number_of };

    fn read(_alloc: Global, json: Json<'_, '_>) -> Result<u64, MemberError> {
        unsigned_number(json).ok_or(MemberError::Member)
    }
}

/// The number from -2^63 to 2^63 - 1 that a value is.
#[tactic(auto, using(crate::proofs::Numerals::values), unfolding(crate::specs::NumberKinds::i64_number_of))]
fn signed_number(json: Json<'_, '_>) -> Option<i64>
    ensures { result ≡ i64_number_of (tree json.entry) }
{
    match json.integer() {
        Some(number) => i64::try_from(number).ok(),
        None => None,
    }
}

/// The number from 0 to 2^64 - 1 that a value is.
#[tactic(auto, using(crate::proofs::Numerals::values), unfolding(crate::specs::NumberKinds::u64_number_of))]
fn unsigned_number(json: Json<'_, '_>) -> Option<u64>
    ensures { result ≡ u64_number_of (tree json.entry) }
{
    match json.integer() {
        Some(number) => u64::try_from(number).ok(),
        None => None,
    }
}
