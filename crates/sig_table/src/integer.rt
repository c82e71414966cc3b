//! Rows of integers: JSON numbers, and texts of an optional `-` and digits.
ghost use Rattle.std.specs.Prelude.{◌≡◌, is_some, option_map, Some};
ghost use Rattle.std.specs.Char.{is_ascii_digit};
ghost use Rattle.std.specs.List.{list_all};
ghost use Rattle.sig_base.specs.Answers.{Answers};
ghost use Rattle.sig_json.specs.Integer.{integer_of, integer_text, natural_text};
ghost use Rattle.sig_json.specs.Tree.{tree};
ghost use Rattle.sig_table.specs.Fault.{at_name, here, or_fault, row_fault};
ghost use Rattle.sig_table.specs.Kinds.{below, below_table, i64_table, not_in_range, u64_table, unless};
ghost use Rattle.sig_table.specs.Table.{member_in, optional_row, required_row};
ghost use Rattle.sig_json.specs.Data.{Data};

use crate::fault::{Cause, TableError};
use crate::rows::member;
use crate::table::{after_name, fault_here};
use sig_json::{Json, read_i64, read_u64};
use std::alloc::Global;

/// An optional integer from -2^63 to 2^63 - 1: a member of an object. Fails with `Fault` if the member is there and is
/// not such an integer.
#[tactic(auto, using(crate::proofs::Integers::integers))]
pub fn optional_i64(alloc: Global, json: Json<'_, '_>, name: &str) -> Result<(), TableError>
    ensures { Answers TableError.OutOfMemory (λ x. x) result
        (or_fault (row_fault (optional_row name.now i64_table) (tree json.entry))) }
{
    match member(json, name) {
        Some(value) => row_of(alloc, name, value, read_i64(json, name).is_ok()),
        None => Ok(()),
    }
}

/// Returns the result of an integer's row for this value of its member, which is read or not.
fn row_of(alloc: Global, name: &str, value: Json<'_, '_>, is_read: bool) -> Result<(), TableError>
    ensures { Answers TableError.OutOfMemory (λ x. x) result (or_fault (at_name name.now
        (option_map here (unless is_read (not_in_range (integer_of (tree value.entry))))))) }
{
    if is_read {
        return Ok(());
    }
    Err(after_name(alloc, name, fault_here(alloc, integer_cause(value))))
}

/// What is wrong with a value that is not an integer of the range of a kind.
fn integer_cause(json: Json<'_, '_>) -> Cause
    ensures { result ≡ not_in_range (integer_of (tree json.entry)) }
{
    if json.integer().is_some() {
        return Cause::BeyondRange;
    }
    match json.text() {
        Some(text) if is_integer_text(text.as_bytes()) => Cause::BeyondRange,
        _ => Cause::OtherKind,
    }
}

/// Whether the bytes are an integer: an optional `-` and digits.
#[tactic(auto, unfolding(sig_json::specs::Integer::integer_text))]
fn is_integer_text(bytes: &[u8]) -> bool
    ensures { result ≡ is_some (integer_text bytes.now) }
{
    let Some((first, rest)) = bytes.split_first() else {
        return false;
    };
    if *first == b'-' {
        are_digits(rest)
    } else {
        are_digits(bytes)
    }
}

/// Whether the bytes are digits, one or more.
#[tactic(auto, unfolding(sig_json::specs::Integer::natural_text))]
fn are_digits(bytes: &[u8]) -> bool
    ensures { result ≡ is_some (natural_text bytes.now) }
{
    all_digits(bytes) && !bytes.is_empty()
}

/// Whether every byte is a digit.
fn all_digits(bytes: &[u8]) -> bool
    ensures { result ≡ list_all is_ascii_digit bytes.now }
{
    bytes.iter().all(|byte| byte.is_ascii_digit())
}

/// A required integer from -2^63 to 2^63 - 1: a member of an object. Fails with `Fault` if the member is absent, null,
/// or not such an integer.
#[tactic(auto, using(crate::proofs::Integers::integers))]
pub fn required_i64(alloc: Global, json: Json<'_, '_>, name: &str) -> Result<(), TableError>
    ensures { Answers TableError.OutOfMemory (λ x. x) result
        (or_fault (row_fault (required_row name.now i64_table) (tree json.entry))) }
{
    match member(json, name) {
        Some(value) => row_of(alloc, name, value, read_i64(json, name).is_ok()),
        None => Err(after_name(alloc, name, fault_here(alloc, Cause::Absent))),
    }
}

/// A required integer from 0 to 2^64 - 1: a member of an object. Fails with `Fault` if the member is absent, null, or
/// not such an integer.
#[tactic(auto, using(crate::proofs::Integers::integers))]
pub fn required_u64(alloc: Global, json: Json<'_, '_>, name: &str) -> Result<(), TableError>
    ensures { Answers TableError.OutOfMemory (λ x. x) result
        (or_fault (row_fault (required_row name.now u64_table) (tree json.entry))) }
{
    match member(json, name) {
        Some(value) => row_of(alloc, name, value, read_u64(json, name).is_ok()),
        None => Err(after_name(alloc, name, fault_here(alloc, Cause::Absent))),
    }
}

/// A required integer from 0 to below `end`: a member of an object. Fails with `Fault` if the member is absent, null,
/// or not such an integer.
pub fn required_below(
    alloc: Global,
    json: Json<'_, '_>,
    name: &str,
    end: u64,
) -> Result<(), TableError>
    ensures { Answers TableError.OutOfMemory (λ x. x) result
        (or_fault (row_fault (required_row name.now (below_table end)) (tree json.entry))) }
{
    match member(json, name) {
        Some(value) => row_of(alloc, name, value, is_below(json, name, end)),
        None => Err(after_name(alloc, name, fault_here(alloc, Cause::Absent))),
    }
}

/// Whether a member of an object is an integer from 0 to below this one.
#[tactic(auto, using(crate::proofs::Integers::integers))]
fn is_below(json: Json<'_, '_>, name: &str, end: u64) -> bool
    ensures { (value : Data) → member_in name.now (tree json.entry) ≡ Some value
        → result ≡ is_some (below end value) }
{
    match read_u64(json, name) {
        Ok(number) => number < end,
        Err(_) => false,
    }
}
