//! Members by the rows of a table: a name, a kind, and whether the member is required. Null is the same as absent.
ghost use Rattle.std.specs.Prelude.{◌≡◌, Some, IfErr, option_map};
ghost use Rattle.sig_json.specs.Member.{member_of, optional_i64, optional_u64, optional_text, optional_bytes};
ghost use Rattle.sig_json.specs.Member.{required, required_i64, required_u64, required_text, required_bytes};
ghost use Rattle.sig_json.specs.Member.{required_hash};
ghost use Rattle.sig_base.specs.Answers.{Answers};
ghost use Rattle.sig_json.specs.OrMember.{or_member};
ghost use Rattle.sig_json.specs.Tree.{tree};

use crate::element::{ElementReader, required};
use crate::error::MemberError;
use crate::integer::{i64_of, u64_of};
use crate::kind::{BytesReader, TextReader, hash};
use crate::view::Json;
use sig_base::{Bytes, Text};
use std::alloc::Global;

/// An integer from -2^63 to 2^63 - 1: a whole JSON number, or a text of an optional `-` and digits; 0 if the member is
/// absent or null. Fails with `Member` if the value is not an object or the member is not such an integer. It takes no
/// memory.
#[tactic(auto, unfolding(crate::specs::Member::optional_or))]
pub fn read_i64(json: Json<'_, '_>, name: &str) -> Result<i64, MemberError>
    ensures value { Answers MemberError.OutOfMemory (λ x. x) result
        (or_member (optional_i64 name.now (tree json.entry))) }
    ensures no_memory { IfErr result (λ e. e ≡ MemberError.Member) }
{
    match find_member(json, name)? {
        Some(value) => i64_of(value).ok_or(MemberError::Member),
        None => Ok(0),
    }
}

/// The member of an object, `None` if it is absent or null. Fails with `Member` if the value is not an object.
#[tactic(auto, unfolding(crate::specs::Member::member_of))]
pub(crate) fn find_member<'a, 't>(
    json: Json<'a, 't>,
    name: &str,
) -> Result<Option<Json<'a, 't>>, MemberError>
    ensures value { Answers MemberError.OutOfMemory (λ m. option_map tree m) result
        (or_member (member_of name.now (tree json.entry))) }
    ensures no_memory { IfErr result (λ e. e ≡ MemberError.Member) }
{
    if json.value.as_object().is_none() {
        return Err(MemberError::Member);
    }
    match json.get(name) {
        Some(value) if !value.is_null() => Ok(Some(value)),
        _ => Ok(None),
    }
}

/// An integer from 0 to 2^64 - 1: a whole JSON number, or a text of an optional `-` and digits; 0 if the member is
/// absent or null. Fails with `Member` if the value is not an object or the member is not such an integer. It takes no
/// memory.
#[tactic(auto, unfolding(crate::specs::Member::optional_or))]
pub fn read_u64(json: Json<'_, '_>, name: &str) -> Result<u64, MemberError>
    ensures value { Answers MemberError.OutOfMemory (λ x. x) result
        (or_member (optional_u64 name.now (tree json.entry))) }
    ensures no_memory { IfErr result (λ e. e ≡ MemberError.Member) }
{
    match find_member(json, name)? {
        Some(value) => u64_of(value).ok_or(MemberError::Member),
        None => Ok(0),
    }
}

/// A text, empty if the member is absent or null. Fails with `Member` if the value is not an object or the member is
/// not a text.
#[tactic(auto, unfolding(crate::specs::Member::optional_or))]
pub fn read_text(alloc: Global, json: Json<'_, '_>, name: &str) -> Result<Text, MemberError>
    ensures { Answers MemberError.OutOfMemory (λ x. x) result (or_member (optional_text name.now (tree json.entry))) }
{
    match find_member(json, name)? {
        Some(value) => TextReader::read(alloc, value),
        None => Ok(Text::copy_of(alloc, "")?),
    }
}

/// Bytes in padded standard base64, empty if the member is absent or null. Fails with `Member` if the value is not an
/// object or the member is not such a text.
#[tactic(auto, unfolding(crate::specs::Member::optional_or))]
pub fn read_bytes(alloc: Global, json: Json<'_, '_>, name: &str) -> Result<Bytes, MemberError>
    ensures { Answers MemberError.OutOfMemory (λ x. x) result (or_member (optional_bytes name.now (tree json.entry))) }
{
    match find_member(json, name)? {
        Some(value) => BytesReader::read(alloc, value),
        None => Ok(Bytes::copy_of(alloc, &[])?),
    }
}

/// A required integer from -2^63 to 2^63 - 1. Fails with `Member` if the value is not an object, or the member is
/// absent, null or not such an integer. It takes no memory.
#[tactic(auto, using(crate::proofs::RequiredMembers::required_members))]
pub fn required_i64(json: Json<'_, '_>, name: &str) -> Result<i64, MemberError>
    ensures value { Answers MemberError.OutOfMemory (λ x. x) result
        (or_member (required_i64 name.now (tree json.entry))) }
    ensures no_memory { IfErr result (λ e. e ≡ MemberError.Member) }
{
    i64_of(require_member(json, name)?).ok_or(MemberError::Member)
}

/// The member of an object. Fails with `Member` if the value is not an object, or the member is absent or null.
#[tactic(auto, unfolding(crate::specs::Member::required))]
pub(crate) fn require_member<'a, 't>(
    json: Json<'a, 't>,
    name: &str,
) -> Result<Json<'a, 't>, MemberError>
    ensures value { Answers MemberError.OutOfMemory tree result
        (or_member (required Some name.now (tree json.entry))) }
    ensures no_memory { IfErr result (λ e. e ≡ MemberError.Member) }
{
    find_member(json, name)?.ok_or(MemberError::Member)
}

/// A required integer from 0 to 2^64 - 1. Fails with `Member` if the value is not an object, or the member is absent,
/// null or not such an integer. It takes no memory.
#[tactic(auto, using(crate::proofs::RequiredMembers::required_members))]
pub fn required_u64(json: Json<'_, '_>, name: &str) -> Result<u64, MemberError>
    ensures value { Answers MemberError.OutOfMemory (λ x. x) result
        (or_member (required_u64 name.now (tree json.entry))) }
    ensures no_memory { IfErr result (λ e. e ≡ MemberError.Member) }
{
    u64_of(require_member(json, name)?).ok_or(MemberError::Member)
}

/// A required hash: 64 hexadecimal digits in either case. Fails with `Member` if the value is not an object, or the
/// member is absent, null or not such a text. It takes no memory.
#[tactic(auto, using(crate::proofs::RequiredMembers::required_members))]
pub fn required_hash(json: Json<'_, '_>, name: &str) -> Result<[u8; 32], MemberError>
    ensures value { Answers MemberError.OutOfMemory (λ x. x) result
        (or_member (required_hash name.now (tree json.entry))) }
    ensures no_memory { IfErr result (λ e. e ≡ MemberError.Member) }
{
    hash(require_member(json, name)?).ok_or(MemberError::Member)
}

/// A required text. Fails with `Member` if the value is not an object, or the member is absent, null or not a text.
pub fn required_text(alloc: Global, json: Json<'_, '_>, name: &str) -> Result<Text, MemberError>
    ensures { Answers MemberError.OutOfMemory (λ x. x) result (or_member (required_text name.now (tree json.entry))) }
{
    required::<TextReader>(alloc, json, name)
}

/// Required bytes in padded standard base64. Fails with `Member` if the value is not an object, or the member is
/// absent, null or not such a text.
pub fn required_bytes(alloc: Global, json: Json<'_, '_>, name: &str) -> Result<Bytes, MemberError>
    ensures { Answers MemberError.OutOfMemory (λ x. x) result (or_member (required_bytes name.now (tree json.entry))) }
{
    required::<BytesReader>(alloc, json, name)
}
