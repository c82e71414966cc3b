//! The canonical text of a tree (RFC 8785).
ghost use Rattle.std.specs.Fmt.{signed_decimal};
ghost use Rattle.std.specs.Map.{values_of};
ghost use Rattle.std.specs.Prelude.{◌≡◌, ◌++◌, Some, IfOk, IfErr, IsTrue, IsFalse, OnOk, [], map, string_bytes};
ghost use Rattle.std.specs.Prelude.{option_and_then};
ghost use Rattle.sig_base.specs.Answers.{Answers};
ghost use Rattle.serde_json.specs.Find.{as_integer};
ghost use Rattle.serde_json.specs.View.{number_view};
ghost use Rattle.sig_json.specs.View.{view, items_view, members_view};
ghost use Rattle.sig_json_text.specs.Canonical.{canon, canon_integer, canon_string, canon_items, canon_members};
ghost use Rattle.sig_json_text.specs.Canonical.{canonical_of, in_braces, in_brackets};
ghost use Rattle.sig_json_text.specs.Large.{has_large};
ghost use Rattle.sig_json.specs.NamedTree.{IsNamedTree, AreNamed, NamesAscend, HasNamedValues};
ghost use Rattle.sig_json_text.specs.Order.{KeepsOrder};
ghost use Rattle.sig_json.specs.Tree.{tree};
ghost use Rattle.sig_json_text.specs.Writes.{WritesPart, comma_before, member_text, pair_of, texts_in_turn};

use crate::error::CanonicalError;
use crate::member_order::sorted_members;
use crate::named_member::Member;
use serde_json::{Number, Value};
use sig_base::{OutOfMemory, Text};
use sig_json::{Entry, Json, Tree};
use std::alloc::Global;

/// The greatest integer that a number of 64 bits (IEEE 754) keeps apart from its neighbours: 2^53 - 1.
const GREATEST_INTEGER: u128 = 9_007_199_254_740_991;

/// The canonical text of a value (RFC 8785): the members of each object in the order of the UTF-16 code units of their
/// names, no white space, the shortest escapes. Fails with `IntegerTooLarge` if and only if the value holds an integer
/// outside plus or minus 2^53 - 1, at any depth (`laws::large_integers`).
#[tactic(auto, using(crate::proofs::LargeIntegers::large_integers))]
pub fn canonical(alloc: Global, json: Json<'_, '_>) -> Result<Text, CanonicalError>
    ensures answer { Answers CanonicalError.OutOfMemory (λ text. text) result (canonical_of (tree json.entry)) }
    ensures large { IfErr result (λ e. e ≡ CanonicalError.IntegerTooLarge → IsTrue (has_large (tree json.entry))) }
    ensures small { IfOk result (λ _. IsFalse (has_large (tree json.entry))) }
    ensures ordered { IfOk result (KeepsOrder (tree json.entry)) }
{
    let mut out = String::new(alloc);
    write_value(alloc, json.as_tree(), &mut out)?;
    Ok(Text::from(out))
}

/// Writes a value after the text so far.
#[cycle(canon)]
fn write_value(alloc: Global, value: &Tree<'_>, out: &mut String) -> Result<(), CanonicalError>
    requires { IsNamedTree (view value.now) }
    ensures { WritesPart (string_bytes out.old) result (string_bytes out.new) (canon (view value.now)) }
{
    match value {
        Tree::Null => write_text(out, "null"),
        Tree::Bool(true) => write_text(out, "true"),
        Tree::Bool(false) => write_text(out, "false"),
        Tree::Number(number) => write_number(alloc, number, out),
        Tree::Text(text) => write_quoted(alloc, text.as_str(), out),
        Tree::Array(items) => write_list(alloc, items, out),
        Tree::Object(members) => write_object(alloc, members, out),
    }
}

fn write_text(out: &mut String, text: &str) -> Result<(), CanonicalError>
    ensures written { OnOk result (string_bytes out.new ≡ string_bytes out.old ++ text.now) }
    ensures memory { IfErr result (λ e. e ≡ CanonicalError.OutOfMemory) }
{
    match out.push_str(text) {
        Ok(()) => Ok(()),
        Err(_) => Err(CanonicalError::OutOfMemory),
    }
}

#[tactic(auto, unfolding(crate::specs::Canonical::canon_integer))]
fn write_number(alloc: Global, number: &Number, out: &mut String) -> Result<(), CanonicalError>
    ensures { WritesPart (string_bytes out.old) result (string_bytes out.new)
        (option_and_then canon_integer (as_integer (number_view number.now))) }
{
    let Some(integer) = number.as_i128() else {
        return Err(CanonicalError::IntegerTooLarge);
    };
    if integer.unsigned_abs() > GREATEST_INTEGER {
        return Err(CanonicalError::IntegerTooLarge);
    }
    write_integer(alloc, integer, out)
}

fn write_integer(alloc: Global, integer: i128, out: &mut String) -> Result<(), CanonicalError>
    ensures written { OnOk result (string_bytes out.new ≡ string_bytes out.old ++ signed_decimal integer) }
    ensures memory { IfErr result (λ e. e ≡ CanonicalError.OutOfMemory) }
{
    let Ok(digits) = format!(in alloc; "{integer}") else {
        return Err(CanonicalError::OutOfMemory);
    };
    write_text(out, digits.as_str())
}

fn write_quoted(alloc: Global, text: &str, out: &mut String) -> Result<(), CanonicalError>
    ensures written { OnOk result (string_bytes out.new ≡ string_bytes out.old ++ canon_string text.now) }
    ensures memory { IfErr result (λ e. e ≡ CanonicalError.OutOfMemory) }
{
    let quoted = quoted_text(alloc, text)?;
    write_text(out, quoted.as_str())
}

/// A text in quotation marks.
#[tactic(auto, using(crate::proofs::CanonicalTexts::quoted_texts))]
fn quoted_text(alloc: Global, text: &str) -> Result<String, OutOfMemory>
    ensures { IfOk result (λ quoted. string_bytes quoted ≡ canon_string text.now) }
{
    let value = Value::try_from_str(alloc, text)?;
    Ok(value.to_string(alloc)?)
}

#[cycle(canon)]
#[tactic(auto, using(crate::proofs::MemberTexts::parts))]
fn write_list(alloc: Global, items: &Vec<Tree<'_>>, out: &mut String) -> Result<(), CanonicalError>
    requires { AreNamed (items_view items.now.items) }
    ensures { WritesPart (string_bytes out.old) result (string_bytes out.new)
        (option_and_then (λ texts. Some (in_brackets texts)) (canon_items (items_view items.now.items))) }
{
    write_text(out, "[")?;
    'items: for (place, item) in items.iter().enumerate() {
        write_comma(out, place)?;
        write_value(alloc, item, out)?;
    }
    write_text(out, "]")
}

/// Adds the comma before a part of a list or an object, except the first.
fn write_comma(out: &mut String, place: usize) -> Result<(), CanonicalError>
    ensures written { OnOk result (string_bytes out.new ≡ string_bytes out.old ++ comma_before place) }
    ensures memory { IfErr result (λ e. e ≡ CanonicalError.OutOfMemory) }
{
    if place == 0 {
        return Ok(());
    }
    write_text(out, ",")
}

#[cycle(canon)]
#[tactic(auto, using(crate::proofs::MemberTexts::objects))]
fn write_object(
    alloc: Global,
    members: &Vec<Entry<'_>>,
    out: &mut String,
) -> Result<(), CanonicalError>
    requires { NamesAscend (members_view members.now.items) × HasNamedValues (members_view members.now.items) }
    ensures { WritesPart (string_bytes out.old) result (string_bytes out.new)
        (option_and_then (λ sorted. Some (in_braces (values_of sorted)))
        (canon_members (members_view members.now.items) [])) }
{
    let sorted = sorted_members(alloc, members)?;
    write_members(alloc, &sorted, out)
}

/// Writes members, sorted already, in braces.
#[cycle(canon)]
#[tactic(auto, using(crate::proofs::MemberTexts::parts))]
fn write_members(
    alloc: Global,
    members: &Vec<Member<'_, '_>>,
    out: &mut String,
) -> Result<(), CanonicalError>
    ensures { WritesPart (string_bytes out.old) result (string_bytes out.new)
        (option_and_then (λ texts. Some (in_braces texts)) (texts_in_turn (map pair_of members.now.items))) }
{
    write_text(out, "{")?;
    'members: for (place, member) in members.iter().enumerate() {
        write_comma(out, place)?;
        write_member(alloc, member, out)?;
    }
    write_text(out, "}")
}

#[cycle(canon)]
#[tactic(auto, using(crate::proofs::MemberTexts::parts))]
fn write_member(
    alloc: Global,
    member: &Member<'_, '_>,
    out: &mut String,
) -> Result<(), CanonicalError>
    ensures { WritesPart (string_bytes out.old) result (string_bytes out.new) (member_text (pair_of member.now)) }
{
    write_quoted(alloc, member.name, out)?;
    write_text(out, ":")?;
    write_value(alloc, member.value, out)
}

/// A text in quotation marks, with the escapes of canonical JSON (RFC 8785 section 3.2.2.2). Fails only if memory runs
/// out.
pub fn quoted(alloc: Global, text: &str) -> Result<Text, OutOfMemory>
    ensures { IfOk result (λ quoted. quoted ≡ canon_string text.now) }
{
    Ok(Text::from(quoted_text(alloc, text)?))
}
