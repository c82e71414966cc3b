//! The compact text of a tree.
ghost use Rattle.std.specs.Prelude.{◌≡◌, ◌≤◌, ◌++◌, false, Ok, IfOk, OnOk};
ghost use Rattle.json.specs.Tree.{json_tokens, items_tokens, members_tokens};
ghost use Rattle.serde_json.specs.Data.{depth, array, object, number as numeral};
ghost use Rattle.serde_json.specs.Find.{is_float};
ghost use Rattle.serde_json.specs.Read.{max_depth};
ghost use Rattle.serde_json.specs.View.{number_view};
ghost use Rattle.serde_json.specs.Written.{compact_text, has_float, items_have_float, members_have_float, outline};
ghost use Rattle.serde_json.specs.Written.{items_outline, members_outline};
ghost use Rattle.sig_json.specs.Document.{document_of};
ghost use Rattle.sig_json_text.specs.Range.{InRange, AreInRange, HasValuesInRange};
ghost use Rattle.sig_json.specs.Tree.{tree};
ghost use Rattle.sig_json.specs.View.{view, items_view, members_view};

use json::Writer;
use serde_json::Number;
use sig_base::{OutOfMemory, Text};
use sig_json::{Entry, Json, Tree};
use std::alloc::{AllocError, Global};

/// The text of a value without white space, members in the byte order of their names. Where lists and objects nest to
/// at most 127 it is read as a document of the same tree. Fails only if out of memory.
#[tactic(auto, using(crate::proofs::CompactTexts::compact_texts))]
pub fn compact(alloc: Global, json: Json<'_, '_>) -> Result<Text, OutOfMemory>
    ensures text { IfOk result (λ text. text ≡ compact_text (tree json.entry)) }
    ensures reads_back { IfOk result (λ text.
        depth (tree json.entry) ≤ max_depth → document_of text ≡ Ok (tree json.entry)) }
{
    let mut out = Writer::new(Vec::new(alloc));
    write_value(json.as_tree(), &mut out)?;
    match String::from_utf8(out.into_inner()) {
        Ok(text) => Ok(Text::from(text)),
        // The writer's bytes are UTF-8.
        Err(_) => unreachable!(),
    }
}

/// Writes a value as the tokens of its text.
#[cycle(write)]
#[tactic(auto, using(crate::proofs::CompactTexts::values))]
fn write_value(value: &Tree<'_>, out: &mut Writer) -> Result<(), AllocError>
    requires { has_float (view value.now) ≡ false }
    ensures tokens { OnOk result (out.new.tokens ≡ out.old.tokens ++ json_tokens (outline (view value.now))) }
    ensures before { OnOk result (out.new.before ≡ out.old.before) }
    ensures range { OnOk result (InRange (view value.now)) }
{
    match value {
        Tree::Null => out.null(),
        Tree::Bool(truth) => out.boolean(*truth),
        Tree::Number(number) => write_number(number, out),
        Tree::Text(text) => out.string(text.as_str()),
        Tree::Array(items) => write_items(items, out),
        Tree::Object(members) => write_members(members, out),
    }
}

fn write_number(number: &Number, out: &mut Writer) -> Result<(), AllocError>
    requires { is_float (number_view number.now) ≡ false }
    ensures tokens { OnOk result (out.new.tokens
        ≡ out.old.tokens ++ json_tokens (outline (numeral (number_view number.now)))) }
    ensures before { OnOk result (out.new.before ≡ out.old.before) }
    ensures range { OnOk result (InRange (numeral (number_view number.now))) }
{
    if let Some(natural) = number.as_u64() {
        return out.u64(natural);
    }
    // A number that is not a float is an integer.
    match number.as_i64() {
        Some(integer) => out.i64(integer),
        None => Ok(()),
    }
}

#[cycle(write)]
#[tactic(auto, using(crate::proofs::CompactTexts::lists))]
fn write_items(items: &Vec<Tree<'_>>, out: &mut Writer) -> Result<(), AllocError>
    requires { items_have_float (items_view items.now.items) ≡ false }
    ensures tokens { OnOk result (out.new.tokens
        ≡ out.old.tokens ++ json_tokens (outline (array (items_view items.now.items)))) }
    ensures before { OnOk result (out.new.before ≡ out.old.before) }
    ensures range { OnOk result (AreInRange (items_view items.now.items)) }
{
    out.begin_array()?;
    'items: for item in items {
        write_value(item, out)?;
    }
    out.end_array()
}

#[cycle(write)]
#[tactic(auto, using(crate::proofs::CompactTexts::objects))]
fn write_members(members: &Vec<Entry<'_>>, out: &mut Writer) -> Result<(), AllocError>
    requires { members_have_float (members_view members.now.items) ≡ false }
    ensures tokens { OnOk result (out.new.tokens
        ≡ out.old.tokens ++ json_tokens (outline (object (members_view members.now.items)))) }
    ensures before { OnOk result (out.new.before ≡ out.old.before) }
    ensures range { OnOk result (HasValuesInRange (members_view members.now.items)) }
{
    out.begin_object()?;
    'members: for member in members {
        out.key(member.0.as_str())?;
        write_value(&member.1, out)?;
    }
    out.end_object()
}
