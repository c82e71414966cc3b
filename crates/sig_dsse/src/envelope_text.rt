//! An envelope as text.
ghost use Rattle.std.specs.Prelude.{◌≡◌, ◌++◌, [], ◌∷◌, map, codes, IfOk, OnOk, string_bytes};
ghost use Rattle.sig_base.specs.Base64.{base64_text};
ghost use Rattle.sig_json_text.specs.Canonical.{canon_string, in_braces, in_brackets};
ghost use Rattle.sig_json_text.specs.Spells.{texts_of};
ghost use Rattle.sig_dsse.specs.EnvelopeText.{envelope_member, text_member, bytes_member, list_member};
ghost use Rattle.sig_dsse.specs.EnvelopeText.{envelope_signature_text};
ghost use Rattle.sig_dsse.specs.EnvelopeText.{envelope_text};
ghost use Rattle.sig_dsse.specs.Signatures.{no_parts};

use crate::envelope::{DsseEnvelope, DsseSignature};
use crate::signatures::{DsseSignatures, SparseSignature};
use sig_base::{OutOfMemory, Text};
use sig_json_text::quoted;
use std::alloc::Global;

/// The JSON of an envelope: `payload`, `payloadType` and `signatures` in this order, in a signature `sig` and `keyid`.
/// Empty members are omitted, bytes are written in padded standard base64 (RFC 4648 section 4), texts escaped as in
/// canonical JSON (RFC 8785 section 3.2.2.2), and there is no white space. Fails only if out of memory.
pub fn envelope_json(alloc: Global, envelope: &DsseEnvelope) -> Result<Text, OutOfMemory>
    ensures { IfOk result (λ text. text ≡ envelope_text envelope.now) }
{
    let mut members = Vec::new(alloc);
    push_bytes(alloc, &mut members, "payload", envelope.payload.as_slice())?;
    push_text(
        alloc,
        &mut members,
        "payloadType",
        envelope.payload_type.as_str(),
    )?;
    push_signatures(alloc, &mut members, &envelope.signatures)?;
    Ok(Text::from(braced(alloc, &members)?))
}

/// Adds the member of some bytes, unless they are empty.
fn push_bytes(
    alloc: Global,
    members: &mut Vec<String>,
    name: &str,
    bytes: &[u8],
) -> Result<(), OutOfMemory>
    ensures { OnOk result (texts_of members.new.items
        ≡ texts_of members.old.items ++ bytes_member name.now bytes.now) }
{
    let text = Text::in_base64(alloc, bytes)?;
    push_text(alloc, members, name, text.as_str())
}

/// Adds the member of a text, unless it is empty.
#[tactic(auto, using(crate::proofs::EnvelopeTexts::parts))]
fn push_text(
    alloc: Global,
    members: &mut Vec<String>,
    name: &str,
    text: &str,
) -> Result<(), OutOfMemory>
    ensures { OnOk result (texts_of members.new.items ≡ texts_of members.old.items ++ text_member name.now text.now) }
{
    if text.is_empty() {
        return Ok(());
    }
    let value = quoted(alloc, text)?;
    members.push(member_json(alloc, name, value.as_str())?)?;
    Ok(())
}

/// Adds the member of the signatures, unless there are none.
#[tactic(auto, using(crate::proofs::EnvelopeTexts::parts))]
fn push_signatures(
    alloc: Global,
    members: &mut Vec<String>,
    signatures: &DsseSignatures,
) -> Result<(), OutOfMemory>
    ensures { OnOk result (texts_of members.new.items
        ≡ texts_of members.old.items ++ list_member (codes "signatures")
        (map envelope_signature_text signatures.now)) }
{
    if signatures.len() == 0 {
        return Ok(());
    }
    let list = signatures_json(alloc, signatures)?;
    members.push(member_json(alloc, "signatures", list.as_str())?)?;
    Ok(())
}

fn signatures_json(alloc: Global, signatures: &DsseSignatures) -> Result<String, OutOfMemory>
    ensures { IfOk result (λ text. string_bytes text ≡ in_brackets (map envelope_signature_text signatures.now)) }
{
    let texts = signature_texts(alloc, signatures)?;
    let joined = texts.join(alloc, ",")?;
    Ok(format!(in alloc; "[{joined}]")?)
}

#[tactic(auto, using(crate::proofs::EnvelopeTexts::signed))]
fn signature_texts(alloc: Global, signatures: &DsseSignatures) -> Result<Vec<String>, OutOfMemory>
    ensures { IfOk result (λ texts. texts_of texts.items ≡ map envelope_signature_text signatures.now) }
{
    let mut texts = Vec::new(alloc);
    'signatures: for signature in signatures.as_slice() {
        texts.push(sparse_json(alloc, signature, signatures.empty())?)?;
    }
    Ok(texts)
}

/// The JSON of a signature; `empty` is one without parts.
fn sparse_json(
    alloc: Global,
    signature: &SparseSignature,
    empty: &DsseSignature,
) -> Result<String, OutOfMemory>
    requires { empty.now ≡ no_parts }
    ensures { IfOk result (λ text. string_bytes text ≡ envelope_signature_text signature.now) }
{
    signature_json(alloc, signature.get(empty))
}

fn signature_json(alloc: Global, signature: &DsseSignature) -> Result<String, OutOfMemory>
    ensures { IfOk result (λ text. string_bytes text ≡ envelope_signature_text signature.now) }
{
    let mut members = Vec::new(alloc);
    push_bytes(alloc, &mut members, "sig", signature.sig.as_slice())?;
    push_text(alloc, &mut members, "keyid", signature.keyid.as_str())?;
    braced(alloc, &members)
}

/// A member: its name in quotation marks, a colon, and the text of its value.
fn member_json(alloc: Global, name: &str, value: &str) -> Result<String, OutOfMemory>
    ensures { IfOk result (λ text. string_bytes text ≡ envelope_member name.now value.now) }
{
    let name = quoted(alloc, name)?;
    Ok(format!(in alloc; "{}:{value}", name.as_str())?)
}

fn braced(alloc: Global, members: &Vec<String>) -> Result<String, OutOfMemory>
    ensures { IfOk result (λ text. string_bytes text ≡ in_braces (texts_of members.now.items)) }
{
    let joined = members.join(alloc, ",")?;
    Ok(format!(in alloc; "{{{joined}}}")?)
}
