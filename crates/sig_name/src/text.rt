//! The text of a distinguished name (RFC 4514).
ghost use Rattle.std.specs.Prelude.{◌≡◌, ◌++◌, ◌∷◌, IfOk, OnOk};
ghost use Rattle.sig_name.specs.Name.{parts_in};
ghost use Rattle.sig_name.specs.NameText.{after_first, escaped, escaped_first, escaped_last, is_special, name_text};
ghost use Rattle.sig_name.specs.NameText.{part_text, parts_text, text_if, text_in, value_text};
ghost use Rattle.sig_name.specs.Seen.{all_seen, seen};

use crate::name::{NamePart, parts_in};
use sig_base::{OutOfMemory, Text};
use std::alloc::Global;

/// How many parts a name may have that is shown as a text.
pub const MOST_PARTS: usize = 64;

/// Returns the text of a distinguished name (RFC 4514), of its DER: `CN=sigstore-intermediate,O=sigstore.dev`. `None`
/// if the bytes are not a name of parts with one attribute each, whose types have names in section 3 and whose values
/// are texts; and if there are more than [`MOST_PARTS`]. Fails only if out of memory.
pub fn name_text(alloc: Global, der: &[u8]) -> Result<Option<Text>, OutOfMemory>
    ensures { IfOk result (λ text. text ≡ name_text der.now) }
{
    match parts_in(alloc, der)? {
        Some(parts) => {
            let text = text_of(alloc, parts.as_slice());
            drop(parts);
            text
        }
        None => Ok(None),
    }
}

/// The text of parts. `None` if there are more than [`MOST_PARTS`], or it is not UTF-8.
fn text_of(alloc: Global, parts: &[NamePart<'_>]) -> Result<Option<Text>, OutOfMemory>
    ensures { IfOk result (λ text. text ≡ text_if (all_seen parts.now)) }
{
    if parts.len() > MOST_PARTS {
        return Ok(None);
    }
    let mut out = Vec::new(alloc);
    push_parts(&mut out, parts)?;
    let text = text_in(alloc, out.as_slice());
    drop(out);
    text
}

/// Adds parts, the last one first.
fn push_parts(out: &mut Vec<u8>, parts: &[NamePart<'_>]) -> Result<(), OutOfMemory>
    ensures { OnOk result (out.new.items ≡ out.old.items ++ parts_text (all_seen parts.now)) }
{
    let Some((first, others)) = parts.split_first() else {
        return Ok(());
    };
    if !others.is_empty() {
        push_parts(out, others)?;
        out.push(b',')?;
    }
    push_part(out, first)
}

/// Adds the name of a part's type, `=` and its value.
fn push_part(out: &mut Vec<u8>, part: &NamePart<'_>) -> Result<(), OutOfMemory>
    ensures { OnOk result (out.new.items ≡ out.old.items ++ part_text (seen part.now)) }
{
    out.extend_from_slice(part.name.as_bytes())?;
    out.push(b'=')?;
    push_value(out, part.value)
}

/// Adds a value with its escapes (section 2.4).
fn push_value(out: &mut Vec<u8>, value: &[u8]) -> Result<(), OutOfMemory>
    ensures { OnOk result (out.new.items ≡ out.old.items ++ value_text value.now) }
{
    let Some((first, others)) = value.split_first() else {
        return Ok(());
    };
    push_first(out, *first)?;
    let mut rest = others;
    'bytes: while let Some((byte, after)) = rest.split_first() {
        push_after(out, *byte, after)?;
        rest = after;
    }
    Ok(())
}

/// Adds the first byte of a value.
fn push_first(out: &mut Vec<u8>, byte: u8) -> Result<(), OutOfMemory>
    ensures { OnOk result (out.new.items ≡ out.old.items ++ escaped_first byte) }
{
    if byte == b' ' || byte == b'#' {
        out.push(b'\\')?;
        out.push(byte)?;
        return Ok(());
    }
    push_escaped(out, byte)
}

/// Adds a byte of a value, escaped if it has to be in every position.
fn push_escaped(out: &mut Vec<u8>, byte: u8) -> Result<(), OutOfMemory>
    ensures { OnOk result (out.new.items ≡ out.old.items ++ escaped byte) }
{
    if is_special(byte) {
        out.push(b'\\')?;
        out.push(byte)?;
    } else if byte == 0 {
        out.extend_from_slice(b"\\00")?;
    } else {
        out.push(byte)?;
    }
    Ok(())
}

/// Whether a character is escaped in every position (section 2.4).
fn is_special(byte: u8) -> bool
    ensures { result ≡ is_special byte }
{
    matches!(byte, b'"' | b'+' | b',' | b';' | b'<' | b'>' | b'\\')
}

/// Adds a byte of a value after the first; `rest` follows it.
fn push_after(out: &mut Vec<u8>, byte: u8, rest: &[u8]) -> Result<(), OutOfMemory>
    ensures { OnOk result (out.new.items ++ after_first rest.now
        ≡ out.old.items ++ after_first (byte ∷ rest.now)) }
{
    if rest.is_empty() {
        push_last(out, byte)
    } else {
        push_escaped(out, byte)
    }
}

/// Adds the last byte of a value.
fn push_last(out: &mut Vec<u8>, byte: u8) -> Result<(), OutOfMemory>
    ensures { OnOk result (out.new.items ≡ out.old.items ++ escaped_last byte) }
{
    if byte == b' ' {
        out.push(b'\\')?;
        out.push(byte)?;
        return Ok(());
    }
    push_escaped(out, byte)
}

/// The text that the bytes are. `None` if they are not UTF-8.
#[tactic(auto, using(crate::proofs::Values::utf8_some, crate::proofs::Values::utf8_none))]
fn text_in(alloc: Global, bytes: &[u8]) -> Result<Option<Text>, OutOfMemory>
    ensures { IfOk result (λ text. text ≡ text_in bytes.now) }
{
    match std::str::from_utf8(bytes) {
        Ok(text) => Ok(Some(Text::copy_of(alloc, text)?)),
        Err(_) => Ok(None),
    }
}
