//! Texts of Rekor's API as the bytes that they encode.
ghost use Rattle.std.specs.Prelude.{◌≡◌};
ghost use Rattle.sig_base.specs.Answers.{Answers};
ghost use Rattle.sig_base.specs.ResultSteps.{each_from};
ghost use Rattle.sig_json_text.specs.Canonical.{canonical_of};
ghost use Rattle.sig_rekor_models.specs.Body.{body_tree, seen_body};
ghost use Rattle.sig_signing.specs.Decoded.{base64_or_refused, canonical_or_refused, hex_at, hex_or_refused};

use crate::conversion_error::ConversionError;
use hex::FromHexError;
use sig_base::{Bytes, Entries, OwnedList};
use sig_json_text::{CanonicalError, canonical};
use sig_rekor_models::Body;
use std::alloc::Global;

/// The bytes that each of the texts is in hexadecimal, in order.
#[tactic(auto, using(sig_base::proofs::IndexedElements::each_left))]
pub(crate) fn decode_each_hex(alloc: Global, texts: &Entries) -> Result<Entries, ConversionError>
    ensures { Answers ConversionError.OutOfMemory (λ found. found) result (each_from hex_at 0 texts.now) }
{
    let mut found = OwnedList::new(alloc);
    'texts: for text in texts.as_slice() {
        let bytes = decode_hex(alloc, text.as_slice())?;
        found.push(bytes)?;
    }
    Ok(Entries::of(alloc, found))
}

/// The bytes that hexadecimal digits in either case are, however many.
#[tactic(auto, unfolding(crate::specs::Decoded::hex_bytes))]
pub(crate) fn decode_hex(alloc: Global, text: &[u8]) -> Result<Bytes, ConversionError>
    ensures { Answers ConversionError.OutOfMemory (λ bytes. bytes) result (hex_or_refused text.now) }
{
    match hex::decode(alloc, text) {
        Ok(bytes) => Ok(Bytes::from(bytes)),
        Err(FromHexError::OutOfMemory) => Err(ConversionError::OutOfMemory),
        Err(_) => Err(ConversionError::Refused),
    }
}

/// The bytes that a text is in padded base64.
pub(crate) fn decode_base64(alloc: Global, text: &[u8]) -> Result<Bytes, ConversionError>
    ensures { Answers ConversionError.OutOfMemory (λ bytes. bytes) result (base64_or_refused text.now) }
{
    match Bytes::of_base64(alloc, text)? {
        Some(bytes) => Ok(bytes),
        None => Err(ConversionError::Refused),
    }
}

/// The canonical JSON (RFC 8785) of a body.
pub(crate) fn canonical_body(alloc: Global, body: &Body) -> Result<Bytes, ConversionError>
    ensures { Answers ConversionError.OutOfMemory (λ bytes. bytes) result
        (canonical_or_refused (canonical_of (body_tree (seen_body body.now)))) }
{
    let Ok(json) = body.json(alloc) else {
        return Err(ConversionError::OutOfMemory);
    };
    match canonical(alloc, json.view()) {
        Ok(text) => Ok(Bytes::copy_of(alloc, text.as_str().as_bytes())?),
        Err(CanonicalError::IntegerTooLarge) => Err(ConversionError::Refused),
        Err(CanonicalError::OutOfMemory) => Err(ConversionError::OutOfMemory),
    }
}
