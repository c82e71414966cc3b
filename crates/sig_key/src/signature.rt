//! `Signature`: a signature as bytes or as base64 text.
ghost use Rattle.std.specs.Prelude.{◌≡◌, ℕ, IfOk, List, Ok, Err};
ghost use Rattle.std.specs.Option.{ok_or};
ghost use Rattle.sig_base.specs.Answers.{Answers, ComesWhere};
ghost use Rattle.sig_base.specs.declared.error.SigstoreError.{SigstoreError as Refusal};
ghost use Rattle.sig_base.specs.declared.error.SigstoreError.TheVariants.{Base64DecodeError, OutOfMemory as Memory};
ghost use Rattle.sig_key.specs.Signature.{text_bytes, without_line_ends};

use sig_base::laws::are_bytes;
use sig_base::{Bytes, OutOfMemory, Result, SigstoreError};
use std::alloc::Global;

/// A signature, as bytes or as text.
#[derive(Clone, Copy)]
pub enum Signature<'a> {
    /// The signature's bytes.
    Raw(&'a [u8]),
    /// The signature in standard base64 (RFC 4648 section 4), maybe in lines.
    Base64Encoded(&'a [u8]),
}

impl<'a> Signature<'a> {
    ghost use Rattle.sig_key.specs.Signature.{HasBytes, IsOfBytes, signature_bytes};

    /// Returns the signature's bytes: raw ones unchanged; those of a text in strict base64 (padded and canonical);
    /// else those of the text without line feeds and carriage returns. Errors:
    /// - `Base64DecodeError`: neither is strict base64;
    /// - `OutOfMemory`.
    pub fn decode_bytes(&self, alloc: Global) -> Result<Bytes>
        // It is given as these bytes, or as their base64 with any line feeds and carriage returns in it.
        ensures found { (bytes : List ℕ) → ComesWhere Memory result (Ok bytes) (HasBytes self.now bytes) }
        ensures undecodable { ComesWhere Memory result (Err Base64DecodeError)
            ((bytes : List ℕ) → ¬ HasBytes self.now bytes) }
        // The same by the definition.
        ensures answer { Answers Memory (λ b. b) result (ok_or (signature_bytes self.now) Base64DecodeError) }
    {
        // The signature is of bytes.
        self.is_of_bytes();
        self.decoded(alloc)
    }

    /// What contracts see of a text are bytes.
    fn is_of_bytes(&self)
        ensures { IsOfBytes self.now }
    {
        match self {
            Signature::Raw(_) => (),
            Signature::Base64Encoded(text) => are_bytes(text),
        }
    }

    /// Returns the signature's bytes, by the definition.
    fn decoded(&self, alloc: Global) -> Result<Bytes>
        ensures { Answers Memory (λ b. b) result (ok_or (signature_bytes self.now) Base64DecodeError) }
    {
        match self {
            Signature::Raw(bytes) => Ok(Bytes::copy_of(alloc, bytes)?),
            Signature::Base64Encoded(text) => decode_text(alloc, text),
        }
    }
}

/// Returns the bytes of a base64 text, maybe in lines.
#[tactic(auto, unfolding(crate::specs::Signature::text_bytes))]
pub(crate) fn decode_text(alloc: Global, text: &[u8]) -> Result<Bytes>
    ensures { Answers Memory (λ b. b) result (ok_or (text_bytes text.now) Base64DecodeError) }
{
    if let Some(bytes) = Bytes::of_base64(alloc, text)? {
        return Ok(bytes);
    }
    let joined = join_lines(alloc, text)?;
    match Bytes::of_base64(alloc, joined.as_slice())? {
        Some(bytes) => Ok(bytes),
        None => Err(SigstoreError::Base64DecodeError),
    }
}

/// Returns the text without line feeds and carriage returns.
fn join_lines(alloc: Global, text: &[u8]) -> std::result::Result<Vec<u8>, OutOfMemory>
    ensures { IfOk result (λ v. v.items ≡ without_line_ends text.now) }
{
    let joined = text
        .iter()
        .filter(|byte| !(**byte == b'\n' || **byte == b'\r'))
        .copied()
        .collect(alloc)?;
    Ok(joined)
}
