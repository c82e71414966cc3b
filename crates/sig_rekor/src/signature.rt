//! A signature line of a signed note: an em dash, the key's name, and in base64 the key's fingerprint and the
//! signature.
//!
//! ```text
//! — log.example AAAAAXNpZw==
//! ```
ghost use Rattle.std.specs.Prelude.{◌≡◌, Ok, IfOk, OnOk, option_map};
ghost use Rattle.std.specs.Option.{ok_or};
ghost use Rattle.sig_base.specs.declared.fault.CheckpointFault.TheVariants.{SignatureFormat};
ghost use Rattle.sig_rekor.specs.declared.checkpoint.CheckpointSignature.{CheckpointSignature as Signature};
ghost use Rattle.sig_rekor.specs.TextCuts.{parts_between};
ghost use Rattle.sig_base.specs.Base64.{base64_text};
ghost use Rattle.sig_base.specs.Answers.{Answers};
ghost use Rattle.sig_rekor.specs.Reading.{as_error};
ghost use Rattle.sig_rekor.specs.SignatureText.{space, line_of, name_and_bytes, signature_by, signature_of};
ghost use Rattle.sig_rekor.specs.SignatureText.{signature_text, fingerprint_and_raw, IsSignature};
ghost use Rattle.sig_rekor.specs.ReadBack.{IsSignerName, IsSignatureValue};

use crate::checkpoint::CheckpointSignature;
use crate::coding::decode_base64;
use crate::cuts::{cut, trimmed};
use crate::fault::ParseCheckpointError;
use sig_base::{Bytes, CheckpointFault, OutOfMemory, Text};
use std::alloc::Global;

impl CheckpointSignature {
    /// Reads a signature. Newlines at both ends are dropped, and white space at the end of the base64.
    ///
    /// Errors, the first whose rule is broken:
    /// - `NoDash`: the text does not start with an em dash (U+2014);
    /// - `SignatureFormat`: it does not have three parts between single spaces;
    /// - `SignatureBase64`: the third is not base64;
    /// - `SignatureLength`: it has fewer than four bytes.
    pub fn decode(alloc: Global, s: &str) -> Result<CheckpointSignature, ParseCheckpointError>
        ensures found { IfOk result (λ signature. IsSignature s.now signature) }
        ensures only { (signature : Signature) → IsSignature s.now signature →
            Answers ParseCheckpointError.OutOfMemory (λ x. x) result (Ok signature) }
        ensures exact { Answers ParseCheckpointError.OutOfMemory (λ x. x) result (as_error (signature_of s.now)) }
    {
        read_signature(alloc, s)
    }

    /// Writes the signature: em dash, space, name, space, base64 of fingerprint and signature, newline. It is read
    /// back if the name has neither a space nor a newline. Fails only if out of memory.
    pub fn encode(&self, alloc: Global) -> Result<Text, OutOfMemory>
        ensures text { IfOk result (λ text. text ≡ signature_text self.now) }
        ensures reads_back { IsSignerName self.now.name → IfOk result (λ text. signature_of text ≡ Ok self.now) }
    {
        self.write(alloc)
    }

    /// The signature's text.
    #[tactic(auto, using(crate::proofs::Steps::appended), unfolding(crate::specs::SignatureText::signature_text))]
    pub(crate) fn write(&self, alloc: Global) -> Result<Text, OutOfMemory>
        ensures text { IfOk result (λ text. text ≡ signature_text self.now) }
        ensures value { OnOk result (IsSignatureValue self.now) }
    {
        let coded = self.coded(alloc)?;
        let text = format!(in alloc; "\u{2014} {} {}\n", self.name.as_str(), coded.as_str())?;
        Ok(Text::from(text))
    }

    /// The fingerprint and the signature in one, in base64.
    fn coded(&self, alloc: Global) -> Result<Text, OutOfMemory>
        ensures text { IfOk result (λ text. text ≡ base64_text (fingerprint_and_raw self.now)) }
        ensures value { OnOk result (IsSignatureValue self.now) }
    {
        let mut bytes = Vec::from_slice(alloc, &self.key_fingerprint)?;
        bytes.extend_from_slice(self.raw.as_slice())?;
        Text::in_base64(alloc, bytes.as_slice())
    }
}

#[tactic(auto, unfolding(crate::specs::SignatureText::signature_of))]
fn read_signature(alloc: Global, text: &str) -> Result<CheckpointSignature, ParseCheckpointError>
    ensures { Answers ParseCheckpointError.OutOfMemory (λ x. x) result (as_error (signature_of text.now)) }
{
    let line = read_line(text)?;
    let Some((name, coded)) = name_and_bytes(line) else {
        return Err(ParseCheckpointError::DecodeError(CheckpointFault::SignatureFormat));
    };
    let bytes = decode_base64(alloc, coded.trim_end(), CheckpointFault::SignatureBase64)?;
    make_signature(alloc, name, bytes.as_slice())
}

/// The line without newlines at its ends, which starts with an em dash.
#[tactic(auto, using(std::proofs::lemmas::Str::Pattern::starts_text), unfolding(crate::specs::SignatureText::line_of))]
fn read_line(text: &str) -> Result<&str, ParseCheckpointError>
    ensures { Answers ParseCheckpointError.OutOfMemory (λ line. line.now) result (as_error (line_of text.now)) }
{
    let line = trimmed(text, '\n');
    if line.starts_with("\u{2014}") {
        Ok(line)
    } else {
        Err(ParseCheckpointError::DecodeError(CheckpointFault::NoDash))
    }
}

/// The second and the third of three parts.
#[tactic(auto, using(crate::proofs::Signatures::three_parts))]
fn name_and_bytes(line: &str) -> Option<(&str, &str)>
    ensures { name_and_bytes (parts_between space line.now) ≡ ok_or
        (option_map (λ x. (x.0.now, x.1.now)) result) SignatureFormat }
{
    let (_, after) = cut(line, " ")?;
    let (name, coded) = cut(after, " ")?;
    match cut(coded, " ") {
        Some(_) => None,
        None => Some((name, coded)),
    }
}

/// The signature of a name and of the decoded bytes, at least four.
fn make_signature(
    alloc: Global,
    name: &str,
    bytes: &[u8],
) -> Result<CheckpointSignature, ParseCheckpointError>
    ensures { Answers ParseCheckpointError.OutOfMemory (λ x. x) result (as_error (signature_by name.now bytes.now)) }
{
    let Some((fingerprint, raw)) = bytes.split_first_chunk::<4>() else {
        return Err(ParseCheckpointError::DecodeError(CheckpointFault::SignatureLength));
    };
    Ok(CheckpointSignature {
        key_fingerprint: *fingerprint,
        raw: Bytes::copy_of(alloc, raw)?,
        name: Text::copy_of(alloc, name)?,
    })
}
