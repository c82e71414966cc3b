//! The body of a log's entry about an envelope of one signature: Rekor's entry of kind `dsse`, version 0.0.1, as
//! `sig_checked_bundle` reads it, which here has exactly one signature, and hashes in lower-case hexadecimal.
ghost use Rattle.std.specs.Prelude.{◌≡◌, IfOk, Option};
ghost use Rattle.sig_base.specs.Answers.{Answers};
ghost use Rattle.sig_json.specs.Data.{Data};
ghost use Rattle.sig_json.specs.Record.{record_in};
ghost use Rattle.sig_json.specs.Tree.{tree};
ghost use Rattle.sig_attestation.specs.Body.{are_lower, body_answer, hash_text_of, is_about, is_logged_once};
ghost use Rattle.sig_attestation.specs.Body.{is_lower_hash, is_spelled, one_of, spelled_in, spelled_of};
ghost use Rattle.sig_checked_bundle.specs.DsseBody.{dsse_body_of};

use crate::refusal::unexpected;
use sig_base::{Bytes, OutOfMemory, Result, SigstoreError, Text, UnexpectedKind, sha256};
use sig_bundle::{DsseEnvelope, DsseSignature};
use sig_checked_bundle::is_about_envelope;
use sig_dsse::envelope_json;
use sig_json::{ElementReader, Json, JsonError, MemberError, read_record, required, required_text};
use std::alloc::Global;

/// The hashes of a body with one signature, as they are spelled.
#[derive(Drop)]
struct Spelled {
    envelope: Text,
    payload: Text,
}

enum HashTextReader {}

impl ElementReader for HashTextReader {
    type Item = Text;

    ghost meaning = { hash_text_of };

    fn read(alloc: Global, json: Json<'_, '_>) -> std::result::Result<Text, MemberError> {
        required_text(alloc, json, "value")
    }
}

/// Reads lists of one element, which is not checked.
enum OneReader {}

impl ElementReader for OneReader {
    type Item = ();

    ghost meaning = { one_of };

    #[tactic(auto, using(crate::proofs::Bodies::ones))]
    fn read(_alloc: Global, json: Json<'_, '_>) -> std::result::Result<(), MemberError> {
        match (json.item(0), json.item(1)) {
            (Some(_), None) => Ok(()),
            _ => Err(MemberError::Member),
        }
    }
}

/// Reads what entries say of envelopes.
enum SpelledReader {}

impl ElementReader for SpelledReader {
    type Item = Spelled;

    ghost meaning = { spelled_in };

    #[tactic(auto, unfolding(crate::specs::Body::spelled_in))]
    fn read(alloc: Global, json: Json<'_, '_>) -> std::result::Result<Spelled, MemberError> {
        let envelope = required::<HashTextReader>(alloc, json, "envelopeHash")?;
        let payload = required::<HashTextReader>(alloc, json, "payloadHash")?;
        required::<OneReader>(alloc, json, "signatures")?;
        Ok(Spelled { envelope, payload })
    }
}

/// Reads entries.
enum SpelledBodyReader {}

impl ElementReader for SpelledBodyReader {
    type Item = Spelled;

    ghost meaning = { spelled_of };

    fn read(alloc: Global, json: Json<'_, '_>) -> std::result::Result<Spelled, MemberError> {
        required::<SpelledReader>(alloc, json, "spec")
    }
}

/// Fails with `Body` unless the entry's body is about the envelope and this signature, which the certificate of this
/// DER verifies, with exactly one signature and hashes in lower-case hexadecimal.
pub(crate) fn check_body(
    alloc: Global,
    envelope: &DsseEnvelope,
    signature: &DsseSignature,
    certificate: &Bytes,
    body: &Bytes,
) -> Result<()>
    ensures { Answers SigstoreError.OutOfMemory (λ done. done) result
        (body_answer envelope.now signature.now certificate.now body.now) }
{
    let text = envelope_json(alloc, envelope)?;
    let logged = is_logged_once(
        alloc,
        text.as_str().as_bytes(),
        envelope.payload.as_slice(),
        signature.sig.as_slice(),
        certificate.as_slice(),
        body.as_slice(),
    );
    drop(text);
    match logged {
        Ok(true) => Ok(()),
        Ok(false) => Err(unexpected(UnexpectedKind::Body)),
        Err(_) => Err(SigstoreError::OutOfMemory),
    }
}

/// Whether the same holds, and the body has one signature and its hashes are in lower-case hexadecimal. Fails only if
/// out of memory.
#[tactic(auto, unfolding(crate::specs::Body::is_logged_once))]
fn is_logged_once(
    alloc: Global,
    envelope: &[u8],
    payload: &[u8],
    signature: &[u8],
    certificate: &[u8],
    body: &[u8],
) -> std::result::Result<bool, OutOfMemory>
    ensures { IfOk result (λ logged. logged
        ≡ is_logged_once envelope.now payload.now signature.now certificate.now body.now) }
{
    if is_about(alloc, envelope, payload, signature, certificate, body)? {
        is_spelled(alloc, envelope, payload, body)
    } else {
        Ok(false)
    }
}

/// Whether the body is about the envelope of this text and payload, with this signature, which the certificate of this
/// DER verifies. Fails only if out of memory.
fn is_about(
    alloc: Global,
    envelope: &[u8],
    payload: &[u8],
    signature: &[u8],
    certificate: &[u8],
    body: &[u8],
) -> std::result::Result<bool, OutOfMemory>
    ensures { IfOk result (λ about. about
        ≡ is_about envelope.now payload.now signature.now certificate.now (record_in dsse_body_of body.now)) }
{
    is_about_envelope(alloc, envelope, payload, signature, certificate, body)
}

/// Whether the body has one signature, and the hashes of both texts in lower-case hexadecimal. Fails only if out of
/// memory.
fn is_spelled(
    alloc: Global,
    envelope: &[u8],
    payload: &[u8],
    body: &[u8],
) -> std::result::Result<bool, OutOfMemory>
    ensures { IfOk result (λ is. is ≡ is_spelled envelope.now payload.now (record_in spelled_of body.now)) }
{
    match read_record::<SpelledBodyReader>(alloc, body) {
        Ok(spelled) => {
            let are = are_lower(alloc, &spelled, envelope, payload);
            drop(spelled);
            are
        }
        Err(JsonError::OutOfMemory) => Err(OutOfMemory),
        Err(_) => Ok(false),
    }
}

/// Whether these are the hashes of both, in lower-case hexadecimal. Fails only if out of memory.
fn are_lower(
    alloc: Global,
    spelled: &Spelled,
    envelope: &[u8],
    payload: &[u8],
) -> std::result::Result<bool, OutOfMemory>
    ensures { IfOk result (λ are. are ≡ are_lower envelope.now payload.now spelled.now) }
{
    if is_lower_hash(alloc, &spelled.envelope, envelope)? {
        is_lower_hash(alloc, &spelled.payload, payload)
    } else {
        Ok(false)
    }
}

/// Whether a text is the SHA-256 of the bytes in lower-case hexadecimal. Fails only if out of memory.
fn is_lower_hash(alloc: Global, text: &Text, bytes: &[u8]) -> std::result::Result<bool, OutOfMemory>
    ensures { IfOk result (λ is. is ≡ is_lower_hash text.now bytes.now) }
{
    let digits = Text::from(hex::encode(alloc, &sha256(bytes))?);
    let is_lower = text.as_str() == digits.as_str();
    drop(digits);
    Ok(is_lower)
}
