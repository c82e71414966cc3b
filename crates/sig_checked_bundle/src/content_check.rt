//! A bundle's content, as far as it can be checked by itself. No signature is checked here.

ghost use Rattle.std.specs.Prelude.{◌≡◌, IfOk};
ghost use Rattle.sig_base.specs.Answers.{Answers};
ghost use Rattle.sig_checked_bundle.specs.Content.{signature_among, digests_in, envelope_content, message_content};
ghost use Rattle.sig_checked_bundle.specs.Content.{content_with_signature};
ghost use Rattle.sig_checked_bundle.specs.SeenValues.{borrowed_now, seen_content};

use crate::bundle_error::BundleErrorKind;
use sig_base::{Bytes, OutOfMemory, Text};
use sig_bundle::{Content, MessageSignature};
use sig_dsse::{
    Digests, DsseEnvelope, DsseSignature, DsseSignatures, PayloadFault, compute_pae, envelope_json,
    payload_digests,
};
use std::alloc::Global;

/// What the signature of a bundle has to be over.
#[derive(Drop)]
pub enum CheckedContent {
    /// An artifact itself, by its SHA-256 digest. The digest that the bundle says it has is not checked.
    MessageSignature,
    /// A statement about artifacts, in an envelope.
    Dsse {
        /// What the signature has to be over: the pre-authentication encoding (DSSE protocol).
        pae: Bytes,
        /// The digests of the statement's subjects that an artifact can be compared with, in order.
        subject_digests: Digests,
        /// The envelope as JSON, whose hash a log entry holds.
        envelope_json: Text,
        /// The payload as it is, whose hash a log entry holds.
        payload_bytes: Bytes,
    },
}

/// A signature, and what it has to be over.
#[derive(Drop)]
pub(crate) struct ContentWithSignature {
    pub(crate) signature: Bytes,
    /// What the signature has to be over.
    pub(crate) content: CheckedContent,
}

/// The links `content` and `envelope`: the content. Fails with `SignatureMissing` if and only if there is none; then
/// with the error of the envelope.
pub(crate) fn check_content_and_envelope(
    alloc: Global,
    content: &Option<Content>,
) -> Result<ContentWithSignature, BundleErrorKind>
    ensures { Answers BundleErrorKind.OutOfMemory seen_content result (content_with_signature content.now) }
{
    match content {
        Some(Content::MessageSignature(message)) => Ok(checked_message(alloc, message)?),
        Some(Content::DsseEnvelope(envelope)) => checked_envelope(alloc, envelope),
        None => Err(BundleErrorKind::SignatureMissing),
    }
}

/// The content of a signature over an artifact. Fails only if out of memory.
fn checked_message(
    alloc: Global,
    message: &MessageSignature,
) -> Result<ContentWithSignature, OutOfMemory>
    ensures { IfOk result (λ made. seen_content made ≡ message_content message.now) }
{
    Ok(ContentWithSignature {
        signature: message.signature.copy(alloc)?,
        content: CheckedContent::MessageSignature,
    })
}

/// The content of an envelope. Fails with `DsseInvalidSignatureCount` if it does not have exactly one signature, then
/// with the error of its payload.
fn checked_envelope(
    alloc: Global,
    envelope: &DsseEnvelope,
) -> Result<ContentWithSignature, BundleErrorKind>
    ensures { Answers BundleErrorKind.OutOfMemory seen_content result (envelope_content envelope.now) }
{
    let signature = only_signature(&envelope.signatures)?;
    let subject_digests = subject_digests(alloc, envelope.payload.as_slice())?;
    let pae = compute_pae(
        alloc,
        envelope.payload_type.as_str(),
        envelope.payload.as_slice(),
    )?;
    Ok(ContentWithSignature {
        signature: signature.sig.copy(alloc)?,
        content: CheckedContent::Dsse {
            pae,
            subject_digests,
            envelope_json: envelope_json(alloc, envelope)?,
            payload_bytes: envelope.payload.copy(alloc)?,
        },
    })
}

/// The one signature. Fails with `DsseInvalidSignatureCount` and their number if and only if there is not exactly one.
fn only_signature(signatures: &DsseSignatures) -> Result<&DsseSignature, BundleErrorKind>
    ensures { borrowed_now result ≡ signature_among signatures.now }
{
    match signatures.only() {
        Some(signature) => Ok(signature),
        None => Err(BundleErrorKind::DsseInvalidSignatureCount(signatures.len())),
    }
}

/// The digests of the statement's subjects. Fails with `DssePayloadDecode` if the payload is not a statement, then as
/// [`recognized_digests`](sig_dsse::recognized_digests), under the names of a bundle.
#[tactic(auto, using(crate::proofs::PayloadDigests::payload_digests))]
fn subject_digests(alloc: Global, payload: &[u8]) -> Result<Digests, BundleErrorKind>
    ensures { Answers BundleErrorKind.OutOfMemory (λ digests. digests) result (digests_in payload.now) }
{
    match payload_digests(alloc, payload) {
        Ok(digests) => Ok(digests),
        Err(PayloadFault::NoStatement) => Err(BundleErrorKind::DssePayloadDecode),
        Err(PayloadFault::Subjects(fault)) => Err(BundleErrorKind::from(fault)),
        Err(PayloadFault::OutOfMemory) => Err(BundleErrorKind::OutOfMemory),
    }
}
