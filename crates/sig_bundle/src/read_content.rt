//! Readers of a bundle's content: a signature over an artifact, or an envelope.
ghost use Rattle.std.specs.Prelude.{Option};
ghost use Rattle.sig_json.specs.Data.{Data};
ghost use Rattle.sig_bundle.specs.BundleRecord.{content_of, digest_of, envelope_of, message_signature_of, one_content};
ghost use Rattle.sig_bundle.specs.BundleRecord.{dsse_signature_of};
ghost use Rattle.sig_base.specs.Answers.{Answers};
ghost use Rattle.sig_json.specs.OrMember.{or_member};
ghost use Rattle.sig_json.specs.Tree.{tree};

use crate::bundle::{Content, MessageSignature};
use sig_base::Bytes;
use sig_dsse::{DsseEnvelope, DsseSignature, DsseSignatures, SparseSignature};
use sig_json::{ElementReader, Json, MemberError, optional, optional_list, read_bytes, read_text};
use std::alloc::Global;

/// Reads the digests that signers claim.
enum DigestReader {}

impl ElementReader for DigestReader {
    type Item = Bytes;

    ghost meaning = { digest_of };

    fn read(alloc: Global, json: Json<'_, '_>) -> Result<Bytes, MemberError> {
        read_bytes(alloc, json, "digest")
    }
}

/// Reads signatures over artifacts.
enum MessageSignatureReader {}

impl ElementReader for MessageSignatureReader {
    type Item = MessageSignature;

    ghost meaning = { message_signature_of };

    #[tactic(auto, unfolding(crate::specs::BundleRecord::message_signature_of))]
    fn read(alloc: Global, json: Json<'_, '_>) -> Result<MessageSignature, MemberError> {
        Ok(MessageSignature {
            signature: read_bytes(alloc, json, "signature")?,
            message_digest: optional::<DigestReader>(alloc, json, "messageDigest")?,
        })
    }
}

/// Reads signatures of envelopes.
enum SignatureReader {}

impl ElementReader for SignatureReader {
    type Item = DsseSignature;

    ghost meaning = { dsse_signature_of };

    #[tactic(auto, unfolding(crate::specs::BundleRecord::dsse_signature_of))]
    fn read(alloc: Global, json: Json<'_, '_>) -> Result<DsseSignature, MemberError> {
        Ok(DsseSignature {
            sig: read_bytes(alloc, json, "sig")?,
            keyid: read_text(alloc, json, "keyid")?,
        })
    }
}

/// Reads signatures of envelopes, and holds little of those without parts.
enum SparseSignatureReader {}

impl ElementReader for SparseSignatureReader {
    type Item = SparseSignature;

    ghost meaning = { dsse_signature_of };

    fn read(alloc: Global, json: Json<'_, '_>) -> Result<SparseSignature, MemberError> {
        let signature = SignatureReader::read(alloc, json)?;
        Ok(SparseSignature::new(alloc, signature)?)
    }
}

enum EnvelopeReader {}

impl ElementReader for EnvelopeReader {
    type Item = DsseEnvelope;

    ghost meaning = { envelope_of };

    #[tactic(auto, unfolding(crate::specs::BundleRecord::envelope_of))]
    fn read(alloc: Global, json: Json<'_, '_>) -> Result<DsseEnvelope, MemberError> {
        Ok(DsseEnvelope {
            payload: read_bytes(alloc, json, "payload")?,
            payload_type: read_text(alloc, json, "payloadType")?,
            signatures: DsseSignatures::of(
                alloc,
                optional_list::<SparseSignatureReader>(alloc, json, "signatures")?,
            ),
        })
    }
}

/// The content. Fails with `Member` where both kinds are there, or a member is not of its kind.
#[tactic(auto, unfolding(crate::specs::BundleRecord::content_of))]
pub(crate) fn read_content(
    alloc: Global,
    json: Json<'_, '_>,
) -> Result<Option<Content>, MemberError>
    ensures { Answers MemberError.OutOfMemory (λ x. x) result (or_member (content_of (tree json.entry))) }
{
    let signature = optional::<MessageSignatureReader>(alloc, json, "messageSignature")?;
    let envelope = optional::<EnvelopeReader>(alloc, json, "dsseEnvelope")?;
    one_of(signature, envelope)
}

/// Returns the one that is there. Fails with `Member` if both are there.
#[tactic(auto, unfolding(crate::specs::BundleRecord::one_content))]
fn one_of(
    signature: Option<MessageSignature>,
    envelope: Option<DsseEnvelope>,
) -> Result<Option<Content>, MemberError>
    ensures { Answers MemberError.OutOfMemory (λ x. x) result (or_member (one_content signature envelope)) }
{
    match (signature, envelope) {
        (Some(signature), None) => Ok(Some(Content::MessageSignature(signature))),
        (None, Some(envelope)) => Ok(Some(Content::DsseEnvelope(envelope))),
        (None, None) => Ok(None),
        (Some(_), Some(_)) => Err(MemberError::Member),
    }
}
