//! Writers of a bundle's content: a signature over an artifact, or an envelope.
ghost use Rattle.std.specs.Prelude.{◌≡◌, IfOk, Option, Some};
ghost use Rattle.sig_json.specs.Data.{Data};
ghost use Rattle.sig_bundle.specs.BundleRecord.{digest_of, envelope_of, message_signature_of, dsse_signature_of};
ghost use Rattle.sig_bundle.specs.BundleTree.{content_member, digest_tree, envelope_tree, message_tree};
ghost use Rattle.sig_bundle.specs.BundleTree.{dsse_signature_tree};
ghost use Rattle.sig_bundle.specs.ReadBack.{ContentIsRead};
ghost use Rattle.sig_json.specs.Writing.{IsReadAs, members, put_some};
ghost use Rattle.sig_json.specs.Tree.{document_tree};

use crate::bundle::{Content, MessageSignature};
use sig_base::{Bytes, OutOfMemory};
use sig_dsse::{DsseEnvelope, DsseSignature, SparseSignature};
use sig_json::{Document, ElementWriter, Object};
use std::alloc::Global;

/// Writes the digests that signers claim.
enum DigestWriter {}

impl ElementWriter for DigestWriter {
    type Item = Bytes;

    ghost written = { digest_tree };

    ghost meaning = { digest_of };

    #[tactic(auto, using(crate::proofs::MaterialReadings::back), unfolding(crate::specs::BundleTree::digest_tree))]
    fn write(alloc: Global, item: &Bytes) -> Result<Document, OutOfMemory> {
        let object = Object::new(alloc).with_bytes(alloc, "digest", item.as_slice())?;
        Ok(object.into_document())
    }
}

/// Writes signatures over artifacts.
enum MessageSignatureWriter {}

impl ElementWriter for MessageSignatureWriter {
    type Item = MessageSignature;

    ghost written = { message_tree };

    ghost meaning = { message_signature_of };

    #[tactic(auto, using(crate::proofs::MaterialReadings::back), unfolding(crate::specs::BundleTree::message_tree))]
    fn write(alloc: Global, item: &MessageSignature) -> Result<Document, OutOfMemory> {
        let object = Object::new(alloc)
            .with_bytes(alloc, "signature", item.signature.as_slice())?
            .with_option::<DigestWriter>(alloc, "messageDigest", &item.message_digest)?;
        Ok(object.into_document())
    }
}

/// Writes signatures of envelopes.
enum SignatureWriter {}

impl ElementWriter for SignatureWriter {
    type Item = DsseSignature;

    ghost written = { dsse_signature_tree };

    ghost meaning = { dsse_signature_of };

    #[tactic(auto, using(crate::proofs::MaterialReadings::back), unfolding(crate::specs::BundleTree::dsse_signature_tree))]
    fn write(alloc: Global, item: &DsseSignature) -> Result<Document, OutOfMemory> {
        let object = Object::new(alloc)
            .with_bytes(alloc, "sig", item.sig.as_slice())?
            .with_text(alloc, "keyid", item.keyid.as_str())?;
        Ok(object.into_document())
    }
}

/// Writes signatures of envelopes that are held as `SparseSignature`.
enum SparseSignatureWriter {}

impl ElementWriter for SparseSignatureWriter {
    type Item = SparseSignature;

    ghost written = { dsse_signature_tree };

    ghost meaning = { dsse_signature_of };

    fn write(alloc: Global, item: &SparseSignature) -> Result<Document, OutOfMemory> {
        let empty = DsseSignature::without_parts(alloc);
        let written = SignatureWriter::write(alloc, item.get(&empty));
        drop(empty);
        written
    }
}

enum EnvelopeWriter {}

impl ElementWriter for EnvelopeWriter {
    type Item = DsseEnvelope;

    ghost written = { envelope_tree };

    ghost meaning = { envelope_of };

    #[tactic(auto, using(crate::proofs::MaterialReadings::back), unfolding(crate::specs::BundleTree::envelope_tree))]
    fn write(alloc: Global, item: &DsseEnvelope) -> Result<Document, OutOfMemory> {
        let object = Object::new(alloc)
            .with_bytes(alloc, "payload", item.payload.as_slice())?
            .with_text(alloc, "payloadType", item.payload_type.as_str())?
            .with_list::<SparseSignatureWriter>(alloc, "signatures", item.signatures.as_slice())?;
        Ok(object.into_document())
    }
}

/// The object with the member of the content's kind. Fails only if out of memory.
pub(crate) fn with_content(
    object: Object,
    alloc: Global,
    content: &Option<Content>,
) -> Result<Object, OutOfMemory>
    ensures tree { IfOk result (λ made. members made
        ≡ put_some (content_member content.now).0 (content_member content.now).1 (members object)) }
    ensures back { IfOk result (λ _. ContentIsRead content.now) }
{
    match content {
        Some(Content::MessageSignature(signature)) => {
            object.with_written::<MessageSignatureWriter>(alloc, "messageSignature", signature)
        }
        Some(Content::DsseEnvelope(envelope)) => {
            object.with_written::<EnvelopeWriter>(alloc, "dsseEnvelope", envelope)
        }
        None => Ok(object),
    }
}
