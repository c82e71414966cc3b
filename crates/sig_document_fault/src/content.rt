//! The tables of a bundle's content: a signature over an artifact, or an envelope.
ghost use Rattle.sig_document_fault.specs.BundleTable.{digest_table, dsse_signature_table, envelope_table};
ghost use Rattle.sig_document_fault.specs.BundleTable.{message_signature_table};

use sig_json::Json;
use sig_table::{BytesTable, ListOf, MemberTable, TableError, TextTable, object, optional};
use std::alloc::Global;

/// The table of the digests that signers claim.
enum DigestTable {}

impl MemberTable for DigestTable {
    ghost table = { digest_table };

    #[tactic(auto, unfolding(crate::specs::BundleTable::digest_table))]
    fn check(alloc: Global, json: Json<'_, '_>) -> Result<(), TableError> {
        object(alloc, json)?;
        optional::<BytesTable>(alloc, json, "digest")
    }
}

/// The table of signatures over artifacts.
pub(crate) enum MessageSignatureTable {}

impl MemberTable for MessageSignatureTable {
    ghost table = { message_signature_table };

    #[tactic(auto, unfolding(crate::specs::BundleTable::message_signature_table))]
    fn check(alloc: Global, json: Json<'_, '_>) -> Result<(), TableError> {
        object(alloc, json)?;
        optional::<BytesTable>(alloc, json, "signature")?;
        optional::<DigestTable>(alloc, json, "messageDigest")
    }
}

/// The table of signatures of envelopes.
enum DsseSignatureTable {}

impl MemberTable for DsseSignatureTable {
    ghost table = { dsse_signature_table };

    #[tactic(auto, unfolding(crate::specs::BundleTable::dsse_signature_table))]
    fn check(alloc: Global, json: Json<'_, '_>) -> Result<(), TableError> {
        object(alloc, json)?;
        optional::<BytesTable>(alloc, json, "sig")?;
        optional::<TextTable>(alloc, json, "keyid")
    }
}

pub(crate) enum EnvelopeTable {}

impl MemberTable for EnvelopeTable {
    ghost table = { envelope_table };

    #[tactic(auto, unfolding(crate::specs::BundleTable::envelope_table))]
    fn check(alloc: Global, json: Json<'_, '_>) -> Result<(), TableError> {
        object(alloc, json)?;
        optional::<BytesTable>(alloc, json, "payload")?;
        optional::<TextTable>(alloc, json, "payloadType")?;
        optional::<ListOf<DsseSignatureTable>>(alloc, json, "signatures")
    }
}
