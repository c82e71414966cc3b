//! What is wrong with a bundle.
ghost use Rattle.std.specs.Prelude.{◌≡◌, IfOk};
ghost use Rattle.sig_bundle.specs.BundleRecord.{bundle_in};
ghost use Rattle.sig_document_fault.specs.BundleTable.{bundle_table, material_table};
ghost use Rattle.sig_json.specs.Document.{document_of};
ghost use Rattle.sig_table.specs.DocumentFault.{IsFaultIn, error_alone, error_of, fault_in};

use crate::common::{CertificateTable, ChainTable};
use crate::content::{EnvelopeTable, MessageSignatureTable};
use crate::entry::EntryTable;
use sig_base::OutOfMemory;
use sig_json::Json;
use sig_table::{
    AnyObject, DocumentFault, ListOf, MemberTable, TableError, TextTable, at_most_one,
    document_fault, object, optional,
};
use std::alloc::Global;

/// The members that say whose signature it is.
const SIGNERS: [&str; 3] = ["certificate", "x509CertificateChain", "publicKey"];

/// The members that are the content.
const CONTENTS: [&str; 2] = ["messageSignature", "dsseEnvelope"];

/// The table of verification material.
enum MaterialTable {}

impl MemberTable for MaterialTable {
    ghost table = { material_table };

    #[tactic(auto, using(sig_table::proofs::Steps::steps), unfolding(crate::specs::BundleTable::material_table))]
    fn check(alloc: Global, json: Json<'_, '_>) -> Result<(), TableError> {
        object(alloc, json)?;
        optional::<CertificateTable>(alloc, json, "certificate")?;
        optional::<ChainTable>(alloc, json, "x509CertificateChain")?;
        optional::<AnyObject>(alloc, json, "publicKey")?;
        at_most_one(alloc, json, &SIGNERS)?;
        optional::<ListOf<EntryTable>>(alloc, json, "tlogEntries")
    }
}

enum BundleTable {}

impl MemberTable for BundleTable {
    ghost table = { bundle_table };

    #[tactic(auto, using(sig_table::proofs::Steps::steps), unfolding(crate::specs::BundleTable::bundle_table))]
    fn check(alloc: Global, json: Json<'_, '_>) -> Result<(), TableError> {
        object(alloc, json)?;
        optional::<TextTable>(alloc, json, "mediaType")?;
        optional::<MaterialTable>(alloc, json, "verificationMaterial")?;
        optional::<MessageSignatureTable>(alloc, json, "messageSignature")?;
        optional::<EnvelopeTable>(alloc, json, "dsseEnvelope")?;
        at_most_one(alloc, json, &CONTENTS)
    }
}

/// Returns what is wrong with a text that has to be a bundle (Sigstore bundle format), or `None` if it is one: that it
/// is not JSON, or has a float, and then the first member that breaks the table, in its order. Nothing is wrong if and
/// only if `read_bundle` reads the text. Fails only if out of memory.
pub fn bundle_fault(alloc: Global, text: &[u8]) -> Result<Option<DocumentFault>, OutOfMemory>
    ensures value { IfOk result (λ found. found ≡ fault_in bundle_table text.now) }
    ensures first { IfOk result (IsFaultIn bundle_table (document_of text.now)) }
    ensures reader { IfOk result (λ found. error_of found ≡ error_alone (bundle_in text.now)) }
{
    document_fault::<BundleTable>(alloc, text)
}
