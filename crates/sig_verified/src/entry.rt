//! The log's entry that was verified, and the SCT of the certificate.
ghost use Rattle.std.specs.Prelude.{◌≡◌, IfOk};
ghost use Rattle.sig_json.specs.Writing.{members};
ghost use Rattle.sig_json.specs.Data.{put};
ghost use Rattle.sig_json.specs.Tree.{document_tree};
ghost use Rattle.sig_verified.specs.Verified.{entry_tree, sct_tree};

use sig_base::OutOfMemory;
use sig_bundle::TransparencyLogEntry;
use sig_certificate::Certificate;
use sig_evidence::{with_log_id, with_proof, with_sct};
use sig_json::{Document, Object};
use sig_rekor::InclusionProof;
use sig_shown::{with_integer, with_time};
use std::alloc::Global;

/// The object with an entry of a log as a member. Fails only if out of memory.
pub(crate) fn with_entry(
    object: Object,
    alloc: Global,
    name: &str,
    entry: &TransparencyLogEntry,
    proof: &InclusionProof,
) -> Result<Object, OutOfMemory>
    ensures { IfOk result (λ made. members made
        ≡ put name.now (entry_tree entry.now proof.now) (members object)) }
{
    let value = entry_document(alloc, entry, proof)?;
    object.with(alloc, name, value)
}

/// An entry of a log, and the proof that it is in the log's tree.
#[tactic(auto, unfolding(crate::specs::Verified::entry_tree))]
fn entry_document(
    alloc: Global,
    entry: &TransparencyLogEntry,
    proof: &InclusionProof,
) -> Result<Document, OutOfMemory>
    ensures { IfOk result (λ document. document_tree document ≡ entry_tree entry.now proof.now) }
{
    let object = with_log_id(Object::new(alloc), alloc, &entry.log_id)?;
    let object = with_integer(object, alloc, "logIndex", &entry.log_index)?;
    let object = with_time(object, alloc, "integratedTime", &entry.integrated_time)?;
    let object = with_proof(object, alloc, "inclusionProof", proof)?;
    Ok(object.into_document())
}

/// The object with the SCT of a certificate as a member. Fails only if out of memory.
pub(crate) fn with_sct_of(
    object: Object,
    alloc: Global,
    name: &str,
    certificate: &Certificate,
) -> Result<Object, OutOfMemory>
    ensures { IfOk result (λ made. members made ≡ put name.now (sct_tree certificate.now) (members object)) }
{
    let value = sct_document(alloc, certificate)?;
    object.with(alloc, name, value)
}

#[tactic(auto, unfolding(crate::specs::Verified::sct_tree))]
fn sct_document(alloc: Global, certificate: &Certificate) -> Result<Document, OutOfMemory>
    ensures { IfOk result (λ document. document_tree document ≡ sct_tree certificate.now) }
{
    let object = with_sct(Object::new(alloc), alloc, certificate)?;
    Ok(object.into_document())
}
