//! What the definitions mean, and what equality is.
ghost use Rattle.std.specs.Prelude.{◌≡◌, ◌↔◌, [], IsTrue, Ok, Err, unwrap_or};
ghost use Rattle.sig_base.specs.ByteLists.{AreBytes};
ghost use Rattle.sig_bundle.specs.Promise.{IsExactEntry, promise_of_entry, promise_tree_of};
ghost use Rattle.sig_bundle.specs.Proof.{IsProof, IsProofFault, proof_or_fault};
ghost use Rattle.sig_bundle.specs.declared.material.ProofFields.{ProofFields as Members};
ghost use Rattle.sig_bundle.specs.declared.proof_error.ProofFieldsError.{ProofFieldsError};
ghost use Rattle.sig_bundle.specs.declared.material.TransparencyLogEntry.{TransparencyLogEntry as Entry};
ghost use Rattle.sig_json_text.specs.Canonical.{canonical_of};
ghost use Rattle.sig_rekor.specs.declared.inclusion_proof.InclusionProof.{InclusionProof};

use crate::bundle::{Bundle, Content, MessageSignature};
use crate::material::{
    KindVersion, MaterialContent, ProofFields, TransparencyLogEntry, VerificationMaterial,
};
use sig_json_text::CanonicalError;

/// The text of a log's promise is the template of Rekor's signed entry timestamp, if both integers are within plus or
/// minus 2^53 - 1, and there is none if one is not. It has no code.
pub fn promises()
    ensures text { (entry : Entry) → AreBytes entry.canonicalized_body → AreBytes (unwrap_or entry.log_id [])
        → IsExactEntry entry → canonical_of (promise_tree_of entry) ≡ Ok (promise_of_entry entry) }
    ensures too_large { (entry : Entry) → ¬ IsExactEntry entry
        → canonical_of (promise_tree_of entry) ≡ Err CanonicalError.IntegerTooLarge }
{}

/// The members of an inclusion proof are read as a proof if and only if they are that proof. It has no code.
pub fn proofs()
    ensures { (fields : Members) (proof : InclusionProof) →
        (proof_or_fault fields ≡ Ok proof) ↔ IsProof fields proof }
{}

/// An error for the members of an inclusion proof comes if and only if it has its cause: the rules before it hold, and
/// this one does not. It has no code.
pub fn proof_faults()
    ensures { (fields : Members) (error : ProofFieldsError) →
        (proof_or_fault fields ≡ Err error) ↔ IsProofFault fields error }
{}

/// Two bundles are equal if and only if all their parts are.
pub fn equal_bundles(one: &Bundle, other: &Bundle) -> bool
    ensures { IsTrue result ↔ (one.now ≡ other.now) }
{
    one == other
}

/// Two contents are equal if and only if they are of one kind, and all their parts are equal.
pub fn equal_contents(one: &Content, other: &Content) -> bool
    ensures { IsTrue result ↔ (one.now ≡ other.now) }
{
    one == other
}

/// Two signatures over artifacts are equal if and only if both their parts are.
pub fn equal_message_signatures(one: &MessageSignature, other: &MessageSignature) -> bool
    ensures { IsTrue result ↔ (one.now ≡ other.now) }
{
    one == other
}

/// Verification material is equal if and only if both its parts are.
pub fn equal_materials(one: &VerificationMaterial, other: &VerificationMaterial) -> bool
    ensures { IsTrue result ↔ (one.now ≡ other.now) }
{
    one == other
}

/// Two signers are equal if and only if they are of one kind, and hold the same certificates.
pub fn equal_signers(one: &MaterialContent, other: &MaterialContent) -> bool
    ensures { IsTrue result ↔ (one.now ≡ other.now) }
{
    one == other
}

/// Two log entries are equal if and only if all their parts are.
pub fn equal_entries(one: &TransparencyLogEntry, other: &TransparencyLogEntry) -> bool
    ensures { IsTrue result ↔ (one.now ≡ other.now) }
{
    one == other
}

/// Two kinds of log entries are equal if and only if both their parts are.
pub fn equal_kinds(one: &KindVersion, other: &KindVersion) -> bool
    ensures { IsTrue result ↔ (one.now ≡ other.now) }
{
    one == other
}

/// Two inclusion proofs are equal if and only if all their parts are.
pub fn equal_proofs(one: &ProofFields, other: &ProofFields) -> bool
    ensures { IsTrue result ↔ (one.now ≡ other.now) }
{
    one == other
}
