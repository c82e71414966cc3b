//! What is taken from Rekor's API, when each error comes, and what equality is. Of types that hold documents it is
//! equality of what is seen of them, the trees of the documents.
ghost use Rattle.std.specs.Prelude.{◌≡◌, ◌↔◌, Bool, IsTrue, List, ℕ, Ok, Err, codes};
ghost use Rattle.sig_base.specs.declared.error.SigstoreError.{SigstoreError};
ghost use Rattle.sig_base.specs.declared.unexpected.UnexpectedKind.TheVariants.{RootLength};
ghost use Rattle.sig_rekor.specs.HashFaults.{IsHashFault};
ghost use Rattle.sig_rekor_models.specs.Body.{seen_body, seen_body_content};
ghost use Rattle.sig_rekor_models.specs.Consistency.{consistency_proof_from_rekor, head_answer};
ghost use Rattle.sig_rekor_models.specs.EntryMembers.{BodiesAreWritten, EntriesAreRead, HashedrekordsAreWritten};
ghost use Rattle.sig_rekor_models.specs.HashedrekordTree.{algorithm_name};
ghost use Rattle.sig_rekor_models.specs.Inclusion.{entry_answer};
ghost use Rattle.sig_rekor_models.specs.LogEntry.{LogEntry as Entry, seen_entry};
ghost use Rattle.sig_rekor_models.specs.LogInfo.{log_info_from_rekor};
ghost use Rattle.sig_rekor_models.specs.ProposedTree.{seen_proposed};
ghost use Rattle.sig_rekor_models.specs.PublicKey.{decoded_text};
ghost use Rattle.sig_rekor_models.specs.Refusals.{IsConsistencyFault, IsConsistencyOf, IsEntryRefusal, IsGrowthRefusal};
ghost use Rattle.sig_rekor_models.specs.Refusals.{IsHeadOf, IsKeyFault, IsKeyText};
ghost use Rattle.sig_rekor_models.specs.declared.consistency_proof.ConsistencyProof.{ConsistencyProof as Proof};
ghost use Rattle.sig_rekor_models.specs.declared.consistency_proof.RekorConsistencyProof.{RekorConsistencyProof as ApiProof};
ghost use Rattle.sig_rekor_models.specs.declared.log_info.LogInfo.{LogInfo};
ghost use Rattle.sig_rekor_models.specs.declared.log_info.RekorLogInfo.{RekorLogInfo as ApiHead};

use crate::body::{Body, BodyContent};
use crate::consistency_proof::{ConsistencyProof, RekorConsistencyProof};
use crate::entry_kind::EntryKind;
use crate::hashedrekord::{AlgorithmKind, Data, Hash, Hashedrekord, Signature, Spec};
use crate::log_entry::{Attestation, LogEntry, Verification};
use crate::log_info::{InactiveShardLogInfo, LogInfo, RekorLogInfo};
use crate::proposed_entry::ProposedEntry;
use crate::public_key::PublicKey;

/// Whether two consistency proofs are equal: if and only if both their parts are.
#[tactic(auto, using(crate::proofs::Equality::equal_heads))]
pub fn equal_consistency_proofs(one: &ConsistencyProof, other: &ConsistencyProof) -> bool
    ensures { IsTrue result ↔ (one.now ≡ other.now) }
{
    one == other
}

/// Whether two consistency proofs of Rekor's API are equal: if and only if both their parts are.
#[tactic(auto, using(crate::proofs::Equality::equal_heads))]
pub fn equal_api_consistency_proofs(
    one: &RekorConsistencyProof,
    other: &RekorConsistencyProof,
) -> bool
    ensures { IsTrue result ↔ (one.now ≡ other.now) }
{
    one == other
}

/// Whether two shards are equal: if and only if all their parts are.
#[tactic(auto, using(crate::proofs::Equality::equal_heads))]
pub fn equal_shards(one: &InactiveShardLogInfo, other: &InactiveShardLogInfo) -> bool
    ensures { IsTrue result ↔ (one.now ≡ other.now) }
{
    one == other
}

/// Whether two tree heads are equal: if and only if all their parts are.
pub fn equal_heads(one: &LogInfo, other: &LogInfo) -> bool
    ensures { IsTrue result ↔ (one.now ≡ other.now) }
{
    one == other
}

/// Whether two tree heads of Rekor's API are equal: if and only if all their parts are.
pub fn equal_api_heads(one: &RekorLogInfo, other: &RekorLogInfo) -> bool
    ensures { IsTrue result ↔ (one.now ≡ other.now) }
{
    one == other
}

/// Whether two attestations are equal: if and only if their texts are, or both have none.
#[tactic(auto, using(crate::proofs::EntryEquality::equal_entries))]
pub fn equal_attestations(one: &Attestation, other: &Attestation) -> bool
    ensures { IsTrue result ↔ (one.now ≡ other.now) }
{
    one == other
}

/// Whether what two logs prove and promise is equal: if and only if both parts are.
#[tactic(auto, using(crate::proofs::EntryEquality::equal_entries))]
pub fn equal_verifications(one: &Verification, other: &Verification) -> bool
    ensures { IsTrue result ↔ (one.now ≡ other.now) }
{
    one == other
}

/// Whether two kinds of entries are equal: if and only if they are one.
#[tactic(auto, using(crate::proofs::ProposedEquality::equal_proposed))]
pub fn equal_kinds(one: &EntryKind, other: &EntryKind) -> bool
    ensures { IsTrue result ↔ (one.now ≡ other.now) }
{
    one == other
}

/// Whether the contents of two bodies are equal: if and only if their versions are, and what they say is one tree.
#[tactic(auto, using(crate::proofs::EntryEquality::equal_entries))]
pub fn equal_contents(one: &BodyContent, other: &BodyContent) -> bool
    ensures { IsTrue result ↔ (seen_body_content one.now ≡ seen_body_content other.now) }
{
    one == other
}

/// Whether two bodies are equal: if and only if they are of one kind, and their contents are equal.
pub fn equal_bodies(one: &Body, other: &Body) -> bool
    ensures { IsTrue result ↔ (seen_body one.now ≡ seen_body other.now) }
{
    one == other
}

/// Whether two log entries are equal: if and only if all their parts are.
pub fn equal_entries(one: &LogEntry, other: &LogEntry) -> bool
    ensures { IsTrue result ↔ (seen_entry one.now ≡ seen_entry other.now) }
{
    one == other
}

/// Whether two public keys are equal: if and only if their texts are.
#[tactic(auto, using(crate::proofs::ProposedEquality::equal_proposed))]
pub fn equal_public_keys(one: &PublicKey, other: &PublicKey) -> bool
    ensures { IsTrue result ↔ (one.now ≡ other.now) }
{
    one == other
}

/// Whether two algorithms are equal: if and only if they are one.
#[tactic(auto, using(crate::proofs::ProposedEquality::equal_proposed))]
pub fn equal_algorithms(one: &AlgorithmKind, other: &AlgorithmKind) -> bool
    ensures { IsTrue result ↔ (one.now ≡ other.now) }
{
    one == other
}

/// Whether two hashes are equal: if and only if both their parts are.
#[tactic(auto, using(crate::proofs::ProposedEquality::equal_proposed))]
pub fn equal_hashes(one: &Hash, other: &Hash) -> bool
    ensures { IsTrue result ↔ (one.now ≡ other.now) }
{
    one == other
}

/// Whether what two signatures are over is equal: if and only if the hashes are.
#[tactic(auto, using(crate::proofs::ProposedEquality::equal_proposed))]
pub fn equal_data(one: &Data, other: &Data) -> bool
    ensures { IsTrue result ↔ (one.now ≡ other.now) }
{
    one == other
}

/// Whether two signatures are equal: if and only if both their parts are.
#[tactic(auto, using(crate::proofs::ProposedEquality::equal_proposed))]
pub fn equal_signatures(one: &Signature, other: &Signature) -> bool
    ensures { IsTrue result ↔ (one.now ≡ other.now) }
{
    one == other
}

/// Whether what two entries of kind `hashedrekord` say is equal: if and only if both parts are.
#[tactic(auto, using(crate::proofs::ProposedEquality::equal_proposed))]
pub fn equal_specs(one: &Spec, other: &Spec) -> bool
    ensures { IsTrue result ↔ (one.now ≡ other.now) }
{
    one == other
}

/// Whether two entries of kind `hashedrekord` are equal: if and only if all their parts are.
#[tactic(auto, using(crate::proofs::ProposedEquality::equal_proposed))]
pub fn equal_hashedrekords(one: &Hashedrekord, other: &Hashedrekord) -> bool
    ensures { IsTrue result ↔ (one.now ≡ other.now) }
{
    one == other
}

/// Whether two entries to propose are equal: if and only if they are of one kind and one version, and what they say is
/// one tree.
pub fn equal_proposed_entries(one: &ProposedEntry, other: &ProposedEntry) -> bool
    ensures { IsTrue result ↔ (seen_proposed one.now ≡ seen_proposed other.now) }
{
    one == other
}

/// The algorithm by default is SHA-256, which is named `sha256`.
pub fn default_algorithm() -> AlgorithmKind
    ensures { algorithm_name result ≡ codes "sha256" }
{
    AlgorithmKind::default()
}

/// A text is read as a log entry if and only if it is a document of the entry's members, each under its name, and of no
/// others. The JSON of a body, and of an entry to propose, has only the members `apiVersion`, `kind` and `spec`, each
/// with its value; and the spec of a `hashedrekord` has only `data.hash.algorithm`, `data.hash.value`,
/// `signature.content` and `signature.publicKey.content`. It has no code.
pub fn entry_members()
    ensures read { EntriesAreRead }
    ensures bodies { BodiesAreWritten }
    ensures hashedrekords { HashedrekordsAreWritten }
{}

/// Each error of a log entry's check comes if and only if the rules before its own hold and its own does not: it has an
/// inclusion proof; that is one of hashes and a checkpoint; the body has a canonical text; and those of the proof's own
/// check (`laws::proof_refusals` of sig_rekor). It has no code.
pub fn entry_refusals()
    ensures { (accepts : List ℕ → List ℕ → Bool) (entry : Entry) (error : SigstoreError) →
        (entry_answer accepts entry ≡ Err error) ↔ IsEntryRefusal accepts entry error }
{}

/// A tree head of Rekor's API is taken for a head if and only if it is that head, and has a fault if and only if it is
/// its root's. It has no code.
pub fn api_heads()
    ensures head { (raw : ApiHead) (head : LogInfo) → (log_info_from_rekor raw ≡ Ok head) ↔ IsHeadOf raw head }
    ensures fault { (raw : ApiHead) (error : SigstoreError) →
        (log_info_from_rekor raw ≡ Err error) ↔ IsHashFault RootLength raw.root_hash error }
{}

/// A consistency proof of Rekor's API is taken for a proof if and only if it is that proof. Each fault comes if and
/// only if it is the root's, or the root is a hash and it is that of the first text that is not one. It has no code.
pub fn api_consistency_proofs()
    ensures proof { (raw : ApiProof) (proof : Proof) →
        (consistency_proof_from_rekor raw ≡ Ok proof) ↔ IsConsistencyOf raw proof }
    ensures fault { (raw : ApiProof) (error : SigstoreError) →
        (consistency_proof_from_rekor raw ≡ Err error) ↔ IsConsistencyFault raw error }
{}

/// Each error of the check that a log grew comes if and only if the rules before its own hold and its own does not: one
/// of the head's signatures is accepted over its note; the note is of the head's own tree; and those of RFC 6962
/// section 2.1.2, between the older tree and that one. It has no code.
pub fn growth_refusals()
    ensures { (accepts : List ℕ → List ℕ → Bool) (head : LogInfo) (old_size : ℕ) (old_root : List ℕ) (proof : Proof)
        (error : SigstoreError) →
        (head_answer accepts head old_size old_root proof ≡ Err error)
        ↔ IsGrowthRefusal accepts head old_size old_root proof error }
{}

/// The text of a public key is the UTF-8 that its base64 is of. `Base64DecodeError` comes if and only if it is not
/// base64, `Utf8Error` if and only if it is base64 of other bytes. It has no code.
pub fn key_texts()
    ensures text { (coded text : List ℕ) → (decoded_text coded ≡ Ok text) ↔ IsKeyText coded text }
    ensures fault { (coded : List ℕ) (error : SigstoreError) →
        (decoded_text coded ≡ Err error) ↔ IsKeyFault coded error }
{}
