//! What the format's constants are, when each error comes, and what equality is.
ghost use Rattle.std.specs.Prelude.{◌≡◌, ◌↔◌, Bool, IsTrue, List, ℕ, Ok, Err};
ghost use Rattle.std.specs.Char.{is_whitespace};
ghost use Rattle.std.specs.List.{AllZip, list_all};
ghost use Rattle.std.specs.Str.{IsUtf8, chars};
ghost use Rattle.sig_base.specs.declared.error.SigstoreError.{SigstoreError};
ghost use Rattle.sig_base.specs.declared.fault.CheckpointFault.{CheckpointFault};
ghost use Rattle.sig_base.specs.declared.unexpected.UnexpectedKind.{UnexpectedKind};
ghost use Rattle.sig_rekor.specs.Characters.{is_white_space, MarksAreUnicode, LengthsAreStandard};
ghost use Rattle.sig_rekor.specs.CheckpointText.{checkpoint_of};
ghost use Rattle.sig_rekor.specs.Faults.{IsCheckpointFault, IsNoteFault, IsSignatureFault};
ghost use Rattle.sig_rekor.specs.HashFaults.{IsHashOf, IsHashFault, IsHashesFault, IsProofOf, IsProofFault};
ghost use Rattle.sig_rekor.specs.HashText.{hash_in, hashes_from};
ghost use Rattle.sig_rekor.specs.NoteText.{is_blank, note_of};
ghost use Rattle.sig_rekor.specs.Refusals.{IsPathRefusal, IsProofRefusal, IsTreeRefusal};
ghost use Rattle.sig_rekor.specs.RekorProof.{inclusion_proof_from_rekor};
ghost use Rattle.sig_rekor.specs.SignatureText.{signature_of};
ghost use Rattle.sig_rekor.specs.Verify.{inclusion_at, proof_answer, tree_answer};
ghost use Rattle.sig_rekor.specs.declared.checkpoint.SignedCheckpoint.{SignedCheckpoint as Signed};
ghost use Rattle.sig_rekor.specs.declared.inclusion_proof.InclusionProof.{InclusionProof as Proof};
ghost use Rattle.sig_rekor.specs.declared.rekor_proof.RekorInclusionProof.{RekorInclusionProof as ApiProof};

use crate::checkpoint::{Checkpoint, CheckpointSignature, OtherContent, SignedCheckpoint};
use crate::fault::ParseCheckpointError;
use crate::inclusion_proof::InclusionProof;
use crate::rekor_proof::RekorInclusionProof;

/// The characters that the format names are those of Unicode's code points, and its fixed lengths those of the
/// standards. It has no code.
pub fn constants()
    ensures marks { MarksAreUnicode }
    ensures lengths { LengthsAreStandard }
{}

/// White space, which is dropped at the end of a signature's base64 and is not an origin by itself, is Unicode's. It
/// has no code.
pub fn white_space()
    ensures points { (c : ℕ) → IsTrue (is_whitespace c) ↔ IsTrue (is_white_space c) }
    ensures blank { (text : List ℕ) → IsUtf8 text →
        IsTrue (is_blank text) ↔ IsTrue (list_all is_white_space (chars text)) }
{}

/// Whether two signed checkpoints are equal: if and only if their notes and their lists of signatures are.
pub fn equal_checkpoints(one: &SignedCheckpoint, other: &SignedCheckpoint) -> bool
    ensures { IsTrue result ↔ (one.now ≡ other.now) }
{
    one == other
}

/// Whether two notes are equal: if and only if all their parts are.
pub fn equal_notes(one: &Checkpoint, other: &Checkpoint) -> bool
    ensures { IsTrue result ↔ (one.now ≡ other.now) }
{
    one == other
}

/// Whether two signatures are equal: if and only if fingerprint, signature and name are.
pub fn equal_signatures(one: &CheckpointSignature, other: &CheckpointSignature) -> bool
    ensures { IsTrue result ↔ (one.now ≡ other.now) }
{
    one == other
}

/// Whether two further lines of notes are equal: if and only if they are of one kind, and all their texts are equal.
pub fn equal_contents(one: &OtherContent, other: &OtherContent) -> bool
    ensures { IsTrue result ↔ (one.now ≡ other.now) }
{
    one == other
}

/// Whether two inclusion proofs are equal: if and only if all their parts are.
pub fn equal_proofs(one: &InclusionProof, other: &InclusionProof) -> bool
    ensures { IsTrue result ↔ (one.now ≡ other.now) }
{
    one == other
}

/// Whether two inclusion proofs of Rekor's API are equal: if and only if all their parts are.
pub fn equal_api_proofs(one: &RekorInclusionProof, other: &RekorInclusionProof) -> bool
    ensures { IsTrue result ↔ (one.now ≡ other.now) }
{
    one == other
}

/// Whether two errors are equal: if and only if both are out of memory, or both are the same fault.
pub fn equal_refusals(one: &ParseCheckpointError, other: &ParseCheckpointError) -> bool
    ensures { IsTrue result ↔ (one.now ≡ other.now) }
{
    one == other
}

/// Reading a text as a note fails with a fault if and only if it is the first of the note's rules that the text
/// breaks. It has no code.
pub fn note_faults()
    ensures { (text : List ℕ) (fault : CheckpointFault) → (note_of text ≡ Err fault) ↔ IsNoteFault text fault }
{}

/// Reading a text as a signature fails with a fault if and only if it is the first of the signature's rules that the
/// text breaks. It has no code.
pub fn signature_faults()
    ensures { (text : List ℕ) (fault : CheckpointFault) →
        (signature_of text ≡ Err fault) ↔ IsSignatureFault text fault }
{}

/// Reading a text as a checkpoint fails with a fault if and only if the fault is `Format` and no empty line is there,
/// or it is the fault of the first piece, from the left, that is not a signature, or all are and it is the note's. It
/// has no code.
pub fn checkpoint_faults()
    ensures { (text : List ℕ) (fault : CheckpointFault) →
        (checkpoint_of text ≡ Err fault) ↔ IsCheckpointFault text fault }
{}

/// A checkpoint that is not of a proof's tree is rejected because its note's tree is larger, or smaller, or as large
/// with another root: each error comes if and only if it has its cause, and keeps the note's values as `old` and
/// `expected`, the proof's as `new` and `got`. It has no code.
pub fn tree_refusals()
    ensures { (checkpoint : Signed) (root : List ℕ) (size : ℕ) (error : SigstoreError) →
        (tree_answer checkpoint root size ≡ Err error) ↔ IsTreeRefusal checkpoint.note root size error }
{}

/// Each error of an audit path's check comes if and only if the rules before its own hold and its own does not: a leaf
/// has the index; there are as many hashes as its path has; they lead from the entry's leaf to the root. It has no
/// code.
pub fn path_refusals()
    ensures { (entry : List ℕ) (proof : Proof) (error : SigstoreError) →
        (inclusion_at proof.log_index entry proof ≡ Err error) ↔ IsPathRefusal entry proof error }
{}

/// Each error of an inclusion proof's check comes if and only if the rules before its own hold and its own does not: a
/// checkpoint is there; one of its signatures is accepted over its note; the note is of the proof's tree; a leaf has
/// the index; there are as many hashes as its path has; they lead from the entry's leaf to the root. It has no code.
pub fn proof_refusals()
    ensures { (accepts : List ℕ → List ℕ → Bool) (entry : List ℕ) (proof : Proof) (error : SigstoreError) →
        (proof_answer accepts entry proof ≡ Err error) ↔ IsProofRefusal accepts entry proof error }
{}

/// A text is a hash if and only if it is 64 hexadecimal digits, those of the hash. `HexDecodeError` comes if and only
/// if it is not the digits of whole bytes, and what the caller says of another length if and only if it is, and does
/// not have 64. For several texts, each is a hash, or the fault is that of the first that is not one, with its index.
/// It has no code.
pub fn hash_texts()
    ensures hash { (other_length : UnexpectedKind) (text hash : List ℕ) →
        (hash_in other_length text ≡ Ok hash) ↔ IsHashOf text hash }
    ensures fault { (other_length : UnexpectedKind) (text : List ℕ) (error : SigstoreError) →
        (hash_in other_length text ≡ Err error) ↔ IsHashFault other_length text error }
    ensures hashes { (texts hashes : List (List ℕ)) →
        (hashes_from 0 texts ≡ Ok hashes) ↔ AllZip IsHashOf texts hashes }
    ensures first { (texts : List (List ℕ)) (error : SigstoreError) →
        (hashes_from 0 texts ≡ Err error) ↔ IsHashesFault texts error }
{}

/// An inclusion proof of Rekor's API is read as a proof if and only if it is that proof. Each fault comes if and only
/// if it has its cause: it is that of the first text that is not a hash; or all of them are hashes, and it is the
/// root's; or the root is one too, and it is that of the checkpoint's text. It has no code.
pub fn api_proofs()
    ensures proof { (api : ApiProof) (proof : Proof) →
        (inclusion_proof_from_rekor api ≡ Ok proof) ↔ IsProofOf api proof }
    ensures fault { (api : ApiProof) (error : SigstoreError) →
        (inclusion_proof_from_rekor api ≡ Err error) ↔ IsProofFault api error }
{}
