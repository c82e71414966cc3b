//! What a checkpoint vouches for: a tree, under the log's key.
ghost use Rattle.std.specs.Prelude.{◌≡◌, ◌↔◌, IsOk, OnOk, IfOk, IsTrue};
ghost use Rattle.std.specs.List.{list_any};
ghost use Rattle.sig_base.specs.Answers.{Answers};
ghost use Rattle.sig_base.specs.declared.error.SigstoreError.TheVariants.{OutOfMemory as Memory};
ghost use Rattle.sig_key.specs.Key.{key_accepts};
ghost use Rattle.sig_rekor.specs.Verify.{has_accepted_signature, signed_answer, answer_if_signed};
ghost use Rattle.sig_rekor.specs.Verify.{IsOfTree, tree_answer, IsHeadOf, size_and_root_answer};

use crate::checkpoint::{CheckpointSignature, SignedCheckpoint};
use crate::different::different;
use crate::signed_note::SignedNote;
use sig_base::{
    MerkleProofError, OutOfMemory, Result, RootHex, SignatureChecker, SigstoreError, Text,
};
use sig_key::CosignVerificationKey;
use std::alloc::Global;

#[tactic(auto, unfolding(crate::specs::Verify::has_accepted_signature))]
impl SignedNote<'_> {
    /// Checks that one of the signatures is the log's over the marshalled note. Fails with
    /// `CheckpointSignatureVerificationError` if and only if the checker does not accept any of them.
    ///
    /// The note is marshalled once, and the checker is asked once for each different signature, in byte order, until
    /// it accepts one. A checker that hashes the message at each call hashes the whole note once for each different
    /// signature of an untrusted text: its caller should limit the number of signatures or the size of a checkpoint,
    /// or hash a note once and keep the digest. The program's table does not hash, and compares the message last. The
    /// call takes the memory of the note, and 16 bytes a signature.
    pub fn verify_signature<C: SignatureChecker>(
        &self,
        alloc: Global,
        rekor_key: &CosignVerificationKey,
        checker: &C,
    ) -> Result<()>
        ensures answer { Answers Memory (λ x. x) result
            (signed_answer (key_accepts (C.spki_accepts checker.now) rekor_key.now) self.now) }
        ensures ok { OnOk result (IsTrue (has_accepted_signature
            (key_accepts (C.spki_accepts checker.now) rekor_key.now)
            self.now)) }
    {
        let note = self.note.marshal(alloc)?;
        check_signatures(alloc, &note, self.signatures.as_slice(), rekor_key, checker)
    }

    /// Checks that the note is of a proof's tree, whose root and number of leaves these are. It takes no memory.
    ///
    /// Errors, each a `ConsistencyProofError`; `old` and `expected` are the note's, `new` and `got` the proof's:
    /// - `NewTreeSmaller`: the note's tree is larger;
    /// - `UnexpectedEmptyProof`: it is smaller;
    /// - `MismatchedRoot`: the sizes are equal and the roots differ.
    ///
    /// Between two trees of one size the only consistency proof is the empty one (RFC 6962 section 2.1.2).
    /// `laws::tree_refusals` says when each error comes.
    pub fn is_valid_for_proof(&self, proof_root_hash: &[u8; 32], proof_tree_size: u64) -> Result<()>
        ensures answer { result ≡ tree_answer self.now proof_root_hash.now proof_tree_size }
        ensures ok { IsOk result ↔ IsOfTree self.now proof_root_hash.now proof_tree_size }
    {
        let note = &self.note;
        check_tree(note.size, &note.hash, proof_root_hash, proof_tree_size)
    }
}

#[tactic(auto, unfolding(crate::specs::Verify::has_accepted_signature))]
impl SignedCheckpoint {
    /// Checks that one of the signatures is the log's over the marshalled note, as [`SignedNote::verify_signature`].
    pub fn verify_signature<C: SignatureChecker>(
        &self,
        alloc: Global,
        rekor_key: &CosignVerificationKey,
        checker: &C,
    ) -> Result<()>
        ensures answer { Answers Memory (λ x. x) result
            (signed_answer (key_accepts (C.spki_accepts checker.now) rekor_key.now) self.now) }
        ensures ok { OnOk result (IsTrue (has_accepted_signature
            (key_accepts (C.spki_accepts checker.now) rekor_key.now)
            self.now)) }
    {
        let note = self.note.marshal(alloc)?;
        check_signatures(alloc, &note, self.signatures.as_slice(), rekor_key, checker)
    }

    /// Checks that the note is of a proof's tree, as [`SignedNote::is_valid_for_proof`].
    pub fn is_valid_for_proof(&self, proof_root_hash: &[u8; 32], proof_tree_size: u64) -> Result<()>
        ensures answer { result ≡ tree_answer self.now proof_root_hash.now proof_tree_size }
        ensures ok { IsOk result ↔ IsOfTree self.now proof_root_hash.now proof_tree_size }
    {
        let note = &self.note;
        check_tree(note.size, &note.hash, proof_root_hash, proof_tree_size)
    }
}

/// Checks that the checker accepts one of the signatures over the marshalled note as the key's.
fn check_signatures<C: SignatureChecker>(
    alloc: Global,
    note: &Text,
    signatures: &[CheckpointSignature],
    key: &CosignVerificationKey,
    checker: &C,
) -> Result<()>
    ensures { Answers Memory (λ x. x) result (answer_if_signed
        (list_any (λ s. key_accepts (C.spki_accepts checker.now) key.now note.now s.raw) signatures.now)) }
{
    if accepts_one(alloc, signatures, note.as_str().as_bytes(), key, checker)? {
        Ok(())
    } else {
        Err(SigstoreError::CheckpointSignatureVerificationError)
    }
}

/// Checks that a note of this size and root is of a proof's tree.
fn check_tree(
    size: u64,
    hash: &[u8; 32],
    proof_root_hash: &[u8; 32],
    proof_tree_size: u64,
) -> Result<()>
    ensures answer { result ≡ size_and_root_answer size hash.now proof_root_hash.now proof_tree_size }
    ensures ok { IsOk result ↔ IsHeadOf size hash.now proof_root_hash.now proof_tree_size }
{
    if proof_tree_size < size {
        return Err(SigstoreError::ConsistencyProofError(MerkleProofError::NewTreeSmaller {
            new: proof_tree_size,
            old: size,
        }));
    }
    if size < proof_tree_size {
        return Err(SigstoreError::ConsistencyProofError(MerkleProofError::UnexpectedEmptyProof));
    }
    if *hash == *proof_root_hash {
        return Ok(());
    }
    Err(SigstoreError::ConsistencyProofError(MerkleProofError::MismatchedRoot {
        expected: RootHex { root: *hash },
        got: RootHex {
            root: *proof_root_hash,
        },
    }))
}

/// Whether the checker accepts one of the signatures over the message as the key's.
fn accepts_one<C: SignatureChecker>(
    alloc: Global,
    signatures: &[CheckpointSignature],
    message: &[u8],
    key: &CosignVerificationKey,
    checker: &C,
) -> std::result::Result<bool, OutOfMemory>
    ensures { IfOk result (λ accepted. accepted
        ≡ list_any (λ s. key_accepts (C.spki_accepts checker.now) key.now message.now s.raw) signatures.now) }
{
    let raws = different(alloc, signatures)?;
    Ok(accepts_one_of(raws.as_slice(), message, key, checker))
}

/// Whether the key accepts one of these raw signatures.
fn accepts_one_of<C: SignatureChecker>(
    raws: &[&[u8]],
    message: &[u8],
    key: &CosignVerificationKey,
    checker: &C,
) -> bool
    ensures { result ≡ list_any (λ raw. key_accepts (C.spki_accepts checker.now) key.now message.now raw.now)
        raws.now }
{
    raws.iter().any(|raw| key.accepts(raw, message, checker))
}
