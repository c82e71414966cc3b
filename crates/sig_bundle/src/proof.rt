//! The members of an inclusion proof as the proof that they are.
ghost use Rattle.std.specs.Prelude.{◌≡◌, ◌∷◌, [], IfOk, Ok};
ghost use Rattle.sig_base.specs.Answers.{Answers};
ghost use Rattle.sig_bundle.specs.AnswersOnly.{AnswersOnly};
ghost use Rattle.sig_bundle.specs.Proof.{IsProofOrFault, proof_or_fault, hash_or, path_hashes_from, size_or_fault};
ghost use Rattle.sig_bundle.specs.Proof.{checkpoint_or_fault};

use crate::material::ProofFields;
use crate::proof_error::ProofFieldsError;
use sig_base::{Entries, Hashes, Text};
use sig_rekor::{InclusionProof, ParseCheckpointError, SignedCheckpoint};
use std::alloc::Global;

impl ProofFields {
    /// Returns the inclusion proof that the members are, with the checkpoint that their text is (RFC 6962 section
    /// 2.1.1). It does not check whether the proof holds, or whether the index is in the tree.
    ///
    /// Errors, the first that applies:
    /// - `RootLength`: the root hash does not have 32 bytes;
    /// - `HashLength` with the index of the first hash that does not have 32 bytes;
    /// - `TreeSize`: the size is negative;
    /// - `CheckpointMissing`: there is no checkpoint;
    /// - `Checkpoint`: its text is not a checkpoint, with the fault of [`SignedCheckpoint::decode`].
    pub fn to_proof(&self, alloc: Global) -> std::result::Result<InclusionProof, ProofFieldsError>
        // A proof is returned if and only if the members are that proof, and an error if and only if its cause is the
        // first.
        ensures exact { AnswersOnly ProofFieldsError.OutOfMemory (IsProofOrFault self.now) result }
        // The same in one equation.
        ensures answer { Answers ProofFieldsError.OutOfMemory (λ proof. proof) result (proof_or_fault self.now) }
    {
        read_fields(alloc, self)
    }
}

/// The proof of these members.
fn read_fields(alloc: Global, fields: &ProofFields) -> Result<InclusionProof, ProofFieldsError>
    ensures { Answers ProofFieldsError.OutOfMemory (λ proof. proof) result (proof_or_fault fields.now) }
{
    let root_hash = hash_of(fields.root_hash.as_slice(), ProofFieldsError::RootLength)?;
    let hashes = hashes_of(alloc, &fields.hashes)?;
    let tree_size = size_of(&fields.tree_size)?;
    let checkpoint = decoded_checkpoint(alloc, &fields.checkpoint)?;
    Ok(InclusionProof::new(
        fields.log_index,
        root_hash,
        tree_size,
        hashes,
        Some(checkpoint),
    ))
}

/// The hash that 32 bytes are. Fails with `error` if and only if there are not 32.
fn hash_of(bytes: &[u8], error: ProofFieldsError) -> Result<[u8; 32], ProofFieldsError>
    ensures { result ≡ hash_or error bytes.now }
{
    match <[u8; 32]>::try_from(bytes) {
        Ok(hash) => Ok(hash),
        Err(_) => Err(error),
    }
}

/// The hashes of an audit path. Fails with `HashLength` of the first that does not have 32 bytes.
#[tactic(auto, using(sig_base::proofs::IndexedElements::each_left))]
fn hashes_of(alloc: Global, entries: &Entries) -> Result<Hashes, ProofFieldsError>
    ensures { Answers ProofFieldsError.OutOfMemory (λ hashes. hashes) result (path_hashes_from 0 entries.now) }
{
    let mut hashes = Hashes::new(alloc);
    'hashes: for (place, bytes) in entries.as_slice().iter().enumerate() {
        let hash = hash_of(bytes.as_slice(), ProofFieldsError::HashLength(place))?;
        hashes.push(hash)?;
    }
    Ok(hashes)
}

/// The number of leaves. Fails with `TreeSize` if and only if it is negative.
fn size_of(size: &i64) -> Result<u64, ProofFieldsError>
    ensures { result ≡ size_or_fault size.now }
{
    let size = *size;
    match u64::try_from(size) {
        Ok(size) => Ok(size),
        Err(_) => Err(ProofFieldsError::TreeSize),
    }
}

/// The checkpoint that a text is. Fails with `CheckpointMissing` if there is none, or with `Checkpoint` and the fault
/// of the text.
fn decoded_checkpoint(
    alloc: Global,
    text: &Option<Text>,
) -> Result<SignedCheckpoint, ProofFieldsError>
    ensures { Answers ProofFieldsError.OutOfMemory (λ checkpoint. checkpoint) result (checkpoint_or_fault text.now) }
{
    let Some(text) = text else {
        return Err(ProofFieldsError::CheckpointMissing);
    };
    match SignedCheckpoint::decode(alloc, text.as_str()) {
        Ok(checkpoint) => Ok(checkpoint),
        Err(ParseCheckpointError::DecodeError(fault)) => Err(ProofFieldsError::Checkpoint(fault)),
        Err(ParseCheckpointError::OutOfMemory) => Err(ProofFieldsError::OutOfMemory),
    }
}
