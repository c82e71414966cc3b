//! `InclusionProof`: that an entry is in a log's tree, and a checkpoint that vouches for the tree.
ghost use Rattle.std.specs.Prelude.{◌≡◌, ◌↔◌, IsOk, OnOk, IsOkUnless, Ok, Err};
ghost use Rattle.sig_base.specs.Answers.{Answers};
ghost use Rattle.sig_base.specs.declared.error.SigstoreError.TheVariants.{OutOfMemory as Memory};
ghost use Rattle.sig_key.specs.Key.{key_accepts};

use crate::checkpoint::SignedCheckpoint;
use sig_base::{Hashes, MerkleProofError, Result, SignatureChecker, SigstoreError, UnexpectedKind};
use sig_key::CosignVerificationKey;
use sig_merkle::{hash_leaf, uncounted};
use std::alloc::Global;

/// The path from an entry's leaf to the root of a log's tree (RFC 6962 section 2.1.1), with a checkpoint of that tree.
#[derive(Drop, PartialEq, Eq)]
pub struct InclusionProof {
    /// The index of the leaf in the tree.
    pub log_index: i64,
    /// The root hash of the tree.
    pub root_hash: [u8; 32],
    /// How many leaves the tree has.
    pub tree_size: u64,
    /// The hashes of the path, from the leaf to the root.
    pub hashes: Hashes,
    /// What the log signed of the tree.
    pub checkpoint: Option<SignedCheckpoint>,
}

impl InclusionProof {
    ghost use Rattle.sig_rekor.specs.Verify.{proof_answer, IsIncludedAt, IsVouched, inclusion_at};

    /// Returns the proof of these parts.
    pub fn new(
        log_index: i64,
        root_hash: [u8; 32],
        tree_size: u64,
        hashes: Hashes,
        checkpoint: Option<SignedCheckpoint>,
    ) -> InclusionProof
        ensures { result ≡ record {
          log_index = log_index;
          root_hash = root_hash;
          tree_size = tree_size;
          hashes = hashes;
          checkpoint = checkpoint;
        } }
    {
        InclusionProof {
            log_index,
            root_hash,
            tree_size,
            hashes,
            checkpoint,
        }
    }

    /// Checks that the log vouches for the entry: a checkpoint is present, one of its signatures is the log's, it is
    /// of this proof's tree, and the audit path leads from the entry's leaf to the root.
    ///
    /// Errors, the first that applies:
    /// - `UnexpectedError` of `CheckpointMissing`;
    /// - `CheckpointSignatureVerificationError`;
    /// - `ConsistencyProofError`, as for [`SignedCheckpoint::is_valid_for_proof`];
    /// - `InclusionProofError` of `IndexGtTreeSize`: the index is negative or not below the size;
    /// - `InclusionProofError` of `WrongProofSize`: another number of hashes;
    /// - `InclusionProofError` of `MismatchedRoot`: another root.
    ///
    /// `laws::proof_refusals` says when each comes.
    pub fn verify<C: SignatureChecker>(
        &self,
        alloc: Global,
        entry: &[u8],
        rekor_key: &CosignVerificationKey,
        checker: &C,
    ) -> Result<()>
        ensures answer { Answers Memory (λ x. x) result
            (proof_answer (key_accepts (C.spki_accepts checker.now) rekor_key.now) entry.now self.now) }
        ensures ok { OnOk result (IsVouched (key_accepts (C.spki_accepts checker.now) rekor_key.now) entry.now
            self.now) }
        ensures only { IsVouched (key_accepts (C.spki_accepts checker.now) rekor_key.now) entry.now self.now
            → IsOkUnless result Memory }
    {
        self.check(alloc, entry, rekor_key, checker)
    }

    #[tactic(auto, unfolding(crate::specs::Verify::proof_answer))]
    fn check<C: SignatureChecker>(
        &self,
        alloc: Global,
        entry: &[u8],
        rekor_key: &CosignVerificationKey,
        checker: &C,
    ) -> Result<()>
        ensures { Answers Memory (λ x. x) result
            (proof_answer (key_accepts (C.spki_accepts checker.now) rekor_key.now) entry.now self.now) }
    {
        let Some(checkpoint) = &self.checkpoint else {
            return Err(SigstoreError::UnexpectedError(UnexpectedKind::CheckpointMissing));
        };
        checkpoint.verify_signature(alloc, rekor_key, checker)?;
        checkpoint.is_valid_for_proof(&self.root_hash, self.tree_size)?;
        self.check_path(entry)
    }

    /// Checks only the audit path (RFC 6962 section 2.1.1): it leads from the entry's leaf to the root. The checkpoint
    /// is not checked, so the root need not be the log's. It takes no memory.
    ///
    /// Errors, each an `InclusionProofError`, the first that applies:
    /// - `IndexGtTreeSize`: the index is negative or not below the size;
    /// - `WrongProofSize`: another number of hashes;
    /// - `MismatchedRoot`: another root.
    ///
    /// `laws::path_refusals` says when each comes.
    pub fn verify_audit_path(&self, entry: &[u8]) -> Result<()>
        ensures answer { result ≡ inclusion_at self.now.log_index entry.now self.now }
        ensures ok { IsOk result ↔ IsIncludedAt self.now.log_index entry.now self.now }
    {
        self.check_path(entry)
    }

    fn check_path(&self, entry: &[u8]) -> Result<()>
        ensures { result ≡ inclusion_at self.now.log_index entry.now self.now }
    {
        let Ok(index) = u64::try_from(self.log_index) else {
            return Err(SigstoreError::InclusionProofError(MerkleProofError::IndexGtTreeSize));
        };
        match uncounted::verify_inclusion(
            index,
            &hash_leaf(entry),
            self.tree_size,
            self.hashes.as_slice(),
            &self.root_hash,
        ) {
            Ok(()) => Ok(()),
            Err(refusal) => Err(SigstoreError::InclusionProofError(refusal)),
        }
    }
}
