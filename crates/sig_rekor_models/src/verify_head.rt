//! Whether a log vouches for its tree head, and that tree has an older one as its first leaves.
ghost use Rattle.std.specs.Prelude.{◌≡◌, OnOk, IsOkUnless};
ghost use Rattle.sig_base.specs.Answers.{Answers};
ghost use Rattle.sig_base.specs.declared.error.SigstoreError.TheVariants.{OutOfMemory as Memory};
ghost use Rattle.sig_key.specs.Key.{key_accepts};
ghost use Rattle.sig_rekor_models.specs.Consistency.{IsGrownHead, head_answer};

use crate::consistency_proof::ConsistencyProof;
use crate::log_info::LogInfo;
use sig_base::{Result, SignatureChecker};
use sig_key::CosignVerificationKey;
use std::alloc::Global;

impl LogInfo {
    /// Checks that the log signed this tree head, that what it signed is of this tree, and that the proof shows that
    /// the tree has the tree of the old size and root as its first leaves.
    ///
    /// Errors, the first that applies:
    /// - `CheckpointSignatureVerificationError`, as of [`sig_rekor::SignedCheckpoint::verify_signature`];
    /// - `ConsistencyProofError`, as of [`sig_rekor::SignedCheckpoint::is_valid_for_proof`] of the tree head;
    /// - `ConsistencyProofError`, as of [`ConsistencyProof::verify`].
    ///
    /// `laws::growth_refusals` says when each comes.
    #[tactic(auto, unfolding(crate::specs::Consistency::head_answer))]
    pub fn verify_consistency<C: SignatureChecker>(
        &self,
        alloc: Global,
        old_size: u64,
        old_root: &[u8; 32],
        consistency_proof: &ConsistencyProof,
        rekor_key: &CosignVerificationKey,
        checker: &C,
    ) -> Result<()>
        ensures answer { Answers Memory (λ x. x) result
            (head_answer (key_accepts (C.spki_accepts checker.now) rekor_key.now) self.now old_size old_root.now
            consistency_proof.now) }
        ensures ok { OnOk result (IsGrownHead (key_accepts (C.spki_accepts checker.now) rekor_key.now) self.now
            old_size old_root.now consistency_proof.now) }
        ensures only { IsGrownHead (key_accepts (C.spki_accepts checker.now) rekor_key.now) self.now
            old_size old_root.now consistency_proof.now → IsOkUnless result Memory }
    {
        let head = &self.signed_tree_head;
        head.verify_signature(alloc, rekor_key, checker)?;
        head.is_valid_for_proof(&self.root_hash, self.tree_size)?;
        consistency_proof.verify(old_size, old_root, self.tree_size, Some(&self.root_hash))
    }
}
