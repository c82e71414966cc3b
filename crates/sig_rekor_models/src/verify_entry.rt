//! Whether a log vouches for an entry.
ghost use Rattle.std.specs.Prelude.{◌≡◌, OnOk, IsOkUnless};
ghost use Rattle.sig_base.specs.Answers.{Answers};
ghost use Rattle.sig_base.specs.declared.error.SigstoreError.TheVariants.{OutOfMemory as Memory};
ghost use Rattle.sig_key.specs.Key.{key_accepts};
ghost use Rattle.sig_rekor_models.specs.Body.{seen_body};
ghost use Rattle.sig_rekor_models.specs.Inclusion.{IsVouchedEntry, carried_proof, entry_answer, logged_bytes};
ghost use Rattle.sig_rekor_models.specs.LogEntry.{seen_entry};

use crate::body::Body;
use crate::log_entry::LogEntry;
use sig_base::{Result, SignatureChecker, SigstoreError, Text, UnexpectedKind};
use sig_json_text::{CanonicalError, canonical};
use sig_key::CosignVerificationKey;
use sig_rekor::InclusionProof;
use std::alloc::Global;

impl LogEntry {
    /// Checks that the log vouches for the entry: its inclusion proof is there, and proves that the canonical JSON
    /// (RFC 8785) of its body is included.
    ///
    /// Errors, the first that applies:
    /// - `UnexpectedError` of `ProofMissing`: the entry has no inclusion proof;
    /// - `UnexpectedError` of `ProofConversion`: [`InclusionProof::try_from_rekor`] fails;
    /// - `UnexpectedError` of `CanonicalBody`: the body holds an integer outside plus or minus 2^53 - 1;
    /// - those of [`InclusionProof::verify`].
    ///
    /// `laws::entry_refusals` says when each comes.
    pub fn verify_inclusion<C: SignatureChecker>(
        &self,
        alloc: Global,
        rekor_key: &CosignVerificationKey,
        checker: &C,
    ) -> Result<()>
        ensures answer { Answers Memory (λ x. x) result
            (entry_answer (key_accepts (C.spki_accepts checker.now) rekor_key.now) (seen_entry self.now)) }
        ensures ok { OnOk result (IsVouchedEntry (key_accepts (C.spki_accepts checker.now) rekor_key.now)
            (seen_entry self.now)) }
        ensures only { IsVouchedEntry (key_accepts (C.spki_accepts checker.now) rekor_key.now) (seen_entry self.now)
            → IsOkUnless result Memory }
    {
        self.check(alloc, rekor_key, checker)
    }

    #[tactic(auto, unfolding(crate::specs::Inclusion::entry_answer))]
    fn check<C: SignatureChecker>(
        &self,
        alloc: Global,
        rekor_key: &CosignVerificationKey,
        checker: &C,
    ) -> Result<()>
        ensures { Answers Memory (λ x. x) result
            (entry_answer (key_accepts (C.spki_accepts checker.now) rekor_key.now) (seen_entry self.now)) }
    {
        let proof = self.proof(alloc)?;
        let answer = match canonical_body(alloc, &self.body) {
            Ok(leaf) => proof.verify(alloc, leaf.as_str().as_bytes(), rekor_key, checker),
            Err(error) => Err(error),
        };
        drop(proof);
        answer
    }

    /// The proof that the entry carries.
    fn proof(&self, alloc: Global) -> Result<InclusionProof>
        ensures { Answers Memory (λ proof. proof) result (carried_proof (seen_entry self.now)) }
    {
        let Some(api) = &self.verification.inclusion_proof else {
            return Err(SigstoreError::UnexpectedError(UnexpectedKind::ProofMissing));
        };
        match InclusionProof::try_from_rekor(alloc, api) {
            Ok(proof) => Ok(proof),
            Err(SigstoreError::OutOfMemory) => Err(SigstoreError::OutOfMemory),
            Err(_) => Err(SigstoreError::UnexpectedError(UnexpectedKind::ProofConversion)),
        }
    }
}

/// The canonical JSON of a body. Fails with `CanonicalBody` if an integer of it is too large.
fn canonical_body(alloc: Global, body: &Body) -> Result<Text>
    ensures { Answers Memory (λ text. text) result (logged_bytes (seen_body body.now)) }
{
    let json = body.json(alloc)?;
    match canonical(alloc, json.view()) {
        Ok(text) => Ok(text),
        Err(CanonicalError::IntegerTooLarge) => {
            Err(SigstoreError::UnexpectedError(UnexpectedKind::CanonicalBody))
        }
        Err(CanonicalError::OutOfMemory) => Err(SigstoreError::OutOfMemory),
    }
}
