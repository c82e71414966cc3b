//! Whether a bundle verifies for an artifact, which is given by its SHA-256 digest or by its bytes.
ghost use Rattle.std.specs.Prelude.{◌≡◌, ◌⊎◌, ◌+◌, ◌≤◌, Err, IsErrOf};
ghost use Rattle.sig_base.specs.Answers.{UnlessMemory};
ghost use Rattle.sig_base.specs.Sha256.{sha256};
ghost use Rattle.sig_base.specs.Stream.{Rose, TookAtMost, TookCount};
ghost use Rattle.sig_dsse.specs.declared.artifact_digest.ArtifactDigest.TheVariants.{Sha256 as Sha256Digest};
ghost use Rattle.sig_verify.specs.Artifact.{IsUnread, OfRest, most_artifact_bytes};
ghost use Rattle.sig_verify.specs.Outcome.{ShowsFirstOfBundle, outside_of};

use crate::artifact::{InputFault, sha256_of_rest};
use crate::error::{VerificationError, VerificationResult};
use crate::verifier::Verifier;
use sig_base::{SignatureChecker, Source};
use sig_bundle::{ArtifactDigest, Bundle};
use sig_x509::VerificationPolicy;
use std::alloc::Global;

impl Verifier {
    /// [`Verifier::verify_digest_with`] for an artifact of this SHA-256 digest (FIPS 180-4 section 6.2).
    pub fn verify_digest<P: VerificationPolicy, C: SignatureChecker>(
        &self,
        alloc: Global,
        input_digest: [u8; 32],
        bundle: &Bundle,
        policy: &P,
        offline: bool,
        checker: &C,
    ) -> VerificationResult
        // It is `Ok` only if the links `material` to `time` hold, and an error is that of the first that does not.
        ensures links { UnlessMemory VerificationError.OutOfMemory result (ShowsFirstOfBundle
            (outside_of C.SignatureChecker checker.now P.VerificationPolicy policy.now)
            self.now (Sha256Digest input_digest) offline bundle.now result) }
    {
        let digest = ArtifactDigest::Sha256(input_digest);
        self.verify_digest_with(alloc, &digest, bundle, policy, offline, checker)
    }

    /// [`Verifier::verify_digest`] for the artifact whose bytes are all that the source has left. They are hashed as
    /// they are read, so that memory does not grow with them. Errors before all others:
    ///
    /// - `Input` of `Fault`: a read failed; it comes only if the source's count of faults rose;
    /// - `Input` of `TooLong`: 2^40 + 1 bytes were taken. It never reads more.
    pub fn verify<S: Source, P: VerificationPolicy, C: SignatureChecker>(
        &self,
        alloc: Global,
        input: &mut S,
        bundle: &Bundle,
        policy: &P,
        offline: bool,
        checker: &C,
    ) -> VerificationResult
        // It is `Ok` only if the links `material` to `time` hold of the SHA-256 of the bytes, and an error is that of
        // the first that does not, unless the bytes could not be read.
        ensures links { IsUnread result ⊎ UnlessMemory VerificationError.OutOfMemory result
            (OfRest (S.left input.old) (S.left input.new) (λ bytes. ShowsFirstOfBundle
            (outside_of C.SignatureChecker checker.now P.VerificationPolicy policy.now)
            self.now (Sha256Digest (sha256 bytes)) offline bundle.now result)) }
        ensures long { IsErrOf result (VerificationError.Input InputFault.TooLong)
            → TookCount (S.left input.old) (S.left input.new) (most_artifact_bytes + 1) }
        // With every other result fewer were taken.
        ensures short { (result ≡ Err (VerificationError.Input InputFault.TooLong))
            ⊎ TookAtMost most_artifact_bytes (S.left input.old) (S.left input.new) }
        ensures fault { IsErrOf result (VerificationError.Input InputFault.Fault)
            → Rose (S.faults input.old) (S.faults input.new) }
        ensures later { S.faults input.old ≤ S.faults input.new }
    {
        match sha256_of_rest(input) {
            Ok(digest) => self.verify_digest(alloc, digest, bundle, policy, offline, checker),
            Err(fault) => Err(VerificationError::Input(fault)),
        }
    }
}
