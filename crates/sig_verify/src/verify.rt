//! Whether a bundle verifies against a verifier.
ghost use Rattle.std.specs.Prelude.{◌≤◌, length};
ghost use Rattle.sig_base.specs.Answers.{UnlessMemory};
ghost use Rattle.sig_verify.specs.Outcome.{ShowsFirstOfBundle, outside_of};
ghost use Rattle.sig_verify.specs.Verdict.{AfterBody, AfterPolicy, IsDone, IsVerdict, IsVerdictFromIssuance};
ghost use Rattle.sig_verify.specs.Verdict.{checker_of, policy_of};

use crate::content_check::{check_key, check_signature, check_subject, check_time};
use crate::error::{SignatureErrorKind, VerificationError, VerificationResult};
use crate::laws::bundles;
use crate::link_inputs::LinkInputs;
use crate::verifier::Verifier;
use sig_base::SignatureChecker;
use sig_bundle::{ArtifactDigest, Bundle};
use sig_certificate::laws::certificates;
use sig_checked_bundle::CheckedBundle;
use sig_checked_bundle::laws::{is_certificate_bytes, passed_bundles};
use sig_x509::VerificationPolicy;
use std::alloc::Global;

impl Verifier {
    /// Checks that a bundle is about an artifact of this digest, whose certificate is trusted and meets the policy,
    /// and that a log's entry is about it. If not `offline`, an entry without an inclusion proof does not count.
    /// Neither the log's promise nor its proof is checked; `verify_log_entry` does both. Errors, the first that
    /// applies:
    ///
    /// - `Bundle`, as for [`CheckedBundle::try_from_bundle`];
    /// - `Certificate` of `Malformed`: the certificate does not have the profile of one that a trust anchor may issue;
    /// - `Certificate` of `VerificationFailed`: no certification path (RFC 5280 section 6.1) leads from it, at the
    ///   first second of its validity, over the further certificates of the bundle to a trust anchor;
    /// - `Certificate` of `Sct`: no Certificate Transparency log vouches for it under the key of the first issuer in
    ///   such a path, the trust anchors in order and then the further certificates;
    /// - `Policy` of the policy's refusal;
    /// - `Signature` of `AlgoUnsupported`: its key is of a kind that is not supported;
    /// - `Signature` of `DigestAlgorithmUnsupported`: a signature over an artifact, and the digest is not SHA-256;
    /// - `Signature` of `VerificationFailed`: the checker does not accept the signature;
    /// - `Signature` of `SubjectDigestMismatch`: no subject of the statement has the digest;
    /// - `Signature` of `Transparency`: the log's entry is not about the bundle;
    /// - `Certificate` of `Expired`: the log took the entry while the certificate was not valid, both ends included;
    /// - `OutOfMemory`.
    pub fn verify_digest_with<P: VerificationPolicy, C: SignatureChecker>(
        &self,
        alloc: Global,
        input_digest: &ArtifactDigest,
        bundle: &Bundle,
        policy: &P,
        offline: bool,
        checker: &C,
    ) -> VerificationResult
        // It is `Ok` only if the links `material` to `time` hold, and an error is that of the first that does not.
        ensures links { UnlessMemory VerificationError.OutOfMemory result (ShowsFirstOfBundle
            (outside_of C.SignatureChecker checker.now P.VerificationPolicy policy.now)
            self.now input_digest.now offline bundle.now result) }
        // The same by the steps.
        ensures steps { UnlessMemory VerificationError.OutOfMemory result (IsVerdict
            (checker_of C.SignatureChecker checker.now)
            self.now (policy_of P.VerificationPolicy policy.now)
            input_digest.now offline bundle.now result) }
    {
        let inputs = LinkInputs {
            alloc,
            digest: input_digest,
            policy,
            checker,
        };
        self.judge_bundle(bundle, offline, &inputs)
    }

    /// The links `material` to `time`, in order.
    pub(crate) fn judge_bundle<P: VerificationPolicy, C: SignatureChecker>(
        &self,
        bundle: &Bundle,
        offline: bool,
        inputs: &LinkInputs<'_, P, C>,
    ) -> VerificationResult
        ensures links { UnlessMemory VerificationError.OutOfMemory result (ShowsFirstOfBundle
            (outside_of C.SignatureChecker inputs.now.checker.now P.VerificationPolicy inputs.now.policy.now)
            self.now inputs.now.digest.now offline bundle.now result) }
        ensures steps { UnlessMemory VerificationError.OutOfMemory result (IsVerdict
            (checker_of C.SignatureChecker inputs.now.checker.now)
            self.now (policy_of P.VerificationPolicy inputs.now.policy.now)
            inputs.now.digest.now offline bundle.now result) }
    {
        // Bytes are at most one certificate, and the bundle's are bytes; what its own checks require, and say about the
        // links.
        certificates();
        passed_bundles();
        bundles();
        is_certificate_bytes(bundle);
        // The links `material` to `profile`: the bundle's own checks.
        let checked = CheckedBundle::try_from_bundle(inputs.alloc, bundle)?;
        self.judge_checked(&checked, offline, inputs)
    }

    /// The links `issuance` to `time`, in order, of a bundle that passed its own checks.
    fn judge_checked<P: VerificationPolicy, C: SignatureChecker>(
        &self,
        bundle: &CheckedBundle,
        offline: bool,
        inputs: &LinkInputs<'_, P, C>,
    ) -> VerificationResult
        requires few { length bundle.now.further ≤ 16 }
        ensures { UnlessMemory VerificationError.OutOfMemory result (IsVerdictFromIssuance
            (checker_of C.SignatureChecker inputs.now.checker.now)
            self.now (policy_of P.VerificationPolicy inputs.now.policy.now)
            inputs.now.digest.now offline bundle.now result) }
    {
        let issuer_key_hash = self.check_issuance_and_issuer(bundle, inputs)?;
        self.check_sct(bundle, issuer_key_hash, inputs)?;
        check_policy(bundle, inputs)?;
        let key = check_key(inputs.alloc, bundle)?;
        check_signature(bundle, &key, inputs)?;
        check_subject(bundle, inputs.digest)?;
        check_body(bundle, offline, inputs)?;
        check_time(bundle)
    }
}

/// The link `policy`: whether the policy holds of the certificate.
fn check_policy<P: VerificationPolicy, C>(
    bundle: &CheckedBundle,
    inputs: &LinkInputs<'_, P, C>,
) -> VerificationResult
    ensures { UnlessMemory VerificationError.OutOfMemory result (AfterPolicy
        (P.holds inputs.now.policy.now bundle.now.certificate)
        (P.refusal inputs.now.policy.now bundle.now.certificate) IsDone result) }
{
    // A `match`, not `?`: the proof needs what each arm says.
    match inputs.policy.verify(inputs.alloc, bundle.certificate()) {
        Ok(()) => Ok(()),
        Err(refusal) => Err(VerificationError::from(refusal)),
    }
}

/// The link `body`: whether the log entry is about what the bundle holds and about the artifact of this digest.
fn check_body<P, C>(
    bundle: &CheckedBundle,
    offline: bool,
    inputs: &LinkInputs<'_, P, C>,
) -> VerificationResult
    ensures { UnlessMemory VerificationError.OutOfMemory result
        (AfterBody bundle.now inputs.now.digest.now offline IsDone result) }
{
    match bundle.tlog_entry(inputs.alloc, offline, inputs.digest.as_bytes()) {
        Ok(Some(_)) => Ok(()),
        Ok(None) => Err(VerificationError::Signature(SignatureErrorKind::Transparency)),
        Err(_) => Err(VerificationError::OutOfMemory),
    }
}
