//! Whether a signed bundle is trusted, without a network.
ghost use Rattle.std.specs.Prelude.{◌≡◌, ℕ, ℤ, IsSome, List, OnOk};
ghost use Rattle.sig_base.specs.Answers.{UnlessMemory};
ghost use Rattle.sig_bundle.specs.BundleRecord.{bundle_in};
ghost use Rattle.sig_verify.specs.HeldRoot.{IsHeldOf, IsOfflineUnder, IsVerdictUnder};
ghost use Rattle.sig_verify.specs.OfflineLaws.{IsOfBundleOfBytes};
ghost use Rattle.sig_verify.specs.OfflineVerdict.{AfterRead};
ghost use Rattle.sig_verify.specs.OfflineVerdict.{borrowed_entry, only_entry_of};
ghost use Rattle.sig_verify.specs.Outcome.{GoesBySteps, KeepsEntry, ShowsFirstLink, inputs_of, outside_of};
ghost use Rattle.sig_verify.specs.Verdict.{checker_of, policy_of};
ghost use Rattle.sig_verify.specs.declared.offline_error.Part.TheVariants.{Bundle as BundlePart};

use crate::held_root::{HeldRoot, Trust};
use crate::laws::{is_entry_bytes, outcomes};
use crate::link_inputs::LinkInputs;
use crate::log_entry::{check_log_key, vouched};
use crate::logged_entry::LoggedEntry;
use crate::offline_error::{OfflineError, Part, json_error, verification_error};
use sig_base::SignatureChecker;
use sig_bundle::{ArtifactDigest, Bundle, TransparencyLogEntry, read_bundle};
use sig_checked_bundle::laws::is_certificate_bytes;
use sig_x509::VerificationPolicy;
use std::alloc::Global;

/// Checks every link of the chain of trust of a bundle for an artifact of this digest, at a time in whole seconds
/// since 1970, and returns the log entry with its proof. The error is that of the first link that fails, in the order
/// of [`Link`](crate::Link): those of the two texts, of [`Verifier::new`](crate::Verifier::new), of
/// [`Verifier::verify_digest_with`](crate::Verifier::verify_digest_with) with `offline`, and of
/// [`verify_log_entry`](crate::verify_log_entry) under the keys of the root's logs at that time; or `OutOfMemory`.
/// [`causes_of_errors`](crate::laws::causes_of_errors) says each in the words of the inputs.
pub fn verify_offline<P: VerificationPolicy, C: SignatureChecker>(
    alloc: Global,
    trusted_root: &[u8],
    now: i64,
    digest: &ArtifactDigest,
    bundle: &[u8],
    policy: &P,
    checker: &C,
) -> Result<LoggedEntry, OfflineError>
    // There is a value if and only if every link holds, and an error is that of the first that does not.
    ensures links { ShowsFirstLink
        (outside_of C.SignatureChecker checker.now P.VerificationPolicy policy.now)
        (inputs_of trusted_root.now now digest.now bundle.now) result }
    // The value is the body of the bundle's log entry, with the proof that its members are.
    ensures kept { KeepsEntry (inputs_of trusted_root.now now digest.now bundle.now) result }
    // The same by the steps.
    ensures steps { GoesBySteps
        (outside_of C.SignatureChecker checker.now P.VerificationPolicy policy.now)
        (inputs_of trusted_root.now now digest.now bundle.now) result }
{
    // What the steps mean, and the bytes that this needs.
    outcomes();
    let held = HeldRoot::read(alloc, trusted_root, now)?;
    let inputs = LinkInputs {
        alloc,
        digest,
        policy,
        checker,
    };
    held.judge(bundle, &inputs)
}

impl HeldRoot {
    /// Returns what [`verify_offline`] returns for the text and the time that this root was read from, and of this
    /// digest and bundle; the root is not read again.
    pub fn verify<P: VerificationPolicy, C: SignatureChecker>(
        &self,
        alloc: Global,
        digest: &ArtifactDigest,
        bundle: &[u8],
        policy: &P,
        checker: &C,
    ) -> Result<LoggedEntry, OfflineError>
        // There is a value if and only if every link holds, and an error is that of the first that does not.
        ensures links { (root : List ℕ) (now : ℤ) → IsHeldOf root now self.now → ShowsFirstLink
            (outside_of C.SignatureChecker checker.now P.VerificationPolicy policy.now)
            (inputs_of root now digest.now bundle.now) result }
        // The value is the body of the bundle's log entry, with the proof that its members are.
        ensures kept { (root : List ℕ) (now : ℤ) → IsHeldOf root now self.now
            → KeepsEntry (inputs_of root now digest.now bundle.now) result }
        // The same by the steps.
        ensures steps { (root : List ℕ) (now : ℤ) → IsHeldOf root now self.now → GoesBySteps
            (outside_of C.SignatureChecker checker.now P.VerificationPolicy policy.now)
            (inputs_of root now digest.now bundle.now) result }
    {
        // What the steps mean, and the bytes that this needs.
        outcomes();
        let inputs = LinkInputs {
            alloc,
            digest,
            policy,
            checker,
        };
        self.judge(bundle, &inputs)
    }

    /// The links from `bundle-json` on, in order.
    fn judge<P: VerificationPolicy, C: SignatureChecker>(
        &self,
        bundle: &[u8],
        inputs: &LinkInputs<'_, P, C>,
    ) -> Result<LoggedEntry, OfflineError>
        ensures bytes { UnlessMemory OfflineError.OutOfMemory result (IsOfBundleOfBytes bundle.now) }
        ensures steps { UnlessMemory OfflineError.OutOfMemory result (AfterRead BundlePart (bundle_in bundle.now)
            (IsOfflineUnder
            (checker_of C.SignatureChecker inputs.now.checker.now)
            (policy_of P.VerificationPolicy inputs.now.policy.now)
            self.now inputs.now.digest.now) result) }
    {
        // A `match`, not `?`: the proof needs what each arm says.
        match read_bundle(inputs.alloc, bundle) {
            Ok(bundle) => {
                // Certificate and log entry are bytes.
                is_certificate_bytes(&bundle);
                is_entry_bytes(&bundle);
                self.check_bundle(&bundle, inputs)
            }
            Err(error) => Err(json_error(Part::Bundle, error)),
        }
    }

    /// The links from `fulcio` on, in order, of a bundle that was read.
    fn check_bundle<P: VerificationPolicy, C: SignatureChecker>(
        &self,
        bundle: &Bundle,
        inputs: &LinkInputs<'_, P, C>,
    ) -> Result<LoggedEntry, OfflineError>
        ensures { UnlessMemory OfflineError.OutOfMemory result (IsOfflineUnder
            (checker_of C.SignatureChecker inputs.now.checker.now)
            (policy_of P.VerificationPolicy inputs.now.policy.now)
            self.now inputs.now.digest.now bundle.now result) }
    {
        let trust = self.check_root()?;
        trust.check_signed(bundle, inputs)?;
        // The links `log-key` to `inclusion`, of the bundle's only entry.
        let Some(entry) = only_entry_of(bundle) else {
            unreachable!()
        };
        let key = check_log_key(inputs.alloc, entry, &trust.log_keys)?;
        vouched(inputs.alloc, entry, &key, inputs.checker)
    }
}

impl Trust {
    /// The links `material` to `time`. If they hold of a bundle, it has one entry.
    fn check_signed<P: VerificationPolicy, C: SignatureChecker>(
        &self,
        bundle: &Bundle,
        inputs: &LinkInputs<'_, P, C>,
    ) -> Result<(), OfflineError>
        ensures verdict { UnlessMemory OfflineError.OutOfMemory result (IsVerdictUnder
            (checker_of C.SignatureChecker inputs.now.checker.now)
            (policy_of P.VerificationPolicy inputs.now.policy.now)
            self.now.verifier inputs.now.digest.now bundle.now result) }
        ensures logged { OnOk result (IsSome (only_entry_of bundle.now)) }
    {
        match self.verifier.judge_bundle(bundle, true, inputs) {
            Ok(()) => Ok(()),
            Err(error) => Err(verification_error(error)),
        }
    }
}

/// The log entry, if the bundle has exactly one.
pub(crate) fn only_entry_of(bundle: &Bundle) -> Option<&TransparencyLogEntry>
    ensures { borrowed_entry result ≡ only_entry_of bundle.now }
{
    match &bundle.verification_material {
        Some(material) => material.tlog_entries.only(),
        None => None,
    }
}
