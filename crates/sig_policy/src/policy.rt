//! What a policy is: a predicate of certificates, with one refusal for each certificate that does not meet it.

ghost use Rattle.std.specs.Prelude.{Bool};
ghost use Rattle.sig_certificate.specs.Certificate.{Cert};
ghost use Rattle.sig_policy.specs.Refusals.{Refusal};
ghost use Rattle.sig_policy.specs.Verdict.{IsPolicyResult};

use crate::failure::PolicyError;
use sig_certificate::Certificate;
use std::alloc::Global;

/// `Ok` if the policy holds of the certificate, else why not.
pub type PolicyResult = Result<(), PolicyError>;

/// A predicate of certificates.
pub trait VerificationPolicy: Drop {
    // The certificates of which the policy holds.
    ghost holds: { Self → Cert → Bool };

    // The refusal of a certificate that does not meet the policy. Out of memory is not one.
    ghost refusal: { Self → Cert → Refusal };

    /// Returns `Ok` if and only if the policy holds of the certificate, unless memory ran out; else the error that
    /// says its refusal. `OutOfMemory` says nothing of the certificate, also if a policy that this one asks ran out of
    /// memory.
    fn verify(&self, alloc: Global, cert: &Certificate) -> PolicyResult
        ensures { IsPolicyResult (holds self.now cert.now) (refusal self.now cert.now) result };
}
