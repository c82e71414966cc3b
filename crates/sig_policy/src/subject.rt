//! What policies are about: a certificate, or what it says.

ghost use Rattle.std.specs.Prelude.{◌≡◌, Bool, IfOk};
ghost use Rattle.sig_policy.specs.Refusals.{Refusal};
ghost use Rattle.sig_policy.specs.Verdict.{IsPolicyResult};

use crate::failure::PolicyError;
use crate::policy::{PolicyResult, VerificationPolicy};
use sig_base::OutOfMemory;
use sig_certificate::Certificate;
use std::alloc::Global;

/// What policies of a type are about.
pub(crate) trait PolicySubject<P> {
    // The policies that hold of it.
    ghost holds: { Self → P → Bool };

    // The one refusal of a policy that does not hold of it. Out of memory is not one.
    ghost refusal: { Self → P → Refusal };

    /// Returns `Ok` if and only if the policy holds, unless memory ran out; else the error that says its refusal.
    fn judge(&self, alloc: Global, policy: &P) -> PolicyResult
        ensures { IsPolicyResult (holds self.now policy.now) (refusal self.now policy.now) result };

    /// Whether the policy holds. Fails only if out of memory.
    fn meets(&self, alloc: Global, policy: &P) -> Result<bool, OutOfMemory>
        ensures { IfOk result (λ b. b ≡ holds self.now policy.now) };
}

impl<P: VerificationPolicy> PolicySubject<P> for Certificate {
    ghost holds = { λ c p. P.holds p c };

    ghost refusal = { λ c p. P.refusal p c };

    fn judge(&self, alloc: Global, policy: &P) -> PolicyResult {
        policy.verify(alloc, self)
    }

    fn meets(&self, alloc: Global, policy: &P) -> Result<bool, OutOfMemory> {
        match policy.verify(alloc, self) {
            Ok(()) => Ok(true),
            Err(PolicyError::OutOfMemory) => Err(OutOfMemory),
            Err(_) => Ok(false),
        }
    }
}
