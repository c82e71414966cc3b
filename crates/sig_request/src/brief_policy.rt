//! The policy of a request, where the program only asks whether it holds.
ghost use Rattle.sig_policy.specs.Refusals.{any_of};
ghost use Rattle.sig_policy.specs.Requests.{request_holds};

use sig_certificate::Certificate;
use sig_policy::{PolicyError, PolicyResult, RequestPolicy, VerificationPolicy};
use std::alloc::Global;

/// The policy of a request as a list of one policy, of which one has to hold. So its refusal does not contain anything
/// of the certificate, where that of the request's policy has a copy of what the certificate says for each rule that
/// does not hold: more than memory holds, for as many rules and as long a text as a request may have.
#[derive(Drop)]
pub struct BriefPolicy<'a> {
    /// The policy of the request.
    pub policy: &'a RequestPolicy,
}

impl VerificationPolicy for BriefPolicy<'_> {
    ghost holds = { λ p c. request_holds p.policy.now c };

    ghost refusal = { λ p c. any_of 1 };

    /// Returns `Ok` if and only if the request's policy holds; else `AnyOf` of one policy.
    fn verify(&self, alloc: Global, cert: &Certificate) -> PolicyResult {
        if self.policy.holds_of(alloc, cert)? {
            return Ok(());
        }
        Err(PolicyError::AnyOf { total: 1 })
    }
}
