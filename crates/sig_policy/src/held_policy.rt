//! `HeldPolicy`: the policy of a request, prepared for many certificates.

ghost use Rattle.std.specs.Prelude.{◌≡◌, IfOk};
ghost use Rattle.sig_policy.specs.AskedTexts.{AreAskedBy, rules_of};
ghost use Rattle.sig_policy.specs.Refusals.{any_of};
ghost use Rattle.sig_policy.specs.Requests.{request_holds};

use crate::asked_texts::AskedTexts;
use crate::failure::PolicyError;
use crate::policy::{PolicyResult, VerificationPolicy};
use crate::request::{LeafPolicies, RequestPolicy};
use crate::said::said_by;
use sig_base::OutOfMemory;
use sig_certificate::Certificate;
use std::alloc::Global;
use std::marker::Model;

/// The policy of a request, with the texts that its rules ask for, each once and in order. Contracts see the policy. It
/// is borrowed, as the texts are.
///
/// It is made in one pass over the rules. After that, whether the policy holds of a certificate takes the time of what
/// the certificate says, times the logarithm of the number of rules: [`RequestPolicy::holds_of`] goes over all rules
/// each time.
#[derive(Drop)]
pub struct HeldPolicy<'a> {
    policy: &'a RequestPolicy,
    asked: AskedTexts<'a>,
}

impl<'a> Model for HeldPolicy<'a> {
    ghost use Rattle.sig_policy.specs.AskedTexts.{AreAskedBy, rules_of};
    ghost use Rattle.sig_policy.specs.declared.request.RequestPolicy.{RequestPolicy};

    ghost Value = { RequestPolicy };

    ghost view = { λ p. p.policy.now };

    ghost invariant = { λ p. AreAskedBy (rules_of p.policy.now) p.asked };
}

impl<'a> HeldPolicy<'a> {
    /// Returns the policy, prepared for many certificates. Fails only if out of memory.
    pub fn new(alloc: Global, policy: &'a RequestPolicy) -> Result<HeldPolicy<'a>, OutOfMemory>
        ensures { IfOk result (λ p. p ≡ policy.now) }
    {
        let asked = AskedTexts::of(alloc, rules_of(policy).as_slice())?;
        Ok(HeldPolicy { policy, asked })
    }

    /// Returns the policy itself.
    pub fn policy(&self) -> &'a RequestPolicy
        ensures { result.now ≡ self.now }
    {
        self.policy
    }

    /// Whether the policy holds of the certificate, as [`RequestPolicy::holds_of`] says it. Fails only if out of
    /// memory.
    pub fn holds_of(&self, alloc: Global, cert: &Certificate) -> Result<bool, OutOfMemory>
        ensures { IfOk result (λ b. b ≡ request_holds self.now cert.now) }
    {
        let said = said_by(alloc, cert)?;
        match self.policy {
            RequestPolicy::All(_) => Ok(self.asked.all_hold(&said)),
            RequestPolicy::Any(_) => Ok(self.asked.one_holds(&said)),
        }
    }
}

fn rules_of(policy: &RequestPolicy) -> &LeafPolicies
    ensures { result.now ≡ rules_of policy.now }
{
    match policy {
        RequestPolicy::All(rules) => rules,
        RequestPolicy::Any(rules) => rules,
    }
}

/// The policy as a list of one policy, of which one has to hold: so its refusal does not contain anything of the
/// certificate.
impl VerificationPolicy for HeldPolicy<'_> {
    ghost holds = { request_holds };

    ghost refusal = { λ p c. any_of 1 };

    /// Returns `Ok` if and only if the policy holds; else `AnyOf` of one policy.
    fn verify(&self, alloc: Global, cert: &Certificate) -> PolicyResult {
        if self.holds_of(alloc, cert)? {
            return Ok(());
        }
        Err(PolicyError::AnyOf { total: 1 })
    }
}
