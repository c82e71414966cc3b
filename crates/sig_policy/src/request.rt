//! A list of policies, of which each or at least one has to hold.

ghost use Rattle.std.specs.Prelude.{◌≡◌, length, IfOk};
ghost use Rattle.std.specs.List.{list_all, list_any};
ghost use Rattle.sig_policy.specs.Requests.{leaf_holds, leaf_policy_refusal, refused, refusals, all_refusal};
ghost use Rattle.sig_policy.specs.Requests.{request_holds};
ghost use Rattle.sig_policy.specs.Requests.{request_refusal};
ghost use Rattle.sig_policy.specs.Failures.{failures};
ghost use Rattle.sig_policy.specs.Refusals.{any_of, refusals_of, AreRefusals, IsRefusalOf};
ghost use Rattle.sig_policy.specs.Verdict.{IsPolicyResult};

use crate::failure::{PolicyError, PolicyErrors, all_of};
use crate::fulcio::{
    GitHubWorkflowName, GitHubWorkflowRef, GitHubWorkflowRepository, GitHubWorkflowSHA,
    GitHubWorkflowTrigger, OIDCIssuer,
};
use crate::identity::Identity;
use crate::policy::{PolicyResult, VerificationPolicy};
use crate::said::said_by;
use crate::subject::PolicySubject;
use sig_base::{OutOfMemory, OwnedList};
use sig_certificate::Certificate;
use std::alloc::Global;

/// A policy of a request's list.
#[derive(Debug, Drop)]
pub enum LeafPolicy {
    /// The issuer of the token.
    OIDCIssuer(OIDCIssuer),
    /// The trigger of the GitHub workflow.
    GitHubWorkflowTrigger(GitHubWorkflowTrigger),
    /// The commit of the GitHub workflow.
    GitHubWorkflowSHA(GitHubWorkflowSHA),
    /// The name of the GitHub workflow.
    GitHubWorkflowName(GitHubWorkflowName),
    /// The repository of the GitHub workflow.
    GitHubWorkflowRepository(GitHubWorkflowRepository),
    /// The ref of the GitHub workflow.
    GitHubWorkflowRef(GitHubWorkflowRef),
    /// The identity, with its issuer.
    Identity(Identity),
}

/// Policies in order.
pub type LeafPolicies = OwnedList<LeafPolicy>;

/// What a request requires of the signing certificate.
#[derive(Drop)]
pub enum RequestPolicy {
    /// Each policy of the list has to hold.
    All(LeafPolicies),
    /// At least one policy of the list has to hold; so an empty list does not hold.
    Any(LeafPolicies),
}

impl VerificationPolicy for LeafPolicy {
    ghost holds = { leaf_holds };

    ghost refusal = { leaf_policy_refusal };

    /// Returns the result of the policy that it holds.
    fn verify(&self, alloc: Global, cert: &Certificate) -> PolicyResult {
        match self {
            LeafPolicy::OIDCIssuer(policy) => policy.verify(alloc, cert),
            LeafPolicy::GitHubWorkflowTrigger(policy) => policy.verify(alloc, cert),
            LeafPolicy::GitHubWorkflowSHA(policy) => policy.verify(alloc, cert),
            LeafPolicy::GitHubWorkflowName(policy) => policy.verify(alloc, cert),
            LeafPolicy::GitHubWorkflowRepository(policy) => policy.verify(alloc, cert),
            LeafPolicy::GitHubWorkflowRef(policy) => policy.verify(alloc, cert),
            LeafPolicy::Identity(policy) => policy.verify(alloc, cert),
        }
    }
}

impl VerificationPolicy for RequestPolicy {
    ghost holds = { request_holds };

    ghost refusal = { request_refusal };

    /// `All`: returns `Ok` if and only if each policy holds, else `AllOf` with the number of policies and the refusals
    /// of those that do not hold, in order. `Any`: returns `Ok` if and only if at least one holds, else `AnyOf` with
    /// the number of policies.
    ///
    /// Each refusal has a copy of what the certificate says, so that many refusals of a long text take their product in
    /// time and in memory. [`holds_of`](RequestPolicy::holds_of) does not make any.
    fn verify(&self, alloc: Global, cert: &Certificate) -> PolicyResult {
        // The extensions are looked up once, since whoever makes a certificate chooses how many it has.
        let said = said_by(alloc, cert)?;
        match self {
            RequestPolicy::All(policies) => verify_all(alloc, policies.as_slice(), &said),
            RequestPolicy::Any(policies) => verify_any(alloc, policies.as_slice(), &said),
        }
    }
}

impl RequestPolicy {
    /// Whether the policy holds of the certificate. It does not make a refusal: time and memory are linear in the
    /// certificate and in the policies, except for the logarithm of the number of names.
    /// [`rule_laws`](crate::rule_laws) says which extension each policy compares. Fails only if out of memory.
    pub fn holds_of(&self, alloc: Global, cert: &Certificate) -> Result<bool, OutOfMemory>
        ensures { IfOk result (λ b. b ≡ request_holds self.now cert.now) }
    {
        let said = said_by(alloc, cert)?;
        match self {
            RequestPolicy::All(policies) => all_hold(alloc, policies.as_slice(), &said),
            RequestPolicy::Any(policies) => any_holds(alloc, policies.as_slice(), &said),
        }
    }
}

/// Whether each policy holds. Fails only if out of memory.
fn all_hold<P, S: PolicySubject<P>>(
    alloc: Global,
    policies: &[P],
    subject: &S,
) -> Result<bool, OutOfMemory>
    ensures { IfOk result (λ b. b ≡ list_all (λ p. S.holds subject.now p) policies.now) }
{
    for policy in policies {
        if !subject.meets(alloc, policy)? {
            return Ok(false);
        }
    }
    Ok(true)
}

/// Whether at least one policy holds. Fails only if out of memory.
fn any_holds<P, S: PolicySubject<P>>(
    alloc: Global,
    policies: &[P],
    subject: &S,
) -> Result<bool, OutOfMemory>
    ensures { IfOk result (λ b. b ≡ list_any (λ p. S.holds subject.now p) policies.now) }
{
    for policy in policies {
        if subject.meets(alloc, policy)? {
            return Ok(true);
        }
    }
    Ok(false)
}

pub(crate) fn verify_all<P, S: PolicySubject<P>>(
    alloc: Global,
    policies: &[P],
    subject: &S,
) -> PolicyResult
    ensures { IsPolicyResult
        (list_all (λ p. S.holds subject.now p) policies.now)
        (all_refusal (λ p. S.holds subject.now p) (λ p. S.refusal subject.now p) policies.now)
        result }
{
    let errors = refusals(alloc, policies, subject)?;
    if errors.len() == 0 {
        return Ok(());
    }
    Err(all_of(policies.len(), errors))
}

/// Returns the refusals of the policies that do not hold, in order. Fails only if out of memory.
fn refusals<P, S: PolicySubject<P>>(
    alloc: Global,
    policies: &[P],
    subject: &S,
) -> Result<PolicyErrors, OutOfMemory>
    ensures { IfOk result (λ es. AreRefusals
        (refusals_of (refusals (λ p. S.holds subject.now p) (λ p. S.refusal subject.now p) policies.now))
        (failures es)) }
{
    let mut errors = PolicyErrors::new(alloc);
    for policy in policies {
        if let Some(error) = refused(alloc, policy, subject)? {
            errors.push(error)?;
        }
    }
    Ok(errors)
}

/// Returns `None` if the policy holds, else its refusal. Fails only if out of memory.
fn refused<P, S: PolicySubject<P>>(
    alloc: Global,
    policy: &P,
    subject: &S,
) -> Result<Option<PolicyError>, OutOfMemory>
    ensures { IfOk result (IsRefusalOf
        (refused (λ p. S.holds subject.now p) (λ p. S.refusal subject.now p) policy.now)) }
{
    match subject.judge(alloc, policy) {
        Ok(()) => Ok(None),
        Err(PolicyError::OutOfMemory) => Err(OutOfMemory),
        Err(error) => Ok(Some(error)),
    }
}

pub(crate) fn verify_any<P, S: PolicySubject<P>>(
    alloc: Global,
    policies: &[P],
    subject: &S,
) -> PolicyResult
    ensures { IsPolicyResult
        (list_any (λ p. S.holds subject.now p) policies.now)
        (any_of (length policies.now))
        result }
{
    if any_holds(alloc, policies, subject)? {
        return Ok(());
    }
    Err(PolicyError::AnyOf {
        total: policies.len(),
    })
}
