//! The policy of a request of `verify`: rules, of which all or any have to hold.
//!
//! ```text
//! { "all": [ { "identity": "https://example.com/workflow", "issuer": "https://issuer.example" },
//!            { "repository": "example/artifact" } ] }
//! ```
ghost use Rattle.std.specs.Prelude.{◌≡◌, Option, option_map};
ghost use Rattle.sig_base.specs.Answers.{Answers};
ghost use Rattle.sig_json.specs.Data.{Data};
ghost use Rattle.sig_json.specs.OrMember.{or_member};
ghost use Rattle.sig_json.specs.Tree.{tree};
ghost use Rattle.sig_request.specs.Policy.{exactly_one, issuer_policy, one_at_most, one_of_five, request_policy_of};
ghost use Rattle.sig_request.specs.Policy.{name_is, ref_is, repository_is, rule_of, rules_under, sha_is, trigger_is};
ghost use Rattle.sig_request.specs.Policy.{workflow_policy};

use crate::row::AbsentReader;
use sig_base::Text;
use sig_json::{ElementReader, Json, MemberError, TextReader, optional, required_list};
use sig_policy::{
    GitHubWorkflowName, GitHubWorkflowRef, GitHubWorkflowRepository, GitHubWorkflowSHA,
    GitHubWorkflowTrigger, Identity, LeafPolicies, LeafPolicy, OIDCIssuer, RequestPolicy,
};
use std::alloc::Global;

/// Reads rules.
enum RuleReader {}

impl ElementReader for RuleReader {
    type Item = LeafPolicy;

    ghost meaning = { rule_of };

    #[tactic(auto, unfolding(crate::specs::Policy::rule_of))]
    fn read(alloc: Global, json: Json<'_, '_>) -> Result<LeafPolicy, MemberError> {
        let identity = optional::<TextReader>(alloc, json, "identity")?;
        let issuer = optional::<TextReader>(alloc, json, "issuer")?;
        let by_issuer = issuer_policy(alloc, identity, issuer)?;
        match workflow_policy(alloc, json) {
            Ok(by_workflow) => exactly_one(by_issuer, by_workflow),
            Err(error) => {
                drop(by_issuer);
                Err(error)
            }
        }
    }
}

/// The policy of an identity with its issuer, or of an issuer only; `None` without both. Fails with `Member` for an
/// identity without an issuer.
#[tactic(auto, unfolding(crate::specs::Policy::issuer_policy))]
fn issuer_policy(
    alloc: Global,
    identity: Option<Text>,
    issuer: Option<Text>,
) -> Result<Option<LeafPolicy>, MemberError>
    ensures { Answers MemberError.OutOfMemory (λ x. x) result (or_member (issuer_policy identity issuer)) }
{
    match (identity, issuer) {
        (None, None) => Ok(None),
        (None, Some(issuer)) => Ok(Some(LeafPolicy::OIDCIssuer(OIDCIssuer(issuer)))),
        (Some(identity), Some(issuer)) => {
            let policy = Identity::new(alloc, identity.as_str(), issuer.as_str());
            drop(identity);
            drop(issuer);
            Ok(Some(LeafPolicy::Identity(policy?)))
        }
        (Some(identity), None) => {
            drop(identity);
            Err(MemberError::Member)
        }
    }
}

/// The policy of a GitHub workflow, `None` without one. Fails with `Member` if a member is not a text, or two are
/// there.
#[tactic(auto, unfolding(crate::specs::Policy::workflow_policy))]
fn workflow_policy(alloc: Global, json: Json<'_, '_>) -> Result<Option<LeafPolicy>, MemberError>
    ensures { Answers MemberError.OutOfMemory (λ x. x) result (or_member (workflow_policy (tree json.entry))) }
{
    let trigger = optional::<TextReader>(alloc, json, "trigger")?;
    let sha = optional::<TextReader>(alloc, json, "sha")?;
    let name = optional::<TextReader>(alloc, json, "name")?;
    let repository = optional::<TextReader>(alloc, json, "repository")?;
    let git_ref = optional::<TextReader>(alloc, json, "ref")?;
    one_of_five(trigger, sha, name, repository, git_ref)
}

/// The policy of the one text that is there, `None` without one. Fails with `Member` if two are there.
#[tactic(auto, unfolding(crate::specs::Policy::one_of_five))]
fn one_of_five(
    trigger: Option<Text>,
    sha: Option<Text>,
    name: Option<Text>,
    repository: Option<Text>,
    git_ref: Option<Text>,
) -> Result<Option<LeafPolicy>, MemberError>
    ensures { Answers MemberError.OutOfMemory (λ x. x) result
        (or_member (one_of_five trigger sha name repository git_ref)) }
{
    let found = one_at_most(trigger_is(trigger), sha_is(sha))?;
    let found = one_at_most(found, name_is(name))?;
    let found = one_at_most(found, repository_is(repository))?;
    one_at_most(found, ref_is(git_ref))
}

/// The policy that was found before, or the next, if any. Fails with `Member` if both are there.
#[tactic(auto, unfolding(crate::specs::Policy::one_at_most))]
fn one_at_most(
    found: Option<LeafPolicy>,
    next: Option<LeafPolicy>,
) -> Result<Option<LeafPolicy>, MemberError>
    ensures { Answers MemberError.OutOfMemory (λ x. x) result (or_member (one_at_most found next)) }
{
    match (found, next) {
        (found, None) => Ok(found),
        (None, next) => Ok(next),
        (Some(found), Some(next)) => {
            drop(found);
            drop(next);
            Err(MemberError::Member)
        }
    }
}

/// The policy of the workflow's trigger, if one is asked for.
fn trigger_is(text: Option<Text>) -> Option<LeafPolicy>
    ensures { result ≡ option_map trigger_is text }
{
    match text {
        Some(text) => Some(LeafPolicy::GitHubWorkflowTrigger(GitHubWorkflowTrigger(text))),
        None => None,
    }
}

/// The policy of the workflow's commit, if one is asked for.
fn sha_is(text: Option<Text>) -> Option<LeafPolicy>
    ensures { result ≡ option_map sha_is text }
{
    match text {
        Some(text) => Some(LeafPolicy::GitHubWorkflowSHA(GitHubWorkflowSHA(text))),
        None => None,
    }
}

/// The policy of the workflow's name, if one is asked for.
fn name_is(text: Option<Text>) -> Option<LeafPolicy>
    ensures { result ≡ option_map name_is text }
{
    match text {
        Some(text) => Some(LeafPolicy::GitHubWorkflowName(GitHubWorkflowName(text))),
        None => None,
    }
}

/// The policy of the workflow's repository, if one is asked for.
fn repository_is(text: Option<Text>) -> Option<LeafPolicy>
    ensures { result ≡ option_map repository_is text }
{
    match text {
        Some(text) => Some(LeafPolicy::GitHubWorkflowRepository(GitHubWorkflowRepository(text))),
        None => None,
    }
}

/// The policy of the workflow's ref, if one is asked for.
fn ref_is(text: Option<Text>) -> Option<LeafPolicy>
    ensures { result ≡ option_map ref_is text }
{
    match text {
        Some(text) => Some(LeafPolicy::GitHubWorkflowRef(GitHubWorkflowRef(text))),
        None => None,
    }
}

/// Returns the only policy of the two. Fails with `Member` unless exactly one is there.
#[tactic(auto, unfolding(crate::specs::Policy::exactly_one, crate::specs::Policy::one_at_most))]
fn exactly_one(
    by_issuer: Option<LeafPolicy>,
    by_workflow: Option<LeafPolicy>,
) -> Result<LeafPolicy, MemberError>
    ensures { Answers MemberError.OutOfMemory (λ x. x) result (or_member (exactly_one by_issuer by_workflow)) }
{
    match one_at_most(by_issuer, by_workflow)? {
        Some(policy) => Ok(policy),
        None => Err(MemberError::Member),
    }
}

/// Reads policies: the rules under `all`, or those under `any`.
pub enum PolicyReader {}

impl ElementReader for PolicyReader {
    type Item = RequestPolicy;

    ghost meaning = { request_policy_of };

    fn read(alloc: Global, json: Json<'_, '_>) -> Result<RequestPolicy, MemberError> {
        read_policy(alloc, json)
    }
}

/// Reads a policy: the rules under `all`, or those under `any`. Fails with `Member` if and only if the value is not an
/// object that has rules, at least one, under exactly one of the two, each of which has exactly one of the sets of
/// members that a rule may have, as [`policies`](crate::laws::policies) says.
#[tactic(auto, unfolding(crate::specs::Policy::request_policy_of))]
pub fn read_policy(alloc: Global, json: Json<'_, '_>) -> Result<RequestPolicy, MemberError>
    ensures { Answers MemberError.OutOfMemory (λ policy. policy) result
        (or_member (request_policy_of (tree json.entry))) }
{
    match rules_under(alloc, json, "all", "any") {
        Ok(rules) => Ok(RequestPolicy::All(rules)),
        Err(MemberError::Member) => {
            let rules = rules_under(alloc, json, "any", "all")?;
            Ok(RequestPolicy::Any(rules))
        }
        Err(MemberError::OutOfMemory) => Err(MemberError::OutOfMemory),
    }
}

/// The rules under one name, at least one. Fails with `Member` without them, and if the other name has anything.
#[tactic(auto, unfolding(crate::specs::Policy::rules_under))]
fn rules_under(
    alloc: Global,
    json: Json<'_, '_>,
    name: &str,
    other: &str,
) -> Result<LeafPolicies, MemberError>
    ensures { Answers MemberError.OutOfMemory (λ x. x) result
        (or_member (rules_under name.now other.now (tree json.entry))) }
{
    let rules = required_list::<RuleReader>(alloc, json, name)?;
    let _ = optional::<AbsentReader>(alloc, json, other)?;
    if rules.len() == 0 {
        return Err(MemberError::Member);
    }
    Ok(rules)
}
