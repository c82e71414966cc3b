//! The rules of a policy, and what a certificate says to each.
//!
//! ```text
//! {"require":"all","rules":[{"rule":"identity"},
//!    {"actual":"main","cause":["ExtensionCheckFailed"],"expected":"v1","extension":"GitHubWorkflowRef","rule":"ref"}],
//!  "total":"2"}
//! ```
ghost use Rattle.std.specs.Prelude.{◌≡◌, IfOk};
ghost use Rattle.sig_json.specs.Writing.{members, members_into};
ghost use Rattle.sig_explanation.specs.Rules.{judgement, judgement_rows, policy_tree, require_name, rule_name, rule_tree, rules_of};
ghost use Rattle.sig_explanation.specs.Rules.{rules_tree};
ghost use Rattle.sig_json.specs.Data.{put};
ghost use Rattle.sig_json.specs.Tree.{document_tree};
ghost use Rattle.sig_policy.specs.Refusals.{IsRefusalOf};

use crate::policy::with_refused;
use sig_base::OutOfMemory;
use sig_certificate::Certificate;
use sig_json::{Document, Object};
use sig_policy::{LeafPolicy, PolicyError, RequestPolicy, VerificationPolicy};
use sig_shown::{first, with_count};
use std::alloc::Global;

/// How many rules of a policy are shown at most.
pub const MOST_RULES: usize = 32;

/// The object with a policy as a member: `require`, whether `all` or `any` of its rules have to hold; `total`, how many
/// there are; and `rules`, the first [`MOST_RULES`] of them in order. A rule has its name in a request, `rule`, and, if
/// it does not hold of the certificate, what the refusal of a policy has: `cause`, `extension`, `expected` and `actual`.
/// Each rule that is shown costs what the certificate says. Fails only if out of memory.
pub fn with_policy_rules(
    object: Object,
    alloc: Global,
    name: &str,
    policy: &RequestPolicy,
    certificate: &Certificate,
) -> Result<Object, OutOfMemory>
    ensures { IfOk result (λ made. members made
        ≡ put name.now (policy_tree certificate.now policy.now) (members object)) }
{
    let value = policy_document(alloc, policy, certificate)?;
    object.with(alloc, name, value)
}

/// A policy, and what a certificate says to the first [`MOST_RULES`] of its rules.
#[tactic(auto, unfolding(crate::specs::Rules::policy_tree))]
fn policy_document(
    alloc: Global,
    policy: &RequestPolicy,
    certificate: &Certificate,
) -> Result<Document, OutOfMemory>
    ensures { IfOk result (λ document. document_tree document ≡ policy_tree certificate.now policy.now) }
{
    let object = Object::new(alloc).with_text(alloc, "require", require_name(policy))?;
    let rules = rules_of(policy);
    let object = with_count(object, alloc, "total", rules.len() as u64)?;
    let shown = rules_document(alloc, first(rules, MOST_RULES), certificate)?;
    let object = object.with(alloc, "rules", shown)?;
    Ok(object.into_document())
}

/// How many of the rules of a policy have to hold: `all` or `any`.
fn require_name(policy: &RequestPolicy) -> &'static str
    ensures { result.now ≡ require_name policy.now }
{
    match policy {
        RequestPolicy::All(_) => "all",
        RequestPolicy::Any(_) => "any",
    }
}

/// The rules of a policy.
fn rules_of(policy: &RequestPolicy) -> &[LeafPolicy]
    ensures { result.now ≡ rules_of policy.now }
{
    match policy {
        RequestPolicy::All(rules) | RequestPolicy::Any(rules) => rules.as_slice(),
    }
}

/// Rules, and what a certificate says to each.
fn rules_document(
    alloc: Global,
    rules: &[LeafPolicy],
    certificate: &Certificate,
) -> Result<Document, OutOfMemory>
    ensures { IfOk result (λ document. document_tree document ≡ rules_tree certificate.now rules.now) }
{
    let mut list = Document::list(alloc);
    'rules: for rule in rules {
        list.push(rule_document(alloc, rule, certificate)?)?;
    }
    Ok(list)
}

/// A rule, and what a certificate says to it.
#[tactic(auto, unfolding(crate::specs::Rules::rule_tree))]
fn rule_document(
    alloc: Global,
    rule: &LeafPolicy,
    certificate: &Certificate,
) -> Result<Document, OutOfMemory>
    ensures { IfOk result (λ document. document_tree document ≡ rule_tree certificate.now rule.now) }
{
    let object = Object::new(alloc).with_text(alloc, "rule", rule_name(rule))?;
    let object = with_judged(object, alloc, rule, certificate)?;
    Ok(object.into_document())
}

/// The name that a request has for a rule.
fn rule_name(rule: &LeafPolicy) -> &'static str
    ensures { result.now ≡ rule_name rule.now }
{
    match rule {
        LeafPolicy::OIDCIssuer(_) => "issuer",
        LeafPolicy::GitHubWorkflowTrigger(_) => "trigger",
        LeafPolicy::GitHubWorkflowSHA(_) => "sha",
        LeafPolicy::GitHubWorkflowName(_) => "name",
        LeafPolicy::GitHubWorkflowRepository(_) => "repository",
        LeafPolicy::GitHubWorkflowRef(_) => "ref",
        LeafPolicy::Identity(_) => "identity",
    }
}

/// The object with why a rule does not hold of a certificate; without more if it holds.
fn with_judged(
    object: Object,
    alloc: Global,
    rule: &LeafPolicy,
    certificate: &Certificate,
) -> Result<Object, OutOfMemory>
    ensures { IfOk result (λ made. members made
        ≡ members_into (members object) (judgement_rows (judgement rule.now certificate.now))) }
{
    match judged(alloc, rule, certificate)? {
        Some(error) => {
            let made = with_refused(object, alloc, &error);
            drop(error);
            made
        }
        None => Ok(object),
    }
}

/// Why a rule does not hold of a certificate; `None` if it holds.
fn judged(
    alloc: Global,
    rule: &LeafPolicy,
    certificate: &Certificate,
) -> Result<Option<PolicyError>, OutOfMemory>
    ensures { IfOk result (IsRefusalOf (judgement rule.now certificate.now)) }
{
    match rule.verify(alloc, certificate) {
        Ok(()) => Ok(None),
        Err(PolicyError::OutOfMemory) => Err(OutOfMemory),
        Err(error) => Ok(Some(error)),
    }
}
