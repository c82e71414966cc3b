//! Policies: what a certificate has to say of who signed.

use crate::boxed;
use crate::certificate::certificate;
use crate::profile::checked;
use sig_base::Text;
use sig_cases::{Answer, Arguments};
use sig_part_cases::rule_named;
use sig_x509::{
    Certificate, GitHubWorkflowName, GitHubWorkflowRef, GitHubWorkflowRepository,
    GitHubWorkflowSHA, GitHubWorkflowTrigger, Identity, LeafPolicies, LeafPolicy, OIDCIssuer,
    PolicyResult, RequestPolicy, SingleX509ExtPolicy, VerificationPolicy,
};
use std::alloc::Global;

/// `policy NAME TEXT DER`: what the policy of this name that asks for this text says.
pub(crate) fn single(arguments: &mut Arguments<'_>, answer: &mut Answer) {
    let alloc = arguments.alloc();
    let name = arguments.word();
    let text = arguments.text();
    if let Some(leaf) = certificate(arguments, answer) {
        let requested = policy(name, text.as_str(), arguments, answer);
        single_of(alloc, answer, name, text.as_str(), &requested, &leaf);
        drop(requested);
    }
}

/// The policy of this name as one of a request's. The line is a `bad line` if there is none.
fn policy(
    name: &str,
    text: &str,
    arguments: &mut Arguments<'_>,
    answer: &mut Answer,
) -> LeafPolicy {
    let text = copy_of(arguments.alloc(), answer, text);
    rule_named(arguments, name, text)
}

fn copy_of(alloc: Global, answer: &mut Answer, text: &str) -> Text {
    match Text::copy_of(alloc, text) {
        Ok(copied) => copied,
        Err(_) => {
            answer.out_of_memory();
            Text::from(String::new(alloc))
        }
    }
}

/// What the policy says.
fn single_of(
    alloc: Global,
    answer: &mut Answer,
    name: &str,
    text: &str,
    requested: &LeafPolicy,
    leaf: &Certificate,
) {
    let alone = alone(alloc, name, text, leaf);
    said(alloc, answer, alone, requested, leaf);
}

/// What the policy of this name says by itself.
fn alone(alloc: Global, name: &str, text: &str, leaf: &Certificate) -> PolicyResult {
    match name {
        "OIDCIssuer" => by_itself::<OIDCIssuer>(alloc, text, leaf),
        "GitHubWorkflowTrigger" => by_itself::<GitHubWorkflowTrigger>(alloc, text, leaf),
        "GitHubWorkflowSHA" => by_itself::<GitHubWorkflowSHA>(alloc, text, leaf),
        "GitHubWorkflowName" => by_itself::<GitHubWorkflowName>(alloc, text, leaf),
        "GitHubWorkflowRepository" => by_itself::<GitHubWorkflowRepository>(alloc, text, leaf),
        "GitHubWorkflowRef" => by_itself::<GitHubWorkflowRef>(alloc, text, leaf),
        _ => Ok(()),
    }
}

/// What a policy of this type says.
fn by_itself<P>(alloc: Global, text: &str, leaf: &Certificate) -> PolicyResult
where
    P: SingleX509ExtPolicy + Drop,
{
    P::new(alloc, text)?.verify(alloc, leaf)
}

/// Adds what a policy says by itself, and what it says in a request, if that differs.
fn said<P: VerificationPolicy>(
    alloc: Global,
    answer: &mut Answer,
    alone: PolicyResult,
    requested: &P,
    leaf: &Certificate,
) {
    let one = text_of(alloc, answer, &alone);
    checked(answer, alone);
    let held = requested.verify(alloc, leaf);
    let other = text_of(alloc, answer, &held);
    if one == other {
        drop(held);
    } else {
        checked(answer, held);
    }
}

/// The Debug text of what a policy says.
fn text_of(alloc: Global, answer: &mut Answer, found: &PolicyResult) -> String {
    match format!(in alloc; "{found:?}") {
        Ok(text) => text,
        Err(_) => {
            answer.out_of_memory();
            String::new(alloc)
        }
    }
}

/// `identity IDENTITY ISSUER DER`: what the policy of this identity and this issuer says.
pub(crate) fn identity(arguments: &mut Arguments<'_>, answer: &mut Answer) {
    let alloc = arguments.alloc();
    let text = arguments.text();
    let issuer = arguments.text();
    let Some(leaf) = certificate(arguments, answer) else {
        return;
    };
    match Identity::new(alloc, text.as_str(), issuer.as_str()) {
        Ok(policy) => identity_of(alloc, answer, policy, &leaf),
        Err(_) => answer.out_of_memory(),
    }
}

/// What the policy says.
fn identity_of(alloc: Global, answer: &mut Answer, policy: Identity, leaf: &Certificate) {
    let alone = policy.verify(alloc, leaf);
    said(alloc, answer, alone, &LeafPolicy::Identity(policy), leaf);
}

/// `all NAME=TEXT,.. DER` and `any NAME=TEXT,.. DER`: what the policy of all or any of these says, in a request and
/// over boxes.
pub(crate) fn several(is_all: bool, arguments: &mut Arguments<'_>, answer: &mut Answer) {
    let list = arguments.word();
    let policies = policies(list, arguments, answer);
    let requested = if is_all {
        RequestPolicy::All(policies)
    } else {
        RequestPolicy::Any(policies)
    };
    if let Some(leaf) = certificate(arguments, answer) {
        let boxed = boxed::verify(list, is_all, &leaf, arguments, answer);
        said(arguments.alloc(), answer, boxed, &requested, &leaf);
    }
}

/// The policies of a list, where `-` is the empty one.
fn policies(list: &str, arguments: &mut Arguments<'_>, answer: &mut Answer) -> LeafPolicies {
    let mut policies = LeafPolicies::new(arguments.alloc());
    if list != "-" {
        for item in list.split(',') {
            if policies.push(listed(item, arguments, answer)).is_err() {
                answer.out_of_memory();
            }
        }
    }
    policies
}

/// The policy that an item of a list is.
pub(crate) fn listed(item: &str, arguments: &mut Arguments<'_>, answer: &mut Answer) -> LeafPolicy {
    match item.split_once('=') {
        Some((name, text)) => policy(name, text, arguments, answer),
        None => policy("", "", arguments, answer),
    }
}
