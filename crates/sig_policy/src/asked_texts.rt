//! The texts that the rules of a policy ask for, each once and in order, so that whether a rule holds is found without
//! going over the others.

ghost use Rattle.std.specs.Prelude.{◌≡◌, ◌||◌, false, not, IfOk, OnOk};
ghost use Rattle.sig_policy.specs.AskedTexts.{AreAskedBy, Tests, one_asked, passes, said_tests, unsaid_tests};
ghost use Rattle.sig_policy.specs.Said.{said_values};

use crate::asked_identities::{add_identity, are_named, has_named};
use crate::request::LeafPolicy;
use crate::said::Said;
use crate::single::SingleX509ExtPolicy;
use crate::text_sets::{add_text, are_said, has_said};
use sig_base::OutOfMemory;
use std::alloc::Global;
use std::collections::{BTreeMap, BTreeSet};

/// The texts that rules require of each of Fulcio's extensions, and the identities by the issuer that is asked for with
/// them. They are borrowed from the rules.
#[derive(Drop)]
pub(crate) struct AskedTexts<'a> {
    issuers: BTreeSet<&'a str>,
    triggers: BTreeSet<&'a str>,
    shas: BTreeSet<&'a str>,
    names: BTreeSet<&'a str>,
    repositories: BTreeSet<&'a str>,
    git_refs: BTreeSet<&'a str>,
    identities: BTreeMap<&'a str, BTreeSet<&'a str>>,
}

impl<'a> AskedTexts<'a> {
    /// Returns what these rules ask for. Fails only if out of memory.
    pub(crate) fn of(alloc: Global, rules: &'a [LeafPolicy]) -> Result<AskedTexts<'a>, OutOfMemory>
        ensures { IfOk result (AreAskedBy rules.now) }
    {
        let mut asked = AskedTexts::none(alloc);
        for rule in rules {
            asked.add(alloc, rule)?;
        }
        Ok(asked)
    }

    /// Returns the texts of no rules: nothing is asked for.
    fn none(alloc: Global) -> AskedTexts<'a>
        ensures { (t : Tests) → one_asked t result ≡ false }
    {
        AskedTexts {
            issuers: BTreeSet::new(alloc),
            triggers: BTreeSet::new(alloc),
            shas: BTreeSet::new(alloc),
            names: BTreeSet::new(alloc),
            repositories: BTreeSet::new(alloc),
            git_refs: BTreeSet::new(alloc),
            identities: BTreeMap::new(alloc),
        }
    }

    /// Adds what a rule asks for. Fails only if out of memory.
    fn add(&mut self, alloc: Global, rule: &'a LeafPolicy) -> Result<(), OutOfMemory>
        ensures { OnOk result ((t : Tests) → one_asked t self.new ≡ (passes t rule.now || one_asked t self.old)) }
    {
        match rule {
            LeafPolicy::OIDCIssuer(policy) => add_text(&mut self.issuers, policy.value()),
            LeafPolicy::GitHubWorkflowTrigger(policy) => {
                add_text(&mut self.triggers, policy.value())
            }
            LeafPolicy::GitHubWorkflowSHA(policy) => add_text(&mut self.shas, policy.value()),
            LeafPolicy::GitHubWorkflowName(policy) => add_text(&mut self.names, policy.value()),
            LeafPolicy::GitHubWorkflowRepository(policy) => {
                add_text(&mut self.repositories, policy.value())
            }
            LeafPolicy::GitHubWorkflowRef(policy) => add_text(&mut self.git_refs, policy.value()),
            LeafPolicy::Identity(policy) => add_identity(
                alloc,
                &mut self.identities,
                policy.issuer().value(),
                policy.identity(),
            ),
        }
    }

    /// Whether one of the rules holds by what a certificate says.
    pub(crate) fn one_holds(&self, said: &Said<'_>) -> bool
        ensures { result ≡ one_asked (said_tests (said_values said.now)) self.now }
    {
        has_said(&self.issuers, said.issuer)
            || has_said(&self.triggers, said.trigger)
            || has_said(&self.shas, said.sha)
            || has_said(&self.names, said.name)
            || has_said(&self.repositories, said.repository)
            || has_said(&self.git_refs, said.git_ref)
            || has_named(&self.identities, said.issuer, &said.identities)
    }

    /// Whether each of the rules holds by what a certificate says.
    #[tactic(auto, using(crate::proofs::AnyLaws::neither))]
    pub(crate) fn all_hold(&self, said: &Said<'_>) -> bool
        ensures { result ≡ not (one_asked (unsaid_tests (said_values said.now)) self.now) }
    {
        are_said(&self.issuers, said.issuer)
            && are_said(&self.triggers, said.trigger)
            && are_said(&self.shas, said.sha)
            && are_said(&self.names, said.name)
            && are_said(&self.repositories, said.repository)
            && are_said(&self.git_refs, said.git_ref)
            && are_named(&self.identities, said.issuer, &said.identities)
    }
}
