//! Whether a rule holds of the verified bundles of an artifact.
ghost use Rattle.std.specs.Prelude.{◌≡◌};
ghost use Rattle.std.specs.List.{list_any};
ghost use Rattle.sig_gate.specs.VerifiedBundles.{checkpoint_of_origin, each_holds, holds, one_holds, shows_origin};
ghost use Rattle.sig_manifest.specs.Formula.{formulas_of, rule_view, rules_view};

use crate::verdict::BundleVerdict;
use sig_manifest::{Rule, Rules};
use sig_rekor::SignedCheckpoint;

/// What a rule needs of the bundles of an artifact.
#[derive(Clone, Copy)]
pub(crate) struct Shown<'a> {
    /// The verdicts on them.
    pub(crate) bundles: &'a [BundleVerdict],
    /// How many different log bodies those have that are verified.
    pub(crate) different: usize,
    /// The largest tree size of their proofs.
    pub(crate) largest: u64,
}

/// Whether a rule holds.
#[cycle(holding)]
#[tactic(auto, using(crate::proofs::RuleLists::rule_lists, sig_manifest::proofs::RuleViews::views))]
pub(crate) fn holds(rule: &Rule, shown: &Shown<'_>) -> bool
    ensures { result ≡ holds shown.now.bundles.now shown.now.different shown.now.largest (rule_view rule.now) }
{
    match rule {
        Rule::Least(least) => *least <= shown.different as u64,
        Rule::Origin(origin) => has_origin(shown.bundles, origin.as_str()),
        Rule::Size(size) => *size <= shown.largest,
        Rule::All(rules) => each_holds(rules, shown),
        Rule::Any(rules) => one_holds(rules, shown),
        Rule::Not(inner) => !holds(inner, shown),
    }
}

/// Whether the proof of a verified bundle has a checkpoint of a log of this origin.
fn has_origin(bundles: &[BundleVerdict], origin: &str) -> bool
    ensures { result ≡ list_any (shows_origin origin.now) bundles.now }
{
    bundles.iter().any(|verdict| shows_origin(verdict, origin))
}

/// Whether a bundle is verified, and the checkpoint of its proof is of a log of this origin.
fn shows_origin(verdict: &BundleVerdict, origin: &str) -> bool
    ensures { result ≡ shows_origin origin.now verdict.now }
{
    match verdict {
        BundleVerdict::Verified(entry) => is_of_origin(&entry.proof.checkpoint, origin),
        BundleVerdict::Refused(_) => false,
    }
}

/// Whether there is a checkpoint, of a log of this origin.
fn is_of_origin(checkpoint: &Option<SignedCheckpoint>, origin: &str) -> bool
    ensures { result ≡ checkpoint_of_origin origin.now checkpoint.now }
{
    match checkpoint {
        Some(checkpoint) => checkpoint.note.origin.as_str() == origin,
        None => false,
    }
}

/// Whether each rule of a list holds.
#[cycle(holding)]
#[tactic(auto, using(crate::proofs::RuleLists::rule_lists))]
fn each_holds(rules: &Rules, shown: &Shown<'_>) -> bool
    ensures { result ≡ each_holds shown.now.bundles.now shown.now.different shown.now.largest
        (formulas_of (rules_view rules.now)) }
{
    let list = rules.as_slice();
    'rules: for rule in list {
        if !holds(rule, shown) {
            return false;
        }
    }
    true
}

/// Whether one rule of a list holds.
#[cycle(holding)]
#[tactic(auto, using(crate::proofs::RuleLists::rule_lists))]
fn one_holds(rules: &Rules, shown: &Shown<'_>) -> bool
    ensures { result ≡ one_holds shown.now.bundles.now shown.now.different shown.now.largest
        (formulas_of (rules_view rules.now)) }
{
    let list = rules.as_slice();
    'rules: for rule in list {
        if holds(rule, shown) {
            return true;
        }
    }
    false
}
