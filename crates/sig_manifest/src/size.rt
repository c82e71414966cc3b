//! How many nodes a rule has.
ghost use Rattle.std.specs.Prelude.{◌≡◌, is_some};
ghost use Rattle.sig_manifest.specs.Formula.{formulas_of, nodes, nodes_of_all, rule_view, rules_view};
ghost use Rattle.sig_manifest.specs.Size.{left_of};

use crate::rule::{Rule, Rules};

/// Whether a rule has at most `most` nodes. It stops at the first node that is too many.
pub(crate) fn is_within(rule: &Rule, most: usize) -> bool
    ensures { result ≡ is_some (left_of most (nodes (rule_view rule.now))) }
{
    left(rule, most).is_some()
}

/// Returns how many of `most` nodes are left after those of a rule; `None` if the rule has more.
#[cycle(size)]
#[tactic(auto, using(crate::proofs::Sizes::sizes, crate::proofs::RuleViews::views))]
fn left(rule: &Rule, most: usize) -> Option<usize>
    ensures { result ≡ left_of most (nodes (rule_view rule.now)) }
{
    if most == 0 {
        return None;
    }
    match rule {
        Rule::Least(_) | Rule::Origin(_) | Rule::Size(_) => Some(most - 1),
        Rule::All(rules) | Rule::Any(rules) => left_after(rules, most - 1),
        Rule::Not(inner) => left(inner, most - 1),
    }
}

/// Returns how many of `most` nodes are left after those of some rules; `None` if the rules have more.
#[cycle(size)]
#[tactic(auto, using(crate::proofs::Sizes::sizes, crate::proofs::RuleViews::views))]
fn left_after(rules: &Rules, most: usize) -> Option<usize>
    ensures { result ≡ left_of most (nodes_of_all (formulas_of (rules_view rules.now))) }
{
    let mut rest = most;
    let list = rules.as_slice();
    'rules: for rule in list {
        rest = left(rule, rest)?;
    }
    Some(rest)
}
