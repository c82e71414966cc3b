//! `Rule`: what the verified bundles of an artifact have to show.
ghost use Rattle.std.specs.Prelude.{◌≡◌, ◌++◌, [], ◌∷◌, OnOk};
ghost use Rattle.sig_manifest.specs.Formula.{rule_view, rules_view};

use sig_base::{OutOfMemory, Text};

/// The greatest number of different log bodies that a rule requires; the least is one.
pub const MOST_LEAST: u64 = 16;

/// The greatest number of nodes of a rule: itself, and those of the rules in it.
pub const MOST_NODES: usize = 64;

/// What the verified bundles of an artifact have to show. Contracts see a `Formula`.
#[derive(Drop)]
pub enum Rule {
    /// At least this many different log bodies.
    Least(u64),
    /// A checkpoint of a log of this origin.
    Origin(Text),
    /// A tree of at least this size.
    Size(u64),
    /// What each of these rules requires.
    All(Rules),
    /// What at least one of these rules requires.
    Any(Rules),
    /// The opposite of what this rule requires.
    Not(Box<Rule>),
}

/// Rules in order.
pub type Rules = Vec<Rule>;

/// Adds a rule at the end. Fails only if out of memory.
#[tactic(auto, using(std::proofs::lemmas::List::map_more))]
pub(crate) fn add_rule(rules: &mut Rules, rule: Rule) -> Result<(), OutOfMemory>
    ensures { OnOk result (rules_view rules.new ≡ rules_view rules.old ++ rule_view rule ∷ []) }
{
    rules.push(rule)?;
    Ok(())
}
