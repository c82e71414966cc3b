//! A rule, as a manifest has it: an object with exactly one of six members.
//!
//! ```text
//! { "all": [ { "least": 2 }, { "any": [ { "origin": "log.example" }, { "size": 1000 } ] }, { "not": { "least": 9 } } ] }
//! ```
ghost use Rattle.std.specs.Prelude.{◌≡◌, option_map};
ghost use Rattle.sig_base.specs.Answers.{Answers};
ghost use Rattle.sig_json.specs.OrMember.{or_member};
ghost use Rattle.sig_json.specs.SeenAs.{value_by};
ghost use Rattle.sig_json.specs.Tree.{tree};
ghost use Rattle.sig_manifest.specs.Formula.{not_so, rule_view, rules_view};
ghost use Rattle.sig_manifest.specs.RuleTable.{form_of, form_there, least_in, name_of, of_at_most, one_at_most};
ghost use Rattle.sig_manifest.specs.RuleTable.{rule_as, rule_of, rule_within, rules_in, value_of};

use crate::rule::{MOST_LEAST, MOST_NODES, Rule, Rules, add_rule};
use crate::size::is_within;
use sig_json::{ElementReader, Json, MemberError, required_text, required_u64};
use std::alloc::Global;

/// Which member a rule has.
#[derive(Clone, Copy, PartialEq, Eq)]
pub enum Form {
    /// At least a number of different log bodies.
    Least,
    /// A checkpoint of a log of this origin.
    Origin,
    /// A tree of at least this size.
    Size,
    /// What each of these rules requires.
    All,
    /// What at least one of these rules requires.
    Any,
    /// The opposite of what this rule requires.
    Not,
}

/// The form of a rule. Fails with `Member` if not exactly one of the members is there.
#[tactic(auto, unfolding(crate::specs::RuleTable::form_of))]
pub fn form_of(json: Json<'_, '_>) -> Result<Form, MemberError>
    ensures { result ≡ or_member (form_of (tree json.entry)) }
{
    let found = one_at_most(
        form_there(Form::Least, json),
        form_there(Form::Origin, json),
    )?;
    let found = one_at_most(found, form_there(Form::Size, json))?;
    let found = one_at_most(found, form_there(Form::All, json))?;
    let found = one_at_most(found, form_there(Form::Any, json))?;
    let found = one_at_most(found, form_there(Form::Not, json))?;
    found.ok_or(MemberError::Member)
}

/// The form that was found before, or the next, if any. Fails with `Member` if both are there.
#[tactic(auto, unfolding(crate::specs::RuleTable::one_at_most))]
fn one_at_most(found: Option<Form>, next: Option<Form>) -> Result<Option<Form>, MemberError>
    ensures { result ≡ or_member (one_at_most found next) }
{
    match (found, next) {
        (found, None) => Ok(found),
        (None, next) => Ok(next),
        (Some(_), Some(_)) => Err(MemberError::Member),
    }
}

/// The form, if its member is there.
fn form_there(form: Form, json: Json<'_, '_>) -> Option<Form>
    ensures { result ≡ form_there form (tree json.entry) }
{
    match value_of(json, form.name()) {
        Some(_) => Some(form),
        None => None,
    }
}

impl Form {
    /// The member's name.
    fn name(self) -> &'static str
        ensures { result.now ≡ name_of self }
    {
        match self {
            Form::Least => "least",
            Form::Origin => "origin",
            Form::Size => "size",
            Form::All => "all",
            Form::Any => "any",
            Form::Not => "not",
        }
    }
}

/// The value of an object's member, `None` if it is absent or null, or the value is not an object.
fn value_of<'a, 't>(json: Json<'a, 't>, name: &str) -> Option<Json<'a, 't>>
    ensures { option_map tree result ≡ value_of name.now (tree json.entry) }
{
    match json.get(name) {
        Some(value) if !value.is_null() => Some(value),
        _ => None,
    }
}

/// Reads rules of at most 64 nodes.
pub enum RuleReader {}

impl ElementReader for RuleReader {
    type Item = Rule;

    ghost seen_as = { value_by rule_view };

    ghost meaning = { rule_of };

    #[tactic(auto, unfolding(crate::specs::RuleTable::rule_of))]
    fn read(alloc: Global, json: Json<'_, '_>) -> Result<Rule, MemberError> {
        let rule = read_rule(alloc, json, MOST_NODES)?;
        kept_within(rule)
    }
}

/// Reads a rule in which rules nest to at most `depth` levels.
#[cycle(rules)]
#[tactic(auto, using(crate::proofs::Levels::levels))]
fn read_rule(alloc: Global, json: Json<'_, '_>, levels: usize) -> Result<Rule, MemberError>
    ensures { Answers MemberError.OutOfMemory rule_view result
        (or_member (rule_within levels (tree json.entry))) }
{
    if levels == 0 {
        return Err(MemberError::Member);
    }
    let form = form_of(json)?;
    read_as(alloc, form, json, levels - 1)
}

/// Reads a rule of this form, in which rules nest to at most this many levels below it.
#[cycle(rules)]
#[tactic(auto, using(crate::proofs::RuleViews::views), unfolding(crate::specs::RuleTable::rule_as))]
fn read_as(
    alloc: Global,
    form: Form,
    json: Json<'_, '_>,
    levels: usize,
) -> Result<Rule, MemberError>
    ensures { Answers MemberError.OutOfMemory rule_view result
        (or_member (rule_as (rule_within levels) form (tree json.entry))) }
{
    match form {
        Form::Least => least_in(required_u64(json, "least")?),
        Form::Origin => Ok(Rule::Origin(required_text(alloc, json, "origin")?)),
        Form::Size => Ok(Rule::Size(required_u64(json, "size")?)),
        Form::All => match value_of(json, "all") {
            Some(list) => Ok(Rule::All(read_rules(alloc, list, levels)?)),
            None => Err(MemberError::Member),
        },
        Form::Any => match value_of(json, "any") {
            Some(list) => Ok(Rule::Any(read_rules(alloc, list, levels)?)),
            None => Err(MemberError::Member),
        },
        Form::Not => match value_of(json, "not") {
            Some(inner) => negated(alloc, read_rule(alloc, inner, levels)?),
            None => Err(MemberError::Member),
        },
    }
}

/// Reads how many different log bodies a rule requires. Fails with `Member` for none, and for more than 16.
#[tactic(auto, using(crate::proofs::RuleViews::views))]
fn least_in(least: u64) -> Result<Rule, MemberError>
    ensures { Answers MemberError.OutOfMemory rule_view result (or_member (least_in least)) }
{
    if 0 < least && least < MOST_LEAST + 1 {
        return Ok(Rule::Least(least));
    }
    Err(MemberError::Member)
}

/// Reads a list of at least one rule, in each of which rules nest to at most this many levels.
#[cycle(rules)]
#[tactic(auto, using(crate::proofs::Elements::elements))]
fn read_rules(alloc: Global, list: Json<'_, '_>, levels: usize) -> Result<Rules, MemberError>
    ensures { Answers MemberError.OutOfMemory rules_view result
        (or_member (rules_in (rule_within levels) (tree list.entry))) }
{
    let Some(count) = list.list_len() else {
        return Err(MemberError::Member);
    };
    if count == 0 {
        return Err(MemberError::Member);
    }
    let mut rules = Rules::new(alloc);
    'rules: for place in 0..count {
        let Some(item) = list.item(place) else {
            unreachable!()
        };
        add_rule(&mut rules, read_rule(alloc, item, levels)?)?;
    }
    Ok(rules)
}

/// Returns the rule that requires the opposite. Fails only if out of memory.
#[tactic(auto, using(crate::proofs::RuleViews::views))]
fn negated(alloc: Global, rule: Rule) -> Result<Rule, MemberError>
    ensures { Answers MemberError.OutOfMemory rule_view result (or_member (Some (not_so (rule_view rule)))) }
{
    match Box::new(alloc, rule) {
        Ok(rule) => Ok(Rule::Not(rule)),
        Err(failed) => {
            drop(failed);
            Err(MemberError::OutOfMemory)
        }
    }
}

/// The rule, if it has at most 64 nodes. Fails with `Member` if not.
fn kept_within(rule: Rule) -> Result<Rule, MemberError>
    ensures { Answers MemberError.OutOfMemory rule_view result (or_member (of_at_most 64 (rule_view rule))) }
{
    if is_within(&rule, MOST_NODES) {
        return Ok(rule);
    }
    drop(rule);
    Err(MemberError::Member)
}
