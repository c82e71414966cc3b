//! The table of the rules of a manifest.
ghost use Rattle.std.specs.Prelude.{◌≡◌, codes, is_some, Some};
ghost use Rattle.sig_base.specs.Answers.{Answers};
ghost use Rattle.sig_json.specs.Data.{Data};
ghost use Rattle.sig_json.specs.Tree.{tree};
ghost use Rattle.sig_manifest.specs.RuleTable.{form_of};
ghost use Rattle.sig_manifest_fault.specs.RuleTable.{form_names, form_table, least_kind, least_table, nested, no_form_table};
ghost use Rattle.sig_manifest_fault.specs.RuleTable.{one_member, some_rules};
ghost use Rattle.sig_manifest_fault.specs.Range.{range_table};
ghost use Rattle.sig_table.specs.Fault.{fault_of, or_fault, row_fault};
ghost use Rattle.sig_table.specs.Kinds.{text_table, u64_table};
ghost use Rattle.sig_table.specs.Table.{elements, member_in, oneof_row, required_row};

use sig_json::{Json, read_u64};
use sig_manifest::{Form, MOST_LEAST, MOST_NODES, form_of};
use sig_table::{
    Cause, MemberTable, Nothing, TableError, TextTable, after_index, after_name, at_most_one,
    fault_here, member, not_empty, object, required, required_u64,
};
use std::alloc::Global;

/// The members of a rule.
const FORMS: [&str; 6] = ["least", "origin", "size", "all", "any", "not"];

/// The table of rules that nest to at most 64 levels.
pub(crate) enum NestedTable {}

impl MemberTable for NestedTable {
    ghost table = { nested 64 };

    fn check(alloc: Global, json: Json<'_, '_>) -> Result<(), TableError> {
        rule(alloc, json, MOST_NODES)
    }
}

/// Checks a rule in which rules nest to at most this many levels.
#[cycle(rules)]
#[tactic(auto, using(crate::proofs::RuleLevels::levels))]
pub(crate) fn rule(alloc: Global, json: Json<'_, '_>, levels: usize) -> Result<(), TableError>
    ensures { Answers TableError.OutOfMemory (λ x. x) result
        (or_fault (fault_of (nested levels) (tree json.entry))) }
{
    if levels == 0 {
        return Err(fault_here(alloc, Cause::BeyondRange));
    }
    match form_there(json) {
        Some(form) => rule_as(alloc, form, json, levels - 1),
        None => no_form(alloc, json),
    }
}

/// The form of a value, if it has one.
#[tactic(auto, using(crate::proofs::RuleLevels::forms))]
fn form_there(json: Json<'_, '_>) -> Option<Form>
    ensures { result ≡ form_of (tree json.entry) }
{
    match form_of(json) {
        Ok(form) => Some(form),
        Err(_) => None,
    }
}

/// Checks a rule of this form, in which rules nest to at most this many levels below it.
#[cycle(rules)]
#[tactic(auto, using(sig_table::proofs::Steps::steps), unfolding(crate::specs::RuleTable::form_table))]
fn rule_as(alloc: Global, form: Form, json: Json<'_, '_>, levels: usize) -> Result<(), TableError>
    ensures { Answers TableError.OutOfMemory (λ x. x) result
        (or_fault (fault_of (form_table (nested levels) form) (tree json.entry))) }
{
    match form {
        Form::Least => least_rule(alloc, json),
        Form::Origin => origin_rule(alloc, json),
        Form::Size => size_rule(alloc, json),
        Form::All => rules_under(alloc, json, "all", levels),
        Form::Any => rules_under(alloc, json, "any", levels),
        Form::Not => rule_under(alloc, json, levels),
    }
}

/// A rule that asks for different log bodies.
#[tactic(auto, using(sig_table::proofs::Steps::steps), unfolding(crate::specs::RuleTable::least_table))]
fn least_rule(alloc: Global, json: Json<'_, '_>) -> Result<(), TableError>
    ensures { Answers TableError.OutOfMemory (λ x. x) result (or_fault (fault_of least_table (tree json.entry))) }
{
    object(alloc, json)?;
    required_u64(alloc, json, "least")?;
    least_in_range(alloc, json)
}

/// The row of the range of `least`, after that of its kind.
fn least_in_range(alloc: Global, json: Json<'_, '_>) -> Result<(), TableError>
    ensures { Answers TableError.OutOfMemory (λ x. x) result
        (or_fault (row_fault (required_row (codes "least") (range_table least_kind)) (tree json.entry))) }
{
    let cause = match member(json, "least") {
        Some(_) if is_least(json) => return Ok(()),
        Some(_) => Cause::BeyondRange,
        None => Cause::Absent,
    };
    Err(after_name(alloc, "least", fault_here(alloc, cause)))
}

/// Whether an integer that is there is from 1 to 16.
#[tactic(auto, using(sig_table::proofs::Integers::integers), unfolding(crate::specs::RuleTable::least_kind))]
fn is_least(json: Json<'_, '_>) -> bool
    ensures { (value : Data) → member_in (codes "least") (tree json.entry) ≡ Some value
        → result ≡ is_some (least_kind value) }
{
    match read_u64(json, "least") {
        Ok(least) => 0 < least && least < MOST_LEAST + 1,
        Err(_) => false,
    }
}

/// A rule that asks for a log.
#[tactic(auto, using(sig_table::proofs::Steps::steps))]
fn origin_rule(alloc: Global, json: Json<'_, '_>) -> Result<(), TableError>
    ensures { Answers TableError.OutOfMemory (λ x. x) result
        (or_fault (fault_of (one_member (codes "origin") text_table) (tree json.entry))) }
{
    object(alloc, json)?;
    required::<TextTable>(alloc, json, "origin")
}

/// Checks a rule that requires a tree of a size.
#[tactic(auto, using(sig_table::proofs::Steps::steps))]
fn size_rule(alloc: Global, json: Json<'_, '_>) -> Result<(), TableError>
    ensures { Answers TableError.OutOfMemory (λ x. x) result
        (or_fault (fault_of (one_member (codes "size") u64_table) (tree json.entry))) }
{
    object(alloc, json)?;
    required_u64(alloc, json, "size")
}

/// Checks an object whose member of this name is a list of at least one rule.
#[cycle(rules)]
#[tactic(auto, using(sig_table::proofs::Steps::steps))]
fn rules_under(
    alloc: Global,
    json: Json<'_, '_>,
    name: &str,
    levels: usize,
) -> Result<(), TableError>
    ensures { Answers TableError.OutOfMemory (λ x. x) result
        (or_fault (fault_of (one_member name.now (some_rules (nested levels))) (tree json.entry))) }
{
    object(alloc, json)?;
    rules_row(alloc, json, name, levels)
}

/// The row of a list of at least one rule.
#[cycle(rules)]
fn rules_row(alloc: Global, json: Json<'_, '_>, name: &str, levels: usize) -> Result<(), TableError>
    ensures { Answers TableError.OutOfMemory (λ x. x) result
        (or_fault (row_fault (required_row name.now (some_rules (nested levels))) (tree json.entry))) }
{
    match member(json, name) {
        Some(list) => match rules(alloc, list, levels) {
            Ok(()) => Ok(()),
            Err(error) => Err(after_name(alloc, name, error)),
        },
        None => Err(after_name(alloc, name, fault_here(alloc, Cause::Absent))),
    }
}

/// Checks an object whose member `not` is a rule.
#[cycle(rules)]
#[tactic(auto, using(sig_table::proofs::Steps::steps))]
fn rule_under(alloc: Global, json: Json<'_, '_>, levels: usize) -> Result<(), TableError>
    ensures { Answers TableError.OutOfMemory (λ x. x) result
        (or_fault (fault_of (one_member (codes "not") (nested levels)) (tree json.entry))) }
{
    object(alloc, json)?;
    rule_row(alloc, json, levels)
}

/// The row of the member `not`.
#[cycle(rules)]
fn rule_row(alloc: Global, json: Json<'_, '_>, levels: usize) -> Result<(), TableError>
    ensures { Answers TableError.OutOfMemory (λ x. x) result
        (or_fault (row_fault (required_row (codes "not") (nested levels)) (tree json.entry))) }
{
    match member(json, "not") {
        Some(inner) => match rule(alloc, inner, levels) {
            Ok(()) => Ok(()),
            Err(error) => Err(after_name(alloc, "not", error)),
        },
        None => Err(after_name(alloc, "not", fault_here(alloc, Cause::Absent))),
    }
}

/// Checks a list of at least one rule.
#[cycle(rules)]
#[tactic(auto, using(sig_table::proofs::Steps::guards))]
fn rules(alloc: Global, json: Json<'_, '_>, levels: usize) -> Result<(), TableError>
    ensures { Answers TableError.OutOfMemory (λ x. x) result
        (or_fault (fault_of (some_rules (nested levels)) (tree json.entry))) }
{
    not_empty(alloc, json)?;
    each_rule(alloc, json, levels)
}

/// Checks a list of rules.
#[cycle(rules)]
#[tactic(auto, using(sig_table::proofs::Elements::elements))]
fn each_rule(alloc: Global, json: Json<'_, '_>, levels: usize) -> Result<(), TableError>
    ensures { Answers TableError.OutOfMemory (λ x. x) result
        (or_fault (fault_of (elements (nested levels)) (tree json.entry))) }
{
    let Some(count) = json.list_len() else {
        return Err(fault_here(alloc, Cause::OtherKind));
    };
    'elements: for index in 0..count {
        let Some(element) = json.item(index) else {
            // The index is below the length.
            unreachable!()
        };
        if let Err(error) = rule(alloc, element, levels) {
            return Err(after_index(index, error));
        }
    }
    Ok(())
}

/// Returns the fault of a value that does not have exactly one of the members.
#[tactic(auto, using(sig_table::proofs::Steps::steps), unfolding(crate::specs::RuleTable::no_form_table))]
fn no_form(alloc: Global, json: Json<'_, '_>) -> Result<(), TableError>
    ensures { Answers TableError.OutOfMemory (λ x. x) result (or_fault (fault_of no_form_table (tree json.entry))) }
{
    object(alloc, json)?;
    one_of_forms(alloc, json)?;
    required::<Nothing>(alloc, json, "least")
}

/// The row of the members of a rule: at most one is there.
#[tactic(auto, unfolding(crate::specs::RuleTable::form_names))]
fn one_of_forms(alloc: Global, json: Json<'_, '_>) -> Result<(), TableError>
    ensures { Answers TableError.OutOfMemory (λ x. x) result
        (or_fault (row_fault (oneof_row form_names) (tree json.entry))) }
{
    at_most_one(alloc, json, &FORMS)
}
