//! The table of the policy of a request of `verify`.
ghost use Rattle.std.specs.Prelude.{◌≡◌};
ghost use Rattle.sig_base.specs.Answers.{Answers};
ghost use Rattle.sig_json.specs.Tree.{tree};
ghost use Rattle.sig_request_fault.specs.PolicyTable.{all_table, any_table, asks_workflow, issuer_table, policy_table};
ghost use Rattle.sig_request_fault.specs.PolicyTable.{rule_table, rules_table, workflow_names, workflow_table};
ghost use Rattle.sig_table.specs.Fault.{fault_of, or_fault, row_fault};
ghost use Rattle.sig_table.specs.Table.{oneof_row};

use sig_json::Json;
use sig_table::{
    ListOf, MemberTable, Nothing, TableError, TextTable, at_most_one, member, not_empty, object,
    optional, required,
};
use std::alloc::Global;

/// The members of a rule that are about the workflow that made the signature.
const WORKFLOW: [&str; 5] = ["trigger", "sha", "name", "repository", "ref"];

/// The members of a policy.
const POLICY: [&str; 2] = ["all", "any"];

/// The table of rules.
enum RuleTable {}

impl MemberTable for RuleTable {
    ghost table = { rule_table };

    #[tactic(auto, unfolding(crate::specs::PolicyTable::rule_table))]
    fn check(alloc: Global, json: Json<'_, '_>) -> Result<(), TableError> {
        if asks_workflow(json) {
            workflow_rule(alloc, json)
        } else {
            issuer_rule(alloc, json)
        }
    }
}

/// Whether one of the members about the workflow is there.
fn asks_workflow(json: Json<'_, '_>) -> bool
    ensures { result ≡ asks_workflow (tree json.entry) }
{
    member(json, "trigger").is_some()
        || member(json, "sha").is_some()
        || member(json, "name").is_some()
        || member(json, "repository").is_some()
        || member(json, "ref").is_some()
}

/// Checks a rule about the workflow: exactly one member.
#[tactic(auto, using(sig_table::proofs::Steps::steps), unfolding(crate::specs::PolicyTable::workflow_table))]
fn workflow_rule(alloc: Global, json: Json<'_, '_>) -> Result<(), TableError>
    ensures { Answers TableError.OutOfMemory (λ x. x) result (or_fault (fault_of workflow_table (tree json.entry))) }
{
    object(alloc, json)?;
    optional::<TextTable>(alloc, json, "trigger")?;
    optional::<TextTable>(alloc, json, "sha")?;
    optional::<TextTable>(alloc, json, "name")?;
    optional::<TextTable>(alloc, json, "repository")?;
    optional::<TextTable>(alloc, json, "ref")?;
    one_of_workflow(alloc, json)?;
    optional::<Nothing>(alloc, json, "identity")?;
    optional::<Nothing>(alloc, json, "issuer")
}

/// The row of the members about the workflow: at most one is there.
#[tactic(auto, unfolding(crate::specs::PolicyTable::workflow_names))]
fn one_of_workflow(alloc: Global, json: Json<'_, '_>) -> Result<(), TableError>
    ensures { Answers TableError.OutOfMemory (λ x. x) result
        (or_fault (row_fault (oneof_row workflow_names) (tree json.entry))) }
{
    at_most_one(alloc, json, &WORKFLOW)
}

/// Checks a rule about the issuer, with or without an identity.
#[tactic(auto, unfolding(crate::specs::PolicyTable::issuer_table))]
fn issuer_rule(alloc: Global, json: Json<'_, '_>) -> Result<(), TableError>
    ensures { Answers TableError.OutOfMemory (λ x. x) result (or_fault (fault_of issuer_table (tree json.entry))) }
{
    object(alloc, json)?;
    optional::<TextTable>(alloc, json, "identity")?;
    required::<TextTable>(alloc, json, "issuer")
}

/// The table of lists of at least one rule.
enum RulesTable {}

impl MemberTable for RulesTable {
    ghost table = { rules_table };

    #[tactic(auto, using(sig_table::proofs::Steps::guards), unfolding(crate::specs::PolicyTable::rules_table))]
    fn check(alloc: Global, json: Json<'_, '_>) -> Result<(), TableError> {
        not_empty(alloc, json)?;
        ListOf::<RuleTable>::check(alloc, json)
    }
}

/// The table of a policy: at least one rule under `all` or under `any`, and nothing under the other.
pub enum PolicyTable {}

impl MemberTable for PolicyTable {
    ghost table = { policy_table };

    #[tactic(auto, unfolding(crate::specs::PolicyTable::policy_table))]
    fn check(alloc: Global, json: Json<'_, '_>) -> Result<(), TableError> {
        if member(json, "any").is_some() {
            any_policy(alloc, json)
        } else {
            all_policy(alloc, json)
        }
    }
}

/// A policy that has something under `any`.
#[tactic(auto, unfolding(crate::specs::PolicyTable::any_table))]
fn any_policy(alloc: Global, json: Json<'_, '_>) -> Result<(), TableError>
    ensures { Answers TableError.OutOfMemory (λ x. x) result (or_fault (fault_of any_table (tree json.entry))) }
{
    object(alloc, json)?;
    optional::<RulesTable>(alloc, json, "all")?;
    required::<RulesTable>(alloc, json, "any")?;
    at_most_one(alloc, json, &POLICY)
}

/// A policy that has nothing under `any`.
#[tactic(auto, unfolding(crate::specs::PolicyTable::all_table))]
fn all_policy(alloc: Global, json: Json<'_, '_>) -> Result<(), TableError>
    ensures { Answers TableError.OutOfMemory (λ x. x) result (or_fault (fault_of all_table (tree json.entry))) }
{
    object(alloc, json)?;
    required::<RulesTable>(alloc, json, "all")
}
