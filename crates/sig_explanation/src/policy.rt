//! What the refusal of a policy keeps, as members of the object of a refusal.
ghost use Rattle.std.specs.Prelude.{◌≡◌, IfOk};
ghost use Rattle.sig_json.specs.Writing.{members, members_into};
ghost use Rattle.sig_explanation.specs.KeptRows.{comparison_rows, inner_policy_rows, inner_policy_tree, inner_policy_trees, one_policy_rows, policy_rows};
ghost use Rattle.sig_json.specs.Tree.{document_tree};
ghost use Rattle.sig_policy.specs.Failures.{failures};

use crate::cause::with_cause;
use crate::names::policy_name;
use sig_base::OutOfMemory;
use sig_json::{Document, Object};
use sig_policy::{PolicyError, PolicyErrors};
use sig_shown::{with_count, with_shown};
use std::alloc::Global;

/// How many refusals of a list of policies are shown at most.
pub const MOST_REFUSALS: usize = 64;

/// The object with the refusal of a policy: `cause`, a list of its variant's name, and what it keeps, without the
/// refusals that it holds. Fails only if out of memory.
pub(crate) fn with_refused(
    object: Object,
    alloc: Global,
    error: &PolicyError,
) -> Result<Object, OutOfMemory>
    ensures { IfOk result (λ made. members made ≡ members_into (members object) (inner_policy_rows error.now)) }
{
    let object = with_cause(object, alloc, policy_name(error))?;
    with_one_policy(object, alloc, error)
}

/// The object with what a refusal keeps, without the refusals that it holds.
fn with_one_policy(
    object: Object,
    alloc: Global,
    error: &PolicyError,
) -> Result<Object, OutOfMemory>
    ensures { IfOk result (λ made. members made ≡ members_into (members object) (one_policy_rows error.now)) }
{
    match error {
        PolicyError::ExtensionCheckFailed {
            extension,
            expected,
            actual,
        } => with_comparison(
            object,
            alloc,
            extension.as_str(),
            expected.as_str(),
            actual.as_str(),
        ),
        PolicyError::AllOf { total, errors } => {
            let object = with_count(object, alloc, "total", *total as u64)?;
            with_count(object, alloc, "failed", errors.len() as u64)
        }
        PolicyError::AnyOf { total } => with_count(object, alloc, "total", *total as u64),
        PolicyError::ExtensionNotFound | PolicyError::OutOfMemory => Ok(object),
    }
}

/// The object with what was asked for, and what the certificate says.
fn with_comparison(
    object: Object,
    alloc: Global,
    extension: &str,
    expected: &str,
    actual: &str,
) -> Result<Object, OutOfMemory>
    ensures { IfOk result (λ made. members made
        ≡ members_into (members object) (comparison_rows extension.now expected.now actual.now)) }
{
    let object = with_shown(object, alloc, "extension", "extensionLength", extension)?;
    let object = with_shown(object, alloc, "expected", "expectedLength", expected)?;
    with_shown(object, alloc, "actual", "actualLength", actual)
}

/// The object with what the refusal of a policy keeps. Fails only if out of memory.
pub(crate) fn with_policy(
    object: Object,
    alloc: Global,
    error: &PolicyError,
) -> Result<Object, OutOfMemory>
    ensures { IfOk result (λ made. members made ≡ members_into (members object) (policy_rows error.now)) }
{
    let object = with_one_policy(object, alloc, error)?;
    match error {
        PolicyError::AllOf { errors, .. } => {
            let refusals = inner_documents(alloc, errors)?;
            object.with(alloc, "refusals", refusals)
        }
        PolicyError::ExtensionNotFound
        | PolicyError::ExtensionCheckFailed { .. }
        | PolicyError::AnyOf { .. }
        | PolicyError::OutOfMemory => Ok(object),
    }
}

/// The first [`MOST_REFUSALS`] refusals of a list.
fn inner_documents(alloc: Global, errors: &PolicyErrors) -> Result<Document, OutOfMemory>
    ensures { IfOk result (λ document. document_tree document ≡ inner_policy_trees (failures errors.now)) }
{
    let mut list = Document::list(alloc);
    'errors: for index in 0..errors.len().min(MOST_REFUSALS) {
        let Some(error) = errors.get(index) else {
            unreachable!()
        };
        list.push(inner_document(alloc, error)?)?;
    }
    Ok(list)
}

/// A refusal in the list of another one.
#[tactic(auto, unfolding(crate::specs::KeptRows::inner_policy_tree))]
fn inner_document(alloc: Global, error: &PolicyError) -> Result<Document, OutOfMemory>
    ensures { IfOk result (λ document. document_tree document ≡ inner_policy_tree error.now) }
{
    let object = with_refused(Object::new(alloc), alloc, error)?;
    Ok(object.into_document())
}
