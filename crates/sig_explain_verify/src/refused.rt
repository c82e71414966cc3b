//! A refusal: the error, and what its link compares.
ghost use Rattle.std.specs.Prelude.{◌≡◌, IfOk, Some};
ghost use Rattle.sig_json.specs.Writing.{members, members_into};
ghost use Rattle.sig_explain_verify.specs.Evidence.{IsEvidence, IsOfChecked, bundle_json_rows, of_entry, root_json_rows};
ghost use Rattle.sig_explain_verify.specs.Inputs.{inputs_of};
ghost use Rattle.sig_explain_verify.specs.RefusedTree.{IsRefusedTree, Shows, policy_refusal_rows, told_rows};
ghost use Rattle.sig_explain_verify.specs.ShownRoot.{IsShownRoot};
ghost use Rattle.sig_json.specs.Data.{no_members, object};

use crate::bundle::{read_checked, read_entry};
use crate::checked::{with_checked, with_ctlogs, with_fulcio};
use crate::entry::with_entry;
use crate::inputs::VerifyInputs;
use crate::root::ShownRoot;
use sig_base::OutOfMemory;
use sig_document_fault::bundle_fault;
use sig_evidence::with_document_fault;
use sig_explanation::{refusal, with_inner_cause};
use sig_json::Object;
use sig_policy::RequestPolicy;
use sig_shown::with_count;
use sig_verify::{Link, OfflineError};
use std::alloc::Global;

/// The object of a refusal, under a trusted root that was read: see [`refused_explanation`]. The trusted root is not
/// read again. Fails only if out of memory.
pub fn refused_explanation_under(
    alloc: Global,
    inputs: &VerifyInputs<'_>,
    root: &ShownRoot,
    error: &OfflineError,
) -> Result<Object, OutOfMemory>
    requires { IsShownRoot inputs.now.trusted_root.now inputs.now.now root.now }
    ensures { IfOk result (λ made. IsRefusedTree (inputs_of inputs.entry.now) error.now (object (members made))) }
{
    let object = told(alloc, inputs, error)?;
    match error.link() {
        Some(link) => with_evidence(object, alloc, inputs, root, link),
        None => Ok(object),
    }
}

/// The object of an error.
fn told(
    alloc: Global,
    inputs: &VerifyInputs<'_>,
    error: &OfflineError,
) -> Result<Object, OutOfMemory>
    ensures { IfOk result (λ made. members made
        ≡ members_into no_members (told_rows (inputs_of inputs.entry.now) error.now)) }
{
    match error {
        OfflineError::Policy(_) => policy_refusal(alloc, inputs.policy),
        _ => refusal(alloc, error),
    }
}

fn policy_refusal(alloc: Global, policy: &RequestPolicy) -> Result<Object, OutOfMemory>
    ensures { IfOk result (λ made. members made ≡ members_into no_members (policy_refusal_rows policy.now)) }
{
    let object = Object::new(alloc).with_text(alloc, "link", "policy")?;
    let (name, rules) = match policy {
        RequestPolicy::All(rules) => ("AllOf", rules),
        RequestPolicy::Any(rules) => ("AnyOf", rules),
    };
    let object = with_inner_cause(object, alloc, "Policy", name)?;
    with_count(object, alloc, "total", rules.len() as u64)
}

/// The object with what a link compares.
fn with_evidence(
    object: Object,
    alloc: Global,
    inputs: &VerifyInputs<'_>,
    root: &ShownRoot,
    link: Link,
) -> Result<Object, OutOfMemory>
    requires { IsShownRoot inputs.now.trusted_root.now inputs.now.now root.now }
    ensures { IfOk result (λ made. Shows (IsEvidence (inputs_of inputs.entry.now) (Some link)) (members object) (members made)) }
{
    match link {
        Link::RootJson => with_root_fault(object, alloc, inputs, root),
        Link::BundleJson => with_bundle_fault(object, alloc, inputs),
        Link::Fulcio => with_fulcio(object, alloc, inputs, root),
        Link::Ctfe => with_ctlogs(object, alloc, inputs, root),
        Link::Issuer
        | Link::Sct
        | Link::Policy
        | Link::Signature
        | Link::Subject
        | Link::Body
        | Link::Time => with_bundle(object, alloc, inputs, root, link),
        Link::LogKey | Link::Promise | Link::NoteKey | Link::NoteMatch | Link::Inclusion => {
            with_logged(object, alloc, inputs, root, link)
        }
        _ => Ok(object),
    }
}

/// The object with what is wrong with the text of the trusted root.
fn with_root_fault(
    object: Object,
    alloc: Global,
    inputs: &VerifyInputs<'_>,
    root: &ShownRoot,
) -> Result<Object, OutOfMemory>
    requires { IsShownRoot inputs.now.trusted_root.now inputs.now.now root.now }
    ensures { IfOk result (λ made. members made
        ≡ members_into (members object) (root_json_rows (inputs_of inputs.entry.now))) }
{
    match &root.fault {
        Some(fault) => with_document_fault(object, alloc, fault),
        None => Ok(object),
    }
}

/// The object with what is wrong with the text of the bundle.
fn with_bundle_fault(
    object: Object,
    alloc: Global,
    inputs: &VerifyInputs<'_>,
) -> Result<Object, OutOfMemory>
    ensures { IfOk result (λ made. members made
        ≡ members_into (members object) (bundle_json_rows (inputs_of inputs.entry.now))) }
{
    match bundle_fault(alloc, inputs.bundle)? {
        Some(fault) => {
            let made = with_document_fault(object, alloc, &fault);
            drop(fault);
            made
        }
        None => Ok(object),
    }
}

/// The object with what a link compares of the bundle that passed its own checks.
fn with_bundle(
    object: Object,
    alloc: Global,
    inputs: &VerifyInputs<'_>,
    root: &ShownRoot,
    link: Link,
) -> Result<Object, OutOfMemory>
    requires { IsShownRoot inputs.now.trusted_root.now inputs.now.now root.now }
    ensures { IfOk result (λ made. Shows (IsOfChecked (inputs_of inputs.entry.now) link) (members object) (members made)) }
{
    match read_checked(alloc, inputs.bundle)? {
        Some(checked) => {
            let made = with_checked(object, alloc, inputs, root, link, &checked);
            drop(checked);
            made
        }
        None => Ok(object),
    }
}

/// The object with what a link compares of the bundle's log entry.
fn with_logged(
    object: Object,
    alloc: Global,
    inputs: &VerifyInputs<'_>,
    root: &ShownRoot,
    link: Link,
) -> Result<Object, OutOfMemory>
    requires { IsShownRoot inputs.now.trusted_root.now inputs.now.now root.now }
    ensures { IfOk result (λ made. members made
        ≡ members_into (members object) (of_entry (inputs_of inputs.entry.now) link)) }
{
    match read_entry(alloc, inputs.bundle)? {
        Some(entry) => {
            let made = with_entry(object, alloc, inputs, root, link, &entry);
            drop(entry);
            made
        }
        None => Ok(object),
    }
}

/// The object of a refusal: what [`refusal`] says of the error, and what its link compares of the inputs, by the tables
/// "What is shown of a refusal" of `docs/LINKS.md`. For a policy, `cause` and `total` are those of the policy of the
/// inputs, so that the error may be that of a shorter form of it. Trusted root and bundle are read for it; for one that
/// cannot be read nothing is shown. Fails only if out of memory.
pub fn refused_explanation(
    alloc: Global,
    inputs: &VerifyInputs<'_>,
    error: &OfflineError,
) -> Result<Object, OutOfMemory>
    ensures { IfOk result (λ made. IsRefusedTree (inputs_of inputs.entry.now) error.now (object (members made))) }
{
    let root = ShownRoot::read(alloc, inputs.trusted_root, inputs.now)?;
    refused_explanation_under(alloc, inputs, &root, error)
}
