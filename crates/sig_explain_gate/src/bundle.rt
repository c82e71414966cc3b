//! The result for a bundle, and what is shown of it.
ghost use Rattle.std.specs.Prelude.{◌≡◌, IfOk};
ghost use Rattle.sig_explain_gate.specs.Bundle.{IsFoundHere, IsRefusedHere};
ghost use Rattle.sig_explain_gate.specs.Roots.{IsReadRoot};
ghost use Rattle.sig_explain_verify.specs.Inputs.{inputs_of};
ghost use Rattle.sig_explain_verify.specs.ShownRoot.{IsShownRoot};
ghost use Rattle.sig_explain_verify.specs.Verified.{IsVerifiedTree};
ghost use Rattle.sig_gate.specs.declared.verdict.BundleVerdict.TheVariants.{Verified};
ghost use Rattle.sig_json.specs.Tree.{document_tree};
ghost use Rattle.sig_verify.specs.HeldRoot.{IsHeldOf};

use crate::roots::ReadRoot;
use sig_base::OutOfMemory;
use sig_explain_verify::{
    ShownRoot, VerifyInputs, refused_explanation_under, verified_explanation_under,
};
use sig_gate::BundleVerdict;
use sig_json::Document;
use sig_policy::HeldPolicy;
use sig_verify::{HeldRoot, LoggedEntry, OfflineError};
use std::alloc::Global;

/// The verdict on a bundle, and the document that explains it.
#[derive(Drop)]
pub(crate) struct Finding {
    pub(crate) verdict: BundleVerdict,
    /// The object of what was verified, or of the refusal.
    pub(crate) document: Document,
}

/// Returns the result for a bundle under its trusted root and its policy. Fails only if out of memory.
pub(crate) fn find_under(
    alloc: Global,
    root: &ReadRoot,
    policy: &HeldPolicy<'_>,
    inputs: &VerifyInputs<'_>,
) -> Result<Finding, OutOfMemory>
    requires root { IsReadRoot inputs.now.trusted_root.now inputs.now.now root.now }
    requires policy { inputs.now.policy.now ≡ policy.now }
    ensures { IfOk result (IsFoundHere (inputs_of inputs.entry.now)) }
{
    match &root.held {
        Ok(held) => find_held(alloc, held, &root.shown, policy, inputs),
        Err(error) => refused(alloc, &root.shown, inputs, error),
    }
}

/// Returns the result for a bundle under a text that is a trusted root.
fn find_held(
    alloc: Global,
    held: &HeldRoot,
    shown: &ShownRoot,
    policy: &HeldPolicy<'_>,
    inputs: &VerifyInputs<'_>,
) -> Result<Finding, OutOfMemory>
    requires held { IsHeldOf inputs.now.trusted_root.now inputs.now.now held.now }
    requires shown { IsShownRoot inputs.now.trusted_root.now inputs.now.now shown.now }
    requires policy { inputs.now.policy.now ≡ policy.now }
    ensures { IfOk result (IsFoundHere (inputs_of inputs.entry.now)) }
{
    // The refusal of a held policy is short; the explanation shows the rules themselves.
    match held.verify(alloc, inputs.digest, inputs.bundle, policy, inputs.accepted) {
        Ok(entry) => verified(alloc, shown, inputs, entry),
        Err(error) => {
            let found = refused(alloc, shown, inputs, &error);
            drop(error);
            found
        }
    }
}

/// Returns the result for a bundle for which every link holds.
fn verified(
    alloc: Global,
    shown: &ShownRoot,
    inputs: &VerifyInputs<'_>,
    entry: LoggedEntry,
) -> Result<Finding, OutOfMemory>
    requires { IsShownRoot inputs.now.trusted_root.now inputs.now.now shown.now }
    ensures verdict { IfOk result (λ found. found.verdict ≡ Verified entry) }
    ensures tree { IfOk result (λ found. IsVerifiedTree (inputs_of inputs.entry.now) entry (document_tree found.document)) }
{
    let object = verified_explanation_under(alloc, inputs, shown, &entry)?;
    Ok(Finding {
        verdict: BundleVerdict::Verified(entry),
        document: object.into_document(),
    })
}

/// Returns the result for a bundle for which a link fails, with this error.
fn refused(
    alloc: Global,
    shown: &ShownRoot,
    inputs: &VerifyInputs<'_>,
    error: &OfflineError,
) -> Result<Finding, OutOfMemory>
    requires { IsShownRoot inputs.now.trusted_root.now inputs.now.now shown.now }
    ensures { IfOk result (IsRefusedHere (inputs_of inputs.entry.now) error.now) }
{
    let Some(link) = error.link() else {
        return Err(OutOfMemory);
    };
    let object = refused_explanation_under(alloc, inputs, shown, error)?;
    Ok(Finding {
        verdict: BundleVerdict::Refused(link),
        document: object.into_document(),
    })
}
