//! What was verified.
ghost use Rattle.std.specs.Prelude.{◌≡◌, ◌≢◌, ◌≤◌, [], IfOk, None, Some, length};
ghost use Rattle.sig_json.specs.Writing.{members};
ghost use Rattle.sig_explain_verify.specs.Inputs.{inputs_of};
ghost use Rattle.sig_explain_verify.specs.ShownRoot.{IsShownRoot, anchors_in};
ghost use Rattle.sig_explain_verify.specs.Verified.{IsShownOf, IsShownUnder, IsVerifiedTree, first_issuer, issuer_among};
ghost use Rattle.sig_json.specs.Data.{object};

use crate::bundle::{check, read};
use crate::inputs::VerifyInputs;
use crate::root::ShownRoot;
use sig_base::{OutOfMemory, PoolError, TableChecker};
use sig_bundle::Bundle;
use sig_certificate::Certificate;
use sig_checked_bundle::CheckedBundle;
use sig_json::Object;
use sig_verified::{VerifiedRun, verified};
use sig_verify::LoggedEntry;
use sig_x509::uncounted::verify_cert_with_chain;
use sig_x509::{CertificatePool, Issuer};
use std::alloc::Global;

/// The object of what was verified, under a trusted root that was read: see [`verified_explanation`]. The trusted root
/// is not read again. Fails only if out of memory.
pub fn verified_explanation_under(
    alloc: Global,
    inputs: &VerifyInputs<'_>,
    root: &ShownRoot,
    entry: &LoggedEntry,
) -> Result<Object, OutOfMemory>
    requires { IsShownRoot inputs.now.trusted_root.now inputs.now.now root.now }
    ensures { IfOk result (λ made. IsVerifiedTree (inputs_of inputs.entry.now) entry.now (object (members made))) }
{
    match read(alloc, inputs.bundle)? {
        Some(bundle) => {
            let made = shown_bundle(alloc, inputs, root, entry, &bundle);
            drop(bundle);
            made
        }
        None => Ok(Object::new(alloc)),
    }
}

/// The object of a bundle.
fn shown_bundle(
    alloc: Global,
    inputs: &VerifyInputs<'_>,
    root: &ShownRoot,
    entry: &LoggedEntry,
    bundle: &Bundle,
) -> Result<Object, OutOfMemory>
    requires { IsShownRoot inputs.now.trusted_root.now inputs.now.now root.now }
    ensures { IfOk result (λ made. IsShownUnder (inputs_of inputs.entry.now) entry.now (anchors_in root.now) (Some bundle.now)
        (object (members made))) }
{
    match check(alloc, bundle)? {
        Some(checked) => {
            let made = shown(alloc, inputs, root, entry, bundle, &checked);
            drop(checked);
            made
        }
        None => Ok(Object::new(alloc)),
    }
}

/// The object of a bundle that passed its own checks.
fn shown(
    alloc: Global,
    inputs: &VerifyInputs<'_>,
    root: &ShownRoot,
    entry: &LoggedEntry,
    bundle: &Bundle,
    checked: &CheckedBundle,
) -> Result<Object, OutOfMemory>
    requires root { IsShownRoot inputs.now.trusted_root.now inputs.now.now root.now }
    requires few { length checked.now.further ≤ 16 }
    ensures { IfOk result (λ made. IsShownOf (inputs_of inputs.entry.now) entry.now (Some bundle.now) (Some checked.now)
        (issuer_among inputs.entry.now.accepted.now (anchors_in root.now) checked.now) (object (members made))) }
{
    let Some(issuer) = issuer_in(alloc, inputs, root, checked)? else {
        return Ok(Object::new(alloc));
    };
    verified(
        alloc,
        &VerifiedRun {
            bundle,
            checked,
            issuer,
            proof: &entry.proof,
            digest: inputs.digest,
            policy: inputs.policy,
        },
    )
}

/// The same under a trusted root.
fn issuer_in(
    alloc: Global,
    inputs: &VerifyInputs<'_>,
    root: &ShownRoot,
    checked: &CheckedBundle,
) -> Result<Option<Issuer>, OutOfMemory>
    requires root { IsShownRoot inputs.now.trusted_root.now inputs.now.now root.now }
    requires few { length checked.now.further ≤ 16 }
    ensures { IfOk result (λ issuer. issuer
        ≡ issuer_among inputs.entry.now.accepted.now (anchors_in root.now) checked.now) }
{
    match root.pool() {
        Some(pool) => {
            let leaf = checked.certificate();
            first_issuer(alloc, pool, leaf, checked.further(), inputs.accepted)
        }
        None => Ok(None),
    }
}

/// The issuer in the first path from a certificate over the further ones to a trust anchor of a pool, which has no
/// intermediates of its own; `None` if there is no path.
fn first_issuer(
    alloc: Global,
    pool: &CertificatePool,
    leaf: &Certificate,
    further: &[Certificate],
    accepted: &TableChecker,
) -> Result<Option<Issuer>, OutOfMemory>
    requires alone { pool.now.intermediates ≡ [] }
    requires few { length further.now ≤ 16 }
    ensures { IfOk result (λ issuer. issuer ≡ first_issuer accepted.now pool.now.anchors further.now leaf.now) }
{
    let time = leaf.not_before();
    match verify_cert_with_chain(pool, alloc, leaf, further, time, accepted) {
        Ok(issuer) => Ok(Some(issuer)),
        Err(error) => no_issuer(error),
    }
}

/// No issuer, unless memory ran out.
fn no_issuer(error: PoolError) -> Result<Option<Issuer>, OutOfMemory>
    ensures { IfOk result (λ issuer. (issuer ≡ None) × (error ≢ PoolError.OutOfMemory)) }
{
    match error {
        PoolError::OutOfMemory => Err(OutOfMemory),
        _ => Ok(None),
    }
}

/// The object of what was verified: what [`verified`] says of the bundle, of its certificate's issuer, of the proof of
/// this log entry, of the digest and of the policy. Trusted root and bundle are read for it, and the path from the
/// certificate to a trust anchor is searched; without one of these nothing is shown. Fails only if out of memory.
pub fn verified_explanation(
    alloc: Global,
    inputs: &VerifyInputs<'_>,
    entry: &LoggedEntry,
) -> Result<Object, OutOfMemory>
    ensures { IfOk result (λ made. IsVerifiedTree (inputs_of inputs.entry.now) entry.now (object (members made))) }
{
    let root = ShownRoot::read(alloc, inputs.trusted_root, inputs.now)?;
    verified_explanation_under(alloc, inputs, &root, entry)
}
