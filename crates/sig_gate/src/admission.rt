//! `gate`: which artifacts of a manifest are admitted.
ghost use Rattle.std.specs.Prelude.{◌≡◌, IfOk, OnOk, length};
ghost use Rattle.sig_gate.specs.Gate.{IsGate, IsVerdict};
ghost use Rattle.sig_gate.specs.NamedPolicies.{AreHeldPolicies};
ghost use Rattle.sig_gate.specs.NamedRoots.{AreHeld};
ghost use Rattle.sig_manifest.specs.Artifact.{artifact_view};
ghost use Rattle.sig_manifest.specs.Manifest.{manifest_view};
ghost use Rattle.sig_manifest.specs.Unknown.{AreNamed, IsNamedIn};
ghost use Rattle.sig_verify.specs.Verdict.{checker_of};

use crate::decision::is_admitted;
use crate::judging::judge_bundles;
use crate::named_policies::NamedPolicies;
use crate::named_roots::NamedRoots;
use crate::verdict::{Verdict, Verdicts};
use sig_base::{OutOfMemory, SignatureChecker};
use sig_manifest::{Artifact, Manifest};
use std::alloc::Global;

/// Returns the verdict on each artifact of a manifest, in order. The verdict on a bundle is `Verified` with its log
/// entry and proof if and only if every link of the chain of trust holds for the text of the trusted root and the
/// policy that the artifact names, the manifest's time, the artifact's digest and the bundle's text; else it is
/// `Refused` with the first link that fails, as `verify_offline` of sig_verify returns it. A text that is not a trusted
/// root is the link `root-json` of each bundle under it. An artifact is admitted if and only if at least one of its
/// bundles is verified and its rule holds of those that are. The trusted roots and the policies that artifacts name
/// have to be there. Fails only if out of memory.
///
/// A trusted root is read once, and a policy's rules are gone over once, however many artifacts name it, and only if
/// one of these has a bundle.
pub fn gate<C: SignatureChecker>(
    alloc: Global,
    manifest: &Manifest,
    checker: &C,
) -> Result<Verdicts, OutOfMemory>
    requires { AreNamed (manifest_view manifest.now) }
    ensures gate { IfOk result (IsGate (checker_of C.SignatureChecker checker.now) (manifest_view manifest.entry.now)) }
    ensures count { IfOk result (λ verdicts. length verdicts ≡ length manifest.entry.now.artifacts) }
{
    let mut held = NamedRoots::new(alloc);
    let mut policies = NamedPolicies::new(alloc);
    let verdicts = judge_each(alloc, &mut held, &mut policies, manifest, checker);
    drop(policies);
    drop(held);
    verdicts
}

/// The verdict on each artifact, under trusted roots and policies that are held or will be.
fn judge_each<'a, C: SignatureChecker>(
    alloc: Global,
    held: &mut NamedRoots,
    policies: &mut NamedPolicies<'a>,
    manifest: &'a Manifest,
    checker: &C,
) -> Result<Verdicts, OutOfMemory>
    requires named { AreNamed (manifest_view manifest.now) }
    requires held { AreHeld (manifest_view manifest.now) held.old }
    requires policies { AreHeldPolicies (manifest_view manifest.now) policies.old }
    ensures { IfOk result (IsGate (checker_of C.SignatureChecker checker.now) (manifest_view manifest.entry.now)) }
{
    let mut verdicts = Verdicts::new(alloc);
    let artifacts = manifest.artifacts.as_slice();
    'artifacts: for artifact in artifacts {
        let verdict = judge(alloc, held, policies, manifest, artifact, checker)?;
        verdicts.push(verdict)?;
    }
    Ok(verdicts)
}

/// The verdict on an artifact.
fn judge<'a, C: SignatureChecker>(
    alloc: Global,
    held: &mut NamedRoots,
    policies: &mut NamedPolicies<'a>,
    manifest: &'a Manifest,
    artifact: &Artifact,
    checker: &C,
) -> Result<Verdict, OutOfMemory>
    requires named { IsNamedIn (manifest_view manifest.now) (artifact_view artifact.now) }
    requires held { AreHeld (manifest_view manifest.now) held.old }
    requires policies { AreHeldPolicies (manifest_view manifest.now) policies.old }
    ensures verdict { IfOk result (IsVerdict (checker_of C.SignatureChecker checker.now) (manifest_view manifest.entry.now)
        (artifact_view artifact.now)) }
    ensures held { OnOk result (AreHeld (manifest_view manifest.entry.now) held.new) }
    ensures policies { OnOk result (AreHeldPolicies (manifest_view manifest.entry.now) policies.new) }
{
    let bundles = judge_bundles(alloc, held, policies, manifest, artifact, checker)?;
    let admitted = is_admitted(alloc, &artifact.rule, bundles.as_slice())?;
    Ok(Verdict { admitted, bundles })
}
