//! The verdicts on the bundles of an artifact.
ghost use Rattle.std.specs.Prelude.{◌≡◌, IfOk, OnOk, Some};
ghost use Rattle.std.specs.List.{AllZip};
ghost use Rattle.sig_base.specs.ByText.{text_lookup};
ghost use Rattle.sig_gate.specs.BundleVerdict.{IsBundleVerdict};
ghost use Rattle.sig_gate.specs.FoundVerdict.{IsFoundUnder, IsRefusedBy};
ghost use Rattle.sig_gate.specs.NamedPolicies.{AreHeldPolicies};
ghost use Rattle.sig_gate.specs.NamedRoots.{AreHeld, IsRootNamed};
ghost use Rattle.sig_gate.specs.declared.named_roots.NamedRoot.TheVariants.{Held};
ghost use Rattle.sig_manifest.specs.Artifact.{artifact_view};
ghost use Rattle.sig_manifest.specs.Manifest.{manifest_view};
ghost use Rattle.sig_manifest.specs.Unknown.{IsNamedIn};
ghost use Rattle.sig_verify.specs.Verdict.{checker_of};

use crate::named_policies::{NamedPolicies, hold_policy};
use crate::named_roots::{NamedRoot, NamedRoots, hold_root};
use crate::verdict::{BundleVerdict, BundleVerdicts};
use sig_base::{OutOfMemory, SignatureChecker};
use sig_dsse::ArtifactDigest;
use sig_manifest::{Artifact, Manifest};
use sig_policy::HeldPolicy;
use sig_verify::{HeldRoot, Link};
use std::alloc::Global;

/// The verdict on each bundle of an artifact. The artifact's trusted root and its policy are held afterwards, if it has
/// a bundle. Fails only if out of memory.
pub(crate) fn judge_bundles<'a, C: SignatureChecker>(
    alloc: Global,
    held: &mut NamedRoots,
    policies: &mut NamedPolicies<'a>,
    manifest: &'a Manifest,
    artifact: &Artifact,
    checker: &C,
) -> Result<BundleVerdicts, OutOfMemory>
    requires named { IsNamedIn (manifest_view manifest.now) (artifact_view artifact.now) }
    requires held { AreHeld (manifest_view manifest.now) held.old }
    requires policies { AreHeldPolicies (manifest_view manifest.now) policies.old }
    ensures verdicts { IfOk result (AllZip (IsBundleVerdict (checker_of C.SignatureChecker checker.now)
        (manifest_view manifest.entry.now) (artifact_view artifact.now)) artifact.now.bundles) }
    ensures held { OnOk result (AreHeld (manifest_view manifest.entry.now) held.new) }
    ensures policies { OnOk result (AreHeldPolicies (manifest_view manifest.entry.now) policies.new) }
{
    if artifact.bundles.len() == 0 {
        return Ok(BundleVerdicts::new(alloc));
    }
    let name = artifact.root.as_str();
    hold_root(alloc, held, manifest, name)?;
    let Some(root) = held.get(name) else {
        unreachable!()
    };
    let policy_name = artifact.policy.as_str();
    hold_policy(alloc, policies, manifest, policy_name)?;
    let Some(policy) = policies.get(policy_name) else {
        unreachable!()
    };
    judge_under(alloc, root, policy, manifest, artifact, checker)
}

/// The verdict on each bundle of an artifact under what is held of its trusted root, and its policy.
fn judge_under<C: SignatureChecker>(
    alloc: Global,
    root: &NamedRoot,
    policy: &HeldPolicy<'_>,
    manifest: &Manifest,
    artifact: &Artifact,
    checker: &C,
) -> Result<BundleVerdicts, OutOfMemory>
    requires root { IsRootNamed (manifest_view manifest.now) artifact.now.root root.now }
    requires policy { text_lookup artifact.now.policy manifest.now.policies ≡ Some policy.now }
    ensures { IfOk result (AllZip (IsBundleVerdict (checker_of C.SignatureChecker checker.now)
        (manifest_view manifest.entry.now) (artifact_view artifact.now)) artifact.now.bundles) }
{
    let mut verdicts = BundleVerdicts::new(alloc);
    let bundles = artifact.bundles.as_slice();
    'bundles: for bundle in bundles {
        let verdict = judge(
            alloc,
            root,
            &artifact.digest,
            bundle.as_slice(),
            policy,
            checker,
        )?;
        verdicts.push(verdict)?;
    }
    Ok(verdicts)
}

/// The verdict on a bundle.
fn judge<C: SignatureChecker>(
    alloc: Global,
    root: &NamedRoot,
    digest: &ArtifactDigest,
    bundle: &[u8],
    policy: &HeldPolicy<'_>,
    checker: &C,
) -> Result<BundleVerdict, OutOfMemory>
    ensures { IfOk result (IsFoundUnder (checker_of C.SignatureChecker checker.now)
        policy.now root.now digest.now bundle.now) }
{
    match root {
        NamedRoot::Held(root) => verify(alloc, root, digest, bundle, policy, checker),
        NamedRoot::NotRoot => Ok(BundleVerdict::Refused(Link::RootJson)),
    }
}

/// The verdict on a bundle under a trusted root.
fn verify<C: SignatureChecker>(
    alloc: Global,
    root: &HeldRoot,
    digest: &ArtifactDigest,
    bundle: &[u8],
    policy: &HeldPolicy<'_>,
    checker: &C,
) -> Result<BundleVerdict, OutOfMemory>
    ensures { IfOk result (IsFoundUnder (checker_of C.SignatureChecker checker.now)
        policy.now (Held root.now) digest.now bundle.now) }
{
    match root.verify(alloc, digest, bundle, policy, checker) {
        Ok(entry) => Ok(BundleVerdict::Verified(entry)),
        Err(error) => {
            let link = error.link();
            drop(error);
            refused(link)
        }
    }
}

/// The verdict if this link is the first that fails; `None` means that memory ran out.
fn refused(link: Option<Link>) -> Result<BundleVerdict, OutOfMemory>
    ensures { IfOk result (IsRefusedBy link) }
{
    match link {
        Some(link) => Ok(BundleVerdict::Refused(link)),
        None => Err(OutOfMemory),
    }
}
