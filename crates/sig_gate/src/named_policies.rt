//! `NamedPolicies`: the policies that artifacts name, each prepared once.
ghost use Rattle.std.specs.Prelude.{◌≡◌, IsSome, OnOk};
ghost use Rattle.sig_base.specs.ByText.{text_lookup};
ghost use Rattle.sig_gate.specs.NamedPolicies.{AreHeldPolicies};
ghost use Rattle.sig_manifest.specs.Manifest.{manifest_view};

use sig_base::{ByText, OutOfMemory};
use sig_manifest::Manifest;
use sig_policy::HeldPolicy;
use std::alloc::Global;

/// Policies that are prepared for many certificates, by their names.
pub type NamedPolicies<'a> = ByText<HeldPolicy<'a>>;

/// Prepares the policy of this name, if it is not held yet: one pass over its rules, however many artifacts name it.
/// The manifest has to have the policy. Fails only if out of memory.
pub fn hold_policy<'a>(
    alloc: Global,
    held: &mut NamedPolicies<'a>,
    manifest: &'a Manifest,
    name: &str,
) -> Result<(), OutOfMemory>
    requires named { IsSome (text_lookup name.now manifest.now.policies) }
    requires held { AreHeldPolicies (manifest_view manifest.now) held.old }
    ensures held { OnOk result (AreHeldPolicies (manifest_view manifest.entry.now) held.new) }
    ensures there { OnOk result (IsSome (text_lookup name.now held.new)) }
{
    if held.get(name).is_some() {
        return Ok(());
    }
    let Some(policy) = manifest.policies.get(name) else {
        unreachable!()
    };
    let policy = HeldPolicy::new(alloc, policy)?;
    held.insert(name, policy)?;
    Ok(())
}
