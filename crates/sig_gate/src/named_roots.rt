//! `NamedRoots`: the trusted roots that artifacts name, each read once.
ghost use Rattle.std.specs.Prelude.{◌≡◌, IfOk, IsSome, OnOk};
ghost use Rattle.sig_base.specs.ByText.{text_lookup};
ghost use Rattle.sig_gate.specs.NamedRoots.{AreHeld, IsRootNamed, IsRootOf};
ghost use Rattle.sig_manifest.specs.Manifest.{manifest_view};

use sig_base::{ByText, OutOfMemory};
use sig_manifest::Manifest;
use sig_verify::{HeldRoot, OfflineError};
use std::alloc::Global;

/// What is held of a trusted root.
#[derive(Drop)]
pub(crate) enum NamedRoot {
    /// What it gives at the manifest's time.
    Held(HeldRoot),
    /// Its text is not a trusted root.
    NotRoot,
}

/// What is held of trusted roots, by their names.
pub(crate) type NamedRoots = ByText<NamedRoot>;

/// Reads the trusted root of this name, if it is not held yet. Fails only if out of memory.
pub(crate) fn hold_root(
    alloc: Global,
    held: &mut NamedRoots,
    manifest: &Manifest,
    name: &str,
) -> Result<(), OutOfMemory>
    requires named { IsSome (text_lookup name.now manifest.now.roots) }
    requires held { AreHeld (manifest_view manifest.now) held.old }
    ensures held { OnOk result (AreHeld (manifest_view manifest.entry.now) held.new) }
    ensures there { OnOk result (IsSome (text_lookup name.now held.new)) }
{
    if held.get(name).is_some() {
        return Ok(());
    }
    let root = read_named(alloc, manifest, name)?;
    held.insert(name, root)?;
    Ok(())
}

/// Returns what to hold of the trusted root of this name.
fn read_named(alloc: Global, manifest: &Manifest, name: &str) -> Result<NamedRoot, OutOfMemory>
    requires { IsSome (text_lookup name.now manifest.now.roots) }
    ensures { IfOk result (IsRootNamed (manifest_view manifest.entry.now) name.now) }
{
    let Some(text) = manifest.roots.get(name) else {
        unreachable!()
    };
    read_root(alloc, text.as_bytes(), manifest.now)
}

/// Returns what to hold of a trusted root of this text at a time.
fn read_root(alloc: Global, text: &[u8], now: i64) -> Result<NamedRoot, OutOfMemory>
    ensures { IfOk result (IsRootOf text.now now) }
{
    match HeldRoot::read(alloc, text, now) {
        Ok(root) => Ok(NamedRoot::Held(root)),
        Err(OfflineError::OutOfMemory) => Err(OutOfMemory),
        Err(error) => {
            drop(error);
            Ok(NamedRoot::NotRoot)
        }
    }
}
