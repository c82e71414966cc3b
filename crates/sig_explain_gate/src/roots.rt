//! The trusted roots that artifacts name: what verification and explanations need of each, read once.
ghost use Rattle.std.specs.Prelude.{◌≡◌, IfOk, IsSome, OnOk};
ghost use Rattle.sig_base.specs.ByText.{text_lookup};
ghost use Rattle.sig_explain_gate.specs.Roots.{AreRead, IsReadNamed, IsReadRoot, IsTried};
ghost use Rattle.sig_manifest.specs.Manifest.{manifest_view};

use sig_base::{ByText, OutOfMemory};
use sig_explain_verify::ShownRoot;
use sig_manifest::Manifest;
use sig_verify::{HeldRoot, OfflineError};
use std::alloc::Global;

/// A trusted root at the manifest's time.
#[derive(Drop)]
pub(crate) struct ReadRoot {
    /// What bundles are verified against, or why the text is not a trusted root.
    pub(crate) held: Result<HeldRoot, OfflineError>,
    /// What explanations show of it.
    pub(crate) shown: ShownRoot,
}

/// Trusted roots, by their names.
pub(crate) type ReadRoots = ByText<ReadRoot>;

/// Reads the trusted root of this name, if it was not read yet. Fails only if out of memory.
pub(crate) fn read_named(
    alloc: Global,
    roots: &mut ReadRoots,
    manifest: &Manifest,
    name: &str,
) -> Result<(), OutOfMemory>
    requires named { IsSome (text_lookup name.now manifest.now.roots) }
    requires read { AreRead (manifest_view manifest.now) roots.old }
    ensures read { OnOk result (AreRead (manifest_view manifest.entry.now) roots.new) }
    ensures there { OnOk result (IsSome (text_lookup name.now roots.new)) }
{
    if roots.get(name).is_some() {
        return Ok(());
    }
    let root = named_root(alloc, manifest, name)?;
    roots.insert(name, root)?;
    Ok(())
}

/// The trusted root of this name.
fn named_root(alloc: Global, manifest: &Manifest, name: &str) -> Result<ReadRoot, OutOfMemory>
    requires { IsSome (text_lookup name.now manifest.now.roots) }
    ensures { IfOk result (IsReadNamed (manifest_view manifest.entry.now) name.now) }
{
    let Some(text) = manifest.roots.get(name) else {
        unreachable!()
    };
    read_root(alloc, text.as_bytes(), manifest.now)
}

/// The trusted root of this text at a time.
fn read_root(alloc: Global, text: &[u8], now: i64) -> Result<ReadRoot, OutOfMemory>
    ensures { IfOk result (IsReadRoot text.now now) }
{
    let held = hold(alloc, text, now)?;
    let shown = ShownRoot::read(alloc, text, now)?;
    Ok(ReadRoot { held, shown })
}

/// What bundles are verified against, or why the text is not a trusted root. Fails only if out of memory.
fn hold(alloc: Global, text: &[u8], now: i64) -> Result<Result<HeldRoot, OfflineError>, OutOfMemory>
    ensures { IfOk result (IsTried text.now now) }
{
    match HeldRoot::read(alloc, text, now) {
        Ok(held) => Ok(Ok(held)),
        Err(OfflineError::OutOfMemory) => Err(OutOfMemory),
        Err(error) => Ok(Err(error)),
    }
}
