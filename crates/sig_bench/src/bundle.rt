//! Bundles, read whole.

use sig_bundle::read_bundle;
use std::alloc::Global;

/// Returns 0 if the text is a bundle.
pub fn read(alloc: Global, text: &[u8]) -> Option<u64> {
    let bundle = read_bundle(alloc, text).ok()?;
    drop(bundle);
    Some(0)
}
