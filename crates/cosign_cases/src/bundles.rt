//! Layers of Sigstore bundles.

use crate::layers::{show_made, show_text};
use crate::trusted::{keys_if_any, pool_if_any};
use sig_cases::{Answer, Arguments};
use sig_cosign::SignatureLayer;

/// `bundle TEXT DIGEST SOURCE REFERENCE POOL KEYS NOW ROWS`: the layer of a Sigstore bundle.
pub(crate) fn bundle(arguments: &mut Arguments<'_>, answer: &mut Answer) {
    let made = made(arguments, answer);
    show_made(arguments.alloc(), answer, made);
}

/// `shown_bundle TEXT DIGEST SOURCE REFERENCE POOL KEYS NOW ROWS`: the text that the same layer is shown as.
pub(crate) fn shown_bundle(arguments: &mut Arguments<'_>, answer: &mut Answer) {
    let made = made(arguments, answer);
    show_text(arguments.alloc(), answer, made);
}

fn made(arguments: &mut Arguments<'_>, answer: &mut Answer) -> sig_base::Result<SignatureLayer> {
    let alloc = arguments.alloc();
    let text = arguments.text();
    let digest = arguments.text();
    let source = arguments.text();
    let reference = arguments.text();
    let pool = pool_if_any(arguments, answer);
    let keys = keys_if_any(arguments);
    let now = arguments.integer();
    let checker = arguments.checker();
    SignatureLayer::from_sigstore_bundle(
        alloc,
        text.as_str().as_bytes(),
        digest.as_str(),
        source.as_str(),
        reference.as_str(),
        pool.as_ref(),
        keys.as_ref(),
        now,
        &checker,
    )
}
