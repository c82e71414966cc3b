//! What a trusted root has at a time.

use sig_base::{Entries, KeyMap};
use sig_cases::{Answer, Arguments};
use sig_verify::{SigstoreTrustRoot, TrustRoot};
use std::alloc::Global;

/// `fulcio_certs NOW ROOT`, `rekor_keys NOW ROOT` and `ctfe_keys NOW ROOT`, for the text of a trusted root: `ok`, how
/// many there are, and all; or the error.
pub(crate) fn at(call: &str, arguments: &mut Arguments<'_>, answer: &mut Answer) {
    let now = arguments.integer();
    let text = arguments.text();
    let alloc = arguments.alloc();
    match SigstoreTrustRoot::from_trusted_root_json_unchecked(alloc, text.as_bytes()) {
        Ok(root) => found(alloc, call, &root, now, answer),
        Err(error) => answer.error(error),
    }
}

fn found(alloc: Global, call: &str, root: &SigstoreTrustRoot, now: i64, answer: &mut Answer) {
    match call {
        "fulcio_certs" => certificates(root.fulcio_certs(alloc, now), answer),
        "rekor_keys" => keys(root.rekor_keys(alloc, now), answer),
        _ => keys(root.ctfe_keys(alloc, now), answer),
    }
}

fn certificates(found: sig_base::Result<Entries>, answer: &mut Answer) {
    match found {
        Ok(certificates) => {
            answer.ok();
            answer.value(&certificates.len());
            for certificate in certificates.as_slice() {
                answer.hex(certificate.as_slice());
            }
        }
        Err(error) => answer.error(error),
    }
}

fn keys(found: sig_base::Result<KeyMap>, answer: &mut Answer) {
    match found {
        Ok(keys) => {
            answer.ok();
            answer.value(&keys.len());
            for (id, key) in keys.iter() {
                answer.value(&id);
                answer.hex(key);
            }
        }
        Err(error) => answer.error(error),
    }
}
