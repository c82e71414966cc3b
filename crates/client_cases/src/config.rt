//! Client configurations.

use sig_base::{Entries, KeyMap};
use sig_cases::{Answer, Arguments};
use sig_root::{SigstoreTrustRoot, TrustRoot};
use std::alloc::Global;

/// `client_config NOW TEXT`: `ok`, and what the trusted root of the configuration has at this time: the certificates of
/// the authorities, the keys of the logs of signatures, and those of the Certificate Transparency logs, or the error in
/// place of each; or the error of the configuration.
pub(crate) fn configured(arguments: &mut Arguments<'_>, answer: &mut Answer) {
    let now = arguments.integer();
    let alloc = arguments.alloc();
    match SigstoreTrustRoot::from_client_trust_config(alloc, arguments.text().as_bytes()) {
        Ok(root) => {
            answer.ok();
            add_root(answer, alloc, &root, now);
            drop(root);
        }
        Err(error) => answer.error(error),
    }
}

/// Adds what a trust root has at a time.
fn add_root(answer: &mut Answer, alloc: Global, root: &SigstoreTrustRoot, now: i64) {
    add_certificates(answer, root.fulcio_certs(alloc, now));
    add_keys(answer, root.rekor_keys(alloc, now));
    add_keys(answer, root.ctfe_keys(alloc, now));
}

/// Adds how many certificates there are, and all.
fn add_certificates(answer: &mut Answer, found: sig_base::Result<Entries>) {
    match found {
        Ok(certificates) => {
            answer.value(&certificates.len());
            for certificate in certificates.as_slice() {
                answer.hex(certificate.as_slice());
            }
        }
        Err(error) => answer.error(error),
    }
}

/// Adds how many keys there are, and all, each after its log id.
fn add_keys(answer: &mut Answer, found: sig_base::Result<KeyMap>) {
    match found {
        Ok(keys) => {
            answer.value(&keys.len());
            for (id, key) in keys.iter() {
                answer.value(&id);
                answer.hex(key);
            }
        }
        Err(error) => answer.error(error),
    }
}
