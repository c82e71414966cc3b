//! SCTs of certificates, the keys that vouch for them, and precertificates.

use crate::certificate::{certificate, certificate_of};
use crate::profile::checked;
use sig_base::{Bytes, sha256};
use sig_cases::{Answer, Arguments};
use sig_x509::{
    Certificate, CertificateEmbeddedSCT, DigitallySigned, Key, Keyring, SCTError, precert_tbs_der,
    verify_sct,
};
use std::alloc::Global;

/// `key SPKI`: whether a keyring can have the key.
pub(crate) fn key(arguments: &mut Arguments<'_>, answer: &mut Answer) {
    match Key::new(arguments.alloc(), &arguments.hex()) {
        Ok(_) => answer.ok(),
        Err(refusal) => answer.error(refusal),
    }
}

/// `keyring KEY,.. ID SIGNATURE MESSAGE ROW ..`: whether the keyring vouches for the signature.
pub(crate) fn vouched(arguments: &mut Arguments<'_>, answer: &mut Answer) {
    let Some(keyring) = keyring(arguments, answer) else {
        return;
    };
    let id = arguments.digest();
    let signature = arguments.hex();
    let message = arguments.hex();
    let checker = arguments.checker();
    checked(answer, keyring.verify(&id, &signature, &message, &checker));
    drop(checker);
    drop(keyring);
}

/// The keyring of the keys of the next argument. `None` if out of memory.
fn keyring(arguments: &mut Arguments<'_>, answer: &mut Answer) -> Option<Keyring> {
    match Keyring::new(arguments.alloc(), &arguments.entries()) {
        Ok(keyring) => Some(keyring),
        Err(_) => {
            answer.out_of_memory();
            None
        }
    }
}

/// `embedded_sct DER ISSUER_SPKI`: what the certificate's SCT signs.
pub(crate) fn embedded(arguments: &mut Arguments<'_>, answer: &mut Answer) {
    let Some(leaf) = certificate(arguments, answer) else {
        return;
    };
    let (alloc, spki) = (arguments.alloc(), arguments.hex());
    let found = CertificateEmbeddedSCT::new_with_verified_path(alloc, &leaf, &spki);
    show(alloc, answer, found);
}

/// `embedded_sct_of_chain DER CERTIFICATE,..`: the same by the issuer that the chain begins with.
pub(crate) fn embedded_of_chain(arguments: &mut Arguments<'_>, answer: &mut Answer) {
    let Some(leaf) = certificate(arguments, answer) else {
        return;
    };
    let alloc = arguments.alloc();
    let mut chain: Vec<Certificate> = Vec::new(alloc);
    for der in &arguments.hex_list() {
        push_certificate(&mut chain, der, arguments, answer);
    }
    let found = CertificateEmbeddedSCT::new(alloc, &leaf, &chain);
    show(alloc, answer, found);
}

fn push_certificate(
    chain: &mut Vec<Certificate>,
    der: &[u8],
    arguments: &mut Arguments<'_>,
    answer: &mut Answer,
) {
    match certificate_of(arguments.alloc(), answer, der) {
        Some(read) => {
            if chain.push(read).is_err() {
                answer.out_of_memory();
            }
        }
        None => arguments.refuse(),
    }
}

/// Adds what an SCT signs.
fn show(alloc: Global, answer: &mut Answer, found: Result<CertificateEmbeddedSCT, SCTError>) {
    match found {
        Ok(embedded) => match DigitallySigned::from_embedded(alloc, &embedded) {
            Ok(signed) => show_fields(answer, &signed),
            Err(_) => answer.out_of_memory(),
        },
        Err(refusal) => answer.error(refusal),
    }
}

/// Adds log id, time, SHA-256 of the issuer's SPKI, TBSCertificate, extensions and signature.
fn show_fields(answer: &mut Answer, signed: &DigitallySigned) {
    answer.ok();
    answer.hex(&signed.log_id);
    answer.value(&signed.timestamp);
    answer.hex(&signed.issuer_key_hash);
    answer.hex(signed.tbs_certificate.as_slice());
    answer.hex(signed.extensions.as_slice());
    answer.hex(signed.signature.as_slice());
}

/// `verify_sct LOG_ID TIME ISSUER_KEY_HASH TBS EXTENSIONS SIGNATURE KEY,.. ROW ..`: whether the keyring vouches for
/// what is signed.
pub(crate) fn verified(arguments: &mut Arguments<'_>, answer: &mut Answer) {
    let signed = DigitallySigned {
        log_id: arguments.digest(),
        timestamp: arguments.natural(),
        issuer_key_hash: arguments.digest(),
        tbs_certificate: arguments.bytes(),
        extensions: arguments.bytes(),
        signature: arguments.bytes(),
    };
    if let Some(keyring) = keyring(arguments, answer) {
        let (alloc, checker) = (arguments.alloc(), arguments.checker());
        checked(answer, verify_sct(alloc, &signed, &keyring, &checker));
        drop(checker);
        drop(keyring);
    }
    drop(signed);
}

/// `precert_tbs_der DER`: the TBSCertificate of the precertificate.
pub(crate) fn precert(arguments: &mut Arguments<'_>, answer: &mut Answer) {
    if let Some(body) = precert_body(arguments, answer) {
        answer.ok();
        answer.hex(body.as_slice());
    }
}

fn precert_body(arguments: &mut Arguments<'_>, answer: &mut Answer) -> Option<Bytes> {
    let read = certificate(arguments, answer)?;
    match precert_tbs_der(arguments.alloc(), &read) {
        Ok(body) => Some(body),
        Err(_) => {
            answer.out_of_memory();
            None
        }
    }
}

/// `precert_tbs_digest DER`: the length and the SHA-256 of the same.
pub(crate) fn precert_digest(arguments: &mut Arguments<'_>, answer: &mut Answer) {
    if let Some(body) = precert_body(arguments, answer) {
        answer.ok();
        answer.value(&body.as_slice().len());
        answer.hex(&sha256(body.as_slice()));
    }
}
