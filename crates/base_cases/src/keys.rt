//! Calls of sig_key.

use sig_base::{Bytes, Result};
use sig_cases::{Answer, Arguments};
use sig_key::{CosignVerificationKey, KeyKind, Signature, VerificationKeys, key_kind};

/// `key_kind SPKI`: the kind of key that the bytes are.
pub(crate) fn kind(arguments: &mut Arguments<'_>, answer: &mut Answer) {
    match key_kind(&arguments.hex()) {
        KeyKind::NoKeyInfo => answer.value(&"NoKeyInfo"),
        KeyKind::Unsupported => answer.value(&"Unsupported"),
        KeyKind::Scheme(scheme) => {
            answer.ok();
            answer.value(&scheme.name());
        }
    }
}

/// `try_from_der SPKI`: the key's scheme and its bytes.
pub(crate) fn try_from_der(arguments: &mut Arguments<'_>, answer: &mut Answer) {
    let spki = arguments.hex();
    read(
        answer,
        CosignVerificationKey::try_from_der(arguments.alloc(), &spki),
    );
}

/// `try_from_spki SPKI`: the same.
pub(crate) fn try_from_spki(arguments: &mut Arguments<'_>, answer: &mut Answer) {
    let spki = arguments.hex();
    read(
        answer,
        CosignVerificationKey::try_from_spki(arguments.alloc(), &spki),
    );
}

/// Adds a key, or why there is no key.
fn read(answer: &mut Answer, found: Result<CosignVerificationKey>) {
    match found {
        Ok(key) => {
            show(answer, &key);
            drop(key);
        }
        Err(error) => answer.error(error),
    }
}

/// `from_der SCHEME DER`: the same of any bytes.
pub(crate) fn from_der(arguments: &mut Arguments<'_>, answer: &mut Answer) {
    let key = key(arguments, answer);
    show(answer, &key);
    drop(key);
}

/// Adds a key's scheme and its bytes.
fn show(answer: &mut Answer, key: &CosignVerificationKey) {
    answer.ok();
    answer.value(&key.scheme().name());
    answer.hex(key.spki());
}

/// The next arguments, `SCHEME DER`, as a key.
fn key(arguments: &mut Arguments<'_>, answer: &mut Answer) -> CosignVerificationKey {
    let scheme = arguments.signing_scheme();
    match CosignVerificationKey::from_der(arguments.alloc(), &arguments.hex(), &scheme) {
        Ok(key) => key,
        Err(_) => {
            answer.out_of_memory();
            CosignVerificationKey::ED25519(Bytes::from(Vec::new(arguments.alloc())))
        }
    }
}

/// `decode_bytes FORM SIGNATURE`: the bytes of the signature.
pub(crate) fn decode(arguments: &mut Arguments<'_>, answer: &mut Answer) {
    let is_base64 = is_base64(arguments);
    let bytes = arguments.hex();
    match signature_of(is_base64, &bytes).decode_bytes(arguments.alloc()) {
        Ok(decoded) => {
            answer.ok();
            answer.hex(decoded.as_slice());
        }
        Err(error) => answer.error(error),
    }
}

/// The next argument, `raw` or `base64`: whether the signature is a text in base64.
fn is_base64(arguments: &mut Arguments<'_>) -> bool {
    match arguments.word() {
        "raw" => false,
        "base64" => true,
        _ => {
            arguments.refuse();
            false
        }
    }
}

/// The signature of these bytes.
fn signature_of(is_base64: bool, bytes: &[u8]) -> Signature<'_> {
    if is_base64 {
        Signature::Base64Encoded(bytes)
    } else {
        Signature::Raw(bytes)
    }
}

/// `key_accepts SCHEME KEY SIGNATURE MESSAGE ROW ..`: whether the key accepts the signature.
pub(crate) fn accepts(arguments: &mut Arguments<'_>, answer: &mut Answer) {
    let key = key(arguments, answer);
    let signature = arguments.hex();
    let message = arguments.hex();
    let checker = arguments.checker();
    answer.ok();
    answer.value(&key.accepts(&signature, &message, &checker));
    drop(key);
}

/// `verify_signature SCHEME KEY FORM SIGNATURE MESSAGE ROW ..`: whether the signature is the key's.
pub(crate) fn verify_signature(arguments: &mut Arguments<'_>, answer: &mut Answer) {
    let key = key(arguments, answer);
    let is_base64 = is_base64(arguments);
    let bytes = arguments.hex();
    let message = arguments.hex();
    let checker = arguments.checker();
    let signature = signature_of(is_base64, &bytes);
    checked(
        answer,
        key.verify_signature(arguments.alloc(), signature, &message, &checker),
    );
    drop(key);
    drop(checker);
}

/// `verify_prehash SCHEME KEY FORM SIGNATURE DIGEST ROW ..`: whether the signature is the key's.
pub(crate) fn verify_prehash(arguments: &mut Arguments<'_>, answer: &mut Answer) {
    let key = key(arguments, answer);
    let is_base64 = is_base64(arguments);
    let bytes = arguments.hex();
    let digest = arguments.hex();
    let checker = arguments.checker();
    let signature = signature_of(is_base64, &bytes);
    checked(
        answer,
        key.verify_prehash(arguments.alloc(), signature, &digest, &checker),
    );
    drop(key);
    drop(checker);
}

/// Adds the result of a check.
fn checked(answer: &mut Answer, found: Result<()>) {
    match found {
        Ok(()) => answer.ok(),
        Err(error) => answer.error(error),
    }
}

/// `keys SOUGHT NAME SCHEME DER ..`: the key of the name that is sought.
pub(crate) fn found(arguments: &mut Arguments<'_>, answer: &mut Answer) {
    let sought = arguments.text();
    let keys = read_keys(arguments, answer);
    match keys.get(sought.as_str()) {
        Some(key) => show(answer, key),
        None => answer.value(&"None"),
    }
}

/// The arguments to their end as keys by their names.
fn read_keys(arguments: &mut Arguments<'_>, answer: &mut Answer) -> VerificationKeys {
    let mut keys = VerificationKeys::new(arguments.alloc());
    for _ in 0..u64::MAX {
        if arguments.is_empty() {
            break;
        }
        insert(&mut keys, arguments, answer);
    }
    keys
}

/// Reads a name, a scheme and the bytes of a key.
fn insert(keys: &mut VerificationKeys, arguments: &mut Arguments<'_>, answer: &mut Answer) {
    let name = arguments.text();
    if keys.insert(name.as_str(), key(arguments, answer)).is_err() {
        answer.out_of_memory();
    }
}
