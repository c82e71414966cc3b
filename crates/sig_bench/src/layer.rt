//! What `cosign` stores beside an image, read as a layer.

use crate::accepting::Accepting;
use sig_base::{Bytes, SigningScheme, SigstoreError, Text, TextMap, sha256};
use sig_cosign::{ImageLayer, OciDescriptor, SignatureLayer};
use sig_key::{CosignVerificationKey, VerificationKeys};
use std::alloc::Global;

/// The media type of a payload that `cosign` signed.
const SIGNING_TYPE: &str = "application/vnd.dev.cosign.simplesigning.v1+json";

/// The digest of the manifest that a payload has to name, and the id of the only log whose key is known.
const MANIFEST: &str = "sha256:00";

const LOG: &str = "log";

/// The printed number if the check passes.
const DONE: u64 = 0;

/// The printed number if the input is refused.
const REFUSED: u64 = 1;

/// Reads these bytes as the payload of a layer. Returns 0 if there is one, and 1 if it is refused; `None` if out of
/// memory.
pub fn of_payload(alloc: Global, payload: &[u8]) -> Option<u64> {
    made(alloc, payload, "c2ln", None)
}

/// Takes this text as the signature of a layer, and asks whether a key signed it. Returns 0 if it did, and 1 if not;
/// `None` if out of memory or the bytes are not a text.
pub fn of_signature(alloc: Global, signature: &[u8]) -> Option<u64> {
    let signature = text_of(signature)?;
    let payload = unsigned_payload(alloc)?;
    made(alloc, payload.as_slice(), signature, None)
}

/// Reads this text as what a log promised of a layer. Returns 0 if the log signed it, and 1 if it is refused; `None` if
/// out of memory or the bytes are not a text.
pub fn of_promise(alloc: Global, promise: &[u8]) -> Option<u64> {
    let promise = text_of(promise)?;
    let payload = unsigned_payload(alloc)?;
    made(alloc, payload.as_slice(), "c2ln", Some(promise))
}

/// Reads this text as the Sigstore bundle of the image whose manifest has the digest `source`, under a key of this log
/// alone, and asks whether a key signed the layer. Returns 0 if it did, and 1 if the bundle is refused; `None` if out
/// of memory.
pub fn of_bundle(alloc: Global, bundle: &[u8], source: &str, log: &str) -> Option<u64> {
    let mut keys = VerificationKeys::new(alloc);
    keys.insert(log, key(alloc)?).ok()?;
    let made = SignatureLayer::from_sigstore_bundle(
        alloc,
        bundle,
        "",
        source,
        "image",
        None,
        Some(&keys),
        0,
        &Accepting,
    );
    asked(alloc, made)
}

fn text_of(bytes: &[u8]) -> Option<&str> {
    std::str::from_utf8(bytes).ok()
}

/// The payload of a layer that nobody signed.
fn unsigned_payload(alloc: Global) -> Option<Bytes> {
    let unsigned = SignatureLayer::new_unsigned(alloc, "image", MANIFEST).ok()?;
    let payload = Bytes::copy_of(alloc, unsigned.raw_data.as_slice());
    drop(unsigned);
    payload.ok()
}

/// Makes the layer of these bytes and annotations, and asks whether a key signed it.
fn made(alloc: Global, payload: &[u8], signature: &str, promise: Option<&str>) -> Option<u64> {
    let descriptor = descriptor(alloc, payload, signature, promise)?;
    let fetched = ImageLayer {
        media_type: Text::copy_of(alloc, SIGNING_TYPE).ok()?,
        bytes: Bytes::copy_of(alloc, payload).ok()?,
    };
    let keys = keys(alloc)?;
    let made = SignatureLayer::new(
        alloc,
        &descriptor,
        &fetched,
        MANIFEST,
        Some(&keys),
        None,
        0,
        &Accepting,
    );
    asked(alloc, made)
}

/// Whether there is a layer that the key signed, as a number.
fn asked(alloc: Global, made: sig_base::Result<SignatureLayer>) -> Option<u64> {
    match made {
        Ok(layer) => {
            let answer = signed(alloc, &layer);
            drop(layer);
            answer
        }
        Err(error) => {
            let answer = match &error {
                SigstoreError::OutOfMemory => None,
                _ => Some(REFUSED),
            };
            drop(error);
            answer
        }
    }
}

/// Whether the key signed the layer, as a number.
fn signed(alloc: Global, layer: &SignatureLayer) -> Option<u64> {
    let key = key(alloc)?;
    match layer.is_signed_by_key(alloc, &key, &Accepting) {
        Ok(true) => Some(DONE),
        Ok(false) => Some(REFUSED),
        Err(error) => {
            drop(error);
            None
        }
    }
}

/// The descriptor of these bytes with these annotations.
fn descriptor(
    alloc: Global,
    payload: &[u8],
    signature: &str,
    promise: Option<&str>,
) -> Option<OciDescriptor> {
    let mut annotations = TextMap::new(alloc);
    annotations
        .insert("dev.cosignproject.cosign/signature", signature)
        .ok()?;
    if let Some(promise) = promise {
        annotations
            .insert("dev.sigstore.cosign/bundle", promise)
            .ok()?;
    }
    let digits = hex::encode(alloc, &sha256(payload)).ok()?;
    Some(OciDescriptor {
        media_type: Text::copy_of(alloc, SIGNING_TYPE).ok()?,
        digest: Text::from(format!(in alloc; "sha256:{digits}").ok()?),
        annotations,
        certificate_der: None,
    })
}

/// A key that is not checked.
fn key(alloc: Global) -> Option<CosignVerificationKey> {
    CosignVerificationKey::from_der(alloc, b"key", &SigningScheme::default()).ok()
}

/// That key as the log's.
fn keys(alloc: Global) -> Option<VerificationKeys> {
    let mut keys = VerificationKeys::new(alloc);
    keys.insert(LOG, key(alloc)?).ok()?;
    Some(keys)
}
