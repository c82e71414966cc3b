//! Layers.

use crate::signers::show_signer;
use crate::signings::show_signing;
use crate::trusted::{keys_if_any, pool_if_any};
use sig_base::{Bytes, Text, TextMap};
use sig_cases::{Answer, Arguments};
use sig_cosign::{BundleContent, CertificateSignature, ImageLayer, OciDescriptor, SignatureLayer};
use sig_key::CosignVerificationKey;
use std::alloc::Global;

/// `unsigned REFERENCE DIGEST`: the layer of both that is to be signed.
pub(crate) fn unsigned(arguments: &mut Arguments<'_>, answer: &mut Answer) {
    let alloc = arguments.alloc();
    let reference = arguments.text();
    let digest = arguments.text();
    let made = SignatureLayer::new_unsigned(alloc, reference.as_str(), digest.as_str());
    show_made(alloc, answer, made);
}

/// `signed REFERENCE DIGEST SIGNATURE|none RAW SCHEME KEY ROWS`: whether the key signed the layer of both with this
/// signature and these bytes.
pub(crate) fn signed(arguments: &mut Arguments<'_>, answer: &mut Answer) {
    let alloc = arguments.alloc();
    let reference = arguments.text();
    let digest = arguments.text();
    let signature = signature_if_any(arguments);
    let raw_data = arguments.bytes();
    let scheme = arguments.signing_scheme();
    let der = arguments.hex();
    let checker = arguments.checker();
    let Ok(key) = CosignVerificationKey::from_der(alloc, &der, &scheme) else {
        answer.out_of_memory();
        return;
    };
    match SignatureLayer::new_unsigned(alloc, reference.as_str(), digest.as_str()) {
        Ok(layer) => {
            let layer = SignatureLayer {
                signature,
                raw_data,
                ..layer
            };
            match layer.is_signed_by_key(alloc, &key, &checker) {
                Ok(signed) => {
                    answer.ok();
                    answer.value(&signed);
                }
                Err(error) => answer.error(error),
            }
            drop(layer);
        }
        Err(error) => answer.error(error),
    }
    drop(key);
}

fn signature_if_any(arguments: &mut Arguments<'_>) -> Option<Text> {
    if arguments.word() == "signature" {
        Some(Text::from(arguments.text()))
    } else {
        None
    }
}

/// `layer DESCRIPTOR LAYER SOURCE KEYS POOL NOW ROWS`: the layer of a descriptor and its bytes.
pub(crate) fn layer(arguments: &mut Arguments<'_>, answer: &mut Answer) {
    let made = made(arguments, answer);
    show_made(arguments.alloc(), answer, made);
}

/// `shown_layer DESCRIPTOR LAYER SOURCE KEYS POOL NOW ROWS`: the text that the same layer is shown as.
pub(crate) fn shown_layer(arguments: &mut Arguments<'_>, answer: &mut Answer) {
    let made = made(arguments, answer);
    show_text(arguments.alloc(), answer, made);
}

fn made(arguments: &mut Arguments<'_>, answer: &mut Answer) -> sig_base::Result<SignatureLayer> {
    let alloc = arguments.alloc();
    let descriptor = descriptor(arguments, answer);
    let fetched = fetched(arguments);
    let source = arguments.text();
    let keys = keys_if_any(arguments);
    let pool = pool_if_any(arguments, answer);
    let now = arguments.integer();
    let checker = arguments.checker();
    SignatureLayer::new(
        alloc,
        &descriptor,
        &fetched,
        source.as_str(),
        keys.as_ref(),
        pool.as_ref(),
        now,
        &checker,
    )
}

/// The next arguments as a descriptor: media type, digest, `cert` and a certificate or `none`, how many annotations
/// there are, and of each name and text.
pub(crate) fn descriptor(arguments: &mut Arguments<'_>, answer: &mut Answer) -> OciDescriptor {
    let media_type = Text::from(arguments.text());
    let digest = Text::from(arguments.text());
    let certificate_der = certificate_if_any(arguments);
    let annotations = annotations(arguments, answer);
    OciDescriptor {
        media_type,
        digest,
        annotations,
        certificate_der,
    }
}

fn certificate_if_any(arguments: &mut Arguments<'_>) -> Option<Bytes> {
    if arguments.word() == "cert" {
        Some(arguments.bytes())
    } else {
        None
    }
}

fn annotations(arguments: &mut Arguments<'_>, answer: &mut Answer) -> TextMap {
    let mut annotations = TextMap::new(arguments.alloc());
    let count = arguments.natural();
    for _ in 0..count {
        if arguments.is_empty() {
            break;
        }
        let name = arguments.text();
        let text = arguments.text();
        if annotations.insert(name.as_str(), text.as_str()).is_err() {
            answer.out_of_memory();
        }
    }
    annotations
}

/// The next arguments as a fetched layer: media type and bytes.
pub(crate) fn fetched(arguments: &mut Arguments<'_>) -> ImageLayer {
    ImageLayer {
        media_type: Text::from(arguments.text()),
        bytes: arguments.bytes(),
    }
}

/// The text that a layer is shown as.
pub(crate) fn show_text(
    alloc: Global,
    answer: &mut Answer,
    made: sig_base::Result<SignatureLayer>,
) {
    match made {
        Ok(layer) => {
            match layer.to_string(alloc) {
                Ok(text) => {
                    answer.ok();
                    answer.debug(&text);
                }
                Err(_) => answer.out_of_memory(),
            }
            drop(layer);
        }
        Err(error) => answer.error(error),
    }
}

/// A layer: payload, digest, signature, what a log says of it, its signer, and raw data.
pub(crate) fn show_made(
    alloc: Global,
    answer: &mut Answer,
    made: sig_base::Result<SignatureLayer>,
) {
    match made {
        Ok(layer) => {
            answer.ok();
            show_parts(alloc, answer, &layer);
            drop(layer);
        }
        Err(error) => answer.error(error),
    }
}

pub(crate) fn show_parts(alloc: Global, answer: &mut Answer, layer: &SignatureLayer) {
    show_signing(alloc, answer, &layer.simple_signing);
    answer.debug(&layer.oci_digest);
    show_signature(answer, &layer.signature);
    show_bundle(answer, &layer.bundle);
    show_signer_if_any(answer, &layer.certificate_signature);
    answer.hex(layer.raw_data.as_slice());
}

fn show_signature(answer: &mut Answer, signature: &Option<Text>) {
    match signature {
        Some(text) => answer.debug(text),
        None => answer.value(&"-"),
    }
}

fn show_bundle(answer: &mut Answer, bundle: &Option<BundleContent>) {
    match bundle {
        Some(BundleContent::RekorBundle(bundle)) => {
            answer.value(&"RekorBundle");
            answer.value(&bundle.payload.log_index);
            answer.debug(&bundle.payload.body);
        }
        Some(BundleContent::SigstoreBundle(entry)) => {
            answer.value(&"SigstoreBundle");
            answer.value(&entry.log_index);
            answer.hex(entry.canonicalized_body.as_slice());
        }
        None => answer.value(&"-"),
    }
    match bundle {
        Some(bundle) => answer.value(&bundle.integrated_time()),
        None => answer.value(&"-"),
    }
}

fn show_signer_if_any(answer: &mut Answer, signer: &Option<CertificateSignature>) {
    match signer {
        Some(signer) => show_signer(answer, signer),
        None => answer.value(&"-"),
    }
}
