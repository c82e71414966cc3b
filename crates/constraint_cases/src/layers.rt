//! Layers, and what is shown of them.

use sig_base::{Bytes, SigningScheme, Text};
use sig_bundle::TransparencyLogEntry;
use sig_cases::{Answer, Arguments};
use sig_cosign::{
    Bundle, BundleContent, CertificateSignature, CertificateSubject, Optional, Payload,
    SignatureLayer, SimpleSigning,
};
use sig_json_text::compact;
use sig_key::CosignVerificationKey;
use sig_payload::read_signing;
use std::alloc::Global;

/// The next argument as a text, in percent-encoding.
pub(crate) fn text(arguments: &mut Arguments<'_>) -> Text {
    Text::from(arguments.text())
}

/// The next six arguments as a layer: its payload, its raw data in hexadecimal, its signature, its subject and issuer,
/// and its bundle. `None` if the payload is not one.
pub(crate) fn layer(arguments: &mut Arguments<'_>, answer: &mut Answer) -> Option<SignatureLayer> {
    let payload = arguments.text();
    match read_signing(arguments.alloc(), payload.as_str().as_bytes()) {
        Ok(simple_signing) => Some(layer_of(arguments, simple_signing)),
        Err(error) => {
            answer.error(error);
            None
        }
    }
}

fn layer_of(arguments: &mut Arguments<'_>, simple_signing: SimpleSigning) -> SignatureLayer {
    let raw_data = arguments.bytes();
    let signature = optional_text(arguments);
    let certificate_signature = signer(arguments);
    SignatureLayer {
        simple_signing,
        oci_digest: text_of(arguments, "sha256:00"),
        certificate_signature,
        bundle: bundle(arguments),
        signature,
        raw_data,
    }
}

/// The next argument as a text: `-` is an absent one, and `=TEXT` is this one, in percent-encoding.
pub(crate) fn optional_text(arguments: &mut Arguments<'_>) -> Option<Text> {
    let text = arguments.text();
    match text.as_str().strip_prefix("=") {
        Some(said) => Some(text_of(arguments, said)),
        None => {
            if !text.is_empty() {
                arguments.refuse();
            }
            None
        }
    }
}

/// A copy of a text.
pub(crate) fn text_of(arguments: &mut Arguments<'_>, text: &str) -> Text {
    match Text::copy_of(arguments.alloc(), text) {
        Ok(text) => text,
        Err(_) => {
            arguments.refuse();
            Text::from(String::new(arguments.alloc()))
        }
    }
}

/// The next two arguments as the signer: `-`, `email:TEXT` or `uri:TEXT`, and the issuer.
fn signer(arguments: &mut Arguments<'_>) -> Option<CertificateSignature> {
    let subject = arguments.text();
    let issuer = optional_text(arguments);
    if subject.is_empty() {
        drop(issuer);
        return None;
    }
    let subject = subject_of(arguments, subject.as_str());
    signer_of(arguments, subject, issuer)
}

fn subject_of(arguments: &mut Arguments<'_>, subject: &str) -> CertificateSubject {
    match subject.split_once(':') {
        Some(("email", text)) => CertificateSubject::Email(text_of(arguments, text)),
        Some(("uri", text)) => CertificateSubject::Uri(text_of(arguments, text)),
        _ => {
            arguments.refuse();
            CertificateSubject::Uri(text_of(arguments, subject))
        }
    }
}

fn signer_of(
    arguments: &mut Arguments<'_>,
    subject: CertificateSubject,
    issuer: Option<Text>,
) -> Option<CertificateSignature> {
    match CosignVerificationKey::from_der(arguments.alloc(), b"key", &SigningScheme::default()) {
        Ok(verification_key) => Some(CertificateSignature {
            verification_key,
            subject,
            issuer,
            github_workflow_trigger: None,
            github_workflow_sha: None,
            github_workflow_name: None,
            github_workflow_repository: None,
            github_workflow_ref: None,
        }),
        Err(_) => {
            arguments.refuse();
            drop(subject);
            drop(issuer);
            None
        }
    }
}

/// The next argument as what a log says: `-`, `rekor:SECONDS` or `sigstore:SECONDS`.
fn bundle(arguments: &mut Arguments<'_>) -> Option<BundleContent> {
    let word = arguments.word();
    if word == "-" {
        return None;
    }
    match word.split_once(':') {
        Some(("rekor", time)) => Some(BundleContent::RekorBundle(rekor(arguments, time))),
        Some(("sigstore", time)) => Some(BundleContent::SigstoreBundle(entry(arguments, time))),
        _ => {
            arguments.refuse();
            None
        }
    }
}

fn rekor(arguments: &mut Arguments<'_>, time: &str) -> Bundle {
    let integrated_time = seconds(arguments, time);
    Bundle {
        signed_entry_timestamp: text_of(arguments, "AA=="),
        payload: Payload {
            body: text_of(arguments, "AA=="),
            integrated_time,
            log_index: 0,
            log_id: text_of(arguments, "00"),
        },
    }
}

fn seconds(arguments: &mut Arguments<'_>, time: &str) -> i64 {
    match time.parse::<i64>() {
        Ok(seconds) => seconds,
        Err(_) => {
            arguments.refuse();
            0
        }
    }
}

fn entry(arguments: &mut Arguments<'_>, time: &str) -> TransparencyLogEntry {
    let integrated_time = seconds(arguments, time);
    TransparencyLogEntry {
        log_index: 0,
        log_id: None,
        kind_version: None,
        integrated_time,
        inclusion_promise: None,
        inclusion_proof: None,
        canonicalized_body: Bytes::from(Vec::new(arguments.alloc())),
    }
}

/// Shows the annotations of a layer: creator, time and others, or that there are none; and its signature.
pub(crate) fn show(alloc: Global, answer: &mut Answer, layer: &SignatureLayer) {
    match &layer.simple_signing.optional {
        Some(optional) => show_optional(alloc, answer, optional),
        None => answer.value(&"-"),
    }
    show_text(answer, &layer.signature);
}

fn show_optional(alloc: Global, answer: &mut Answer, optional: &Optional) {
    show_text(answer, &optional.creator);
    match optional.timestamp {
        Some(timestamp) => answer.value(&timestamp),
        None => answer.value(&"-"),
    }
    match compact(alloc, optional.extra.view()) {
        Ok(text) => answer.value(&text.as_str()),
        Err(_) => answer.out_of_memory(),
    }
}

fn show_text(answer: &mut Answer, text: &Option<Text>) {
    match text {
        Some(text) => answer.debug(text),
        None => answer.value(&"-"),
    }
}

/// Shows what a verifier says.
pub(crate) fn show_verdict(answer: &mut Answer, verdict: sig_base::Result<bool>) {
    match verdict {
        Ok(holds) => {
            answer.ok();
            answer.value(&holds);
        }
        Err(error) => answer.error(error),
    }
}
