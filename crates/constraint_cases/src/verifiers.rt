//! The verifiers of annotations and of keys.

use crate::layers::{layer, show_verdict};
use crate::rows::texts;
use sig_base::{Entries, SigningScheme};
use sig_cases::{Answer, Arguments};
use sig_constraint::{
    AnnotationVerifier, CertificateVerifier, PublicKeyVerifier, VerificationConstraint,
};

/// `annotation LAYER NAME TEXT NAME TEXT ..`: whether the layer has the annotations.
pub(crate) fn annotation(arguments: &mut Arguments<'_>, answer: &mut Answer) {
    let Some(layer) = layer(arguments, answer) else {
        return;
    };
    let annotations = texts(arguments, answer);
    let verifier = AnnotationVerifier { annotations };
    show_verdict(answer, verifier.verify(arguments.alloc(), &layer));
    drop(verifier);
    drop(layer);
}

/// `key LAYER SPKI ROWS`: whether the layer is signed by the key of the SPKI.
pub(crate) fn key(arguments: &mut Arguments<'_>, answer: &mut Answer) {
    let Some(layer) = layer(arguments, answer) else {
        return;
    };
    let der = arguments.hex();
    let alloc = arguments.alloc();
    match PublicKeyVerifier::try_from_der(alloc, &der, arguments.checker()) {
        Ok(verifier) => {
            show_verdict(answer, verifier.verify(alloc, &layer));
            drop(verifier);
        }
        Err(error) => answer.error(error),
    }
    drop(layer);
}

/// `scheme LAYER SCHEME DER ROWS`: whether the layer is signed by the key of this scheme.
pub(crate) fn scheme(arguments: &mut Arguments<'_>, answer: &mut Answer) {
    let Some(layer) = layer(arguments, answer) else {
        return;
    };
    let scheme = scheme_of(arguments);
    let der = arguments.hex();
    let alloc = arguments.alloc();
    match PublicKeyVerifier::new(alloc, &der, &scheme, arguments.checker()) {
        Ok(verifier) => {
            show_verdict(answer, verifier.verify(alloc, &layer));
            drop(verifier);
        }
        Err(error) => answer.error(error),
    }
    drop(layer);
}

/// The scheme of the name that is the next argument.
fn scheme_of(arguments: &mut Arguments<'_>) -> SigningScheme {
    match SigningScheme::try_from(arguments.word()) {
        Ok(scheme) => scheme,
        Err(_) => {
            arguments.refuse();
            SigningScheme::default()
        }
    }
}

/// `certificate LAYER DER REQUIRED CHAIN NOW ROWS`: whether the layer is signed by the certificate's key. `REQUIRED` is
/// `true` or `false`; `CHAIN` is `none`, or a list of DERs in hexadecimal.
pub(crate) fn certificate(arguments: &mut Arguments<'_>, answer: &mut Answer) {
    let Some(layer) = layer(arguments, answer) else {
        return;
    };
    let der = arguments.hex();
    let required = truth(arguments);
    let chain = chain(arguments);
    let now = arguments.integer();
    let alloc = arguments.alloc();
    match CertificateVerifier::from_der(
        alloc,
        &der,
        required,
        chain.as_ref(),
        now,
        arguments.checker(),
    ) {
        Ok(verifier) => {
            show_verdict(answer, verifier.verify(alloc, &layer));
            drop(verifier);
        }
        Err(error) => answer.error(error),
    }
    drop(chain);
    drop(layer);
}

fn truth(arguments: &mut Arguments<'_>) -> bool {
    match arguments.word() {
        "true" => true,
        "false" => false,
        _ => {
            arguments.refuse();
            false
        }
    }
}

/// The next two arguments as a chain: `none`, or `chain` and the list.
fn chain(arguments: &mut Arguments<'_>) -> Option<Entries> {
    match arguments.word() {
        "none" => None,
        "chain" => Some(arguments.entries()),
        _ => {
            arguments.refuse();
            None
        }
    }
}
