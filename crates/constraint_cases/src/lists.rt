//! Lists of layers and of boxed constraints.

use crate::layers::{layer, show, text, text_of};
use crate::own::Own;
use sig_base::{Bytes, TextMap};
use sig_cases::{Answer, Arguments};
use sig_constraint::{
    AnnotationMarker, CertSubjectUrlVerifier, Constraint, SignConstraintVec,
    SigstoreApplicationConstraintsError, SigstoreVerifyConstraintsError, VerificationConstraint,
    VerificationConstraintVec, apply_constraints, verify_constraints,
};
use sig_cosign::{SignatureLayer, SimpleSigning};
use std::alloc::Global;

/// `verify SIGNATURES CONSTRAINTS`: whether layers with these signatures satisfy constraints of this program.
pub(crate) fn verify(arguments: &mut Arguments<'_>, answer: &mut Answer) {
    let alloc = arguments.alloc();
    let layers = layers(arguments, answer);
    let mut constraints: VerificationConstraintVec = Vec::new(alloc);
    let word = arguments.word();
    if word != "-" {
        for item in word.split(',') {
            let constraint = own(arguments, item);
            if let Some(held) = boxed(alloc, answer, constraint) {
                push_verifier(&mut constraints, held, answer);
            }
        }
    }
    show_verified(
        answer,
        verify_constraints(alloc, layers.as_slice(), constraints.as_slice()),
    );
    drop(constraints);
    drop(layers);
}

/// The layers with the signatures of a list; `-` is the empty one. `+` before a number N is N times `x`.
fn layers(arguments: &mut Arguments<'_>, answer: &mut Answer) -> Vec<SignatureLayer> {
    let alloc = arguments.alloc();
    let mut layers = Vec::new(alloc);
    let word = arguments.word();
    if word != "-" {
        for signature in word.split(',') {
            if let Some(layer) = signed(arguments, signature) {
                push(&mut layers, layer, answer);
            }
        }
    }
    layers
}

/// A layer with this signature. `None` if out of memory.
fn signed(arguments: &mut Arguments<'_>, signature: &str) -> Option<SignatureLayer> {
    match SimpleSigning::new(arguments.alloc(), "image", "sha256:00") {
        Ok(simple_signing) => Some(SignatureLayer {
            simple_signing,
            oci_digest: text_of(arguments, "sha256:00"),
            certificate_signature: None,
            bundle: None,
            signature: Some(text_of(arguments, signature)),
            raw_data: Bytes::from(Vec::new(arguments.alloc())),
        }),
        Err(error) => {
            drop(error);
            arguments.refuse();
            None
        }
    }
}

fn push<T: Drop>(list: &mut Vec<T>, item: T, answer: &mut Answer) {
    if list.push(item).is_err() {
        answer.out_of_memory();
    }
}

/// The constraint of this program that a word names: `always`, `never`, `fails` or `=SIGNATURE`.
fn own(arguments: &mut Arguments<'_>, word: &str) -> Own {
    match word {
        "always" => Own::Always,
        "never" => Own::Never,
        "fails" => Own::Fails,
        _ => match word.strip_prefix("=") {
            Some(signature) => Own::Signed(text_of(arguments, signature)),
            None => {
                arguments.refuse();
                Own::Never
            }
        },
    }
}

/// The constraint in a box. `None` if out of memory.
fn boxed<T: Drop>(alloc: Global, answer: &mut Answer, constraint: T) -> Option<Box<T>> {
    match Box::new(alloc, constraint) {
        Ok(held) => Some(held),
        Err(_) => {
            answer.out_of_memory();
            None
        }
    }
}

fn push_verifier(
    list: &mut VerificationConstraintVec,
    held: Box<dyn VerificationConstraint>,
    answer: &mut Answer,
) {
    if list.push(held).is_err() {
        answer.out_of_memory();
    }
}

fn show_verified(answer: &mut Answer, verdict: Result<(), SigstoreVerifyConstraintsError>) {
    match verdict {
        Ok(()) => answer.ok(),
        Err(error) => answer.error(error),
    }
}

/// `urls LAYER URL ISSUER URL ISSUER ..`: whether the layer satisfies the verifiers of these URIs.
pub(crate) fn urls(arguments: &mut Arguments<'_>, answer: &mut Answer) {
    let alloc = arguments.alloc();
    let Some(layer) = layer(arguments, answer) else {
        return;
    };
    let mut layers = Vec::new(alloc);
    push(&mut layers, layer, answer);
    let mut constraints: VerificationConstraintVec = Vec::new(alloc);
    for _ in 0..u64::MAX {
        if arguments.is_empty() {
            break;
        }
        let url = text(arguments);
        let issuer = text(arguments);
        if let Some(held) = boxed(alloc, answer, CertSubjectUrlVerifier { url, issuer }) {
            push_verifier(&mut constraints, held, answer);
        }
    }
    show_verified(
        answer,
        verify_constraints(alloc, layers.as_slice(), constraints.as_slice()),
    );
    drop(constraints);
    drop(layers);
}

/// `apply LAYER CONSTRAINTS`: the result of applying constraints, out of memory too, and the layer afterwards. A
/// constraint is one of this program, or `NAME:TEXT`, a marker of one annotation.
pub(crate) fn apply(arguments: &mut Arguments<'_>, answer: &mut Answer) {
    let alloc = arguments.alloc();
    let Some(mut layer) = layer(arguments, answer) else {
        return;
    };
    let mut constraints: SignConstraintVec = Vec::new(alloc);
    let word = arguments.word();
    if word != "-" {
        for item in word.split(',') {
            match item.split_once(':') {
                Some((name, text)) => {
                    let marker = marker(alloc, answer, name, text);
                    if let Some(held) = boxed(alloc, answer, marker) {
                        push_constraint(&mut constraints, held, answer);
                    }
                }
                None => {
                    let constraint = own(arguments, item);
                    if let Some(held) = boxed(alloc, answer, constraint) {
                        push_constraint(&mut constraints, held, answer);
                    }
                }
            }
        }
    }
    show_applied(
        answer,
        apply_constraints(alloc, &mut layer, constraints.as_slice()),
    );
    show(alloc, answer, &layer);
    drop(constraints);
    drop(layer);
}

fn marker(alloc: Global, answer: &mut Answer, name: &str, text: &str) -> AnnotationMarker {
    let mut annotations = TextMap::new(alloc);
    if annotations.insert(name, text).is_err() {
        answer.out_of_memory();
    }
    AnnotationMarker::new(annotations)
}

fn push_constraint(list: &mut SignConstraintVec, held: Box<dyn Constraint>, answer: &mut Answer) {
    if list.push(held).is_err() {
        answer.out_of_memory();
    }
}

fn show_applied(answer: &mut Answer, verdict: Result<(), SigstoreApplicationConstraintsError>) {
    match verdict {
        Ok(()) => answer.ok(),
        Err(error) => {
            answer.shown(&error);
            drop(error);
        }
    }
}
