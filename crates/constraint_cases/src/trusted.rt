//! The caller of the library that README.md shows.

use crate::layers::layer;
use sig_base::{TableChecker, TextMap};
use sig_cases::{Answer, Arguments};
use sig_constraint::{
    AnnotationVerifier, PublicKeyVerifier, VerificationConstraintVec, verify_constraints,
};
use sig_cosign::SignatureLayer;
use std::alloc::Global;

/// `trusted LAYER LAYER SPKI NAME TEXT ROWS`: whether one of the two layers is signed by the key of the SPKI and has the
/// annotation.
pub(crate) fn trusted(arguments: &mut Arguments<'_>, answer: &mut Answer) {
    let alloc = arguments.alloc();
    let layers = layers(arguments, answer);
    let key = arguments.hex();
    let annotations = annotation(arguments, answer);
    let checker = arguments.checker();
    match is_trusted(alloc, layers.as_slice(), &key, annotations, checker) {
        Ok(trusted) => {
            answer.ok();
            answer.value(&trusted);
        }
        Err(error) => answer.error(error),
    }
    drop(layers);
}

fn layers(arguments: &mut Arguments<'_>, answer: &mut Answer) -> Vec<SignatureLayer> {
    let mut layers = Vec::new(arguments.alloc());
    for _ in 0..2 {
        if let Some(layer) = layer(arguments, answer)
            && layers.push(layer).is_err()
        {
            answer.out_of_memory();
        }
    }
    layers
}

fn annotation(arguments: &mut Arguments<'_>, answer: &mut Answer) -> TextMap {
    let mut annotations = TextMap::new(arguments.alloc());
    let name = arguments.text();
    let text = arguments.text();
    if annotations.insert(name.as_str(), text.as_str()).is_err() {
        answer.out_of_memory();
    }
    annotations
}

fn is_trusted(
    alloc: Global,
    layers: &[SignatureLayer],
    key: &[u8],
    annotations: TextMap,
    checker: TableChecker,
) -> sig_base::Result<bool> {
    let mut constraints: VerificationConstraintVec = Vec::new(alloc);
    constraints.push(Box::new(alloc, PublicKeyVerifier::try_from_der(alloc, key, checker)?)?)?;
    constraints.push(Box::new(alloc, AnnotationVerifier { annotations })?)?;
    for index in 0..layers.len() {
        if verify_constraints(alloc, &layers[index..index + 1], constraints.as_slice()).is_ok() {
            return Ok(true);
        }
    }
    Ok(false)
}
