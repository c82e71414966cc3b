//! The marker of annotations.

use crate::layers::{layer, show};
use crate::rows::texts;
use sig_cases::{Answer, Arguments};
use sig_constraint::{AnnotationMarker, AnnotationVerifier, Constraint, VerificationConstraint};

/// `mark LAYER NAME TEXT NAME TEXT ..`: whether the annotations can be added, the layer's annotations afterwards, and
/// whether it then has these. Out of memory too the layer is shown as it then is.
pub(crate) fn mark(arguments: &mut Arguments<'_>, answer: &mut Answer) {
    let Some(mut layer) = layer(arguments, answer) else {
        return;
    };
    let annotations = texts(arguments, answer);
    let alloc = arguments.alloc();
    let marker = AnnotationMarker::new(annotations);
    match marker.add_constraint(alloc, &mut layer) {
        Ok(applies) => {
            answer.ok();
            answer.value(&applies);
        }
        Err(error) => {
            answer.shown(&error);
            drop(error);
        }
    }
    show(alloc, answer, &layer);
    let verifier = AnnotationVerifier {
        annotations: marker.annotations,
    };
    match verifier.verify(alloc, &layer) {
        Ok(holds) => answer.value(&holds),
        Err(error) => answer.error(error),
    }
    drop(verifier);
    drop(layer);
}

/// `shown LAYER NAME TEXT ..`: whether the annotations can be added, and the text that the payload is then shown as.
pub(crate) fn shown(arguments: &mut Arguments<'_>, answer: &mut Answer) {
    let Some(mut layer) = layer(arguments, answer) else {
        return;
    };
    let alloc = arguments.alloc();
    let marker = AnnotationMarker::new(texts(arguments, answer));
    match marker.add_constraint(alloc, &mut layer) {
        Ok(applies) => {
            answer.ok();
            answer.value(&applies);
        }
        Err(error) => answer.error(error),
    }
    match layer.simple_signing.to_string(alloc) {
        Ok(text) => answer.debug(&text),
        Err(_) => answer.out_of_memory(),
    }
    drop(marker);
    drop(layer);
}
