//! Layers of manifests.

use crate::layers::{descriptor, fetched, show_parts};
use crate::trusted::{keys_if_any, pool_if_any};
use sig_cases::{Answer, Arguments};
use sig_cosign::{ImageLayer, Layers, OciDescriptor, build_signature_layers};
use std::alloc::Global;

/// `build COUNT DESCRIPTOR .. COUNT LAYER .. SOURCE KEYS POOL NOW ROWS`: the layers of the descriptors: how many there
/// are, and each as `unsigned` shows it.
pub(crate) fn build(arguments: &mut Arguments<'_>, answer: &mut Answer) {
    let alloc = arguments.alloc();
    let descriptors = descriptors(arguments, answer);
    let layers = layers(arguments, answer);
    let source = arguments.text();
    let keys = keys_if_any(arguments);
    let pool = pool_if_any(arguments, answer);
    let now = arguments.integer();
    let checker = arguments.checker();
    let made = build_signature_layers(
        alloc,
        descriptors.as_slice(),
        source.as_str(),
        layers.as_slice(),
        keys.as_ref(),
        pool.as_ref(),
        now,
        &checker,
    );
    show(alloc, answer, made);
}

fn descriptors(arguments: &mut Arguments<'_>, answer: &mut Answer) -> Vec<OciDescriptor> {
    let mut descriptors = Vec::new(arguments.alloc());
    let count = arguments.natural();
    for _ in 0..count {
        if arguments.is_empty() {
            break;
        }
        let next = descriptor(arguments, answer);
        if descriptors.push(next).is_err() {
            answer.out_of_memory();
        }
    }
    descriptors
}

fn layers(arguments: &mut Arguments<'_>, answer: &mut Answer) -> Vec<ImageLayer> {
    let mut layers = Vec::new(arguments.alloc());
    let count = arguments.natural();
    for _ in 0..count {
        if arguments.is_empty() {
            break;
        }
        let next = fetched(arguments);
        if layers.push(next).is_err() {
            answer.out_of_memory();
        }
    }
    layers
}

fn show(alloc: Global, answer: &mut Answer, made: sig_base::Result<Layers>) {
    match made {
        Ok(layers) => {
            answer.ok();
            answer.value(&layers.len());
            for layer in layers.as_slice() {
                show_parts(alloc, answer, layer);
            }
            drop(layers);
        }
        Err(error) => answer.error(error),
    }
}
