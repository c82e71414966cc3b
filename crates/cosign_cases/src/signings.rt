//! Payloads, and the annotations in them.

use sig_base::{Text, TextMap};
use sig_cases::{Answer, Arguments};
use sig_json::Document;
use sig_json_text::compact;
use sig_payload::{Optional, SimpleSigning, read_signing};
use std::alloc::Global;

/// `signing TEXT`: the reference, the digest and the type of the payload, and its annotations.
pub(crate) fn read(arguments: &mut Arguments<'_>, answer: &mut Answer) {
    let alloc = arguments.alloc();
    match read_signing(alloc, arguments.text().as_str().as_bytes()) {
        Ok(signing) => {
            show(alloc, answer, &signing);
            drop(signing);
        }
        Err(error) => answer.error(error),
    }
}

/// `shown_signing TEXT`: the text that the payload is shown as.
pub(crate) fn shown(arguments: &mut Arguments<'_>, answer: &mut Answer) {
    let alloc = arguments.alloc();
    match read_signing(alloc, arguments.text().as_str().as_bytes()) {
        Ok(signing) => {
            match signing.to_string(alloc) {
                Ok(text) => {
                    answer.ok();
                    answer.debug(&text);
                }
                Err(_) => answer.out_of_memory(),
            }
            drop(signing);
        }
        Err(error) => answer.error(error),
    }
}

/// `new_signing REFERENCE DIGEST`: the payload that is made of both.
pub(crate) fn made(arguments: &mut Arguments<'_>, answer: &mut Answer) {
    let alloc = arguments.alloc();
    let reference = arguments.text();
    let digest = arguments.text();
    match SimpleSigning::new(alloc, reference.as_str(), digest.as_str()) {
        Ok(signing) => {
            show(alloc, answer, &signing);
            drop(signing);
        }
        Err(error) => answer.error(error),
    }
}

/// `manifest DIGEST TEXT`: whether the payload is of the image of this digest.
pub(crate) fn manifest(arguments: &mut Arguments<'_>, answer: &mut Answer) {
    let digest = arguments.text();
    match read_signing(arguments.alloc(), arguments.text().as_str().as_bytes()) {
        Ok(signing) => {
            answer.ok();
            answer.value(&signing.satisfies_manifest_digest(digest.as_str()));
            drop(signing);
        }
        Err(error) => answer.error(error),
    }
}

/// `annotations TEXT NAME VALUE NAME VALUE ..`: whether the payload has these annotations, and whether its `optional`
/// has them.
pub(crate) fn annotations(arguments: &mut Arguments<'_>, answer: &mut Answer) {
    let text = arguments.text();
    let asked = asked(arguments, answer);
    match read_signing(arguments.alloc(), text.as_str().as_bytes()) {
        Ok(signing) => {
            answer.ok();
            answer.value(&signing.satisfies_annotations(&asked));
            show_satisfied(answer, &signing.optional, &asked);
            drop(signing);
        }
        Err(error) => answer.error(error),
    }
    drop(asked);
}

/// The arguments to their end as names with their texts.
fn asked(arguments: &mut Arguments<'_>, answer: &mut Answer) -> TextMap {
    let mut asked = TextMap::new(arguments.alloc());
    for _ in 0..u64::MAX {
        if arguments.is_empty() {
            break;
        }
        let name = arguments.text();
        let value = arguments.text();
        if asked.insert(name.as_str(), value.as_str()).is_err() {
            answer.out_of_memory();
        }
    }
    asked
}

fn show_satisfied(answer: &mut Answer, optional: &Option<Optional>, asked: &TextMap) {
    match optional {
        Some(optional) => answer.value(&optional.satisfies_annotations(asked)),
        None => answer.value(&"-"),
    }
}

fn show(alloc: Global, answer: &mut Answer, signing: &SimpleSigning) {
    answer.ok();
    show_signing(alloc, answer, signing);
}

/// Reference, digest and type of a payload, and its annotations.
pub(crate) fn show_signing(alloc: Global, answer: &mut Answer, signing: &SimpleSigning) {
    answer.debug(&signing.critical.identity.docker_reference);
    answer.debug(&signing.critical.image.docker_manifest_digest);
    answer.debug(&signing.critical.type_name);
    match &signing.optional {
        Some(optional) => show_optional(alloc, answer, optional),
        None => answer.value(&"-"),
    }
}

fn show_optional(alloc: Global, answer: &mut Answer, optional: &Optional) {
    show_creator(answer, &optional.creator);
    match optional.timestamp {
        Some(timestamp) => answer.value(&timestamp),
        None => answer.value(&"-"),
    }
    show_document(alloc, answer, &optional.extra);
}

fn show_creator(answer: &mut Answer, creator: &Option<Text>) {
    match creator {
        Some(creator) => answer.debug(creator),
        None => answer.value(&"-"),
    }
}

fn show_document(alloc: Global, answer: &mut Answer, document: &Document) {
    match compact(alloc, document.view()) {
        Ok(text) => answer.value(&text.as_str()),
        Err(_) => answer.out_of_memory(),
    }
}
