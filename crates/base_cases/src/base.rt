//! Calls of sig_base on bytes, texts and schemes.

use sig_base::{Bytes, OutOfMemory, RootHex, SigningScheme, Text, sha256};
use sig_cases::{Answer, Arguments};
use std::alloc::Global;

/// `sha256 BYTES`: the digest.
pub(crate) fn digest(arguments: &mut Arguments<'_>, answer: &mut Answer) {
    answer.ok();
    answer.hex(&sha256(&arguments.hex()));
}

/// `of_base64 TEXT`: a copy of the bytes of a text in base64; `None` if it is not base64.
pub(crate) fn of_base64(arguments: &mut Arguments<'_>, answer: &mut Answer) {
    let alloc = arguments.alloc();
    match Bytes::of_base64(alloc, &arguments.hex()) {
        Ok(Some(bytes)) => add_copied(answer, bytes.copy(alloc)),
        Ok(None) => answer.value(&"None"),
        Err(_) => answer.out_of_memory(),
    }
}

fn add_copied(answer: &mut Answer, copied: Result<Bytes, OutOfMemory>) {
    match copied {
        Ok(copied) => {
            answer.ok();
            answer.hex(copied.as_slice());
        }
        Err(_) => answer.out_of_memory(),
    }
}

/// `in_base64 BYTES`: a copy of the text in base64 of the bytes.
pub(crate) fn in_base64(arguments: &mut Arguments<'_>, answer: &mut Answer) {
    let alloc = arguments.alloc();
    match Text::in_base64(alloc, &arguments.hex()) {
        Ok(text) => add_copied_text(answer, text.copy(alloc)),
        Err(_) => answer.out_of_memory(),
    }
}

fn add_copied_text(answer: &mut Answer, copied: Result<Text, OutOfMemory>) {
    match copied {
        Ok(copied) => {
            answer.ok();
            answer.debug(&copied.as_str());
        }
        Err(_) => answer.out_of_memory(),
    }
}

/// `root_hex ROOT`: the root as an error shows it.
pub(crate) fn root_hex(arguments: &mut Arguments<'_>, answer: &mut Answer) {
    let root = arguments.digest();
    answer.ok();
    answer.value(&RootHex { root });
}

/// `scheme NAME`: the scheme that the text names.
pub(crate) fn scheme(arguments: &mut Arguments<'_>, answer: &mut Answer) {
    match SigningScheme::try_from(arguments.text().as_str()) {
        Ok(scheme) => {
            answer.ok();
            answer.debug(&scheme);
            answer.value(&scheme);
        }
        Err(error) => answer.error(error),
    }
}

/// `equal ONE OTHER`: whether two texts are equal, as `Text` and as `Bytes`.
pub(crate) fn equal(arguments: &mut Arguments<'_>, answer: &mut Answer) {
    let alloc = arguments.alloc();
    let one = Text::from(arguments.text());
    let other = Text::from(arguments.text());
    answer.ok();
    answer.value(&(one == other));
    let one = bytes_of(alloc, answer, &one);
    let other = bytes_of(alloc, answer, &other);
    answer.value(&(one == other));
}

fn bytes_of(alloc: Global, answer: &mut Answer, text: &Text) -> Bytes {
    match Bytes::copy_of(alloc, text.as_str().as_bytes()) {
        Ok(bytes) => bytes,
        Err(_) => {
            answer.out_of_memory();
            Bytes::from(Vec::new(alloc))
        }
    }
}
