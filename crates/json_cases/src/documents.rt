//! Texts, and the trees that they are.
use sig_cases::{Answer, Arguments};
use sig_json::{Document, DocumentError, Json};
use sig_json_text::{canonical, compact, quoted};
use std::alloc::Global;

/// The document of the next arguments. A text that is none makes the line a bad one.
pub(crate) fn document(arguments: &mut Arguments<'_>, answer: &mut Answer) -> Document {
    let text = bytes(arguments, answer);
    document_of(arguments, &text)
}

/// The bytes of the next arguments: the rest of the line after `json`, or one word in hexadecimal after `hex`.
pub(crate) fn bytes(arguments: &mut Arguments<'_>, answer: &mut Answer) -> Vec<u8> {
    match arguments.word() {
        "json" => copied(arguments.alloc(), answer, arguments.rest()),
        "hex" => arguments.hex(),
        _ => {
            arguments.refuse();
            Vec::new(arguments.alloc())
        }
    }
}

fn copied(alloc: Global, answer: &mut Answer, text: &str) -> Vec<u8> {
    let mut bytes = Vec::new(alloc);
    if bytes.extend_from_slice(text.as_bytes()).is_err() {
        answer.out_of_memory();
    }
    bytes
}

/// The document that a text is. One that is none makes the line a bad one.
pub(crate) fn document_of(arguments: &mut Arguments<'_>, text: &[u8]) -> Document {
    match Document::read(arguments.alloc(), text) {
        Ok(document) => document,
        Err(_) => {
            arguments.refuse();
            Document::list(arguments.alloc())
        }
    }
}

/// `read DOCUMENT`: the compact text of its tree.
pub(crate) fn read(arguments: &mut Arguments<'_>, answer: &mut Answer) {
    let alloc = arguments.alloc();
    let text = bytes(arguments, answer);
    add_read(alloc, answer, Document::read(alloc, &text));
}

/// Adds what was read: the compact text of the tree.
fn add_read(alloc: Global, answer: &mut Answer, read: Result<Document, DocumentError>) {
    match read {
        Ok(document) => {
            answer.ok();
            add_tree(alloc, answer, document.view());
            drop(document);
        }
        Err(error) => answer.error(error),
    }
}

/// Adds the compact text of a tree.
pub(crate) fn add_tree(alloc: Global, answer: &mut Answer, json: Json<'_, '_>) {
    match compact(alloc, json) {
        Ok(text) => answer.value(&text.as_str()),
        Err(_) => answer.out_of_memory(),
    }
}

/// `read_members COUNT NAME.. DOCUMENT`: the compact text of its tree, of an object with its members of these names
/// alone.
pub(crate) fn read_members(arguments: &mut Arguments<'_>, answer: &mut Answer) {
    let alloc = arguments.alloc();
    let names = names(arguments, answer);
    let borrowed = borrowed(alloc, answer, &names);
    let text = bytes(arguments, answer);
    add_read(
        alloc,
        answer,
        Document::read_members(alloc, &text, &borrowed),
    );
}

/// So many names as the next argument says.
pub(crate) fn names(arguments: &mut Arguments<'_>, answer: &mut Answer) -> Vec<String> {
    let mut names = Vec::new(arguments.alloc());
    for _ in 0..arguments.natural() {
        if names.push(arguments.text()).is_err() {
            answer.out_of_memory();
        }
    }
    names
}

pub(crate) fn borrowed<'a>(
    alloc: Global,
    answer: &mut Answer,
    names: &'a [String],
) -> Vec<&'a str> {
    let mut borrowed = Vec::new(alloc);
    for name in names {
        if borrowed.push(name.as_str()).is_err() {
            answer.out_of_memory();
        }
    }
    borrowed
}

/// `read_back DOCUMENT`: whether its compact text is read as an equal tree, and has itself as its compact text.
pub(crate) fn read_back(arguments: &mut Arguments<'_>, answer: &mut Answer) {
    let alloc = arguments.alloc();
    match Document::read(alloc, &bytes(arguments, answer)) {
        Ok(document) => {
            add_back(alloc, answer, &document);
            drop(document);
        }
        Err(error) => answer.error(error),
    }
}

/// Adds whether the compact text of this document is read as it, and has itself as its compact text.
fn add_back(alloc: Global, answer: &mut Answer, document: &Document) {
    match compact(alloc, document.view()) {
        Ok(text) => add_again(alloc, answer, document, text.as_str()),
        Err(_) => answer.out_of_memory(),
    }
}

/// Adds whether a text is read as this document, and has itself as its compact text.
fn add_again(alloc: Global, answer: &mut Answer, document: &Document, text: &str) {
    match Document::read(alloc, text.as_bytes()) {
        Ok(again) => {
            answer.ok();
            answer.value(&(*document == again));
            add_is_text(alloc, answer, again.view(), text);
            drop(again);
        }
        Err(error) => answer.error(error),
    }
}

/// Adds whether this is the compact text of the tree.
fn add_is_text(alloc: Global, answer: &mut Answer, json: Json<'_, '_>, text: &str) {
    match compact(alloc, json) {
        Ok(second) => answer.value(&(second.as_str() == text)),
        Err(_) => answer.out_of_memory(),
    }
}

/// `canonical DOCUMENT`: the canonical text.
pub(crate) fn canonical_text(arguments: &mut Arguments<'_>, answer: &mut Answer) {
    let alloc = arguments.alloc();
    match Document::read(alloc, &bytes(arguments, answer)) {
        Ok(document) => {
            add_canonical(alloc, answer, document.view());
            drop(document);
        }
        Err(error) => answer.error(error),
    }
}

fn add_canonical(alloc: Global, answer: &mut Answer, json: Json<'_, '_>) {
    match canonical(alloc, json) {
        Ok(text) => {
            answer.ok();
            answer.value(&text.as_str());
        }
        Err(error) => answer.error(error),
    }
}

/// `quoted TEXT`: the text in quotation marks.
pub(crate) fn quoted_text(arguments: &mut Arguments<'_>, answer: &mut Answer) {
    answer.ok();
    add_text(arguments.alloc(), answer, arguments.text().as_str());
}

/// Adds a text in quotation marks.
pub(crate) fn add_text(alloc: Global, answer: &mut Answer, text: &str) {
    match quoted(alloc, text) {
        Ok(written) => answer.value(&written.as_str()),
        Err(_) => answer.out_of_memory(),
    }
}
