//! Parts of a borrowed document, moved out of it and into memory of their own.
use crate::documents::{add_tree, borrowed, bytes, names};
use sig_cases::{Answer, Arguments};
use sig_json::{BorrowedDocument, Scratch};
use std::alloc::Global;

/// `take NAME DOCUMENT`: the member of this name, moved out of the document; `none` where there is none.
pub(crate) fn take(arguments: &mut Arguments<'_>, answer: &mut Answer) {
    let alloc = arguments.alloc();
    let name = arguments.text();
    let text = bytes(arguments, answer);
    let mut scratch = Scratch::new(alloc);
    match BorrowedDocument::read(alloc, &text, &mut scratch) {
        Ok(document) => {
            answer.ok();
            match document.into_member(name.as_str()) {
                Some(member) => add_owned(alloc, answer, member),
                None => answer.value(&"none"),
            }
        }
        Err(error) => answer.error(error),
    }
}

/// `without COUNT NAME.. DOCUMENT`: the document, of an object without its members of these names.
pub(crate) fn without(arguments: &mut Arguments<'_>, answer: &mut Answer) {
    let alloc = arguments.alloc();
    let names = names(arguments, answer);
    let borrowed = borrowed(alloc, answer, &names);
    let text = bytes(arguments, answer);
    let mut scratch = Scratch::new(alloc);
    match BorrowedDocument::read(alloc, &text, &mut scratch) {
        Ok(document) => {
            answer.ok();
            add_owned(alloc, answer, document.without(&borrowed));
        }
        Err(error) => answer.error(error),
    }
}

/// Adds the compact text of the document that this one becomes.
fn add_owned(alloc: Global, answer: &mut Answer, document: BorrowedDocument<'_>) {
    match document.into_owned(alloc) {
        Ok(owned) => {
            add_tree(alloc, answer, owned.view());
            drop(owned);
        }
        Err(_) => answer.out_of_memory(),
    }
}
