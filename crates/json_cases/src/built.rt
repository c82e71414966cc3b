//! Documents that are built from their parts.
ghost use Rattle.std.specs.Prelude.{IsSome};
ghost use Rattle.sig_json.specs.Find.{as_array, as_object};
ghost use Rattle.sig_json.specs.Tree.{document_tree};

use crate::documents::{add_tree, document_of};
use sig_base::OutOfMemory;
use sig_cases::{Answer, Arguments};
use sig_json::Document;
use std::alloc::Global;

/// `object NAME VALUE NAME VALUE ..`: the object in which these members are set in turn.
pub(crate) fn object(arguments: &mut Arguments<'_>, answer: &mut Answer) {
    let alloc = arguments.alloc();
    let mut object = BuiltObject {
        document: Document::object(alloc),
    };
    for _ in 0..u64::MAX {
        if arguments.is_empty() {
            break;
        }
        let name = arguments.text();
        let value = part(arguments, answer);
        if object.set(alloc, name.as_str(), value).is_err() {
            answer.out_of_memory();
        }
    }
    answer.ok();
    add_tree(alloc, answer, object.document.view());
}

/// A document that is an object.
#[derive(Drop)]
struct BuiltObject {
    document: Document,
    ghost is_object: { IsSome (as_object (document_tree document)) },
}

#[tactic(auto, using(sig_json::proofs::StableKinds::staying))]
impl BuiltObject {
    /// Sets this member. Fails only if out of memory.
    fn set(&mut self, alloc: Global, name: &str, value: Document) -> Result<(), OutOfMemory> {
        self.document.insert(alloc, name, value)
    }
}

/// A value of the next two arguments: `integer` and an integer, or `text` or `json` and a text in percent-encoding.
/// One of JSON is a copy of what was read.
fn part(arguments: &mut Arguments<'_>, answer: &mut Answer) -> Document {
    let alloc = arguments.alloc();
    match arguments.word() {
        "integer" => Document::of_integer(arguments.integer()),
        "text" => {
            let text = arguments.text();
            made(alloc, answer, Document::of_text(alloc, text.as_str()))
        }
        "json" => {
            let text = arguments.text();
            let read = document_of(arguments, text.as_bytes());
            made(alloc, answer, read.view().copy(alloc))
        }
        _ => {
            arguments.refuse();
            Document::list(alloc)
        }
    }
}

/// The document that was made.
fn made(alloc: Global, answer: &mut Answer, made: Result<Document, OutOfMemory>) -> Document {
    match made {
        Ok(document) => document,
        Err(_) => {
            answer.out_of_memory();
            Document::list(alloc)
        }
    }
}

/// `list VALUE VALUE ..`: the list to which these values are added in turn.
pub(crate) fn list(arguments: &mut Arguments<'_>, answer: &mut Answer) {
    let alloc = arguments.alloc();
    let mut list = BuiltList {
        document: Document::list(alloc),
    };
    for _ in 0..u64::MAX {
        if arguments.is_empty() {
            break;
        }
        if list.push(part(arguments, answer)).is_err() {
            answer.out_of_memory();
        }
    }
    answer.ok();
    add_tree(alloc, answer, list.document.view());
}

/// A document that is a list.
#[derive(Drop)]
struct BuiltList {
    document: Document,
    ghost is_list: { IsSome (as_array (document_tree document)) },
}

#[tactic(auto, using(sig_json::proofs::StableKinds::staying))]
impl BuiltList {
    /// Adds this value. Fails only if out of memory.
    fn push(&mut self, value: Document) -> Result<(), OutOfMemory> {
        self.document.push(value)
    }
}
