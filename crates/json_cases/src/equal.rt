//! Equality.
use crate::documents::document_of;
use sig_cases::{Answer, Arguments};
use sig_json::Document;

/// A document beside a number: its equality is derived from those of the two.
#[derive(Drop, PartialEq, Eq)]
struct Numbered {
    number: u64,
    document: Document,
}

/// `equal JSON JSON`, each in percent-encoding: whether the trees are equal, by views, by documents, and by what is
/// derived of documents.
pub(crate) fn equal(arguments: &mut Arguments<'_>, answer: &mut Answer) {
    let one = read_numbered(arguments);
    let other = read_numbered(arguments);
    answer.ok();
    answer.value(&one.document.view().equals(other.document.view()));
    answer.value(&(one.document == other.document));
    answer.value(&(one == other));
    drop(one);
    drop(other);
}

fn read_numbered(arguments: &mut Arguments<'_>) -> Numbered {
    let text = arguments.text();
    Numbered {
        number: 1,
        document: document_of(arguments, text.as_bytes()),
    }
}
