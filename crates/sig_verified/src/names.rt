//! The names of a certificate.
ghost use Rattle.std.specs.Prelude.{◌≡◌, IfOk};
ghost use Rattle.sig_json.specs.Writing.{members, members_into};
ghost use Rattle.sig_certificate.specs.BorrowedNames.{borrowed_name, names_left};
ghost use Rattle.sig_json.specs.Tree.{document_tree};
ghost use Rattle.sig_verified.specs.Certificate.{name_rows, name_tree, names_tree};

use crate::certificate::utf8_text;
use sig_base::OutOfMemory;
use sig_certificate::{AlternativeNames, GeneralName};
use sig_json::{Document, Object};
use sig_shown::with_some;
use std::alloc::Global;

/// The greatest number of names of a certificate that are shown.
pub const MOST_NAMES: usize = 64;

/// The first [`MOST_NAMES`] names, in order. Fails only if out of memory.
pub(crate) fn names_document(
    alloc: Global,
    names: AlternativeNames<'_>,
) -> Result<Document, OutOfMemory>
    ensures { IfOk result (λ document. document_tree document ≡ names_tree (names_left names.entry)) }
{
    let mut list = Document::list(alloc);
    let mut shown = 0;
    'names: for name in names {
        if shown == MOST_NAMES {
            return Ok(list);
        }
        list.push(name_document(alloc, name)?)?;
        shown += 1;
    }
    Ok(list)
}

#[tactic(auto, unfolding(crate::specs::Certificate::name_tree))]
fn name_document(alloc: Global, name: GeneralName<'_>) -> Result<Document, OutOfMemory>
    ensures { IfOk result (λ document. document_tree document ≡ name_tree (borrowed_name name.entry)) }
{
    let object = with_name(Object::new(alloc), alloc, name)?;
    Ok(object.into_document())
}

/// The object with what a name has.
fn with_name(object: Object, alloc: Global, name: GeneralName<'_>) -> Result<Object, OutOfMemory>
    ensures { IfOk result (λ made. members made
        ≡ members_into (members object) (name_rows (borrowed_name name.entry))) }
{
    match name {
        GeneralName::Email(text) => {
            with_some(object, alloc, "email", "emailLength", utf8_text(text))
        }
        GeneralName::Uri(text) => with_some(object, alloc, "uri", "uriLength", utf8_text(text)),
        GeneralName::Other(kind, value) => {
            let object = object.with_hex(alloc, "otherName", kind)?;
            with_some(object, alloc, "value", "valueLength", utf8_text(value))
        }
        GeneralName::Unread => Ok(object),
    }
}
