//! The document that `questions` writes: a list of signatures, in the form of a request's `accepted`.
//!
//! ```text
//! [{"key":"a2V5","message":"bG9n..YPQo=","operation":"message","scheme":"ED25519","signature":"c2ln"}]
//! ```
ghost use Rattle.std.specs.Prelude.{◌≡◌, ◌<◌, ◌≤◌, All, IfOk, IsSome, codes, length};
ghost use Rattle.sig_json.specs.Find.{as_array};
ghost use Rattle.sig_json.specs.Tree.{document_tree};
ghost use Rattle.sig_json.specs.Writing.{members, put_some};
ghost use Rattle.sig_json.specs.Written.{compact_text};
ghost use Rattle.sig_reply.specs.RowsText.{AddsRow, HasScheme, IsDocumentOf, IsRowReadBack, IsSchemeName, IsSchemeRead, IsSchemeUnder};
ghost use Rattle.sig_reply.specs.RowsText.{accepted_name, operation_word, room_beside, row_tree, scheme_tree};

use sig_base::{AcceptedRow, Bytes, Operation, OutOfMemory, Text};
use sig_json::{Document, Object};
use sig_json_text::compact;
use sig_request::MOST_BYTES;
use std::alloc::Global;

/// What a request has before its list of accepted signatures, where that is its last member.
const ACCEPTED_NAME: &str = ",\"accepted\":";

/// How many bytes a list may have so that it fits beside the text of a request: the two and `,"accepted":` have together
/// at most 2^24 bytes. It is 0 if there is no room, since a list has two brackets.
pub fn room_beside(request: &[u8]) -> usize
    ensures { result ≡ room_beside request.now }
{
    (MOST_BYTES - ACCEPTED_NAME.len()).saturating_sub(request.len())
}

/// Adds a signature at the end of a list that takes `size` bytes except for its closing bracket, and returns what it
/// then takes; `None` if the document would have more than `most` bytes. Fails only if out of memory.
pub fn add_row(
    alloc: Global,
    list: &mut Document,
    size: usize,
    most: usize,
    row: &AcceptedRow,
) -> Result<Option<usize>, OutOfMemory>
    requires list { IsSome (as_array (document_tree list.old)) }
    requires room { size < most }
    requires scheme { IsSchemeUnder row.now.operation row.now.scheme }
    ensures added { IfOk result (AddsRow most (document_tree list.old) (document_tree list.new) size row.now) }
    ensures back { IfOk result (λ _. IsRowReadBack row.now) }
{
    let document = row_document(alloc, row)?;
    let count = compact_len(alloc, &document)?;
    // With the comma or the bracket before it.
    if count >= most - 1 - size {
        drop(document);
        return Ok(None);
    }
    list.push(document)?;
    Ok(Some(size + 1 + count))
}

/// A signature as an object, which is read back as an element of `accepted`. Fails only if out of memory.
#[tactic(auto, using(crate::proofs::RowsTexts::row_back), unfolding(crate::specs::RowsText::row_tree))]
fn row_document(alloc: Global, row: &AcceptedRow) -> Result<Document, OutOfMemory>
    requires { IsSchemeUnder row.now.operation row.now.scheme }
    ensures tree { IfOk result (λ document. document_tree document ≡ row_tree row.now) }
    ensures back { IfOk result (λ _. IsRowReadBack row.now) }
{
    let object = Object::new(alloc).with_text(alloc, "operation", operation_word(row.operation))?;
    let object = with_scheme(object, alloc, row)?
        .with_bytes(alloc, "key", row.key.as_slice())?
        .with_bytes(alloc, "message", row.message.as_slice())?
        .with_bytes(alloc, "signature", row.signature.as_slice())?;
    Ok(object.into_document())
}

/// The name of an operation in a row.
fn operation_word(operation: Operation) -> &'static str
    ensures { result.now ≡ operation_word operation }
{
    match operation {
        Operation::Message => "message",
        Operation::Prehash => "prehash",
        Operation::Point => "point",
        Operation::Certificate => "certificate",
    }
}

/// The object with the scheme of a row: a scheme's name for a message and for a digest, absent for a point, and base64
/// of the AlgorithmIdentifier for a certificate. Fails only if out of memory.
fn with_scheme(object: Object, alloc: Global, row: &AcceptedRow) -> Result<Object, OutOfMemory>
    requires { IsSchemeUnder row.now.operation row.now.scheme }
    ensures tree { IfOk result (λ made. members made
        ≡ put_some (codes "scheme") (scheme_tree row.now.operation row.now.scheme) (members object)) }
    ensures back { IfOk result (λ _. IsSchemeRead row.now.operation row.now.scheme) }
{
    match row.operation {
        Operation::Message | Operation::Prehash => {
            object.with_text(alloc, "scheme", scheme_name(&row.scheme))
        }
        Operation::Point => Ok(object),
        Operation::Certificate => object.with_bytes(alloc, "scheme", row.scheme.as_slice()),
    }
}

/// The name of a scheme, from its bytes.
fn scheme_name(scheme: &Bytes) -> &str
    requires { IsSchemeName scheme.now }
    ensures { result.now ≡ scheme.now }
{
    let Ok(name) = std::str::from_utf8(scheme.as_slice()) else {
        // A scheme's name is a text.
        unreachable!()
    };
    name
}

/// How many bytes a document has as text. Fails only if out of memory.
fn compact_len(alloc: Global, document: &Document) -> Result<usize, OutOfMemory>
    ensures { IfOk result (λ count. count ≡ length (compact_text (document_tree document.now))) }
{
    let text = compact(alloc, document.view())?;
    Ok(text.as_str().len())
}

/// The document of a list of signatures, `None` if it would have more than `most` bytes. Fails only if out of memory.
pub fn rows_document(
    alloc: Global,
    rows: &[AcceptedRow],
    most: usize,
) -> Result<Option<Text>, OutOfMemory>
    requires { All HasScheme rows.now }
    ensures { IfOk result (IsDocumentOf most rows.now) }
{
    // A list has two brackets.
    if most < 2 {
        return Ok(None);
    }
    let mut list = Document::list(alloc);
    let mut size = 0;
    'rows: for row in rows {
        let Some(sum) = add_row(alloc, &mut list, size, most, row)? else {
            drop(list);
            return Ok(None);
        };
        size = sum;
    }
    let text = compact(alloc, list.view());
    drop(list);
    Ok(Some(text?))
}
