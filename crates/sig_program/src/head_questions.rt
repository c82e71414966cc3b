//! What `questions log` and `questions consistency` share: the signatures that the checkpoint of a request's tree head has.
ghost use Rattle.std.specs.Prelude.{◌≡◌, ◌<◌, IfOk, IsSome};
ghost use Rattle.sig_json.specs.Find.{as_array};
ghost use Rattle.sig_json.specs.Tree.{document_tree};
ghost use Rattle.sig_program.specs.Head.{head_row};
ghost use Rattle.sig_program.specs.HeadQuestions.{IsCheckpointOf, head_rows};
ghost use Rattle.sig_program.specs.Reply.{IsHeadListing};
ghost use Rattle.sig_reply.specs.Reply.{IsListingOf};
ghost use Rattle.sig_reply.specs.RowsText.{AddsRow, IsDocumentOf, IsRowReadBack};
ghost use Rattle.sig_rekor.specs.NoteText.{note_text};

use crate::reply::refused;
use sig_base::{OutOfMemory, Text};
use sig_json::Document;
use sig_json_text::compact;
use sig_rekor::{CheckpointSignature, ParseCheckpointError, SignedNote};
use sig_reply::{Reply, add_row, note_row, room_beside};
use sig_request::ClaimedHead;
use sig_verify::Link;
use std::alloc::Global;

/// Returns the reply to a request of this text with this tree head: the list of the signatures of its checkpoint, or
/// `refused checkpoint` if it has no reading, and `refused request` if the list does not fit beside the text. Fails only
/// if out of memory.
pub fn head_listing(alloc: Global, text: &[u8], head: &ClaimedHead) -> Result<Reply, OutOfMemory>
    ensures { IfOk result (IsHeadListing text.now head.now) }
{
    let Some(checkpoint) = head_checkpoint(alloc, head)? else {
        return refused(alloc, Link::Checkpoint);
    };
    let reply = listing_reply(alloc, text, head, &checkpoint);
    drop(checkpoint);
    reply
}

/// The checkpoint of a tree head; `None` if and only if its text is not a checkpoint.
fn head_checkpoint(alloc: Global, head: &ClaimedHead) -> Result<Option<SignedNote<'_>>, OutOfMemory>
    ensures { IfOk result (IsCheckpointOf head.now) }
{
    match SignedNote::decode(alloc, head.checkpoint.as_str()) {
        Ok(checkpoint) => Ok(Some(checkpoint)),
        Err(ParseCheckpointError::DecodeError(_)) => Ok(None),
        Err(ParseCheckpointError::OutOfMemory) => Err(OutOfMemory),
    }
}

/// The reply to a request of this text with this checkpoint.
fn listing_reply(
    alloc: Global,
    text: &[u8],
    head: &ClaimedHead,
    checkpoint: &SignedNote<'_>,
) -> Result<Reply, OutOfMemory>
    ensures { IfOk result (IsListingOf text.now (head_rows head.now checkpoint.now)) }
{
    match note_document(alloc, head, checkpoint, room_beside(text))? {
        Some(document) => Reply::listed(alloc, &document),
        None => refused(alloc, Link::Request),
    }
}

/// The document of the signatures of the checkpoint, `None` if it would have more than `most` bytes.
fn note_document(
    alloc: Global,
    head: &ClaimedHead,
    checkpoint: &SignedNote<'_>,
    most: usize,
) -> Result<Option<Text>, OutOfMemory>
    ensures { IfOk result (IsDocumentOf most (head_rows head.now checkpoint.now)) }
{
    let note = checkpoint.marshal(alloc)?;
    let document = rows_of_note(alloc, head, checkpoint, &note, most);
    drop(note);
    document
}

/// The document of the signatures of the checkpoint, whose note has this text, as `note_document`.
fn rows_of_note(
    alloc: Global,
    head: &ClaimedHead,
    checkpoint: &SignedNote<'_>,
    note: &Text,
    most: usize,
) -> Result<Option<Text>, OutOfMemory>
    requires { note.now ≡ note_text checkpoint.now.note }
    ensures { IfOk result (IsDocumentOf most (head_rows head.now checkpoint.now)) }
{
    // A list has two brackets.
    if most < 2 {
        return Ok(None);
    }
    let mut list = Document::list(alloc);
    let mut size = 0;
    'signatures: for signature in checkpoint.signatures() {
        let Some(sum) = add_signature(
            alloc, &mut list, size, most, head, checkpoint, note, signature,
        )?
        else {
            drop(list);
            return Ok(None);
        };
        size = sum;
    }
    let text = compact(alloc, list.view());
    drop(list);
    Ok(Some(text?))
}

/// Adds a signature over the checkpoint's note, whose text this is, at the end of a list, as `add_row`.
fn add_signature(
    alloc: Global,
    list: &mut Document,
    size: usize,
    most: usize,
    head: &ClaimedHead,
    checkpoint: &SignedNote<'_>,
    note: &Text,
    signature: &CheckpointSignature,
) -> Result<Option<usize>, OutOfMemory>
    requires list { IsSome (as_array (document_tree list.old)) }
    requires room { size < most }
    requires note { note.now ≡ note_text checkpoint.now.note }
    ensures added { IfOk result (AddsRow most (document_tree list.old) (document_tree list.new) size
        (head_row head.now checkpoint.now signature.now)) }
    ensures back { IfOk result (λ _. IsRowReadBack (head_row head.now checkpoint.now signature.now)) }
{
    let row = note_row(
        alloc,
        head.scheme.scheme(),
        head.key.as_slice(),
        note.as_str(),
        signature.raw.as_slice(),
    )?;
    let sum = add_row(alloc, list, size, most, &row);
    drop(row);
    sum
}
