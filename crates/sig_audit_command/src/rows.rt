//! The list of the signatures of a request's heads.
ghost use Rattle.std.specs.Prelude.{◌≡◌, ◌++◌, ◌<◌, IfOk, IsSome, List};
ghost use Rattle.sig_audit_command.specs.Questions.{HasAdded, audit_rows, head_row, note_rows};
ghost use Rattle.sig_base.specs.declared.checker.AcceptedRow.{AcceptedRow as row_type};
ghost use Rattle.sig_json.specs.Find.{as_array};
ghost use Rattle.sig_json.specs.Tree.{document_tree};
ghost use Rattle.sig_rekor.specs.NoteText.{note_text};
ghost use Rattle.sig_reply.specs.RowsText.{AddsRow, IsDocumentOf, IsListOf, IsRowReadBack};

use sig_audit::AuditHead;
use sig_base::{OutOfMemory, Text};
use sig_json::Document;
use sig_json_text::compact;
use sig_rekor::{CheckpointSignature, SignedCheckpoint};
use sig_reply::{add_row, note_row};
use sig_request::AuditRequest;
use std::alloc::Global;

/// The document of the signatures of the heads, `None` if it would have more than `most` bytes. Fails only if out of
/// memory.
pub fn heads_document(
    alloc: Global,
    request: &AuditRequest,
    heads: &[AuditHead],
    most: usize,
) -> Result<Option<Text>, OutOfMemory>
    ensures { IfOk result (IsDocumentOf most (audit_rows request.now heads.now)) }
{
    // A list has two brackets.
    if most < 2 {
        return Ok(None);
    }
    let mut list = Document::list(alloc);
    let mut size = 0;
    'heads: for head in heads {
        let Some(sum) = add_head(alloc, &mut list, size, most, request, &head.checkpoint)? else {
            drop(list);
            return Ok(None);
        };
        size = sum;
    }
    let text = compact(alloc, list.view());
    drop(list);
    Ok(Some(text?))
}

/// Adds the signatures of a checkpoint at the end of a list that takes `size` bytes except for its closing bracket, and
/// returns what it then takes; `None` if the document would have more than `most` bytes. Fails only if out of memory.
fn add_head(
    alloc: Global,
    list: &mut Document,
    size: usize,
    most: usize,
    request: &AuditRequest,
    checkpoint: &SignedCheckpoint,
) -> Result<Option<usize>, OutOfMemory>
    requires list { IsSome (as_array (document_tree list.old)) }
    requires room { size < most }
    ensures { (rows : List row_type) → IsListOf most rows (document_tree list.old) size
        → IfOk result (HasAdded most (rows ++ note_rows request.now checkpoint.now) (document_tree list.new)) }
{
    let note = checkpoint.note.marshal(alloc)?;
    let sum = add_note(alloc, list, size, most, request, checkpoint, &note);
    drop(note);
    sum
}

/// The same for a checkpoint whose note has this text.
fn add_note(
    alloc: Global,
    list: &mut Document,
    size: usize,
    most: usize,
    request: &AuditRequest,
    checkpoint: &SignedCheckpoint,
    note: &Text,
) -> Result<Option<usize>, OutOfMemory>
    requires list { IsSome (as_array (document_tree list.old)) }
    requires room { size < most }
    requires note { note.now ≡ note_text checkpoint.now.note }
    ensures { (rows : List row_type) → IsListOf most rows (document_tree list.old) size
        → IfOk result (HasAdded most (rows ++ note_rows request.now checkpoint.now) (document_tree list.new)) }
{
    let mut taken = size;
    'signatures: for signature in checkpoint.signatures.as_slice() {
        let Some(sum) = add_signature(
            alloc, list, taken, most, request, checkpoint, note, signature,
        )?
        else {
            return Ok(None);
        };
        taken = sum;
    }
    Ok(Some(taken))
}

/// Adds a signature over the checkpoint's note, whose text this is, at the end of a list, as `add_row`.
fn add_signature(
    alloc: Global,
    list: &mut Document,
    size: usize,
    most: usize,
    request: &AuditRequest,
    checkpoint: &SignedCheckpoint,
    note: &Text,
    signature: &CheckpointSignature,
) -> Result<Option<usize>, OutOfMemory>
    requires list { IsSome (as_array (document_tree list.old)) }
    requires room { size < most }
    requires note { note.now ≡ note_text checkpoint.now.note }
    ensures added { IfOk result (AddsRow most (document_tree list.old) (document_tree list.new) size
        (head_row request.now checkpoint.now signature.now)) }
    ensures back { IfOk result (λ _. IsRowReadBack (head_row request.now checkpoint.now signature.now)) }
{
    let row = note_row(
        alloc,
        request.scheme.scheme(),
        request.key.as_slice(),
        note.as_str(),
        signature.raw.as_slice(),
    )?;
    let sum = add_row(alloc, list, size, most, &row);
    drop(row);
    sum
}
