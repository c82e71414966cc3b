//! The list of the signatures of a request's updates, each once.
ghost use Rattle.std.specs.Prelude.{◌≡◌, ℕ, IfOk, List, Some};
ghost use Rattle.std.specs.Option.{option_map};
ghost use Rattle.sig_base.specs.ByText.{text_lookup};
ghost use Rattle.sig_base.specs.declared.checker.AcceptedRow.{AcceptedRow as row_type};
ghost use Rattle.sig_rekor.specs.NoteText.{note_text};
ghost use Rattle.sig_witness.specs.KeptLogs.{log_key};
ghost use Rattle.sig_witness_command.specs.Questions.{IsNotesDocument, each_once_after, note_rows};
ghost use Rattle.sig_witness_command.specs.RowList.{HasAdded, HasAddedRows, HasAddedText, HasRoom, IsListSoFar, IsSomeList};
ghost use Rattle.sig_witness_command.specs.Start.{HaveLines, Logs};

use crate::request::UpdateText;
use crate::row_list::RowList;
use sig_base::{OutOfMemory, Text};
use sig_json_text::compact;
use sig_key::CosignVerificationKey;
use sig_rekor::{ParseCheckpointError, SignedCheckpoint};
use sig_witness::Witness;
use std::alloc::Global;

/// The document of the signatures of the updates' notes, each under the key of its origin, and each once; `None` if it
/// would have more than `most` bytes. Fails only if out of memory.
pub fn notes_document(
    alloc: Global,
    witness: &Witness,
    texts: &[UpdateText],
    most: usize,
) -> Result<Option<Text>, OutOfMemory>
    requires { HaveLines witness.now }
    ensures { IfOk result (IsNotesDocument most witness.now texts.now) }
{
    // A list has two brackets.
    if most < 2 {
        return Ok(None);
    }
    let mut rows = RowList::new(alloc, most);
    'texts: for (place, text) in texts.iter().enumerate() {
        if !add_text(alloc, &mut rows, witness, place, text)? {
            drop(rows);
            return Ok(None);
        }
    }
    let text = compact(alloc, rows.list.view());
    drop(rows);
    Ok(Some(text?))
}

/// Adds the signatures of the update at an index; `false` if the list has no room. Fails only if out of memory.
fn add_text(
    alloc: Global,
    rows: &mut RowList,
    witness: &Witness,
    place: usize,
    text: &UpdateText,
) -> Result<bool, OutOfMemory>
    requires lines { HaveLines witness.now }
    requires list { IsSomeList witness.now place rows.old }
    ensures added { (before : List row_type) → IsListSoFar witness.now place before rows.old
        → IfOk result (HasAddedText witness.now place before text.now rows.new) }
    ensures most { IfOk result (λ _. rows.new.most ≡ rows.old.most) }
{
    match SignedCheckpoint::decode(alloc, text.checkpoint.as_str()) {
        Ok(checkpoint) => {
            let added = add_checkpoint(alloc, rows, witness, place, &checkpoint);
            drop(checkpoint);
            added
        }
        Err(ParseCheckpointError::DecodeError(_)) => Ok(true),
        Err(ParseCheckpointError::OutOfMemory) => Err(OutOfMemory),
    }
}

/// The same by the checkpoint of the text.
fn add_checkpoint(
    alloc: Global,
    rows: &mut RowList,
    witness: &Witness,
    place: usize,
    checkpoint: &SignedCheckpoint,
) -> Result<bool, OutOfMemory>
    requires lines { HaveLines witness.now }
    requires list { IsSomeList witness.now place rows.old }
    ensures added { (before : List row_type) → IsListSoFar witness.now place before rows.old
        → IfOk result (HasAdded witness.now place before checkpoint.now rows.new) }
    ensures most { IfOk result (λ _. rows.new.most ≡ rows.old.most) }
{
    let Some(key) = witness.key(checkpoint.note.origin.as_str()) else {
        return Ok(true);
    };
    let note = checkpoint.note.marshal(alloc)?;
    let number = rows.number_of(note.as_str(), place)?;
    let added = add_signatures(alloc, rows, key, checkpoint, &note, number);
    drop(note);
    added
}

/// Adds the signatures of a checkpoint under the key of its log; its note has this text and this number.
fn add_signatures(
    alloc: Global,
    rows: &mut RowList,
    key: &CosignVerificationKey,
    checkpoint: &SignedCheckpoint,
    note: &Text,
    number: usize,
) -> Result<bool, OutOfMemory>
    requires room { HasRoom rows.old }
    requires note { note.now ≡ note_text checkpoint.now.note }
    requires number { text_lookup note.now rows.old.notes ≡ Some number }
    ensures added { (logs : Logs) (bound : ℕ) (before : List row_type) → HaveLines logs
        → option_map log_key (text_lookup checkpoint.now.note.origin logs) ≡ Some key.now
        → IsListSoFar logs bound before rows.old
        → IfOk result (HasAddedRows logs bound (each_once_after before (note_rows key.now checkpoint.now)) rows.new) }
    ensures most { IfOk result (λ _. rows.new.most ≡ rows.old.most) }
{
    'signatures: for signature in checkpoint.signatures.as_slice() {
        if !rows.add(alloc, key, note, number, &signature.raw)? {
            return Ok(false);
        }
    }
    Ok(true)
}
