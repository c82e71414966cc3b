//! The updates of a request, in order, and what is shown of each.
ghost use Rattle.std.specs.Prelude.{◌≡◌, IfOk};
ghost use Rattle.sig_explain_witness.specs.Walk.{IsReadUpdate, IsShownList, IsShownUpdate};
ghost use Rattle.sig_json.specs.Tree.{document_tree};
ghost use Rattle.sig_witness.specs.Updates.{update_of};
ghost use Rattle.sig_witness_command.specs.Outcome.{IsUpdate};

use crate::refused::{fault_document, left_after, taken_document, unread_document};
use sig_base::{OutOfMemory, TableChecker};
use sig_json::Document;
use sig_rekor::{ParseCheckpointError, SignedCheckpoint};
use sig_witness::Witness;
use sig_witness_command::request::UpdateText;
use std::alloc::Global;

/// Updates a witness by each of these updates in turn, and returns the list of what is shown of each. For `left`
/// updates that `note-key` refuses all members are shown. Fails only if out of memory.
#[tactic(auto, using(crate::proofs::Walks::walking))]
pub(crate) fn update_each(
    alloc: Global,
    witness: &mut Witness,
    left: &mut usize,
    texts: &[UpdateText],
    accepted: &TableChecker,
) -> Result<Document, OutOfMemory>
    ensures { IfOk result (λ list. IsShownList accepted.now (witness.old, left.old) texts.now (document_tree list)
        (witness.new, left.new)) }
{
    let mut list = Document::list(alloc);
    'texts: for text in texts {
        let shown = update_by_text(alloc, witness, left, text, accepted)?;
        list.push(shown)?;
    }
    Ok(list)
}

/// Updates a witness by one update. Fails only if out of memory.
fn update_by_text(
    alloc: Global,
    witness: &mut Witness,
    left: &mut usize,
    text: &UpdateText,
    accepted: &TableChecker,
) -> Result<Document, OutOfMemory>
    ensures { IfOk result (λ shown. IsShownUpdate accepted.now (witness.old, left.old) text.now (document_tree shown)
        (witness.new, left.new)) }
{
    match SignedCheckpoint::decode(alloc, text.checkpoint.as_str()) {
        Ok(checkpoint) => {
            let shown = update_by(alloc, witness, left, &checkpoint, text, accepted);
            drop(checkpoint);
            shown
        }
        Err(ParseCheckpointError::DecodeError(_)) => unread_document(alloc, text),
        Err(ParseCheckpointError::OutOfMemory) => Err(OutOfMemory),
    }
}

/// The same by the checkpoint of the text.
fn update_by(
    alloc: Global,
    witness: &mut Witness,
    left: &mut usize,
    checkpoint: &SignedCheckpoint,
    text: &UpdateText,
    accepted: &TableChecker,
) -> Result<Document, OutOfMemory>
    requires { IsUpdate text.now (update_of checkpoint.now text.now.old_size text.now.hashes) }
    ensures { IfOk result (λ shown. IsReadUpdate accepted.now (witness.old, left.old) text.now
        (update_of checkpoint.now text.now.old_size text.now.hashes) (document_tree shown) (witness.new, left.new)) }
{
    match witness.update(
        alloc,
        checkpoint,
        text.old_size,
        text.hashes.as_slice(),
        accepted,
    ) {
        Ok(()) => taken_document(alloc, checkpoint),
        Err(error) => {
            let before = *left;
            *left = left_after(error, before);
            fault_document(alloc, witness, before, text, checkpoint, accepted, error)
        }
    }
}
