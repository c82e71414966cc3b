//! What is shown of an update.
//!
//! ```text
//! {"accepted":"2","origin":"log.example"}
//! {"cause":["OldSize"],"expected":"2","got":"1","link":"old-size"}
//! ```
ghost use Rattle.std.specs.Prelude.{◌≡◌, ◌≢◌, IfOk, OnOk, codes, option_map};
ghost use Rattle.sig_json.specs.Writing.{members, members_into, put_some};
ghost use Rattle.sig_explain_witness.specs.UpdateTrees.{asked_rows, fault_rows, fault_tree, full_rows, growth_rows};
ghost use Rattle.sig_explain_witness.specs.UpdateTrees.{key_at};
ghost use Rattle.sig_explain_witness.specs.UpdateTrees.{key_rows, kept_head, left_after, old_size_rows, origin_rows, pair_tree};
ghost use Rattle.sig_explain_witness.specs.UpdateTrees.{taken_tree, unknown_rows, unread_tree};
ghost use Rattle.sig_json.specs.Data.{no_members};
ghost use Rattle.sig_json.specs.Tree.{document_tree};
ghost use Rattle.sig_witness.specs.declared.error.WitnessError.TheVariants as fault;

use sig_base::{MerkleProofError, OutOfMemory, TableChecker};
use sig_explain_log::{with_consistency_error, with_head, with_unread, with_unsigned};
use sig_explanation::with_cause;
use sig_json::{Document, Object};
use sig_rekor::SignedCheckpoint;
use sig_shown::{with_count, with_shown};
use sig_witness::{Witness, WitnessError};
use sig_witness_command::request::UpdateText;
use std::alloc::Global;

/// For this number of updates that `note-key` refuses all members are shown, for later ones only the origin. Each costs
/// a pass over the accepted signatures.
pub const MOST_UNSIGNED: usize = 16;

/// What is shown of an update whose text is not a checkpoint. Fails only if out of memory.
#[tactic(auto, unfolding(crate::specs::UpdateTrees::unread_tree))]
pub(crate) fn unread_document(alloc: Global, text: &UpdateText) -> Result<Document, OutOfMemory>
    ensures { IfOk result (λ document. document_tree document ≡ unread_tree text.now) }
{
    let object = Object::new(alloc).with_text(alloc, "link", "checkpoint")?;
    let object = with_unread(object, alloc, text.checkpoint.as_str())?;
    Ok(object.into_document())
}

/// What is shown of an update that is taken: the new head's size. Fails only if out of memory.
#[tactic(auto, unfolding(crate::specs::UpdateTrees::taken_tree))]
pub(crate) fn taken_document(
    alloc: Global,
    checkpoint: &SignedCheckpoint,
) -> Result<Document, OutOfMemory>
    ensures { IfOk result (λ document. document_tree document ≡ taken_tree checkpoint.now) }
{
    let object = with_count(Object::new(alloc), alloc, "accepted", checkpoint.note.size)?;
    let object = with_origin(object, alloc, checkpoint)?;
    Ok(object.into_document())
}

/// The object with the origin of a checkpoint.
fn with_origin(
    object: Object,
    alloc: Global,
    checkpoint: &SignedCheckpoint,
) -> Result<Object, OutOfMemory>
    ensures { IfOk result (λ made. members made ≡ members_into (members object) (origin_rows checkpoint.now)) }
{
    let origin = checkpoint.note.origin.as_str();
    with_shown(object, alloc, "origin", "originLength", origin)
}

/// The refusal of an update of a witness, which it left as it was: the link, the cause, and what the link compares; for
/// `left` more that `note-key` refuses with what the accepted signatures have. Fails only if out of memory, also where
/// the update did.
#[tactic(auto, unfolding(crate::specs::UpdateTrees::fault_tree))]
pub(crate) fn fault_document(
    alloc: Global,
    witness: &Witness,
    left: usize,
    text: &UpdateText,
    checkpoint: &SignedCheckpoint,
    accepted: &TableChecker,
    error: WitnessError,
) -> Result<Document, OutOfMemory>
    ensures tree { IfOk result (λ document. document_tree document
        ≡ fault_tree accepted.now witness.now left text.now checkpoint.now error) }
    ensures known { OnOk result (error ≢ fault.OutOfMemory) }
{
    let object = fault_object(alloc, witness, left, text, checkpoint, accepted, error)?;
    Ok(object.into_document())
}

/// The refusal of an update that fails with this error.
fn fault_object(
    alloc: Global,
    witness: &Witness,
    left: usize,
    text: &UpdateText,
    checkpoint: &SignedCheckpoint,
    accepted: &TableChecker,
    error: WitnessError,
) -> Result<Object, OutOfMemory>
    ensures rows { IfOk result (λ made. members made ≡ members_into no_members
        (fault_rows accepted.now witness.now left text.now checkpoint.now error)) }
    ensures known { OnOk result (error ≢ fault.OutOfMemory) }
{
    match error {
        WitnessError::UnknownOrigin => origin_object(alloc, checkpoint),
        WitnessError::NoteKey => {
            unsigned_object(alloc, witness, left, text, checkpoint, accepted)
        }
        WitnessError::OldSize(kept) => old_size_object(alloc, kept, text),
        WitnessError::Consistency(error) => {
            growth_object(alloc, witness, left, text, checkpoint, accepted, error)
        }
        WitnessError::Full => full_object(alloc),
        WitnessError::OutOfMemory => Err(OutOfMemory),
        // These two are errors of adding an origin.
        WitnessError::OriginText | WitnessError::OriginKnown => Ok(Object::new(alloc)),
    }
}

/// The refusal of an update whose origin is not kept.
fn origin_object(alloc: Global, checkpoint: &SignedCheckpoint) -> Result<Object, OutOfMemory>
    ensures { IfOk result (λ made. members made ≡ members_into no_members (unknown_rows checkpoint.now)) }
{
    let object = Object::new(alloc).with_text(alloc, "link", "origin")?;
    let object = with_cause(object, alloc, "UnknownOrigin")?;
    with_origin(object, alloc, checkpoint)
}

/// The refusal of an update that its log did not sign.
fn unsigned_object(
    alloc: Global,
    witness: &Witness,
    left: usize,
    text: &UpdateText,
    checkpoint: &SignedCheckpoint,
    accepted: &TableChecker,
) -> Result<Object, OutOfMemory>
    ensures { IfOk result (λ made. members made ≡ members_into no_members
        (fault_rows accepted.now witness.now left text.now checkpoint.now fault.NoteKey)) }
{
    let object = Object::new(alloc).with_text(alloc, "link", "note-key")?;
    let object = with_cause(object, alloc, "CheckpointSignatureVerificationError")?;
    let object = with_origin(object, alloc, checkpoint)?;
    with_asked(object, alloc, witness, left, text, checkpoint, accepted)
}

/// The same if it is still to be shown.
fn with_asked(
    object: Object,
    alloc: Global,
    witness: &Witness,
    left: usize,
    text: &UpdateText,
    checkpoint: &SignedCheckpoint,
    accepted: &TableChecker,
) -> Result<Object, OutOfMemory>
    ensures { IfOk result (λ made. members made ≡ members_into (members object)
        (asked_rows accepted.now (key_at witness.now checkpoint.now) left text.now)) }
{
    if left == 0 {
        return Ok(object);
    }
    with_key(object, alloc, witness, text, checkpoint, accepted)
}

/// The object with the key of an update's log, if it is kept, and what the accepted signatures have of the note.
fn with_key(
    object: Object,
    alloc: Global,
    witness: &Witness,
    text: &UpdateText,
    checkpoint: &SignedCheckpoint,
    accepted: &TableChecker,
) -> Result<Object, OutOfMemory>
    ensures { IfOk result (λ made. members made ≡ members_into (members object)
        (key_rows accepted.now (key_at witness.now checkpoint.now) text.now)) }
{
    let Some(key) = witness.key(checkpoint.note.origin.as_str()) else {
        return Ok(object);
    };
    with_unsigned(
        object,
        alloc,
        key.scheme(),
        key.spki(),
        accepted,
        text.checkpoint.as_str(),
    )
}

/// The refusal of an update whose proof is from another size than that of the kept head.
fn old_size_object(alloc: Global, kept: u64, text: &UpdateText) -> Result<Object, OutOfMemory>
    ensures { IfOk result (λ made. members made ≡ members_into no_members (old_size_rows kept text.now)) }
{
    let object = Object::new(alloc).with_text(alloc, "link", "old-size")?;
    let object = with_cause(object, alloc, "OldSize")?;
    let object = with_count(object, alloc, "expected", kept)?;
    with_count(object, alloc, "got", text.old_size)
}

/// The refusal of an update whose tree is not shown to have that of the kept head as its first leaves.
#[tactic(auto, using(crate::proofs::Members::members_after))]
fn growth_object(
    alloc: Global,
    witness: &Witness,
    left: usize,
    text: &UpdateText,
    checkpoint: &SignedCheckpoint,
    accepted: &TableChecker,
    error: MerkleProofError,
) -> Result<Object, OutOfMemory>
    ensures { IfOk result (λ made. members made ≡ members_into no_members
        (fault_rows accepted.now witness.now left text.now checkpoint.now (fault.Consistency error))) }
{
    let object = Object::new(alloc).with_text(alloc, "link", "consistency")?;
    let object = with_consistency_error(object, alloc, &error)?;
    with_growth(object, alloc, witness, checkpoint)
}

/// The object with the kept head and the new one.
fn with_growth(
    object: Object,
    alloc: Global,
    witness: &Witness,
    checkpoint: &SignedCheckpoint,
) -> Result<Object, OutOfMemory>
    ensures { IfOk result (λ made. members made
        ≡ members_into (members object) (growth_rows witness.now checkpoint.now)) }
{
    let object = with_kept_head(object, alloc, witness, checkpoint)?;
    with_head(
        object,
        alloc,
        "new",
        checkpoint.note.size,
        &checkpoint.note.hash,
    )
}

/// The object with the size and the root of the kept head of an update's log.
fn with_kept_head(
    object: Object,
    alloc: Global,
    witness: &Witness,
    checkpoint: &SignedCheckpoint,
) -> Result<Object, OutOfMemory>
    ensures { IfOk result (λ made. members made ≡ put_some (codes "old")
        (option_map pair_tree (kept_head witness.now checkpoint.now)) (members object)) }
{
    let Some(head) = witness.head(checkpoint.note.origin.as_str()) else {
        return Ok(object);
    };
    with_head(object, alloc, "old", head.0, &head.1)
}

/// The refusal of an update of a log that has as many kept heads as there may be.
fn full_object(alloc: Global) -> Result<Object, OutOfMemory>
    ensures { IfOk result (λ made. members made ≡ members_into no_members full_rows) }
{
    let object = Object::new(alloc).with_text(alloc, "link", "full")?;
    with_cause(object, alloc, "Full")
}

/// Returns for how many more all members are shown after an update that fails with this error.
pub(crate) fn left_after(error: WitnessError, left: usize) -> usize
    ensures { result ≡ left_after error left }
{
    match error {
        WitnessError::NoteKey => left.saturating_sub(1),
        _ => left,
    }
}
