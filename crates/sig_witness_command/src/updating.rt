//! The updates of a request, in order.
ghost use Rattle.std.specs.Prelude.{IfOk};
ghost use Rattle.sig_witness.specs.Updates.{update_of};
ghost use Rattle.sig_witness_command.specs.Walk.{IsUpdated, IsWalk, takes};
ghost use Rattle.sig_witness_command.specs.Outcome.{IsUpdate};

use crate::outcome::{Outcome, Outcomes, refused};
use crate::request::UpdateText;
use sig_base::{OutOfMemory, TableChecker};
use sig_rekor::{ParseCheckpointError, SignedCheckpoint};
use sig_witness::Witness;
use std::alloc::Global;

/// Updates a witness by each of these updates in turn, and returns their outcomes. Fails only if out of memory.
#[tactic(auto, using(crate::proofs::Walks::walking))]
pub fn update_each(
    alloc: Global,
    witness: &mut Witness,
    texts: &[UpdateText],
    accepted: &TableChecker,
) -> Result<Outcomes, OutOfMemory>
    ensures { IfOk result (λ outcomes. IsWalk (takes accepted.now) witness.old texts.now outcomes witness.new) }
{
    let mut outcomes = Outcomes::new(alloc);
    'texts: for text in texts {
        let outcome = update_by_text(alloc, witness, text, accepted)?;
        outcomes.push(outcome)?;
    }
    Ok(outcomes)
}

/// Updates a witness by one update. Fails only if out of memory.
fn update_by_text(
    alloc: Global,
    witness: &mut Witness,
    text: &UpdateText,
    accepted: &TableChecker,
) -> Result<Outcome, OutOfMemory>
    ensures { IfOk result (λ outcome. IsUpdated (takes accepted.now) witness.old text.now outcome witness.new) }
{
    match SignedCheckpoint::decode(alloc, text.checkpoint.as_str()) {
        Ok(checkpoint) => {
            let outcome = update_by(alloc, witness, &checkpoint, text, accepted);
            drop(checkpoint);
            outcome
        }
        Err(ParseCheckpointError::DecodeError(_)) => Ok(Outcome::Checkpoint),
        Err(ParseCheckpointError::OutOfMemory) => Err(OutOfMemory),
    }
}

/// The same by the checkpoint of the text.
fn update_by(
    alloc: Global,
    witness: &mut Witness,
    checkpoint: &SignedCheckpoint,
    text: &UpdateText,
    accepted: &TableChecker,
) -> Result<Outcome, OutOfMemory>
    requires { IsUpdate text.now (update_of checkpoint.now text.now.old_size text.now.hashes) }
    ensures { IfOk result (λ outcome. IsUpdated (takes accepted.now) witness.old text.now outcome witness.new) }
{
    match witness.update(
        alloc,
        checkpoint,
        text.old_size,
        text.hashes.as_slice(),
        accepted,
    ) {
        Ok(()) => Ok(Outcome::Accepted(checkpoint.note.size)),
        Err(error) => refused(error),
    }
}
