//! A text read as a checkpoint, or the rule that it breaks.
ghost use Rattle.std.specs.Prelude.{◌≡◌, IfOk};
ghost use Rattle.sig_rekor.specs.CheckpointText.{checkpoint_of};

use sig_base::{CheckpointFault, OutOfMemory};
use sig_rekor::{ParseCheckpointError, SignedCheckpoint, SignedNote};
use std::alloc::Global;

/// The checkpoint that a text is, whose note is borrowed from it, or the first rule that the text breaks. Fails only if
/// out of memory.
#[tactic(auto, using(crate::proofs::Readings::readings))]
pub(crate) fn read_note(
    alloc: Global,
    text: &str,
) -> Result<Result<SignedNote<'_>, CheckpointFault>, OutOfMemory>
    ensures { IfOk result (λ read. read ≡ checkpoint_of text.now) }
{
    match SignedNote::decode(alloc, text) {
        Ok(checkpoint) => Ok(Ok(checkpoint)),
        Err(ParseCheckpointError::DecodeError(fault)) => Ok(Err(fault)),
        Err(ParseCheckpointError::OutOfMemory) => Err(OutOfMemory),
    }
}

/// The same in memory of its own.
#[tactic(auto, using(crate::proofs::Readings::readings))]
pub(crate) fn read_checkpoint(
    alloc: Global,
    text: &str,
) -> Result<Result<SignedCheckpoint, CheckpointFault>, OutOfMemory>
    ensures { IfOk result (λ read. read ≡ checkpoint_of text.now) }
{
    match SignedCheckpoint::decode(alloc, text) {
        Ok(checkpoint) => Ok(Ok(checkpoint)),
        Err(ParseCheckpointError::DecodeError(fault)) => Ok(Err(fault)),
        Err(ParseCheckpointError::OutOfMemory) => Err(OutOfMemory),
    }
}
