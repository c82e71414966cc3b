//! Base64 as checkpoints use it, with the fault of the line.
ghost use Rattle.sig_base.specs.Answers.{Answers};
ghost use Rattle.sig_rekor.specs.Reading.{as_error, base64_of};

use crate::fault::ParseCheckpointError;
use sig_base::{Bytes, CheckpointFault};
use std::alloc::Global;

/// The bytes of a base64 text, or the fault that the caller names.
#[tactic(auto, unfolding(crate::specs::Reading::base64_of))]
pub(crate) fn decode_base64(
    alloc: Global,
    text: &str,
    fault: CheckpointFault,
) -> Result<Bytes, ParseCheckpointError>
    ensures { Answers ParseCheckpointError.OutOfMemory (λ b. b) result (as_error (base64_of fault text.now)) }
{
    match Bytes::of_base64(alloc, text.as_bytes())? {
        Some(bytes) => Ok(bytes),
        None => Err(ParseCheckpointError::DecodeError(fault)),
    }
}
