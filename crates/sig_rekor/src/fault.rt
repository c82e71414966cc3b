//! `ParseCheckpointError`: why a text is not a checkpoint.
use sig_base::{CheckpointFault, OutOfMemory, SigstoreError};
use thiserror::Error;

/// Why a text could not be read as a checkpoint, a note or a signature.
#[derive(Clone, Copy, Debug, PartialEq, Eq, Error)]
pub enum ParseCheckpointError {
    /// The rule of the checkpoint format that the text breaks first.
    #[error("DecodeError")]
    DecodeError(CheckpointFault),
    /// Out of memory.
    #[error("OutOfMemory")]
    OutOfMemory,
}

impl From<CheckpointFault> for ParseCheckpointError {
    ghost use Rattle.std.specs.Prelude.{◌≡◌};
    ghost use Rattle.sig_rekor.specs.declared.fault.ParseCheckpointError.TheVariants.{DecodeError};

    ghost from_gives = { λ fault e. e ≡ DecodeError fault };

    fn from(fault: CheckpointFault) -> ParseCheckpointError {
        ParseCheckpointError::DecodeError(fault)
    }
}

impl From<OutOfMemory> for ParseCheckpointError {
    ghost use Rattle.std.specs.Prelude.{◌≡◌};
    ghost use Rattle.sig_rekor.specs.declared.fault.ParseCheckpointError.TheVariants.{OutOfMemory as Memory};

    ghost from_gives = { λ _ e. e ≡ Memory };

    fn from(_error: OutOfMemory) -> ParseCheckpointError {
        ParseCheckpointError::OutOfMemory
    }
}

impl From<ParseCheckpointError> for SigstoreError {
    ghost use Rattle.std.specs.Prelude.{◌≡◌};
    ghost use Rattle.sig_rekor.specs.Reading.{of_parsing};

    ghost from_gives = { λ error e. e ≡ of_parsing error };

    fn from(error: ParseCheckpointError) -> SigstoreError {
        match error {
            ParseCheckpointError::DecodeError(fault) => SigstoreError::ParseCheckpointError(fault),
            ParseCheckpointError::OutOfMemory => SigstoreError::OutOfMemory,
        }
    }
}
