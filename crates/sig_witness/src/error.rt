//! `WitnessError`: why an origin or a head is not taken.
use sig_base::{MerkleProofError, OutOfMemory};
use thiserror::Error;

/// Why a witness does not take an origin or a head. It is then as it was.
#[derive(Clone, Copy, Debug, PartialEq, Eq, Error)]
pub enum WitnessError {
    /// The origin is empty or holds a newline.
    #[error("OriginText")]
    OriginText,
    /// The origin is there already.
    #[error("OriginKnown")]
    OriginKnown,
    /// The origin of the checkpoint is not there.
    #[error("UnknownOrigin")]
    UnknownOrigin,
    /// No signature of the checkpoint is the log's.
    #[error("NoteKey")]
    NoteKey,
    /// The old size is not the size of the kept head, which this is.
    #[error("OldSize")]
    OldSize(u64),
    /// The hashes do not show that the new tree has that of the kept head as its first leaves.
    #[error("Consistency")]
    Consistency(MerkleProofError),
    /// The log has as many kept heads as there may be.
    #[error("Full")]
    Full,
    /// Out of memory.
    #[error("OutOfMemory")]
    OutOfMemory,
}

impl From<OutOfMemory> for WitnessError {
    ghost use Rattle.std.specs.Prelude.{◌≡◌};
    ghost use Rattle.sig_witness.specs.declared.error.WitnessError.TheVariants.{OutOfMemory as Memory};

    ghost from_gives = { λ _ e. e ≡ Memory };

    fn from(_error: OutOfMemory) -> WitnessError {
        WitnessError::OutOfMemory
    }
}
