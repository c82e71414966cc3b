//! `ProofFieldsError`: why the members of an inclusion proof are not a proof.
ghost use Rattle.std.specs.Prelude.{◌≡◌};
ghost use Rattle.sig_bundle.specs.declared.proof_error.ProofFieldsError.TheVariants.{OutOfMemory as Memory};

use sig_base::{CheckpointFault, OutOfMemory};
use thiserror::Error;

/// Why the members of an inclusion proof are not a proof that can be checked, or that memory ran out. The variants are
/// in the order of the checks.
#[derive(Clone, Copy, Debug, PartialEq, Eq, Error)]
pub enum ProofFieldsError {
    /// The root hash does not have 32 bytes.
    #[error("RootLength")]
    RootLength,
    /// The hash at this index, counted from 0, does not have 32 bytes.
    #[error("HashLength")]
    HashLength(usize),
    /// The tree size is negative.
    #[error("TreeSize")]
    TreeSize,
    /// There is no checkpoint.
    #[error("CheckpointMissing")]
    CheckpointMissing,
    /// The text of the checkpoint is malformed: it breaks this rule first.
    #[error("Checkpoint")]
    Checkpoint(CheckpointFault),
    /// Out of memory.
    #[error("OutOfMemory")]
    OutOfMemory,
}

impl From<OutOfMemory> for ProofFieldsError {
    ghost from_gives = { λ _ e. e ≡ Memory };

    fn from(_error: OutOfMemory) -> ProofFieldsError {
        ProofFieldsError::OutOfMemory
    }
}
