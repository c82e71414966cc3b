//! `AuditError`: which head or watch of an audit fails first, and why.
use sig_base::{MerkleProofError, OutOfMemory};
use thiserror::Error;

/// Why an audit fails: the first fault of the heads in order and then of the watches in order. A number is the index
/// of the head or of the watch.
#[derive(Clone, Copy, Debug, PartialEq, Eq, Error)]
pub enum AuditError {
    /// There is no head.
    #[error("Empty")]
    Empty,
    /// No signature of the head is the log's.
    #[error("NoteKey")]
    NoteKey(usize),
    /// The head's origin is not that of the first head.
    #[error("Origin")]
    Origin(usize),
    /// The head's hashes do not show that its tree has that of the head before it as its first leaves.
    #[error("Consistency")]
    Consistency(usize, MerkleProofError),
    /// The watch's head is not the index of a head.
    #[error("Head")]
    Head(usize),
    /// The hashes of the watch do not lead from its entry to the root of its head.
    #[error("Inclusion")]
    Inclusion(usize, MerkleProofError),
    /// Out of memory.
    #[error("OutOfMemory")]
    OutOfMemory,
}

impl From<OutOfMemory> for AuditError {
    ghost use Rattle.std.specs.Prelude.{◌≡◌};
    ghost use Rattle.sig_audit.specs.declared.error.AuditError.TheVariants.{OutOfMemory as Memory};

    ghost from_gives = { λ _ e. e ≡ Memory };

    fn from(_error: OutOfMemory) -> AuditError {
        AuditError::OutOfMemory
    }
}
