//! `StateError`: why a text is not a state of a witness.
use sig_base::OutOfMemory;
use thiserror::Error;

/// Why a text is not a state of a witness: the first fault of its origins, in order.
#[derive(Clone, Copy, Debug, PartialEq, Eq, Error)]
pub enum StateError {
    /// The text is not lines in fives, each ended by a newline.
    #[error("Lines")]
    Lines,
    /// An origin is empty, or not above the one before it in byte order.
    #[error("Origin")]
    Origin,
    /// The second line of an origin is not the name of a scheme.
    #[error("Scheme")]
    Scheme,
    /// The third line is not base64.
    #[error("Key")]
    Key,
    /// The fourth line is not a number below 2^64 in decimal without leading zeros.
    #[error("Size")]
    Size,
    /// The fifth line is not 32 bytes in base64.
    #[error("Hash")]
    Hash,
    /// The size is 0, and the hash is not the root of no entries.
    #[error("Root")]
    Root,
    /// Out of memory.
    #[error("OutOfMemory")]
    OutOfMemory,
}

impl From<OutOfMemory> for StateError {
    ghost use Rattle.std.specs.Prelude.{◌≡◌};
    ghost use Rattle.sig_witness.specs.declared.state_error.StateError.TheVariants.{OutOfMemory as Memory};

    ghost from_gives = { λ _ e. e ≡ Memory };

    fn from(_error: OutOfMemory) -> StateError {
        StateError::OutOfMemory
    }
}
