//! Why a tree has no canonical text.
use sig_base::OutOfMemory;
use thiserror::Error;

/// Why a tree has no canonical text.
#[derive(Clone, Copy, Debug, PartialEq, Eq, Error)]
pub enum CanonicalError {
    /// An integer is outside plus or minus 2^53 - 1.
    #[error("IntegerTooLarge")]
    IntegerTooLarge,
    /// Out of memory.
    #[error("OutOfMemory")]
    OutOfMemory,
}

impl From<OutOfMemory> for CanonicalError {
    ghost use Rattle.std.specs.Prelude.{◌≡◌};
    ghost use Rattle.sig_json_text.specs.declared.error.CanonicalError.TheVariants.{OutOfMemory};

    ghost from_gives = { λ _ e. e ≡ OutOfMemory };

    fn from(_error: OutOfMemory) -> CanonicalError {
        CanonicalError::OutOfMemory
    }
}
