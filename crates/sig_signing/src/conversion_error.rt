//! `ConversionError`: why a log entry was not converted.
ghost use Rattle.std.specs.Prelude.{◌≡◌};
ghost use Rattle.sig_signing.specs.declared.conversion_error.ConversionError.TheVariants.{OutOfMemory as Memory};

use sig_base::OutOfMemory;
use thiserror::Error;

/// Why a log entry of Rekor's API was not converted.
#[derive(Clone, Copy, Debug, PartialEq, Eq, Error)]
pub enum ConversionError {
    /// A text is not the hexadecimal digits or the base64 of bytes, the tree's size is not below 2^63, or the body
    /// has no canonical JSON.
    #[error("Refused")]
    Refused,
    /// Out of memory.
    #[error("OutOfMemory")]
    OutOfMemory,
}

impl From<OutOfMemory> for ConversionError {
    ghost from_gives = { λ _ e. e ≡ Memory };

    fn from(_error: OutOfMemory) -> ConversionError {
        ConversionError::OutOfMemory
    }
}
