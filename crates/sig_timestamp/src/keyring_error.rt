//! Why a key of a Certificate Transparency log, or a signature under such keys, is rejected.

ghost use Rattle.std.specs.Prelude.{◌≡◌};
ghost use Rattle.sig_timestamp.specs.declared.keyring_error.KeyringError.TheVariants.{OutOfMemory as Memory};

use sig_base::OutOfMemory;
use std::alloc::{AllocError, AllocFailed};
use thiserror::Error;

/// Why a key was not added to a keyring, or why a keyring does not vouch for a signature.
#[derive(Clone, Copy, Debug, PartialEq, Eq, Error)]
pub enum KeyringError {
    /// The bytes are not an SPKI, or the parameters of its algorithm are neither an object identifier nor the NULL of
    /// an RSA key.
    #[error("KeyMalformed")]
    KeyMalformed,
    /// The key is not a point of P-256.
    #[error("AlgoUnsupported")]
    AlgoUnsupported,
    /// The keyring does not have a key of this id.
    #[error("KeyNotFound")]
    KeyNotFound,
    /// The checker does not accept the signature under the key of this id.
    #[error("VerificationFailed")]
    VerificationFailed,
    /// Out of memory.
    #[error("OutOfMemory")]
    OutOfMemory,
}

impl From<OutOfMemory> for KeyringError {
    ghost from_gives = { λ _ e. e ≡ Memory };

    fn from(_error: OutOfMemory) -> KeyringError {
        KeyringError::OutOfMemory
    }
}

impl From<AllocError> for KeyringError {
    ghost from_gives = { λ _ e. e ≡ Memory };

    fn from(_error: AllocError) -> KeyringError {
        KeyringError::OutOfMemory
    }
}

impl<T: Drop> From<AllocFailed<T>> for KeyringError {
    ghost from_gives = { λ _ e. e ≡ Memory };

    fn from(_error: AllocFailed<T>) -> KeyringError {
        KeyringError::OutOfMemory
    }
}
