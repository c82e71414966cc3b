//! Why bytes are not a certificate.

ghost use Rattle.std.specs.Prelude.{◌≡◌};
ghost use Rattle.sig_certificate.specs.declared.error.X509ReadError.TheVariants.{OutOfMemory as Memory};

use sig_base::OutOfMemory;
use std::alloc::{AllocError, AllocFailed};
use thiserror::Error;

/// Why a certificate was not read.
#[derive(Clone, Copy, Debug, PartialEq, Eq, Error)]
pub enum X509ReadError {
    /// The bytes are not a certificate.
    #[error("Der")]
    Der,
    /// Memory ran out.
    #[error("OutOfMemory")]
    OutOfMemory,
}

impl From<OutOfMemory> for X509ReadError {
    ghost from_gives = { λ _ e. e ≡ Memory };

    fn from(_error: OutOfMemory) -> X509ReadError {
        X509ReadError::OutOfMemory
    }
}

impl From<AllocError> for X509ReadError {
    ghost from_gives = { λ _ e. e ≡ Memory };

    fn from(_error: AllocError) -> X509ReadError {
        X509ReadError::OutOfMemory
    }
}

impl<T: Drop> From<AllocFailed<T>> for X509ReadError {
    ghost from_gives = { λ _ e. e ≡ Memory };

    fn from(_error: AllocFailed<T>) -> X509ReadError {
        X509ReadError::OutOfMemory
    }
}
