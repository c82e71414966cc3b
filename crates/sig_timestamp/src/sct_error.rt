//! Why an SCT is rejected.

ghost use Rattle.std.specs.Prelude.{◌≡◌};
ghost use Rattle.sig_timestamp.specs.SctErrors.{of_keyring};
ghost use Rattle.sig_timestamp.specs.declared.sct_error.SCTError.TheVariants.{OutOfMemory as Memory, Parsing};

use crate::keyring_error::KeyringError;
use sig_base::OutOfMemory;
use std::alloc::{AllocError, AllocFailed};
use thiserror::Error;

/// Why a certificate's SCT was not read.
#[derive(Clone, Copy, Debug, PartialEq, Eq, Error)]
pub enum CertificateErrorKind {
    /// The certificate does not have exactly one extension that lists SCTs, or that one does not list exactly one.
    #[error("LeafSCTMissing")]
    LeafSCTMissing,
    /// The chain does not begin with an issuer: it has no certificate there (the first, or the second if the first
    /// only signs precertificates), or [`is_ca`](sig_certificate::is_ca) rejects that one. Whether it issued the
    /// certificate is not checked.
    #[error("IssuerMissing")]
    IssuerMissing,
    /// The list of SCTs, or the only SCT in it, is malformed.
    #[error("LeafSCTMalformed")]
    LeafSCTMalformed,
}

/// Why a certificate's SCT was not accepted.
#[derive(Clone, Copy, Debug, PartialEq, Eq, Error)]
pub enum SCTError {
    /// It was not read.
    #[error("Parsing")]
    Parsing(CertificateErrorKind),
    /// What it signs cannot be written: the TBSCertificate is longer than 2^24 - 1 bytes, or the extensions of the SCT
    /// are longer than 2^16 - 1.
    #[error("Serialization")]
    Serialization,
    /// The keyring does not vouch for it.
    #[error("Verification")]
    Verification(KeyringError),
    /// Out of memory.
    #[error("OutOfMemory")]
    OutOfMemory,
}

impl From<CertificateErrorKind> for SCTError {
    ghost from_gives = { λ k e. e ≡ Parsing k };

    fn from(kind: CertificateErrorKind) -> SCTError {
        SCTError::Parsing(kind)
    }
}

impl From<KeyringError> for SCTError {
    ghost from_gives = { λ k e. e ≡ of_keyring k };

    fn from(error: KeyringError) -> SCTError {
        match error {
            KeyringError::OutOfMemory => SCTError::OutOfMemory,
            refusal => SCTError::Verification(refusal),
        }
    }
}

impl From<OutOfMemory> for SCTError {
    ghost from_gives = { λ _ e. e ≡ Memory };

    fn from(_error: OutOfMemory) -> SCTError {
        SCTError::OutOfMemory
    }
}

impl From<AllocError> for SCTError {
    ghost from_gives = { λ _ e. e ≡ Memory };

    fn from(_error: AllocError) -> SCTError {
        SCTError::OutOfMemory
    }
}

impl<T: Drop> From<AllocFailed<T>> for SCTError {
    ghost from_gives = { λ _ e. e ≡ Memory };

    fn from(_error: AllocFailed<T>) -> SCTError {
        SCTError::OutOfMemory
    }
}
