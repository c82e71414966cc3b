//! Why a bundle does not verify.
ghost use Rattle.std.specs.Prelude.{◌≡◌};
ghost use Rattle.sig_verify.specs.Errors.{of_bundle, of_pool, of_policy, of_sct};
ghost use Rattle.sig_verify.specs.declared.error.VerificationError.TheVariants.{OutOfMemory as Memory};

use crate::artifact::InputFault;
use sig_base::{OutOfMemory, PoolError};
use sig_checked_bundle::BundleErrorKind;
use sig_x509::{PolicyError, SCTError};
use thiserror::Error;

/// Whether a bundle verifies.
pub type VerificationResult = Result<(), VerificationError>;

/// Why a bundle does not verify, or that memory ran out.
#[derive(Debug, Drop, Error)]
pub enum VerificationError {
    /// The artifact could not be read.
    #[error("Input")]
    Input(InputFault),
    /// The bundle does not pass its own checks.
    #[error("Bundle")]
    Bundle(BundleErrorKind),
    /// The certificate is not trusted.
    #[error("Certificate")]
    Certificate(CertificateErrorKind),
    /// The signature is not one over the artifact that a log has.
    #[error("Signature")]
    Signature(SignatureErrorKind),
    /// The policy does not hold of the certificate.
    #[error("Policy")]
    Policy(PolicyError),
    /// Out of memory.
    #[error("OutOfMemory")]
    OutOfMemory,
}

/// Why a certificate is not trusted.
#[derive(Clone, Copy, Debug, PartialEq, Eq, Error)]
pub enum CertificateErrorKind {
    /// It does not have the profile of a certificate that a trust anchor may issue.
    #[error("Malformed")]
    Malformed,
    /// The log entry is of a time at which it was not valid.
    #[error("Expired")]
    Expired,
    /// No Certificate Transparency log vouches for it.
    #[error("Sct")]
    Sct(SCTError),
    /// No certification path leads from it to a trust anchor.
    #[error("VerificationFailed")]
    VerificationFailed,
}

/// Why a signature is not one over the artifact that a log has.
#[derive(Clone, Copy, Debug, PartialEq, Eq, Error)]
pub enum SignatureErrorKind {
    /// The certificate's key is of a kind that is not supported.
    #[error("AlgoUnsupported")]
    AlgoUnsupported,
    /// The checker does not accept it.
    #[error("VerificationFailed")]
    VerificationFailed,
    /// The log entry is not about it.
    #[error("Transparency")]
    Transparency,
    /// No subject of the statement has the artifact's digest.
    #[error("SubjectDigestMismatch")]
    SubjectDigestMismatch,
    /// It is over the artifact itself, and the digest is not SHA-256.
    #[error("DigestAlgorithmUnsupported")]
    DigestAlgorithmUnsupported,
}

impl From<OutOfMemory> for VerificationError {
    ghost from_gives = { λ _ e. e ≡ Memory };

    fn from(_error: OutOfMemory) -> VerificationError {
        VerificationError::OutOfMemory
    }
}

impl From<BundleErrorKind> for VerificationError {
    ghost from_gives = { λ kind e. e ≡ of_bundle kind };

    fn from(kind: BundleErrorKind) -> VerificationError {
        match kind {
            BundleErrorKind::OutOfMemory => VerificationError::OutOfMemory,
            kind => VerificationError::Bundle(kind),
        }
    }
}

impl From<PoolError> for VerificationError {
    ghost from_gives = { λ error e. e ≡ of_pool error };

    fn from(error: PoolError) -> VerificationError {
        match error {
            PoolError::OutOfMemory => VerificationError::OutOfMemory,
            PoolError::Malformed => VerificationError::Certificate(CertificateErrorKind::Malformed),
            PoolError::VerificationFailed | PoolError::Anchor(_) | PoolError::TooMany(_) => {
                VerificationError::Certificate(CertificateErrorKind::VerificationFailed)
            }
        }
    }
}

impl From<SCTError> for VerificationError {
    ghost from_gives = { λ error e. e ≡ of_sct error };

    fn from(error: SCTError) -> VerificationError {
        match error {
            SCTError::OutOfMemory => VerificationError::OutOfMemory,
            error => VerificationError::Certificate(CertificateErrorKind::Sct(error)),
        }
    }
}

impl From<PolicyError> for VerificationError {
    ghost from_gives = { λ error e. e ≡ of_policy error };

    fn from(error: PolicyError) -> VerificationError {
        match error {
            PolicyError::OutOfMemory => VerificationError::OutOfMemory,
            error => VerificationError::Policy(error),
        }
    }
}
