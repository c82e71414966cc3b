//! Why a certificate does not have the required profile.

ghost use Rattle.std.specs.Prelude.{◌≡◌};
ghost use Rattle.sig_certificate.specs.declared.profile_error.CertificateValidationError.TheVariants.{NotLeaf, NotCA};
ghost use Rattle.sig_certificate.specs.declared.profile_error.CertificateValidationError.TheVariants.{Extension};

use thiserror::Error;

/// Why a certificate is not a leaf, an authority or a root.
#[derive(Clone, Copy, Debug, PartialEq, Eq, Error)]
pub enum CertificateValidationError {
    /// The version is not 3.
    #[error("VersionUnsupported")]
    VersionUnsupported,
    /// An extension is malformed, or a duplicate.
    #[error("Malformed")]
    Malformed,
    /// The certificate is not a leaf.
    #[error("NotLeaf")]
    NotLeaf(NotLeafErrorKind),
    /// The certificate is not an authority, or not a root.
    #[error("NotCA")]
    NotCA(NotCAErrorKind),
    /// An extension is missing, or is not as it has to be.
    #[error("Extension")]
    Extension(ExtensionErrorKind),
}

/// Why a certificate is not a leaf.
#[derive(Clone, Copy, Debug, PartialEq, Eq, Error)]
pub enum NotLeafErrorKind {
    /// It is an authority.
    #[error("IsCA")]
    IsCA,
}

/// Why a certificate is not an authority, or not a root.
#[derive(Clone, Copy, Debug, PartialEq, Eq, Error)]
pub enum NotCAErrorKind {
    /// Neither cA nor keyCertSign is set.
    #[error("NotCA")]
    NotCA,
    /// Issuer and subject differ.
    #[error("NotRootCA")]
    NotRootCA,
    /// One of cA and keyCertSign is set without the other.
    #[error("Invalid")]
    Invalid {
        /// Whether cA is set.
        ca: bool,
        /// Whether keyCertSign is set.
        key_cert_sign: bool,
    },
}

/// What is wrong with an extension.
#[derive(Clone, Copy, Debug, PartialEq, Eq, Error)]
pub enum ExtensionErrorKind {
    /// It is not there.
    #[error("Missing")]
    Missing(PartName),
    /// It is there, and not marked critical (RFC 5280 section 4.2).
    #[error("NotCritical")]
    NotCritical(PartName),
    /// A bit or a purpose is not there.
    #[error("BitUnset")]
    BitUnset(PartName),
}

/// A part of a certificate's extensions.
#[derive(Clone, Copy, Debug, PartialEq, Eq)]
pub enum PartName {
    /// The extension of RFC 5280 section 4.2.1.9.
    BasicConstraints,
    /// The extension of RFC 5280 section 4.2.1.3.
    KeyUsage,
    /// The bit of key usage for digital signatures.
    KeyUsageDigitalSignature,
    /// The extension of RFC 5280 section 4.2.1.12.
    ExtendedKeyUsage,
    /// The purpose of code signing in extended key usage, under the name that the ported crate gives it.
    ExtendedKeyUsageDigitalSignature,
}

impl From<NotLeafErrorKind> for CertificateValidationError {
    ghost from_gives = { λ kind e. e ≡ NotLeaf kind };

    fn from(kind: NotLeafErrorKind) -> CertificateValidationError {
        CertificateValidationError::NotLeaf(kind)
    }
}

impl From<NotCAErrorKind> for CertificateValidationError {
    ghost from_gives = { λ kind e. e ≡ NotCA kind };

    fn from(kind: NotCAErrorKind) -> CertificateValidationError {
        CertificateValidationError::NotCA(kind)
    }
}

impl From<ExtensionErrorKind> for CertificateValidationError {
    ghost from_gives = { λ kind e. e ≡ Extension kind };

    fn from(kind: ExtensionErrorKind) -> CertificateValidationError {
        CertificateValidationError::Extension(kind)
    }
}
