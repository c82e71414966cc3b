//! `SigstoreError`: the error of the calls that have the crate's names.
use crate::fault::{CheckpointFault, PkiFault, PoolError, TokenFault, TrustPart};
use crate::memory::OutOfMemory;
use crate::merkle_error::MerkleProofError;
use crate::text::Text;
use crate::unexpected::UnexpectedKind;
use std::alloc::{AllocError, AllocFailed};
use std::error::Error;
use std::fmt;

/// The result of a call that fails with `SigstoreError`.
pub type Result<T> = std::result::Result<T, SigstoreError>;

/// Why a call fails. Each variant is one cause, and keeps indices, seconds or faults and no sentences.
#[derive(Debug, Drop)]
pub enum SigstoreError {
    /// A text is not padded standard base64.
    Base64DecodeError,
    /// A text is not the hexadecimal digits of whole bytes.
    HexDecodeError,
    /// Bytes are not UTF-8.
    Utf8Error,
    /// A document is not one of its kind.
    SerdeJsonError,
    /// A text is not a signed checkpoint.
    ParseCheckpointError(CheckpointFault),
    /// A SubjectPublicKeyInfo is of a kind that is not supported.
    PublicKeyUnsupportedAlgorithmError,
    /// The checker does not accept a signature.
    PublicKeyVerificationError,
    /// Bytes are not a SubjectPublicKeyInfo.
    KeyParsingError,
    /// The checker does not accept any of a checkpoint's signatures.
    CheckpointSignatureVerificationError,
    /// The certificate is valid from this second since 1970 on, which is later than now.
    CertificateValidityError(i64),
    /// The entry was logged before the certificate became valid; both in seconds since 1970.
    CertificateExpiredBeforeSignaturesSubmittedToRekor {
        integrated_time: i64,
        not_before: i64,
    },
    /// The entry was logged after the certificate's validity ended; both in seconds since 1970.
    CertificateIssuedAfterSignaturesSubmittedToRekor {
        integrated_time: i64,
        not_after: i64,
    },
    /// The certificate may not be used for digital signatures.
    CertificateWithoutDigitalSignatureKeyUsage,
    /// The certificate may not be used for code signing.
    CertificateWithoutCodeSigningKeyUsage,
    /// The certificate does not have one well-formed subject alternative name extension.
    CertificateWithoutSubjectAlternativeName,
    /// The subject alternative name has neither an email nor a URI.
    CertificateWithIncompleteSubjectAlternativeName,
    /// The pool of trust anchors rejects a certificate, or could not be made.
    CertificatePoolError(PoolError),
    /// A part of a certificate is malformed.
    CertificateParsingError,
    /// Bytes are not a certificate.
    X509Error,
    /// A checkpoint and a proof, or two heads, do not agree.
    ConsistencyProofError(MerkleProofError),
    /// An inclusion proof is rejected.
    InclusionProofError(MerkleProofError),
    /// No key of a log has this id.
    RekorPublicKeyNotFoundError(Text),
    /// A client's trust configuration cannot be used.
    SigstorePKIFileMalformedError(PkiFault),
    /// The trusted root has nothing of this part at the time asked.
    TufMetadataError(TrustPart),
    /// A text is not an identity token of Sigstore.
    IdentityTokenError(TokenFault),
    /// A layer is of another media type.
    SigstoreMediaTypeNotFoundError,
    /// A layer's bytes do not have the descriptor's digest.
    SigstoreLayerDigestMismatchError,
    /// A layer has no signature annotation.
    SigstoreAnnotationNotFoundError,
    /// No layer could be verified.
    SigstoreNoVerifiedLayer,
    /// For a caller's own verification constraints; no call here returns it.
    VerificationConstraintError(Text),
    /// For a caller's own signing constraints; no call here returns it.
    ApplyConstraintError(Text),
    /// Something is not as the call expects it.
    UnexpectedError(UnexpectedKind),
    /// Out of memory.
    OutOfMemory,
}

impl SigstoreError {
    /// The variant's name, which is also what Display writes.
    pub(crate) fn name(&self) -> &'static str {
        match self {
            SigstoreError::Base64DecodeError => "Base64DecodeError",
            SigstoreError::HexDecodeError => "HexDecodeError",
            SigstoreError::Utf8Error => "Utf8Error",
            SigstoreError::SerdeJsonError => "SerdeJsonError",
            SigstoreError::ParseCheckpointError(_) => "ParseCheckpointError",
            SigstoreError::PublicKeyUnsupportedAlgorithmError =>
                "PublicKeyUnsupportedAlgorithmError",
            SigstoreError::PublicKeyVerificationError => "PublicKeyVerificationError",
            SigstoreError::KeyParsingError => "KeyParsingError",
            SigstoreError::CheckpointSignatureVerificationError =>
                "CheckpointSignatureVerificationError",
            SigstoreError::CertificateValidityError(_) => "CertificateValidityError",
            SigstoreError::CertificateExpiredBeforeSignaturesSubmittedToRekor { .. } =>
                "CertificateExpiredBeforeSignaturesSubmittedToRekor",
            SigstoreError::CertificateIssuedAfterSignaturesSubmittedToRekor { .. } =>
                "CertificateIssuedAfterSignaturesSubmittedToRekor",
            SigstoreError::CertificateWithoutDigitalSignatureKeyUsage =>
                "CertificateWithoutDigitalSignatureKeyUsage",
            SigstoreError::CertificateWithoutCodeSigningKeyUsage =>
                "CertificateWithoutCodeSigningKeyUsage",
            SigstoreError::CertificateWithoutSubjectAlternativeName =>
                "CertificateWithoutSubjectAlternativeName",
            SigstoreError::CertificateWithIncompleteSubjectAlternativeName =>
                "CertificateWithIncompleteSubjectAlternativeName",
            SigstoreError::CertificatePoolError(_) => "CertificatePoolError",
            SigstoreError::CertificateParsingError => "CertificateParsingError",
            SigstoreError::X509Error => "X509Error",
            SigstoreError::ConsistencyProofError(_) => "ConsistencyProofError",
            SigstoreError::InclusionProofError(_) => "InclusionProofError",
            SigstoreError::RekorPublicKeyNotFoundError(_) => "RekorPublicKeyNotFoundError",
            SigstoreError::SigstorePKIFileMalformedError(_) => "SigstorePKIFileMalformedError",
            SigstoreError::TufMetadataError(_) => "TufMetadataError",
            SigstoreError::IdentityTokenError(_) => "IdentityTokenError",
            SigstoreError::SigstoreMediaTypeNotFoundError => "SigstoreMediaTypeNotFoundError",
            SigstoreError::SigstoreLayerDigestMismatchError => "SigstoreLayerDigestMismatchError",
            SigstoreError::SigstoreAnnotationNotFoundError => "SigstoreAnnotationNotFoundError",
            SigstoreError::SigstoreNoVerifiedLayer => "SigstoreNoVerifiedLayer",
            SigstoreError::VerificationConstraintError(_) => "VerificationConstraintError",
            SigstoreError::ApplyConstraintError(_) => "ApplyConstraintError",
            SigstoreError::UnexpectedError(_) => "UnexpectedError",
            SigstoreError::OutOfMemory => "OutOfMemory",
        }
    }
}

impl fmt::Display for SigstoreError {
    fn fmt<W: fmt::Write>(&self, f: &mut fmt::Formatter<W>) -> fmt::Result {
        f.write_str(self.name())
    }
}

impl Error for SigstoreError {}

impl From<OutOfMemory> for SigstoreError {
    ghost use Rattle.std.specs.Prelude.{◌≡◌};
    ghost use Rattle.sig_base.specs.declared.error.SigstoreError.TheVariants.{OutOfMemory as Memory};

    ghost from_gives = { λ _ e. e ≡ Memory };

    fn from(_error: OutOfMemory) -> SigstoreError {
        SigstoreError::OutOfMemory
    }
}

impl From<AllocError> for SigstoreError {
    ghost use Rattle.std.specs.Prelude.{◌≡◌};
    ghost use Rattle.sig_base.specs.declared.error.SigstoreError.TheVariants.{OutOfMemory as Memory};

    ghost from_gives = { λ _ e. e ≡ Memory };

    fn from(_error: AllocError) -> SigstoreError {
        SigstoreError::OutOfMemory
    }
}

impl<T: Drop> From<AllocFailed<T>> for SigstoreError {
    ghost use Rattle.std.specs.Prelude.{◌≡◌};
    ghost use Rattle.sig_base.specs.declared.error.SigstoreError.TheVariants.{OutOfMemory as Memory};

    ghost from_gives = { λ _ e. e ≡ Memory };

    fn from(_error: AllocFailed<T>) -> SigstoreError {
        SigstoreError::OutOfMemory
    }
}
