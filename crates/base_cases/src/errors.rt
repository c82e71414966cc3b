//! The texts of the errors: the Debug text of each variant, which begins with its Display text.

use sig_base::{
    CheckpointFault, DerError, Failed, MerkleProofError, OutOfMemory, PkiFault, PoolError, RootHex,
    SigstoreError, Text, TokenFault, TrustPart, UnexpectedKind, UnknownScheme,
};
use sig_cases::{Answer, Arguments};
use std::alloc::Global;

/// `errors TYPE`: each variant of this type of errors.
pub(crate) fn all(arguments: &mut Arguments<'_>, answer: &mut Answer) {
    answer.ok();
    match arguments.word() {
        "OutOfMemory" => answer.shown(&OutOfMemory),
        "Failed" => answer.shown(&Failed),
        "UnknownScheme" => answer.shown(&UnknownScheme),
        "DerError" => der_errors(answer),
        "CheckpointFault" => checkpoint_faults(answer),
        "PoolError" => pool_errors(answer),
        "TokenFault" => token_faults(answer),
        "PkiFault" => answer.each_shown(&[PkiFault::NotReadable, PkiFault::TrustedRootMissing]),
        "TrustPart" => answer.each_shown(&[TrustPart::Fulcio, TrustPart::Ctfe]),
        "UnexpectedKind" => unexpected_kinds(answer),
        "MerkleProofError" => merkle_errors(answer),
        "SigstoreError" => sigstore_errors(arguments.alloc(), answer),
        _ => arguments.refuse(),
    }
}

fn der_errors(answer: &mut Answer) {
    answer.each_shown(&[
        DerError::Truncated,
        DerError::LongTag,
        DerError::Length,
        DerError::Trailing,
        DerError::WrongTag,
        DerError::Value,
    ]);
}

fn checkpoint_faults(answer: &mut Answer) {
    answer.each_shown(&[
        CheckpointFault::Format,
        CheckpointFault::NoDash,
        CheckpointFault::SignatureFormat,
        CheckpointFault::SignatureBase64,
        CheckpointFault::SignatureLength,
        CheckpointFault::NoteFormat,
        CheckpointFault::EmptyOrigin,
        CheckpointFault::Size,
        CheckpointFault::HashBase64,
        CheckpointFault::HashLength,
    ]);
}

fn pool_errors(answer: &mut Answer) {
    answer.each_shown(&[
        PoolError::TooMany(1025),
        PoolError::Anchor(3),
        PoolError::Malformed,
        PoolError::VerificationFailed,
        PoolError::OutOfMemory,
    ]);
}

fn token_faults(answer: &mut Answer) {
    answer.each_shown(&[
        TokenFault::NotThreeParts,
        TokenFault::ClaimsBase64,
        TokenFault::ClaimsJson,
        TokenFault::NotSigstore,
    ]);
}

fn unexpected_kinds(answer: &mut Answer) {
    answer.each_shown(&[
        UnexpectedKind::BundleUnreadable,
        UnexpectedKind::ContentNotDsse,
        UnexpectedKind::PayloadType,
        UnexpectedKind::Statement,
        UnexpectedKind::StatementType,
        UnexpectedKind::PredicateType,
        UnexpectedKind::NoSubjects,
        UnexpectedKind::FirstSubjectWithoutSha256,
        UnexpectedKind::SubjectDigest,
        UnexpectedKind::SignatureCount(4),
        UnexpectedKind::MaterialMissing,
        UnexpectedKind::MaterialNotCertificate,
        UnexpectedKind::EntryCount(4),
        UnexpectedKind::KeysMissing,
        UnexpectedKind::LogIdMissing,
        UnexpectedKind::PromiseMissing,
        UnexpectedKind::PromiseInteger,
        UnexpectedKind::Promise,
        UnexpectedKind::ProofMissing,
        UnexpectedKind::RootLength,
        UnexpectedKind::HashLength(4),
        UnexpectedKind::TreeSize,
        UnexpectedKind::CheckpointMissing,
        UnexpectedKind::ProofConversion,
        UnexpectedKind::CanonicalBody,
        UnexpectedKind::Body,
        UnexpectedKind::LayerUnreadable,
        UnexpectedKind::ImageDigest,
    ]);
}

fn merkle_errors(answer: &mut Answer) {
    answer.each_shown(&[
        MerkleProofError::MismatchedRoot {
            expected: RootHex { root: [7; 32] },
            got: RootHex { root: [7; 32] },
        },
        MerkleProofError::IndexGtTreeSize,
        MerkleProofError::UnexpectedNonEmptyProof,
        MerkleProofError::UnexpectedEmptyProof,
        MerkleProofError::NewTreeSmaller { new: 1, old: 2 },
        MerkleProofError::WrongProofSize { got: 1, want: 2 },
        MerkleProofError::WrongEmptyTreeHash,
    ]);
}

fn sigstore_errors(alloc: Global, answer: &mut Answer) {
    plain_errors(answer);
    errors_of_errors(answer);
    errors_of_texts(alloc, answer);
}

/// The variants of `SigstoreError` that hold nothing.
fn plain_errors(answer: &mut Answer) {
    answer.each_shown(&[
        SigstoreError::Base64DecodeError,
        SigstoreError::HexDecodeError,
        SigstoreError::Utf8Error,
        SigstoreError::SerdeJsonError,
        SigstoreError::PublicKeyUnsupportedAlgorithmError,
        SigstoreError::PublicKeyVerificationError,
        SigstoreError::KeyParsingError,
        SigstoreError::CheckpointSignatureVerificationError,
        SigstoreError::CertificateWithoutDigitalSignatureKeyUsage,
        SigstoreError::CertificateWithoutCodeSigningKeyUsage,
        SigstoreError::CertificateWithoutSubjectAlternativeName,
        SigstoreError::CertificateWithIncompleteSubjectAlternativeName,
        SigstoreError::CertificateParsingError,
        SigstoreError::X509Error,
        SigstoreError::SigstoreMediaTypeNotFoundError,
        SigstoreError::SigstoreLayerDigestMismatchError,
        SigstoreError::SigstoreAnnotationNotFoundError,
        SigstoreError::SigstoreNoVerifiedLayer,
        SigstoreError::OutOfMemory,
    ]);
}

/// Those that hold errors and seconds.
fn errors_of_errors(answer: &mut Answer) {
    answer.each_shown(&[
        SigstoreError::ParseCheckpointError(CheckpointFault::Size),
        SigstoreError::CertificateValidityError(7),
        SigstoreError::CertificatePoolError(PoolError::Malformed),
        SigstoreError::ConsistencyProofError(MerkleProofError::IndexGtTreeSize),
        SigstoreError::InclusionProofError(MerkleProofError::IndexGtTreeSize),
        SigstoreError::SigstorePKIFileMalformedError(PkiFault::NotReadable),
        SigstoreError::TufMetadataError(TrustPart::Ctfe),
        SigstoreError::IdentityTokenError(TokenFault::NotSigstore),
        SigstoreError::UnexpectedError(UnexpectedKind::Body),
        SigstoreError::CertificateExpiredBeforeSignaturesSubmittedToRekor {
            integrated_time: 6,
            not_before: 7,
        },
        SigstoreError::CertificateIssuedAfterSignaturesSubmittedToRekor {
            integrated_time: 8,
            not_after: 7,
        },
    ]);
}

/// Those that hold texts.
fn errors_of_texts(alloc: Global, answer: &mut Answer) {
    let id = text_of(alloc, answer, "id");
    answer.error(SigstoreError::RekorPublicKeyNotFoundError(id));
    let text = text_of(alloc, answer, "text");
    answer.error(SigstoreError::VerificationConstraintError(text));
    let text = text_of(alloc, answer, "text");
    answer.error(SigstoreError::ApplyConstraintError(text));
}

fn text_of(alloc: Global, answer: &mut Answer, text: &str) -> Text {
    match Text::copy_of(alloc, text) {
        Ok(copied) => copied,
        Err(_) => {
            answer.out_of_memory();
            Text::from(String::new(alloc))
        }
    }
}
