//! The texts of the errors: the Debug text of each variant, which begins with its Display text; where the Display text
//! is not the name of the variant, it follows in brackets.

use sig_base::{CheckpointFault, MerkleProofError, Text, TrustPart};
use sig_cases::{Answer, Arguments};
use sig_checked_bundle::BundleErrorKind;
use sig_json::JsonError;
use sig_questions::NoQuestions;
use sig_verify::{
    CertificateErrorKind, InputFault, Link, OfflineError, Part, SignatureErrorKind,
    VerificationError,
};
use sig_x509::{PolicyError, SCTError};

/// `errors TYPE`: each variant.
pub(crate) fn of_type(arguments: &mut Arguments<'_>, answer: &mut Answer) {
    answer.ok();
    match arguments.word() {
        "InputFault" => answer.each_shown(&[InputFault::Fault, InputFault::TooLong]),
        "CertificateErrorKind" => certificate_errors(answer),
        "SignatureErrorKind" => signature_errors(answer),
        "VerificationError" => verification_errors(answer),
        "OfflineError" => offline_errors(arguments, answer),
        "NoQuestions" => answer.each_shown(&[
            NoQuestions::Link(Link::Issuer),
            NoQuestions::TooLong,
            NoQuestions::OutOfMemory,
        ]),
        _ => arguments.refuse(),
    }
}

fn certificate_errors(answer: &mut Answer) {
    answer.each_shown(&[
        CertificateErrorKind::Malformed,
        CertificateErrorKind::Expired,
        CertificateErrorKind::Sct(SCTError::Serialization),
        CertificateErrorKind::VerificationFailed,
    ]);
}

fn signature_errors(answer: &mut Answer) {
    answer.each_shown(&[
        SignatureErrorKind::AlgoUnsupported,
        SignatureErrorKind::VerificationFailed,
        SignatureErrorKind::Transparency,
        SignatureErrorKind::SubjectDigestMismatch,
        SignatureErrorKind::DigestAlgorithmUnsupported,
    ]);
}

fn verification_errors(answer: &mut Answer) {
    answer.each_shown(&[
        VerificationError::Input(InputFault::Fault),
        VerificationError::Bundle(BundleErrorKind::SignatureMissing),
        VerificationError::Certificate(CertificateErrorKind::Expired),
        VerificationError::Signature(SignatureErrorKind::Transparency),
        VerificationError::Policy(PolicyError::ExtensionNotFound),
        VerificationError::OutOfMemory,
    ]);
}

fn offline_errors(arguments: &Arguments<'_>, answer: &mut Answer) {
    plain(answer);
    with_value(answer);
    match Text::copy_of(arguments.alloc(), "id") {
        Ok(id) => answer.error(OfflineError::RekorPublicKeyNotFoundError(id)),
        Err(_) => answer.out_of_memory(),
    }
}

/// The variants that hold nothing.
fn plain(answer: &mut Answer) {
    answer.each_shown(&[
        OfflineError::LogIdMissing,
        OfflineError::KeyParsingError,
        OfflineError::PublicKeyUnsupportedAlgorithmError,
        OfflineError::PromiseMissing,
        OfflineError::PromiseInteger,
        OfflineError::Promise,
        OfflineError::ProofMissing,
        OfflineError::RootLength,
        OfflineError::TreeSize,
        OfflineError::CheckpointMissing,
        OfflineError::CheckpointSignatureVerificationError,
        OfflineError::OutOfMemory,
    ]);
}

/// Those that hold errors and numbers.
fn with_value(answer: &mut Answer) {
    answer.each_shown(&[
        OfflineError::Json(Part::Root, JsonError::NotJson),
        OfflineError::Json(Part::Bundle, JsonError::Float),
        OfflineError::TrustRoot(TrustPart::Ctfe),
        OfflineError::Anchor(3),
        OfflineError::Bundle(BundleErrorKind::SignatureMissing),
        OfflineError::Certificate(CertificateErrorKind::Expired),
        OfflineError::Policy(PolicyError::ExtensionNotFound),
        OfflineError::Signature(SignatureErrorKind::Transparency),
        OfflineError::HashLength(4),
        OfflineError::ParseCheckpointError(CheckpointFault::Size),
        OfflineError::ConsistencyProofError(MerkleProofError::IndexGtTreeSize),
        OfflineError::InclusionProofError(MerkleProofError::IndexGtTreeSize),
    ]);
}
