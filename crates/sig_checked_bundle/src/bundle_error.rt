//! `BundleErrorKind`: why a bundle does not pass its own checks.

ghost use Rattle.std.specs.Prelude.{◌≡◌};
ghost use Rattle.sig_checked_bundle.specs.declared.bundle_error.BundleErrorKind.TheVariants.{OutOfMemory as Memory};
ghost use Rattle.sig_checked_bundle.specs.declared.bundle_error.BundleErrorKind.TheVariants.{BundleProfile};
ghost use Rattle.sig_checked_bundle.specs.declared.bundle_error.BundleProfileErrorKind.TheVariants.{Bundle01Profile};
ghost use Rattle.sig_checked_bundle.specs.declared.bundle_error.BundleProfileErrorKind.TheVariants.{Bundle02Profile};
ghost use Rattle.sig_checked_bundle.specs.Content.{subject_refusal};

use sig_base::{OutOfMemory, Text};
use sig_certificate::CertificateValidationError;
use sig_dsse::{DigestName, SubjectFault};
use thiserror::Error;

/// Why a bundle does not pass its own checks, or that memory ran out. The variants are in the order of the checks.
#[derive(Debug, Drop, PartialEq, Eq, Error)]
pub enum BundleErrorKind {
    /// There is no verification material.
    #[error("VerificationMaterialMissing")]
    VerificationMaterialMissing,
    /// The material has no content, or a hint at a key, which is not read.
    #[error("VerificationMaterialContentUnsupported")]
    VerificationMaterialContentUnsupported,
    /// The number of certificates of a chain, which is above 17.
    #[error("TooManyCertificates")]
    TooManyCertificates(usize),
    /// The bytes at this index, counted from 0, are not a certificate.
    #[error("CertificateMalformed")]
    CertificateMalformed(usize),
    /// The chain of certificates is empty.
    #[error("CertificatesMissing")]
    CertificatesMissing,
    /// The first certificate may not sign.
    #[error("NoLeaf")]
    NoLeaf(CertificateValidationError),
    /// A later certificate is a root.
    #[error("RootInChain")]
    RootInChain,
    /// There is no content.
    #[error("SignatureMissing")]
    SignatureMissing,
    /// The number of signatures of an envelope, which is not one.
    #[error("DsseInvalidSignatureCount")]
    DsseInvalidSignatureCount(usize),
    /// The payload of an envelope is not a statement.
    #[error("DssePayloadDecode")]
    DssePayloadDecode,
    /// The number of subjects of a statement, which is above 1024.
    #[error("DsseTooManySubjects")]
    DsseTooManySubjects(usize),
    /// The number of digests of a subject, which is above 32.
    #[error("DsseTooManySubjectDigests")]
    DsseTooManySubjectDigests(usize),
    /// A digest of a subject is not hex of as many bytes as its name says.
    #[error("DsseSubjectDigestMalformed")]
    DsseSubjectDigestMalformed(DigestName),
    /// No subject has a digest that an artifact could be compared with.
    #[error("DsseNoRecognizedSubjectDigest")]
    DsseNoRecognizedSubjectDigest,
    /// The number of log entries, which is not one.
    #[error("TlogEntry")]
    TlogEntry(usize),
    /// The log entry does not have what the media type requires.
    #[error("BundleProfile")]
    BundleProfile(BundleProfileErrorKind),
    /// Out of memory.
    #[error("OutOfMemory")]
    OutOfMemory,
}

/// Why a log entry does not have what a bundle's media type requires.
#[derive(Debug, Drop, PartialEq, Eq, Error)]
pub enum BundleProfileErrorKind {
    /// What version 0.1 requires is not there.
    #[error("Bundle01Profile")]
    Bundle01Profile(Bundle01ProfileErrorKind),
    /// What the versions 0.2 and 0.3 require is not there.
    #[error("Bundle02Profile")]
    Bundle02Profile(Bundle02ProfileErrorKind),
    /// No profile is known for this media type.
    #[error("Unknown")]
    Unknown(Text),
}

/// What version 0.1 requires of a log entry and is not there.
#[derive(Clone, Copy, Debug, PartialEq, Eq, Error)]
pub enum Bundle01ProfileErrorKind {
    /// The log's promise.
    #[error("InclusionPromiseMissing")]
    InclusionPromiseMissing,
}

/// What the versions 0.2 and 0.3 require of a log entry and is not there.
#[derive(Clone, Copy, Debug, PartialEq, Eq, Error)]
pub enum Bundle02ProfileErrorKind {
    /// The proof that the log's tree has the entry.
    #[error("InclusionProofMissing")]
    InclusionProofMissing,
    /// The checkpoint of the inclusion proof.
    #[error("CheckpointMissing")]
    CheckpointMissing,
}

impl From<OutOfMemory> for BundleErrorKind {
    ghost from_gives = { λ _ e. e ≡ Memory };

    fn from(_error: OutOfMemory) -> BundleErrorKind {
        BundleErrorKind::OutOfMemory
    }
}

impl From<SubjectFault> for BundleErrorKind {
    ghost from_gives = { λ fault e. e ≡ subject_refusal fault };

    fn from(fault: SubjectFault) -> BundleErrorKind {
        match fault {
            SubjectFault::TooManySubjects(count) => BundleErrorKind::DsseTooManySubjects(count),
            SubjectFault::TooManyDigests(count) => BundleErrorKind::DsseTooManySubjectDigests(
                count,
            ),
            SubjectFault::Malformed(name) => BundleErrorKind::DsseSubjectDigestMalformed(name),
            SubjectFault::NoneRecognized => BundleErrorKind::DsseNoRecognizedSubjectDigest,
            SubjectFault::OutOfMemory => BundleErrorKind::OutOfMemory,
        }
    }
}

impl From<BundleProfileErrorKind> for BundleErrorKind {
    ghost from_gives = { λ kind e. e ≡ BundleProfile kind };

    fn from(kind: BundleProfileErrorKind) -> BundleErrorKind {
        BundleErrorKind::BundleProfile(kind)
    }
}

impl From<Bundle01ProfileErrorKind> for BundleProfileErrorKind {
    ghost from_gives = { λ kind e. e ≡ Bundle01Profile kind };

    fn from(kind: Bundle01ProfileErrorKind) -> BundleProfileErrorKind {
        BundleProfileErrorKind::Bundle01Profile(kind)
    }
}

impl From<Bundle02ProfileErrorKind> for BundleProfileErrorKind {
    ghost from_gives = { λ kind e. e ≡ Bundle02Profile kind };

    fn from(kind: Bundle02ProfileErrorKind) -> BundleProfileErrorKind {
        BundleProfileErrorKind::Bundle02Profile(kind)
    }
}
