//! `UnexpectedKind`: what was not as a call expects it.
use std::fmt;

/// What was not as the call expects it, in the order in which the calls of a bundle look at it.
#[derive(Clone, Copy, Debug, PartialEq, Eq)]
pub enum UnexpectedKind {
    /// The bytes are not a bundle.
    BundleUnreadable,
    /// The content is not an envelope.
    ContentNotDsse,
    /// The envelope's payload type is not the expected one.
    PayloadType,
    /// The payload is not an in-toto statement.
    Statement,
    /// The statement's type is not the expected one.
    StatementType,
    /// The predicate's type is not the expected one.
    PredicateType,
    /// The statement has no subject.
    NoSubjects,
    /// The first subject has no SHA-256 digest.
    FirstSubjectWithoutSha256,
    /// The subject's digest is not the expected one.
    SubjectDigest,
    /// The envelope's number of signatures, which is not one.
    SignatureCount(usize),
    /// The bundle has no verification material.
    MaterialMissing,
    /// The verification material is not a single certificate.
    MaterialNotCertificate,
    /// The bundle's number of log entries, which is not one.
    EntryCount(usize),
    /// No keys of a log were given.
    KeysMissing,
    /// The log entry has no log id.
    LogIdMissing,
    /// The log entry has no inclusion promise.
    PromiseMissing,
    /// An integer of the promise has no exact spelling in canonical JSON.
    PromiseInteger,
    /// The checker does not accept the inclusion promise.
    Promise,
    /// There is no inclusion proof.
    ProofMissing,
    /// The proof's root does not have 32 bytes.
    RootLength,
    /// The hash at this index of the proof does not have 32 bytes.
    HashLength(usize),
    /// The tree size is negative.
    TreeSize,
    /// The proof has no checkpoint.
    CheckpointMissing,
    /// The proof's texts could not be read.
    ProofConversion,
    /// The body has no canonical JSON.
    CanonicalBody,
    /// The log body is about another signature, key or digest.
    Body,
    /// The layer's bytes are not a simple signing document.
    LayerUnreadable,
    /// The layer is about another image.
    ImageDigest,
}

impl UnexpectedKind {
    /// The variant's name, which is also what Display writes.
    pub(crate) fn name(self) -> &'static str {
        match self {
            UnexpectedKind::BundleUnreadable => "BundleUnreadable",
            UnexpectedKind::ContentNotDsse => "ContentNotDsse",
            UnexpectedKind::PayloadType => "PayloadType",
            UnexpectedKind::Statement => "Statement",
            UnexpectedKind::StatementType => "StatementType",
            UnexpectedKind::PredicateType => "PredicateType",
            UnexpectedKind::NoSubjects => "NoSubjects",
            UnexpectedKind::FirstSubjectWithoutSha256 => "FirstSubjectWithoutSha256",
            UnexpectedKind::SubjectDigest => "SubjectDigest",
            UnexpectedKind::SignatureCount(_) => "SignatureCount",
            UnexpectedKind::MaterialMissing => "MaterialMissing",
            UnexpectedKind::MaterialNotCertificate => "MaterialNotCertificate",
            UnexpectedKind::EntryCount(_) => "EntryCount",
            UnexpectedKind::KeysMissing => "KeysMissing",
            UnexpectedKind::LogIdMissing => "LogIdMissing",
            UnexpectedKind::PromiseMissing => "PromiseMissing",
            UnexpectedKind::PromiseInteger => "PromiseInteger",
            UnexpectedKind::Promise => "Promise",
            UnexpectedKind::ProofMissing => "ProofMissing",
            UnexpectedKind::RootLength => "RootLength",
            UnexpectedKind::HashLength(_) => "HashLength",
            UnexpectedKind::TreeSize => "TreeSize",
            UnexpectedKind::CheckpointMissing => "CheckpointMissing",
            UnexpectedKind::ProofConversion => "ProofConversion",
            UnexpectedKind::CanonicalBody => "CanonicalBody",
            UnexpectedKind::Body => "Body",
            UnexpectedKind::LayerUnreadable => "LayerUnreadable",
            UnexpectedKind::ImageDigest => "ImageDigest",
        }
    }
}

impl fmt::Display for UnexpectedKind {
    fn fmt<W: fmt::Write>(&self, f: &mut fmt::Formatter<W>) -> fmt::Result {
        f.write_str(self.name())
    }
}
