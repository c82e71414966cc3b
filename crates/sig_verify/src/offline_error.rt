//! `OfflineError`: the first link of the chain of trust that does not hold.
ghost use Rattle.std.specs.Prelude.{◌≡◌, IsSome};
ghost use Rattle.sig_base.specs.Answers.{OrMemory};
ghost use Rattle.sig_verify.specs.OfflineErrors.{IsProofRefusal};
ghost use Rattle.sig_verify.specs.OfflineErrors.{bundle_link, certificate_link, link_of, of_canonical, of_fields};
ghost use Rattle.sig_verify.specs.OfflineErrors.{of_json};
ghost use Rattle.sig_verify.specs.OfflineErrors.{of_proof, of_verification, signature_link};
ghost use Rattle.sig_verify.specs.declared.offline_error.OfflineError.TheVariants.{OutOfMemory as Memory};

use crate::error::{CertificateErrorKind, SignatureErrorKind, VerificationError};
use crate::link::Link;
use sig_base::{CheckpointFault, MerkleProofError, OutOfMemory, SigstoreError, Text, TrustPart};
use sig_bundle::ProofFieldsError;
use sig_checked_bundle::BundleErrorKind;
use sig_json::JsonError;
use sig_json_text::CanonicalError;
use sig_x509::PolicyError;
use std::alloc::AllocError;
use std::error::Error;
use std::fmt;

/// Which of two texts cannot be read.
#[derive(Clone, Copy, Debug, PartialEq, Eq)]
pub enum Part {
    /// The text of the trusted root, of the link `root-json`.
    Root,
    /// The text of the bundle, of the link `bundle-json`.
    Bundle,
}

/// Why a bundle is not trusted, or that memory ran out. The variants are in the order of the links.
#[derive(Debug, Drop)]
pub enum OfflineError {
    /// The text of this part cannot be read.
    Json(Part, JsonError),
    /// The trusted root has nothing of this part at the time.
    TrustRoot(TrustPart),
    /// The certificate at this index of its authorities is not a trust anchor.
    Anchor(usize),
    /// The bundle does not pass its own checks.
    Bundle(BundleErrorKind),
    /// The certificate is not trusted.
    Certificate(CertificateErrorKind),
    /// The policy does not hold of the certificate.
    Policy(PolicyError),
    /// The signature is not one over the artifact that a log has.
    Signature(SignatureErrorKind),
    /// The entry does not name a log.
    LogIdMissing,
    /// There is no key of the log of this id, in lower-case hexadecimal.
    RekorPublicKeyNotFoundError(Text),
    /// The key is not a SubjectPublicKeyInfo.
    KeyParsingError,
    /// The key is of a kind that is not supported.
    PublicKeyUnsupportedAlgorithmError,
    /// The entry has no promise.
    PromiseMissing,
    /// The entry's time or index is outside plus or minus 2^53 - 1.
    PromiseInteger,
    /// The log did not sign the promise.
    Promise,
    /// The entry has no inclusion proof.
    ProofMissing,
    /// The proof's root hash does not have 32 bytes.
    RootLength,
    /// The proof's hash at this index does not have 32 bytes.
    HashLength(usize),
    /// The proof's tree size is negative.
    TreeSize,
    /// The proof has no checkpoint.
    CheckpointMissing,
    /// The checkpoint breaks this rule of its format first.
    ParseCheckpointError(CheckpointFault),
    /// The log did not sign the checkpoint.
    CheckpointSignatureVerificationError,
    /// The checkpoint is of another tree than the proof.
    ConsistencyProofError(MerkleProofError),
    /// The audit path does not lead from the entry to the root.
    InclusionProofError(MerkleProofError),
    /// Out of memory.
    OutOfMemory,
}

impl OfflineError {
    /// Returns the link that does not hold; `None` if memory ran out.
    pub fn link(&self) -> Option<Link>
        ensures { result ≡ link_of self.now }
    {
        match self {
            OfflineError::Json(Part::Root, _) => Some(Link::RootJson),
            OfflineError::Json(Part::Bundle, _) => Some(Link::BundleJson),
            OfflineError::TrustRoot(TrustPart::Fulcio) => Some(Link::Fulcio),
            OfflineError::TrustRoot(TrustPart::Ctfe) => Some(Link::Ctfe),
            OfflineError::Anchor(_) => Some(Link::Anchor),
            OfflineError::Bundle(kind) => bundle_link(kind),
            OfflineError::Certificate(kind) => certificate_link(kind),
            OfflineError::Policy(_) => Some(Link::Policy),
            OfflineError::Signature(kind) => Some(signature_link(kind)),
            OfflineError::LogIdMissing
            | OfflineError::RekorPublicKeyNotFoundError(_)
            | OfflineError::KeyParsingError
            | OfflineError::PublicKeyUnsupportedAlgorithmError => Some(Link::LogKey),
            OfflineError::PromiseMissing | OfflineError::PromiseInteger | OfflineError::Promise => {
                Some(Link::Promise)
            }
            OfflineError::ProofMissing
            | OfflineError::RootLength
            | OfflineError::HashLength(_)
            | OfflineError::TreeSize
            | OfflineError::CheckpointMissing => Some(Link::Proof),
            OfflineError::ParseCheckpointError(_) => Some(Link::Checkpoint),
            OfflineError::CheckpointSignatureVerificationError => Some(Link::NoteKey),
            OfflineError::ConsistencyProofError(_) => Some(Link::NoteMatch),
            OfflineError::InclusionProofError(_) => Some(Link::Inclusion),
            OfflineError::OutOfMemory => None,
        }
    }
}

/// The link of a bundle's own check.
fn bundle_link(kind: &BundleErrorKind) -> Option<Link>
    ensures { result ≡ bundle_link kind.now }
{
    match kind {
        BundleErrorKind::VerificationMaterialMissing
        | BundleErrorKind::VerificationMaterialContentUnsupported => Some(Link::Material),
        BundleErrorKind::TooManyCertificates(_)
        | BundleErrorKind::CertificateMalformed(_)
        | BundleErrorKind::CertificatesMissing => { Some(Link::Certificate) }
        BundleErrorKind::NoLeaf(_) => Some(Link::Leaf),
        BundleErrorKind::RootInChain => Some(Link::RootInChain),
        BundleErrorKind::SignatureMissing => Some(Link::Content),
        BundleErrorKind::DsseInvalidSignatureCount(_)
        | BundleErrorKind::DssePayloadDecode
        | BundleErrorKind::DsseTooManySubjects(_)
        | BundleErrorKind::DsseTooManySubjectDigests(_)
        | BundleErrorKind::DsseSubjectDigestMalformed(_)
        | BundleErrorKind::DsseNoRecognizedSubjectDigest => Some(Link::Envelope),
        BundleErrorKind::TlogEntry(_) => Some(Link::Entry),
        BundleErrorKind::BundleProfile(_) => Some(Link::Profile),
        BundleErrorKind::OutOfMemory => None,
    }
}

/// The link of a certificate's check.
fn certificate_link(kind: &CertificateErrorKind) -> Option<Link>
    ensures { result ≡ certificate_link kind.now }
{
    match kind {
        CertificateErrorKind::Malformed => Some(Link::Issuance),
        CertificateErrorKind::VerificationFailed => Some(Link::Issuer),
        CertificateErrorKind::Sct(_) => Some(Link::Sct),
        CertificateErrorKind::Expired => Some(Link::Time),
    }
}

/// The link of a signature's check.
fn signature_link(kind: &SignatureErrorKind) -> Link
    ensures { result ≡ signature_link kind.now }
{
    match kind {
        SignatureErrorKind::AlgoUnsupported => Link::Key,
        SignatureErrorKind::DigestAlgorithmUnsupported | SignatureErrorKind::VerificationFailed =>
            Link::Signature,
        SignatureErrorKind::SubjectDigestMismatch => Link::Subject,
        SignatureErrorKind::Transparency => Link::Body,
    }
}

impl From<OutOfMemory> for OfflineError {
    ghost from_gives = { λ _ e. e ≡ Memory };

    fn from(_error: OutOfMemory) -> OfflineError {
        OfflineError::OutOfMemory
    }
}

impl From<AllocError> for OfflineError {
    ghost from_gives = { λ _ e. e ≡ Memory };

    fn from(_error: AllocError) -> OfflineError {
        OfflineError::OutOfMemory
    }
}

impl From<CanonicalError> for OfflineError {
    ghost from_gives = { λ error e. e ≡ of_canonical error };

    fn from(error: CanonicalError) -> OfflineError {
        match error {
            CanonicalError::IntegerTooLarge => OfflineError::PromiseInteger,
            CanonicalError::OutOfMemory => OfflineError::OutOfMemory,
        }
    }
}

impl From<ProofFieldsError> for OfflineError {
    ghost from_gives = { λ error e. e ≡ of_fields error };

    fn from(error: ProofFieldsError) -> OfflineError {
        match error {
            ProofFieldsError::RootLength => OfflineError::RootLength,
            ProofFieldsError::HashLength(index) => OfflineError::HashLength(index),
            ProofFieldsError::TreeSize => OfflineError::TreeSize,
            ProofFieldsError::CheckpointMissing => OfflineError::CheckpointMissing,
            ProofFieldsError::Checkpoint(fault) => OfflineError::ParseCheckpointError(fault),
            ProofFieldsError::OutOfMemory => OfflineError::OutOfMemory,
        }
    }
}

/// The error of a text that was not read.
pub(crate) fn json_error(part: Part, error: JsonError) -> OfflineError
    ensures { result ≡ of_json part error }
{
    match error {
        JsonError::OutOfMemory => OfflineError::OutOfMemory,
        error => OfflineError::Json(part, error),
    }
}

/// The error of a bundle that a verifier refused for a given digest, so that no artifact was read.
pub(crate) fn verification_error(error: VerificationError) -> OfflineError
    requires { OrMemory VerificationError.OutOfMemory error (IsSome (link_of (of_verification error))) }
    ensures { result ≡ of_verification error }
{
    match error {
        VerificationError::Input(_) => unreachable!(),
        VerificationError::Bundle(kind) => OfflineError::Bundle(kind),
        VerificationError::Certificate(kind) => OfflineError::Certificate(kind),
        VerificationError::Signature(kind) => OfflineError::Signature(kind),
        VerificationError::Policy(error) => OfflineError::Policy(error),
        VerificationError::OutOfMemory => OfflineError::OutOfMemory,
    }
}

/// The error of a proof that was not accepted. A proof whose checkpoint was read has only these errors.
pub(crate) fn proof_error(error: SigstoreError) -> OfflineError
    requires { OrMemory SigstoreError.OutOfMemory error (IsProofRefusal error) }
    ensures { result ≡ of_proof error }
{
    match error {
        SigstoreError::CheckpointSignatureVerificationError => {
            OfflineError::CheckpointSignatureVerificationError
        }
        SigstoreError::ConsistencyProofError(error) => OfflineError::ConsistencyProofError(error),
        SigstoreError::InclusionProofError(error) => OfflineError::InclusionProofError(error),
        SigstoreError::OutOfMemory => OfflineError::OutOfMemory,
        _ => unreachable!(),
    }
}

impl fmt::Display for OfflineError {
    fn fmt<W: fmt::Write>(&self, f: &mut fmt::Formatter<W>) -> fmt::Result {
        f.write_str(self.name())
    }
}

impl Error for OfflineError {}

impl OfflineError {
    /// The variant's name, which is also what Display writes.
    fn name(&self) -> &'static str {
        match self {
            OfflineError::Json(_, _) => "Json",
            OfflineError::TrustRoot(_) => "TrustRoot",
            OfflineError::Anchor(_) => "Anchor",
            OfflineError::Bundle(_) => "Bundle",
            OfflineError::Certificate(_) => "Certificate",
            OfflineError::Policy(_) => "Policy",
            OfflineError::Signature(_) => "Signature",
            OfflineError::LogIdMissing => "LogIdMissing",
            OfflineError::RekorPublicKeyNotFoundError(_) => "RekorPublicKeyNotFoundError",
            OfflineError::KeyParsingError => "KeyParsingError",
            OfflineError::PublicKeyUnsupportedAlgorithmError =>
                "PublicKeyUnsupportedAlgorithmError",
            OfflineError::PromiseMissing => "PromiseMissing",
            OfflineError::PromiseInteger => "PromiseInteger",
            OfflineError::Promise => "Promise",
            OfflineError::ProofMissing => "ProofMissing",
            OfflineError::RootLength => "RootLength",
            OfflineError::HashLength(_) => "HashLength",
            OfflineError::TreeSize => "TreeSize",
            OfflineError::CheckpointMissing => "CheckpointMissing",
            OfflineError::ParseCheckpointError(_) => "ParseCheckpointError",
            OfflineError::CheckpointSignatureVerificationError =>
                "CheckpointSignatureVerificationError",
            OfflineError::ConsistencyProofError(_) => "ConsistencyProofError",
            OfflineError::InclusionProofError(_) => "InclusionProofError",
            OfflineError::OutOfMemory => "OutOfMemory",
        }
    }
}
