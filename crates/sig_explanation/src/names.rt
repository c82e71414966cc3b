//! The names of the variants of errors, which say what went wrong, each from outside to inside.
ghost use Rattle.std.specs.Prelude.{◌≡◌};
ghost use Rattle.sig_explanation.specs.Names.{bundle_name, certificate_name, checkpoint_name, extension_name, json_name, keyring_name, merkle_name, not_ca_name, not_leaf_name, offline_name, parsing_name, part_name, policy_name, profile_01_name, profile_02_name, profile_name, sct_name, signature_name, trust_part_name, validation_name};

use sig_base::{CheckpointFault, MerkleProofError, TrustPart};
use sig_certificate::{
    CertificateValidationError, ExtensionErrorKind, NotCAErrorKind, NotLeafErrorKind, PartName,
};
use sig_checked_bundle::{
    Bundle01ProfileErrorKind, Bundle02ProfileErrorKind, BundleErrorKind, BundleProfileErrorKind,
};
use sig_json::JsonError;
use sig_policy::PolicyError;
use sig_timestamp::{CertificateErrorKind as ParsingKind, KeyringError, SCTError};
use sig_verify::{CertificateErrorKind, OfflineError, SignatureErrorKind};

/// The name of why a bundle is not trusted.
pub(crate) fn offline_name(error: &OfflineError) -> &'static str
    ensures { result.now ≡ offline_name error.now }
{
    match error {
        OfflineError::Json(_, _) => "Json",
        OfflineError::TrustRoot(_) => "TrustRoot",
        OfflineError::Anchor(_) => "Anchor",
        OfflineError::Bundle(_) => "Bundle",
        OfflineError::Certificate(_) => "Certificate",
        OfflineError::Policy(_) => "Policy",
        OfflineError::Signature(_) => "Signature",
        OfflineError::LogIdMissing => "LogIdMissing",
        OfflineError::RekorPublicKeyNotFoundError(_) => "RekorPublicKeyNotFoundError",
        OfflineError::KeyParsingError => "KeyParsingError",
        OfflineError::PublicKeyUnsupportedAlgorithmError => "PublicKeyUnsupportedAlgorithmError",
        OfflineError::PromiseMissing => "PromiseMissing",
        OfflineError::PromiseInteger => "PromiseInteger",
        OfflineError::Promise => "Promise",
        OfflineError::ProofMissing => "ProofMissing",
        OfflineError::RootLength => "RootLength",
        OfflineError::HashLength(_) => "HashLength",
        OfflineError::TreeSize => "TreeSize",
        OfflineError::CheckpointMissing => "CheckpointMissing",
        OfflineError::ParseCheckpointError(_) => "ParseCheckpointError",
        OfflineError::CheckpointSignatureVerificationError =>
            "CheckpointSignatureVerificationError",
        OfflineError::ConsistencyProofError(_) => "ConsistencyProofError",
        OfflineError::InclusionProofError(_) => "InclusionProofError",
        OfflineError::OutOfMemory => "OutOfMemory",
    }
}

/// The name of why a text is not a record.
pub(crate) fn json_name(error: &JsonError) -> &'static str
    ensures { result.now ≡ json_name error.now }
{
    match error {
        JsonError::NotJson => "NotJson",
        JsonError::Float => "Float",
        JsonError::Member => "Member",
        JsonError::OutOfMemory => "OutOfMemory",
    }
}

/// The name of the part of a trusted root that has nothing to offer.
pub(crate) fn trust_part_name(error: &TrustPart) -> &'static str
    ensures { result.now ≡ trust_part_name error.now }
{
    match error {
        TrustPart::Fulcio => "Fulcio",
        TrustPart::Ctfe => "Ctfe",
    }
}

/// The name of why a bundle does not pass its own checks.
pub(crate) fn bundle_name(error: &BundleErrorKind) -> &'static str
    ensures { result.now ≡ bundle_name error.now }
{
    match error {
        BundleErrorKind::VerificationMaterialMissing => "VerificationMaterialMissing",
        BundleErrorKind::VerificationMaterialContentUnsupported =>
            "VerificationMaterialContentUnsupported",
        BundleErrorKind::TooManyCertificates(_) => "TooManyCertificates",
        BundleErrorKind::CertificateMalformed(_) => "CertificateMalformed",
        BundleErrorKind::CertificatesMissing => "CertificatesMissing",
        BundleErrorKind::NoLeaf(_) => "NoLeaf",
        BundleErrorKind::RootInChain => "RootInChain",
        BundleErrorKind::SignatureMissing => "SignatureMissing",
        BundleErrorKind::DsseInvalidSignatureCount(_) => "DsseInvalidSignatureCount",
        BundleErrorKind::DssePayloadDecode => "DssePayloadDecode",
        BundleErrorKind::DsseTooManySubjects(_) => "DsseTooManySubjects",
        BundleErrorKind::DsseTooManySubjectDigests(_) => "DsseTooManySubjectDigests",
        BundleErrorKind::DsseSubjectDigestMalformed(_) => "DsseSubjectDigestMalformed",
        BundleErrorKind::DsseNoRecognizedSubjectDigest => "DsseNoRecognizedSubjectDigest",
        BundleErrorKind::TlogEntry(_) => "TlogEntry",
        BundleErrorKind::BundleProfile(_) => "BundleProfile",
        BundleErrorKind::OutOfMemory => "OutOfMemory",
    }
}

/// The name of why a certificate does not have the required profile.
pub(crate) fn validation_name(error: &CertificateValidationError) -> &'static str
    ensures { result.now ≡ validation_name error.now }
{
    match error {
        CertificateValidationError::VersionUnsupported => "VersionUnsupported",
        CertificateValidationError::Malformed => "Malformed",
        CertificateValidationError::NotLeaf(_) => "NotLeaf",
        CertificateValidationError::NotCA(_) => "NotCA",
        CertificateValidationError::Extension(_) => "Extension",
    }
}

/// The name of why a certificate is not a leaf.
pub(crate) fn not_leaf_name(error: &NotLeafErrorKind) -> &'static str
    ensures { result.now ≡ not_leaf_name error.now }
{
    match error {
        NotLeafErrorKind::IsCA => "IsCA",
    }
}

/// The name of why a certificate is not an authority.
pub(crate) fn not_ca_name(error: &NotCAErrorKind) -> &'static str
    ensures { result.now ≡ not_ca_name error.now }
{
    match error {
        NotCAErrorKind::NotCA => "NotCA",
        NotCAErrorKind::NotRootCA => "NotRootCA",
        NotCAErrorKind::Invalid { .. } => "Invalid",
    }
}

/// The name of what is wrong with an extension.
pub(crate) fn extension_name(error: &ExtensionErrorKind) -> &'static str
    ensures { result.now ≡ extension_name error.now }
{
    match error {
        ExtensionErrorKind::Missing(_) => "Missing",
        ExtensionErrorKind::NotCritical(_) => "NotCritical",
        ExtensionErrorKind::BitUnset(_) => "BitUnset",
    }
}

/// The name of a part of a certificate's extensions.
pub(crate) fn part_name(error: &PartName) -> &'static str
    ensures { result.now ≡ part_name error.now }
{
    match error {
        PartName::BasicConstraints => "BasicConstraints",
        PartName::KeyUsage => "KeyUsage",
        PartName::KeyUsageDigitalSignature => "KeyUsageDigitalSignature",
        PartName::ExtendedKeyUsage => "ExtendedKeyUsage",
        PartName::ExtendedKeyUsageDigitalSignature => "ExtendedKeyUsageDigitalSignature",
    }
}

/// The name of why a log entry does not have what a media type requires.
pub(crate) fn profile_name(error: &BundleProfileErrorKind) -> &'static str
    ensures { result.now ≡ profile_name error.now }
{
    match error {
        BundleProfileErrorKind::Bundle01Profile(_) => "Bundle01Profile",
        BundleProfileErrorKind::Bundle02Profile(_) => "Bundle02Profile",
        BundleProfileErrorKind::Unknown(_) => "Unknown",
    }
}

/// The name of what version 0.1 requires and is not there.
pub(crate) fn profile_01_name(error: &Bundle01ProfileErrorKind) -> &'static str
    ensures { result.now ≡ profile_01_name error.now }
{
    match error {
        Bundle01ProfileErrorKind::InclusionPromiseMissing => "InclusionPromiseMissing",
    }
}

/// The name of what the versions 0.2 and 0.3 require and is not there.
pub(crate) fn profile_02_name(error: &Bundle02ProfileErrorKind) -> &'static str
    ensures { result.now ≡ profile_02_name error.now }
{
    match error {
        Bundle02ProfileErrorKind::InclusionProofMissing => "InclusionProofMissing",
        Bundle02ProfileErrorKind::CheckpointMissing => "CheckpointMissing",
    }
}

/// The name of why a certificate is not trusted.
pub(crate) fn certificate_name(error: &CertificateErrorKind) -> &'static str
    ensures { result.now ≡ certificate_name error.now }
{
    match error {
        CertificateErrorKind::Malformed => "Malformed",
        CertificateErrorKind::Expired => "Expired",
        CertificateErrorKind::Sct(_) => "Sct",
        CertificateErrorKind::VerificationFailed => "VerificationFailed",
    }
}

/// The name of why an SCT is not accepted.
pub(crate) fn sct_name(error: &SCTError) -> &'static str
    ensures { result.now ≡ sct_name error.now }
{
    match error {
        SCTError::Parsing(_) => "Parsing",
        SCTError::Serialization => "Serialization",
        SCTError::Verification(_) => "Verification",
        SCTError::OutOfMemory => "OutOfMemory",
    }
}

/// The name of why an SCT is not read.
pub(crate) fn parsing_name(error: &ParsingKind) -> &'static str
    ensures { result.now ≡ parsing_name error.now }
{
    match error {
        ParsingKind::LeafSCTMissing => "LeafSCTMissing",
        ParsingKind::IssuerMissing => "IssuerMissing",
        ParsingKind::LeafSCTMalformed => "LeafSCTMalformed",
    }
}

/// The name of why a keyring does not vouch for a signature.
pub(crate) fn keyring_name(error: &KeyringError) -> &'static str
    ensures { result.now ≡ keyring_name error.now }
{
    match error {
        KeyringError::KeyMalformed => "KeyMalformed",
        KeyringError::AlgoUnsupported => "AlgoUnsupported",
        KeyringError::KeyNotFound => "KeyNotFound",
        KeyringError::VerificationFailed => "VerificationFailed",
        KeyringError::OutOfMemory => "OutOfMemory",
    }
}

/// The name of why a signature is not one over the artifact.
pub(crate) fn signature_name(error: &SignatureErrorKind) -> &'static str
    ensures { result.now ≡ signature_name error.now }
{
    match error {
        SignatureErrorKind::AlgoUnsupported => "AlgoUnsupported",
        SignatureErrorKind::VerificationFailed => "VerificationFailed",
        SignatureErrorKind::Transparency => "Transparency",
        SignatureErrorKind::SubjectDigestMismatch => "SubjectDigestMismatch",
        SignatureErrorKind::DigestAlgorithmUnsupported => "DigestAlgorithmUnsupported",
    }
}

/// The name of why a text is not a checkpoint.
pub fn checkpoint_name(error: &CheckpointFault) -> &'static str
    ensures { result.now ≡ checkpoint_name error.now }
{
    match error {
        CheckpointFault::Format => "Format",
        CheckpointFault::NoDash => "NoDash",
        CheckpointFault::SignatureFormat => "SignatureFormat",
        CheckpointFault::SignatureBase64 => "SignatureBase64",
        CheckpointFault::SignatureLength => "SignatureLength",
        CheckpointFault::NoteFormat => "NoteFormat",
        CheckpointFault::EmptyOrigin => "EmptyOrigin",
        CheckpointFault::Size => "Size",
        CheckpointFault::HashBase64 => "HashBase64",
        CheckpointFault::HashLength => "HashLength",
    }
}

/// The name of why the check of a proof fails.
pub fn merkle_name(error: &MerkleProofError) -> &'static str
    ensures { result.now ≡ merkle_name error.now }
{
    match error {
        MerkleProofError::MismatchedRoot { .. } => "MismatchedRoot",
        MerkleProofError::IndexGtTreeSize => "IndexGtTreeSize",
        MerkleProofError::UnexpectedNonEmptyProof => "UnexpectedNonEmptyProof",
        MerkleProofError::UnexpectedEmptyProof => "UnexpectedEmptyProof",
        MerkleProofError::NewTreeSmaller { .. } => "NewTreeSmaller",
        MerkleProofError::WrongProofSize { .. } => "WrongProofSize",
        MerkleProofError::WrongEmptyTreeHash => "WrongEmptyTreeHash",
    }
}

/// The name of why a policy does not hold.
pub(crate) fn policy_name(error: &PolicyError) -> &'static str
    ensures { result.now ≡ policy_name error.now }
{
    match error {
        PolicyError::ExtensionNotFound => "ExtensionNotFound",
        PolicyError::ExtensionCheckFailed { .. } => "ExtensionCheckFailed",
        PolicyError::AllOf { .. } => "AllOf",
        PolicyError::AnyOf { .. } => "AnyOf",
        PolicyError::OutOfMemory => "OutOfMemory",
    }
}
