//! What errors keep, as members of the object of a refusal.
ghost use Rattle.std.specs.Prelude.{◌≡◌, IfOk};
ghost use Rattle.sig_json.specs.Writing.{members, members_into};
ghost use Rattle.sig_explanation.specs.KeptRows.{authority_bits, bundle_rows, digest_name, extension_part, kept_rows};
ghost use Rattle.sig_explanation.specs.KeptRows.{merkle_rows, not_ca_rows, profile_rows, validation_rows};

use crate::names::part_name;
use crate::policy::with_policy;
use sig_base::{MerkleProofError, OutOfMemory, OwnedList, Text};
use sig_certificate::{CertificateValidationError, ExtensionErrorKind, NotCAErrorKind, PartName};
use sig_checked_bundle::{BundleErrorKind, BundleProfileErrorKind};
use sig_dsse::DigestName;
use sig_json::Object;
use sig_shown::{ShownText, with_count, with_list, with_shown};
use sig_verify::OfflineError;
use std::alloc::Global;

/// The object with what the check of a proof keeps: the sizes `new` and `old`; how many hashes there are, `got`, and
/// how many there have to be, `want`; or the roots `expected`, that the proof leads to, and `got`, in hexadecimal.
/// Fails only if out of memory.
pub fn with_merkle(
    object: Object,
    alloc: Global,
    error: &MerkleProofError,
) -> Result<Object, OutOfMemory>
    ensures { IfOk result (λ made. members made ≡ members_into (members object) (merkle_rows error.now)) }
{
    match error {
        MerkleProofError::MismatchedRoot { expected, got } => object
            .with_hex(alloc, "expected", &expected.root)?
            .with_hex(alloc, "got", &got.root),
        MerkleProofError::NewTreeSmaller { new, old } => {
            let object = with_count(object, alloc, "new", *new)?;
            with_count(object, alloc, "old", *old)
        }
        MerkleProofError::WrongProofSize { got, want } => {
            let object = with_count(object, alloc, "got", *got)?;
            with_count(object, alloc, "want", *want)
        }
        MerkleProofError::IndexGtTreeSize
        | MerkleProofError::UnexpectedNonEmptyProof
        | MerkleProofError::UnexpectedEmptyProof
        | MerkleProofError::WrongEmptyTreeHash => Ok(object),
    }
}

/// The object with what an error keeps. Fails only if out of memory.
pub(crate) fn with_kept(
    object: Object,
    alloc: Global,
    error: &OfflineError,
) -> Result<Object, OutOfMemory>
    ensures { IfOk result (λ made. members made ≡ members_into (members object) (kept_rows error.now)) }
{
    match error {
        OfflineError::Anchor(place) => with_count(object, alloc, "index", *place as u64),
        OfflineError::Bundle(kind) => with_bundle(object, alloc, kind),
        OfflineError::Policy(error) => with_policy(object, alloc, error),
        OfflineError::RekorPublicKeyNotFoundError(id) => {
            with_shown(object, alloc, "logId", "logIdLength", id.as_str())
        }
        OfflineError::HashLength(index) => with_count(object, alloc, "index", *index as u64),
        OfflineError::ConsistencyProofError(error) | OfflineError::InclusionProofError(error) => {
            with_merkle(object, alloc, error)
        }
        _ => Ok(object),
    }
}

/// The object with what the checks of only a bundle keep.
fn with_bundle(object: Object, alloc: Global, kind: &BundleErrorKind) -> Result<Object, OutOfMemory>
    ensures { IfOk result (λ made. members made ≡ members_into (members object) (bundle_rows kind.now)) }
{
    match kind {
        BundleErrorKind::TooManyCertificates(count)
        | BundleErrorKind::DsseInvalidSignatureCount(count)
        | BundleErrorKind::DsseTooManySubjects(count)
        | BundleErrorKind::DsseTooManySubjectDigests(count)
        | BundleErrorKind::TlogEntry(count) => with_count(object, alloc, "count", *count as u64),
        BundleErrorKind::CertificateMalformed(place) => {
            with_count(object, alloc, "index", *place as u64)
        }
        BundleErrorKind::NoLeaf(error) => with_validation(object, alloc, error),
        BundleErrorKind::DsseSubjectDigestMalformed(name) => {
            object.with_text(alloc, "algorithm", digest_name(name))
        }
        BundleErrorKind::BundleProfile(error) => with_profile(object, alloc, error),
        _ => Ok(object),
    }
}

/// The object with what the check of a certificate's profile keeps.
fn with_validation(
    object: Object,
    alloc: Global,
    error: &CertificateValidationError,
) -> Result<Object, OutOfMemory>
    ensures { IfOk result (λ made. members made ≡ members_into (members object) (validation_rows error.now)) }
{
    match error {
        CertificateValidationError::NotCA(kind) => with_not_ca(object, alloc, kind),
        CertificateValidationError::Extension(kind) => {
            object.with_text(alloc, "part", part_name(extension_part(kind)))
        }
        CertificateValidationError::VersionUnsupported
        | CertificateValidationError::Malformed
        | CertificateValidationError::NotLeaf(_) => Ok(object),
    }
}

/// The object with what the check of an authority keeps.
fn with_not_ca(object: Object, alloc: Global, kind: &NotCAErrorKind) -> Result<Object, OutOfMemory>
    ensures { IfOk result (λ made. members made ≡ members_into (members object) (not_ca_rows kind.now)) }
{
    match kind {
        NotCAErrorKind::Invalid { ca, key_cert_sign } => {
            let names = authority_bits(alloc, *ca, *key_cert_sign)?;
            with_list::<ShownText>(object, alloc, "set", names.as_slice())
        }
        NotCAErrorKind::NotCA | NotCAErrorKind::NotRootCA => Ok(object),
    }
}

/// Which of the two are set that an authority sets together.
fn authority_bits(
    alloc: Global,
    ca: bool,
    key_cert_sign: bool,
) -> Result<OwnedList<Text>, OutOfMemory>
    ensures { IfOk result (λ names. names ≡ authority_bits ca key_cert_sign) }
{
    let mut names = OwnedList::new(alloc);
    if ca {
        names.push(Text::copy_of(alloc, "cA")?)?;
    }
    if key_cert_sign {
        names.push(Text::copy_of(alloc, "keyCertSign")?)?;
    }
    Ok(names)
}

/// The part of a certificate that an extension's error names.
fn extension_part(kind: &ExtensionErrorKind) -> &PartName
    ensures { result.now ≡ extension_part kind.now }
{
    match kind {
        ExtensionErrorKind::Missing(part)
        | ExtensionErrorKind::NotCritical(part)
        | ExtensionErrorKind::BitUnset(part) => part,
    }
}

fn digest_name(name: &DigestName) -> &'static str
    ensures { result.now ≡ digest_name name.now }
{
    match name {
        DigestName::Sha256 => "sha256",
        DigestName::Sha512 => "sha512",
    }
}

/// The object with what the check of a bundle's profile keeps.
fn with_profile(
    object: Object,
    alloc: Global,
    error: &BundleProfileErrorKind,
) -> Result<Object, OutOfMemory>
    ensures { IfOk result (λ made. members made ≡ members_into (members object) (profile_rows error.now)) }
{
    match error {
        BundleProfileErrorKind::Unknown(media_type) => with_shown(
            object,
            alloc,
            "mediaType",
            "mediaTypeLength",
            media_type.as_str(),
        ),
        BundleProfileErrorKind::Bundle01Profile(_) | BundleProfileErrorKind::Bundle02Profile(_) => {
            Ok(object)
        }
    }
}
