//! The cause of a refusal: the names of an error's variants, the outermost first.
ghost use Rattle.std.specs.Prelude.{◌≡◌, ◌++◌, ◌∷◌, [], IfOk, OnOk, codes};
ghost use Rattle.sig_json.specs.Writing.{members};
ghost use Rattle.sig_explanation.specs.Cause.{after_bundle, after_certificate, after_offline, after_profile, after_sct};
ghost use Rattle.sig_explanation.specs.Cause.{after_validation, bundle_cause, cause, certificate_cause, profile_cause};
ghost use Rattle.sig_explanation.specs.Cause.{sct_cause, validation_cause};
ghost use Rattle.sig_json.specs.Data.{put};
ghost use Rattle.sig_shown.specs.ShownValues.{texts_tree};

use crate::names::{
    bundle_name, certificate_name, checkpoint_name, extension_name, json_name, keyring_name,
    merkle_name, not_ca_name, not_leaf_name, offline_name, parsing_name, policy_name,
    profile_01_name, profile_02_name, profile_name, sct_name, signature_name, trust_part_name,
    validation_name,
};
use sig_base::{OutOfMemory, OwnedList, Text};
use sig_certificate::CertificateValidationError;
use sig_checked_bundle::{BundleErrorKind, BundleProfileErrorKind};
use sig_json::Object;
use sig_shown::{ShownText, with_list};
use sig_timestamp::SCTError;
use sig_verify::{CertificateErrorKind, OfflineError};
use std::alloc::Global;

/// The object with `cause`, a list of one name. Fails only if out of memory.
pub fn with_cause(object: Object, alloc: Global, name: &str) -> Result<Object, OutOfMemory>
    ensures { IfOk result (λ made. members made
        ≡ put (codes "cause") (texts_tree (name.now ∷ [])) (members object)) }
{
    let mut names = OwnedList::new(alloc);
    push(alloc, &mut names, name)?;
    with_list::<ShownText>(object, alloc, "cause", names.as_slice())
}

/// Adds a name at the end.
fn push(alloc: Global, names: &mut OwnedList<Text>, name: &str) -> Result<(), OutOfMemory>
    ensures { OnOk result (names.new ≡ names.old ++ name.now ∷ []) }
{
    names.push(Text::copy_of(alloc, name)?)
}

/// The object with `cause`, a list of two names, the outer one first. Fails only if out of memory.
pub fn with_inner_cause(
    object: Object,
    alloc: Global,
    name: &str,
    inner: &str,
) -> Result<Object, OutOfMemory>
    ensures { IfOk result (λ made. members made
        ≡ put (codes "cause") (texts_tree (name.now ∷ inner.now ∷ [])) (members object)) }
{
    let mut names = OwnedList::new(alloc);
    push(alloc, &mut names, name)?;
    push(alloc, &mut names, inner)?;
    with_list::<ShownText>(object, alloc, "cause", names.as_slice())
}

/// The names of an error's variants, the outermost first. Fails only if out of memory.
pub(crate) fn cause(alloc: Global, error: &OfflineError) -> Result<OwnedList<Text>, OutOfMemory>
    ensures { IfOk result (λ names. names ≡ cause error.now) }
{
    let mut names = OwnedList::new(alloc);
    push(alloc, &mut names, offline_name(error))?;
    push_after(alloc, &mut names, error)?;
    Ok(names)
}

/// Adds the names after the first.
fn push_after(
    alloc: Global,
    names: &mut OwnedList<Text>,
    error: &OfflineError,
) -> Result<(), OutOfMemory>
    ensures { OnOk result (names.new ≡ names.old ++ after_offline error.now) }
{
    match error {
        OfflineError::Json(_, error) => push(alloc, names, json_name(error)),
        OfflineError::TrustRoot(part) => push(alloc, names, trust_part_name(part)),
        OfflineError::Bundle(kind) => push_bundle(alloc, names, kind),
        OfflineError::Certificate(kind) => push_certificate(alloc, names, kind),
        OfflineError::Policy(error) => push(alloc, names, policy_name(error)),
        OfflineError::Signature(kind) => push(alloc, names, signature_name(kind)),
        OfflineError::ParseCheckpointError(fault) => push(alloc, names, checkpoint_name(fault)),
        OfflineError::ConsistencyProofError(error) | OfflineError::InclusionProofError(error) => {
            push(alloc, names, merkle_name(error))
        }
        _ => Ok(()),
    }
}

/// Adds the names of why a bundle does not pass its own checks.
fn push_bundle(
    alloc: Global,
    names: &mut OwnedList<Text>,
    error: &BundleErrorKind,
) -> Result<(), OutOfMemory>
    ensures { OnOk result (names.new ≡ names.old ++ bundle_cause error.now) }
{
    push(alloc, names, bundle_name(error))?;
    match error {
        BundleErrorKind::NoLeaf(error) => push_validation(alloc, names, error),
        BundleErrorKind::BundleProfile(error) => push_profile(alloc, names, error),
        _ => Ok(()),
    }
}

/// Adds the names of why a certificate does not have the required profile.
fn push_validation(
    alloc: Global,
    names: &mut OwnedList<Text>,
    error: &CertificateValidationError,
) -> Result<(), OutOfMemory>
    ensures { OnOk result (names.new ≡ names.old ++ validation_cause error.now) }
{
    push(alloc, names, validation_name(error))?;
    match error {
        CertificateValidationError::NotLeaf(kind) => push(alloc, names, not_leaf_name(kind)),
        CertificateValidationError::NotCA(kind) => push(alloc, names, not_ca_name(kind)),
        CertificateValidationError::Extension(kind) => push(alloc, names, extension_name(kind)),
        CertificateValidationError::VersionUnsupported | CertificateValidationError::Malformed => {
            Ok(())
        }
    }
}

/// Adds the names of why a log entry does not have what a media type requires.
fn push_profile(
    alloc: Global,
    names: &mut OwnedList<Text>,
    error: &BundleProfileErrorKind,
) -> Result<(), OutOfMemory>
    ensures { OnOk result (names.new ≡ names.old ++ profile_cause error.now) }
{
    push(alloc, names, profile_name(error))?;
    match error {
        BundleProfileErrorKind::Bundle01Profile(kind) => push(alloc, names, profile_01_name(kind)),
        BundleProfileErrorKind::Bundle02Profile(kind) => push(alloc, names, profile_02_name(kind)),
        BundleProfileErrorKind::Unknown(_) => Ok(()),
    }
}

/// Adds the names of why a certificate is not trusted.
fn push_certificate(
    alloc: Global,
    names: &mut OwnedList<Text>,
    error: &CertificateErrorKind,
) -> Result<(), OutOfMemory>
    ensures { OnOk result (names.new ≡ names.old ++ certificate_cause error.now) }
{
    push(alloc, names, certificate_name(error))?;
    match error {
        CertificateErrorKind::Sct(error) => push_sct(alloc, names, error),
        CertificateErrorKind::Malformed
        | CertificateErrorKind::Expired
        | CertificateErrorKind::VerificationFailed => Ok(()),
    }
}

/// Adds the names of why an SCT is not accepted.
fn push_sct(alloc: Global, names: &mut OwnedList<Text>, error: &SCTError) -> Result<(), OutOfMemory>
    ensures { OnOk result (names.new ≡ names.old ++ sct_cause error.now) }
{
    push(alloc, names, sct_name(error))?;
    match error {
        SCTError::Parsing(kind) => push(alloc, names, parsing_name(kind)),
        SCTError::Verification(kind) => push(alloc, names, keyring_name(kind)),
        SCTError::Serialization | SCTError::OutOfMemory => Ok(()),
    }
}
