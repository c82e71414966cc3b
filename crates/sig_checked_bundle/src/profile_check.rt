//! The log entry of a bundle, and what the bundle's media type requires of it.

ghost use Rattle.std.specs.Prelude.{◌≡◌, ◌⊎◌};
ghost use Rattle.sig_base.specs.Answers.{Answers};
ghost use Rattle.sig_checked_bundle.specs.SeenValues.{borrowed_now};
ghost use Rattle.sig_checked_bundle.specs.Profile.{entry_among, lacks_proof, lacks_promise, lacks, meets_profile};

use crate::bundle_error::{
    Bundle01ProfileErrorKind, Bundle02ProfileErrorKind, BundleErrorKind, BundleProfileErrorKind,
};
use crate::version::Version;
use sig_base::{Bytes, Text};
use sig_bundle::{LogEntries, ProofFields, TransparencyLogEntry};
use std::alloc::Global;
use std::str::FromStr;

/// The link `entry`: the one log entry. Fails with `TlogEntry` and their number if and only if there is not exactly
/// one.
pub(crate) fn check_entry(entries: &LogEntries) -> Result<&TransparencyLogEntry, BundleErrorKind>
    ensures { borrowed_now result ≡ entry_among entries.now }
{
    match entries.only() {
        Some(entry) => Ok(entry),
        None => Err(BundleErrorKind::TlogEntry(entries.len())),
    }
}

/// The link `profile`: whether the entry has what the media type requires, under version 0.1 the log's promise to
/// include it, under 0.2 and 0.3 an inclusion proof with a checkpoint.
///
/// Fails with `BundleProfile` of `Unknown` if and only if the media type does not name a version; then with that of
/// `Bundle01Profile` or `Bundle02Profile` of the first that is missing.
pub(crate) fn check_profile(
    alloc: Global,
    media_type: &Text,
    entry: &TransparencyLogEntry,
) -> Result<(), BundleErrorKind>
    ensures { Answers BundleErrorKind.OutOfMemory (λ met. met) result (meets_profile media_type.now entry.now) }
{
    match Version::from_str(media_type.as_str()) {
        Ok(version) => match lacks(version, entry) {
            None => Ok(()),
            Some(lacking) => Err(BundleErrorKind::from(lacking)),
        },
        Err(()) => Err(unknown(alloc, media_type)),
    }
}

/// Returns the first required part that a log entry lacks.
fn lacks(version: Version, entry: &TransparencyLogEntry) -> Option<BundleProfileErrorKind>
    ensures { result ≡ lacks version entry.now }
{
    match version {
        Version::Bundle0_1 => lacks_promise(&entry.inclusion_promise),
        Version::Bundle0_2 | Version::Bundle0_3 => lacks_proof(&entry.inclusion_proof),
    }
}

/// Returns what a log entry with this promise lacks, if the log's promise to include it is required.
fn lacks_promise(promise: &Option<Bytes>) -> Option<BundleProfileErrorKind>
    ensures { result ≡ lacks_promise promise.now }
{
    match promise {
        None => Some(Bundle01ProfileErrorKind::InclusionPromiseMissing.into()),
        Some(_) => None,
    }
}

/// Returns what a log entry with this inclusion proof lacks, if a proof with a checkpoint is required.
fn lacks_proof(proof: &Option<ProofFields>) -> Option<BundleProfileErrorKind>
    ensures { result ≡ lacks_proof proof.now }
{
    match proof {
        None => Some(Bundle02ProfileErrorKind::InclusionProofMissing.into()),
        Some(proof) if proof.checkpoint.is_none() => Some(
            Bundle02ProfileErrorKind::CheckpointMissing.into(),
        ),
        Some(_) => None,
    }
}

/// The error for a media type that does not name a version: `Unknown` with its text, unless memory runs out.
fn unknown(alloc: Global, media_type: &Text) -> BundleErrorKind
    ensures { (result ≡ BundleErrorKind.OutOfMemory)
        ⊎ (result ≡ BundleErrorKind.BundleProfile (BundleProfileErrorKind.Unknown media_type.now)) }
{
    match media_type.copy(alloc) {
        Ok(copied) => BundleErrorKind::from(BundleProfileErrorKind::Unknown(copied)),
        Err(error) => BundleErrorKind::from(error),
    }
}
