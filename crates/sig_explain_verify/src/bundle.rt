//! What is read of a bundle.
ghost use Rattle.std.specs.Prelude.{◌≡◌, ◌≤◌, IfOk, IfSome, Some, length, option_map};
ghost use Rattle.std.specs.Result.{result_ok};
ghost use Rattle.sig_bundle.specs.BundleRecord.{bundle_in};
ghost use Rattle.sig_explain_verify.specs.Parts.{IsCheckedIn, IsCheckedOf, entry_in, proof_of};
ghost use Rattle.sig_verify.specs.OfflineVerdict.{only_entry_of};

use sig_base::OutOfMemory;
use sig_bundle::{Bundle, ProofFieldsError, TransparencyLogEntry, read_bundle};
use sig_checked_bundle::{BundleErrorKind, CheckedBundle};
use sig_json::JsonError;
use sig_rekor::InclusionProof;
use std::alloc::Global;

/// The bundle of a text as it passed its own checks; `None` if the text is not one, or it does not pass them. The
/// bundle as it was read is not kept.
pub(crate) fn read_checked(alloc: Global, text: &[u8]) -> Result<Option<CheckedBundle>, OutOfMemory>
    ensures { IfOk result (IsCheckedIn text.now) }
{
    match read(alloc, text)? {
        Some(bundle) => {
            let checked = check(alloc, &bundle);
            drop(bundle);
            checked
        }
        None => Ok(None),
    }
}

/// The bundle that a text is; `None` if it is not one.
pub(crate) fn read(alloc: Global, text: &[u8]) -> Result<Option<Bundle>, OutOfMemory>
    ensures { IfOk result (λ bundle. bundle ≡ result_ok (bundle_in text.now)) }
{
    match read_bundle(alloc, text) {
        Ok(bundle) => Ok(Some(bundle)),
        Err(JsonError::NotJson | JsonError::Float | JsonError::Member) => Ok(None),
        Err(JsonError::OutOfMemory) => Err(OutOfMemory),
    }
}

/// Returns the result of a bundle's own checks; `None` if it does not pass them.
pub(crate) fn check(alloc: Global, bundle: &Bundle) -> Result<Option<CheckedBundle>, OutOfMemory>
    ensures checked { IfOk result (IsCheckedOf (Some bundle.now)) }
    ensures few { IfOk result (λ found. IfSome found (λ c. length c.further ≤ 16)) }
{
    match CheckedBundle::try_from_bundle(alloc, bundle) {
        Ok(checked) => Ok(Some(checked)),
        Err(BundleErrorKind::OutOfMemory) => Err(OutOfMemory),
        Err(_) => Ok(None),
    }
}

/// The only log entry of the bundle of a text. The rest of the bundle is not kept.
pub(crate) fn read_entry(
    alloc: Global,
    text: &[u8],
) -> Result<Option<TransparencyLogEntry>, OutOfMemory>
    ensures { IfOk result (λ entry. entry ≡ entry_in text.now) }
{
    match read(alloc, text)? {
        Some(bundle) => {
            let entry = copied_entry(alloc, &bundle);
            drop(bundle);
            entry
        }
        None => Ok(None),
    }
}

/// The same in memory of its own.
fn copied_entry(alloc: Global, bundle: &Bundle) -> Result<Option<TransparencyLogEntry>, OutOfMemory>
    ensures { IfOk result (λ entry. entry ≡ only_entry_of bundle.now) }
{
    match only_entry(bundle) {
        Some(entry) => Ok(Some(entry.copy(alloc)?)),
        None => Ok(None),
    }
}

/// The log entry, if the bundle has exactly one.
fn only_entry(bundle: &Bundle) -> Option<&TransparencyLogEntry>
    ensures { option_map (λ entry. entry.now) result ≡ only_entry_of bundle.now }
{
    match &bundle.verification_material {
        Some(material) => material.tlog_entries.only(),
        None => None,
    }
}

/// The inclusion proof of a log entry.
pub(crate) fn read_proof(
    alloc: Global,
    entry: &TransparencyLogEntry,
) -> Result<Option<InclusionProof>, OutOfMemory>
    ensures { IfOk result (λ proof. proof ≡ proof_of entry.now) }
{
    let Some(fields) = &entry.inclusion_proof else {
        return Ok(None);
    };
    match fields.to_proof(alloc) {
        Ok(proof) => Ok(Some(proof)),
        Err(ProofFieldsError::OutOfMemory) => Err(OutOfMemory),
        Err(_) => Ok(None),
    }
}
