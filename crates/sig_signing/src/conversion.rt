//! A log entry of Rekor's API as an entry of a bundle.
//!
//! ```text
//! {"logIndex":1688,"logID":"c0d23d6a..","integratedTime":1702446656,"body":"eyJhcGlWZXJzaW9uIjoiMC4wLjEi..",..}
//!
//! {"logIndex":"1688","logId":{"keyId":"wNI9.."},"integratedTime":"1702446656","canonicalizedBody":"eyJhcGk..",..}
//! ```
ghost use Rattle.std.specs.Prelude.{◌≡◌, Ok, Err, IfOk, option_map};
ghost use Rattle.sig_base.specs.Answers.{Answers, ComesWhere, UnlessMemory};
ghost use Rattle.sig_bundle.specs.declared.material.TransparencyLogEntry.{TransparencyLogEntry as bundle_entry};
ghost use Rattle.sig_rekor_models.specs.LogEntry.{seen_entry};
ghost use Rattle.sig_signing.specs.Conversion.{IsConversion, IsConvertible, conversion_of, hashedrekord_version};
ghost use Rattle.sig_signing.specs.Conversion.{optional_proof_of, proof_of, size_or_refused};
ghost use Rattle.sig_signing.specs.declared.conversion_error.ConversionError.TheVariants.{Refused};

use crate::conversion_error::ConversionError;
use crate::decoded::{canonical_body, decode_base64, decode_each_hex, decode_hex};
use sig_base::{OutOfMemory, Text};
use sig_bundle::{KindVersion, ProofFields, TransparencyLogEntry};
use sig_rekor::RekorInclusionProof;
use sig_rekor_models::LogEntry;
use std::alloc::Global;

/// Returns a log entry of Rekor's API as an entry of a bundle. Nothing in it is checked, neither a signature nor a
/// length. The body is the canonical JSON (RFC 8785) of the entry's body; the promise, the log's id, the root and the
/// hashes are the bytes that their texts encode; a proof is there if and only if the entry has one, with its
/// checkpoint's text, also where that is empty. The kind is `hashedrekord` of version `0.0.1`, whatever the body's.
///
/// Fails with `Refused` if and only if one of these texts is not the hexadecimal digits or the padded base64 of bytes,
/// the tree's size is not below 2^63, or the body holds an integer outside plus or minus 2^53 - 1, unless memory runs
/// out.
pub fn try_from_log_entry(
    alloc: Global,
    value: &LogEntry,
) -> Result<TransparencyLogEntry, ConversionError>
    ensures found { IfOk result (λ made. IsConversion (seen_entry value.now) made) }
    ensures only { (made : bundle_entry) → IsConversion (seen_entry value.now) made
        → UnlessMemory ConversionError.OutOfMemory result (result ≡ Ok made) }
    ensures refused { ComesWhere ConversionError.OutOfMemory result (Err Refused)
        (¬ IsConvertible (seen_entry value.now)) }
    // The same in one equation.
    ensures answer { Answers ConversionError.OutOfMemory (λ made. made) result (conversion_of (seen_entry value.now)) }
{
    convert(alloc, value)
}

/// The entry as an entry of a bundle.
#[tactic(auto, unfolding(crate::specs::Conversion::conversion_of))]
fn convert(alloc: Global, value: &LogEntry) -> Result<TransparencyLogEntry, ConversionError>
    ensures { Answers ConversionError.OutOfMemory (λ made. made) result (conversion_of (seen_entry value.now)) }
{
    let promise = value.verification.signed_entry_timestamp.as_str();
    let canonicalized_body = canonical_body(alloc, &value.body)?;
    let signed_entry_timestamp = decode_base64(alloc, promise.as_bytes())?;
    let key_id = decode_hex(alloc, value.log_i_d.as_str().as_bytes())?;
    let kind_version = hashedrekord_kind(alloc)?;
    let inclusion_proof = convert_optional(alloc, &value.verification.inclusion_proof)?;
    Ok(TransparencyLogEntry {
        log_index: value.log_index,
        log_id: Some(key_id),
        kind_version: Some(kind_version),
        integrated_time: value.integrated_time,
        inclusion_promise: Some(signed_entry_timestamp),
        inclusion_proof,
        canonicalized_body,
    })
}

/// The kind that is written for every entry.
fn hashedrekord_kind(alloc: Global) -> Result<KindVersion, OutOfMemory>
    ensures { IfOk result (λ kind. kind ≡ hashedrekord_version) }
{
    Ok(KindVersion {
        kind: Text::copy_of(alloc, "hashedrekord")?,
        version: Text::copy_of(alloc, "0.0.1")?,
    })
}

/// The proof that an entry may have.
fn convert_optional(
    alloc: Global,
    proof: &Option<RekorInclusionProof>,
) -> Result<Option<ProofFields>, ConversionError>
    ensures { Answers ConversionError.OutOfMemory (λ made. made) result (optional_proof_of proof.now) }
{
    match proof {
        Some(proof) => Ok(Some(convert_proof(alloc, proof)?)),
        None => Ok(None),
    }
}

/// A proof as that of a bundle.
#[tactic(auto, unfolding(crate::specs::Conversion::proof_of))]
fn convert_proof(alloc: Global, proof: &RekorInclusionProof) -> Result<ProofFields, ConversionError>
    ensures { Answers ConversionError.OutOfMemory (λ made. made) result (proof_of proof.now) }
{
    let hashes = decode_each_hex(alloc, &proof.hashes)?;
    let root_hash = decode_hex(alloc, proof.root_hash.as_str().as_bytes())?;
    let tree_size = signed_size(&proof.tree_size)?;
    let checkpoint = proof.checkpoint.copy(alloc)?;
    Ok(ProofFields {
        log_index: proof.log_index,
        root_hash,
        tree_size,
        hashes,
        checkpoint: Some(checkpoint),
    })
}

/// The size of a tree as a bundle has it.
fn signed_size(size: &u64) -> Result<i64, ConversionError>
    ensures { result ≡ size_or_refused size.now }
{
    let size = *size;
    match i64::try_from(size) {
        Ok(size) => Ok(size),
        Err(_) => Err(ConversionError::Refused),
    }
}
