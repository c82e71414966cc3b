//! `Attestation`: what a bundle of `cosign` attests of an image.
ghost use Rattle.std.specs.Prelude.{◌≡◌, Ok, Err, IfOk, IfErr, option_map};
ghost use Rattle.sig_base.specs.Answers.{Answers, OrMemory, UnlessMemory};
ghost use Rattle.sig_base.specs.declared.error.SigstoreError.{SigstoreError as refusal_type};
ghost use Rattle.sig_attestation.specs.Causes.{IsAttestation, IsFault, asked};
ghost use Rattle.sig_attestation.specs.declared.attestation.Attestation.{Attestation as attestation_type};
ghost use Rattle.sig_attestation.specs.Attestation.{attestation_answer, attested, evidence_answer, evidence_of};

use crate::body::check_body;
use crate::image::{envelope_of, image_of};
use crate::log::check_entry;
use crate::material::{certificate_of, material_of, only_entry, only_signature};
use crate::refusal::unexpected;
use sig_base::{Bytes, OutOfMemory, Result, SignatureChecker, SigstoreError, Text, UnexpectedKind};
use sig_bundle::laws::{proof_faults, proofs};
use sig_bundle::{Bundle, DsseEnvelope, DsseSignature, TransparencyLogEntry, read_bundle};
use sig_dsse::compute_pae;
use sig_json::JsonError;
use sig_key::VerificationKeys;
use std::alloc::Global;

/// What a bundle of `cosign` attests about an image. The log vouches for the signature; whether the certificate is
/// trusted, and whether its key signed, is not checked.
#[derive(Drop)]
pub struct Attestation {
    /// The type of the statement's predicate.
    pub predicate_type: Text,
    /// The SHA-256 of the image's manifest, as the first subject has it.
    pub sha256: Text,
    /// What the signature is over: the envelope's pre-authentication encoding (DSSE protocol).
    pub signed: Bytes,
    /// The envelope's one signature, in base64.
    pub signature: Text,
    /// The certificate (DER).
    pub certificate: Bytes,
    /// The bundle's one log entry, which the log vouches for.
    pub entry: TransparencyLogEntry,
}

/// What a bundle attests beside the image.
#[derive(Drop)]
struct Evidence {
    signed: Bytes,
    signature: Text,
    certificate: Bytes,
    entry: TransparencyLogEntry,
}

/// Reads what a bundle of `cosign` attests of the image whose manifest has the digest `source_image_digest`, which may
/// begin with `sha256:`. Errors, the first that applies, all `UnexpectedError` except where another is named:
///
/// - `BundleUnreadable`: the bytes are not a bundle, as [`read_bundle`] says;
/// - `ContentNotDsse`: its content is not an envelope;
/// - `PayloadType`: the payload's type is not `application/vnd.in-toto+json`;
/// - `Statement`: the payload is not a statement;
/// - `StatementType`, `PredicateType`, `NoSubjects`, `FirstSubjectWithoutSha256`: it is not one of `cosign`, as
///   [`validate_cosign_v1`](sig_dsse::InTotoStatementV1::validate_cosign_v1) says;
/// - `SubjectDigest`: the first subject's SHA-256 is not `source_image_digest` without a leading `sha256:`;
/// - `SignatureCount` with the number of signatures, which is not one;
/// - `MaterialMissing`: there is no verification material, or it does not name a signer;
/// - `MaterialNotCertificate`: it is not a single certificate;
/// - `EntryCount` with the number of log entries, which is not one;
/// - `KeysMissing`: no keys of logs are given;
/// - `LogIdMissing`: the entry does not name a log;
/// - `RekorPublicKeyNotFoundError`, its own error, with the log id in lower-case hexadecimal: there is no key of this
///   id;
/// - those of [`vouched`](sig_verify::vouched) from `PromiseMissing` to `CheckpointMissing`; and
///   `ParseCheckpointError`, `CheckpointSignatureVerificationError`, `ConsistencyProofError` and `InclusionProofError`,
///   errors of their own;
/// - `Body`: the entry's body is not about the envelope, its signature and the certificate, as
///   [`is_about_envelope`](sig_checked_bundle::is_about_envelope) says, with exactly one signature and hashes in
///   lower-case hexadecimal;
/// - `OutOfMemory`, its own error.
pub fn read_attestation<C: SignatureChecker>(
    alloc: Global,
    bundle: &[u8],
    source_image_digest: &str,
    rekor_pub_keys: Option<&VerificationKeys>,
    checker: &C,
) -> Result<Attestation>
    // What is returned is attested, and what is attested is returned, unless memory ran out.
    ensures found { IfOk result (IsAttestation
        (asked (C.spki_accepts checker.now) (option_map (λ k. k.now) rekor_pub_keys.entry) source_image_digest.now bundle.now)) }
    ensures only { (attestation : attestation_type) → IsAttestation
        (asked (C.spki_accepts checker.now) (option_map (λ k. k.now) rekor_pub_keys.entry) source_image_digest.now bundle.now)
        attestation → UnlessMemory SigstoreError.OutOfMemory result (result ≡ Ok attestation) }
    // An error comes if and only if the rules before its own hold, and its own does not hold.
    ensures err { IfErr result (λ e. OrMemory SigstoreError.OutOfMemory e (IsFault
        (asked (C.spki_accepts checker.now) (option_map (λ k. k.now) rekor_pub_keys.entry) source_image_digest.now bundle.now) e)) }
    ensures refused { (e : refusal_type) → IsFault
        (asked (C.spki_accepts checker.now) (option_map (λ k. k.now) rekor_pub_keys.entry) source_image_digest.now bundle.now) e
        → UnlessMemory SigstoreError.OutOfMemory result (result ≡ Err e) }
    // The same in one equation.
    ensures answer { Answers SigstoreError.OutOfMemory (λ attestation. attestation) result
        (attestation_answer (C.spki_accepts checker.now) (option_map (λ k. k.now) rekor_pub_keys.entry)
        source_image_digest.now bundle.now) }
{
    // Which members an inclusion proof has, and which others are rejected.
    proofs();
    proof_faults();
    attested_by_text(alloc, bundle, source_image_digest, rekor_pub_keys, checker)
}

/// The same in one equation.
fn attested_by_text<C: SignatureChecker>(
    alloc: Global,
    bundle: &[u8],
    source: &str,
    keys: Option<&VerificationKeys>,
    checker: &C,
) -> Result<Attestation>
    ensures answer { Answers SigstoreError.OutOfMemory (λ attestation. attestation) result
        (attestation_answer (C.spki_accepts checker.now) (option_map (λ k. k.now) keys.entry) source.now bundle.now) }
{
    match read_bundle(alloc, bundle) {
        Ok(read) => {
            let made = attested(alloc, &read, source, keys, checker);
            drop(read);
            made
        }
        Err(JsonError::OutOfMemory) => Err(SigstoreError::OutOfMemory),
        Err(_) => Err(unexpected(UnexpectedKind::BundleUnreadable)),
    }
}

/// Returns what the bundle attests about the image.
fn attested<C: SignatureChecker>(
    alloc: Global,
    bundle: &Bundle,
    source: &str,
    keys: Option<&VerificationKeys>,
    checker: &C,
) -> Result<Attestation>
    ensures { Answers SigstoreError.OutOfMemory (λ attestation. attestation) result
        (attested (C.spki_accepts checker.now) (option_map (λ k. k.now) keys.entry) source.now bundle.now) }
{
    let envelope = envelope_of(bundle)?;
    let image = image_of(alloc, envelope, source)?;
    match evidence_of(alloc, bundle, envelope, keys, checker) {
        Ok(evidence) => Ok(Attestation {
            predicate_type: image.predicate_type,
            sha256: image.sha256,
            signed: evidence.signed,
            signature: evidence.signature,
            certificate: evidence.certificate,
            entry: evidence.entry,
        }),
        Err(error) => {
            drop(image);
            Err(error)
        }
    }
}

/// What the bundle attests beside the image: its one signature, its certificate and its one log entry, which is vouched
/// for.
#[tactic(auto, unfolding(crate::specs::Attestation::evidence_answer))]
fn evidence_of<C: SignatureChecker>(
    alloc: Global,
    bundle: &Bundle,
    envelope: &DsseEnvelope,
    keys: Option<&VerificationKeys>,
    checker: &C,
) -> Result<Evidence>
    ensures { Answers SigstoreError.OutOfMemory (λ evidence. evidence) result
        (evidence_answer (C.spki_accepts checker.now) (option_map (λ k. k.now) keys.entry) bundle.now envelope.now) }
{
    let signature = only_signature(&envelope.signatures)?;
    let material = material_of(bundle)?;
    let certificate = certificate_of(&material.content)?;
    let entry = only_entry(&material.tlog_entries)?;
    check_entry(alloc, entry, keys, checker)?;
    check_body(
        alloc,
        envelope,
        signature,
        certificate,
        &entry.canonicalized_body,
    )?;
    Ok(copied_evidence(alloc, envelope, signature, certificate, entry)?)
}

/// Returns the evidence of these parts. Fails only if out of memory.
fn copied_evidence(
    alloc: Global,
    envelope: &DsseEnvelope,
    signature: &DsseSignature,
    certificate: &Bytes,
    entry: &TransparencyLogEntry,
) -> std::result::Result<Evidence, OutOfMemory>
    ensures { IfOk result (λ evidence. evidence ≡ evidence_of envelope.now signature.now certificate.now entry.now) }
{
    // What has most parts is copied last: a failing copy drops those before it.
    let signed = compute_pae(
        alloc,
        envelope.payload_type.as_str(),
        envelope.payload.as_slice(),
    )?;
    let text = Text::in_base64(alloc, signature.sig.as_slice())?;
    let der = certificate.copy(alloc)?;
    let entry = entry.copy(alloc)?;
    Ok(Evidence {
        signed,
        signature: text,
        certificate: der,
        entry,
    })
}
