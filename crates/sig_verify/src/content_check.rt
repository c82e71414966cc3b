//! Whether a certificate's key signed what a bundle holds, and whether that is about the artifact.
ghost use Rattle.std.specs.Prelude.{◌≡◌};
ghost use Rattle.std.specs.List.{list_any};
ghost use Rattle.sig_base.specs.Answers.{Answers};
ghost use Rattle.sig_key.specs.Key.{key_accepts};
ghost use Rattle.sig_key.specs.Kind.{key_parts};
ghost use Rattle.sig_verify.specs.ContentCheck.{certificate_key_answer, if_about, is_about, is_same};
ghost use Rattle.sig_verify.specs.ContentCheck.{signature_answer, time_answer};

use crate::error::{
    CertificateErrorKind, SignatureErrorKind, VerificationError, VerificationResult,
};
use crate::link_inputs::LinkInputs;
use sig_base::{SignatureChecker, SigstoreError};
use sig_bundle::ArtifactDigest;
use sig_checked_bundle::{CheckedBundle, CheckedContent};
use sig_key::CosignVerificationKey;
use std::alloc::Global;

/// The link `key`: the certificate's key. Fails with `AlgoUnsupported` if and only if it is of a kind that is not
/// checked.
pub(crate) fn check_key(
    alloc: Global,
    bundle: &CheckedBundle,
) -> Result<CosignVerificationKey, VerificationError>
    ensures { Answers VerificationError.OutOfMemory key_parts result
        (certificate_key_answer bundle.now.certificate.spki) }
{
    match CosignVerificationKey::try_from_spki(alloc, bundle.certificate().spki()) {
        Ok(key) => Ok(key),
        Err(SigstoreError::OutOfMemory) => Err(VerificationError::OutOfMemory),
        Err(_) => Err(VerificationError::Signature(SignatureErrorKind::AlgoUnsupported)),
    }
}

/// The link `signature`: whether the signature is the key's, over the encoding of an envelope, or over the artifact's
/// SHA-256 digest.
pub(crate) fn check_signature<P, C: SignatureChecker>(
    bundle: &CheckedBundle,
    key: &CosignVerificationKey,
    inputs: &LinkInputs<'_, P, C>,
) -> VerificationResult
    ensures { result ≡ signature_answer (key_accepts (C.spki_accepts inputs.now.checker.now) key.now)
        (key_accepts (C.prehash_accepts inputs.now.checker.now) key.now) inputs.now.digest.now bundle.now.content
        bundle.now.signature }
{
    let checker = inputs.checker;
    let accepted = match (bundle.content(), inputs.digest) {
        (CheckedContent::Dsse { pae, .. }, _) => {
            key.accepts(bundle.signature(), pae.as_slice(), checker)
        }
        (CheckedContent::MessageSignature, ArtifactDigest::Sha256(bytes)) => {
            checker.verify_spki_prehash(key.scheme(), key.spki(), bytes, bundle.signature())
        }
        (CheckedContent::MessageSignature, ArtifactDigest::Sha512(_)) => {
            return Err(VerificationError::Signature(
                SignatureErrorKind::DigestAlgorithmUnsupported,
            ));
        }
    };
    if accepted {
        Ok(())
    } else {
        Err(VerificationError::Signature(SignatureErrorKind::VerificationFailed))
    }
}

/// The link `subject`: whether the content is about the artifact of this digest.
pub(crate) fn check_subject(bundle: &CheckedBundle, digest: &ArtifactDigest) -> VerificationResult
    ensures { result ≡ if_about (is_about bundle.now.content digest.now) }
{
    if is_about(bundle.content(), digest) {
        Ok(())
    } else {
        Err(VerificationError::Signature(SignatureErrorKind::SubjectDigestMismatch))
    }
}

/// Whether the content is about the artifact of this digest: a signature over the artifact is; a statement is if one
/// of its subjects has the digest, under the same algorithm.
fn is_about(content: &CheckedContent, digest: &ArtifactDigest) -> bool
    ensures { result ≡ is_about content.now digest.now }
{
    match content {
        CheckedContent::MessageSignature => true,
        CheckedContent::Dsse {
            subject_digests,
            ..
        } => has_digest(subject_digests.as_slice(), digest),
    }
}

/// Whether one of the digests is this one.
fn has_digest(digests: &[ArtifactDigest], digest: &ArtifactDigest) -> bool
    ensures { result ≡ list_any (λ subject. is_same subject digest.now) digests.now }
{
    digests.iter().any(|subject| is_same(subject, digest))
}

/// Whether two digests have one algorithm and the same bytes.
fn is_same(one: &ArtifactDigest, other: &ArtifactDigest) -> bool
    ensures { result ≡ is_same one.now other.now }
{
    match (one, other) {
        (ArtifactDigest::Sha256(one), ArtifactDigest::Sha256(other)) => one == other,
        (ArtifactDigest::Sha512(one), ArtifactDigest::Sha512(other)) => one == other,
        _ => false,
    }
}

/// The link `time`: whether the entry was logged within the certificate's validity, both ends included.
pub(crate) fn check_time(bundle: &CheckedBundle) -> VerificationResult
    ensures { result ≡ time_answer bundle.now }
{
    let certificate = bundle.certificate();
    let time = bundle.entry().integrated_time;
    if certificate.not_before() <= time && time <= certificate.not_after() {
        Ok(())
    } else {
        Err(VerificationError::Certificate(CertificateErrorKind::Expired))
    }
}
