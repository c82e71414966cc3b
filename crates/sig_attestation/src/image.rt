//! What an envelope says of an image: a statement by `cosign`, whose first subject is the image.
ghost use Rattle.std.specs.Prelude.{◌≡◌, codes, option_map};
ghost use Rattle.sig_base.specs.Answers.{Answers};
ghost use Rattle.sig_rekor.specs.TextCuts.{after_separator};
ghost use Rattle.sig_attestation.specs.Image.{envelope_in, image_answer, of_source, typed, without_prefix};
ghost use Rattle.sig_attestation.specs.BorrowedResults.{borrowed_now};
ghost use Rattle.sig_attestation.specs.Stated.{first_said, image_in, said_image, types_said};

use crate::refusal::unexpected;
use crate::stated::{Stated, read_stated};
use sig_base::{Result, SigstoreError, Text, UnexpectedKind};
use sig_bundle::{Bundle, Content, DsseEnvelope};
use std::alloc::Global;

/// The type of the payloads that are statements.
const STATEMENT_TYPE: &str = "application/vnd.in-toto+json";

/// The version of statements.
const STATEMENT_V1: &str = "https://in-toto.io/Statement/v1";

/// The predicate of a signature by `cosign`.
const COSIGN_SIGN_V1: &str = "https://sigstore.dev/cosign/sign/v1";

/// What a statement says of an image.
#[derive(Drop)]
pub(crate) struct Image {
    pub(crate) predicate_type: Text,
    /// The SHA-256 of the image's manifest, as the first subject has it.
    pub(crate) sha256: Text,
}

/// The bundle's envelope. Fails with `ContentNotDsse` if there is none.
pub(crate) fn envelope_of(bundle: &Bundle) -> Result<&DsseEnvelope>
    ensures { borrowed_now result ≡ envelope_in bundle.now.content }
{
    match &bundle.content {
        Some(Content::DsseEnvelope(envelope)) => Ok(envelope),
        Some(Content::MessageSignature(_)) | None => Err(unexpected(
            UnexpectedKind::ContentNotDsse,
        )),
    }
}

/// What the envelope says of the image whose manifest has this digest. Errors, the first that applies: `PayloadType`,
/// `Statement`, those of [`validate_cosign_v1`](sig_dsse::InTotoStatementV1::validate_cosign_v1), `SubjectDigest`.
#[tactic(auto, unfolding(crate::specs::Image::image_answer))]
pub(crate) fn image_of(alloc: Global, envelope: &DsseEnvelope, source: &str) -> Result<Image>
    ensures { Answers SigstoreError.OutOfMemory (λ image. image) result (image_answer source.now envelope.now) }
{
    check_type(envelope)?;
    image_in(alloc, envelope.payload.as_slice(), source)
}

/// Fails with `PayloadType` unless the payload is of the type of statements.
fn check_type(envelope: &DsseEnvelope) -> Result<()>
    ensures { result ≡ typed envelope.now }
{
    if envelope.payload_type.as_str() == STATEMENT_TYPE {
        Ok(())
    } else {
        Err(unexpected(UnexpectedKind::PayloadType))
    }
}

/// What the payload says of it, as its statement says it.
#[tactic(auto, using(crate::proofs::SaidImages::of_payload))]
fn image_in(alloc: Global, payload: &[u8], source: &str) -> Result<Image>
    ensures { Answers SigstoreError.OutOfMemory (λ image. image) result (image_in source.now payload.now) }
{
    let said = read_stated(alloc, payload)?;
    let image = said_image(alloc, &said, source);
    drop(said);
    image
}

/// What the statement says of the image whose manifest has this digest.
fn said_image(alloc: Global, said: &Stated, source: &str) -> Result<Image>
    ensures { Answers SigstoreError.OutOfMemory (λ image. image) result (said_image source.now said.now) }
{
    check_types(said)?;
    let sha256 = first_sha256(said)?;
    check_digest(sha256, source)?;
    Ok(Image {
        predicate_type: said.predicate_type.copy(alloc)?,
        sha256: sha256.copy(alloc)?,
    })
}

/// Fails with `StatementType` and then with `PredicateType` unless the types are those of a statement by `cosign`.
fn check_types(said: &Stated) -> Result<()>
    ensures { result ≡ types_said said.now }
{
    if said.statement_type.as_str() != STATEMENT_V1 {
        Err(unexpected(UnexpectedKind::StatementType))
    } else if said.predicate_type.as_str() != COSIGN_SIGN_V1 {
        Err(unexpected(UnexpectedKind::PredicateType))
    } else {
        Ok(())
    }
}

/// The first subject's SHA-256. Fails with `NoSubjects`, or with `FirstSubjectWithoutSha256`, where there is none.
fn first_sha256(said: &Stated) -> Result<&Text>
    ensures { borrowed_now result ≡ first_said said.now.sha256s }
{
    match said.sha256s.as_slice().first() {
        Some(Some(sha256)) => Ok(sha256),
        Some(None) => Err(unexpected(UnexpectedKind::FirstSubjectWithoutSha256)),
        None => Err(unexpected(UnexpectedKind::NoSubjects)),
    }
}

/// Fails with `SubjectDigest` unless the subject's digest is that of the image.
fn check_digest(sha256: &Text, source: &str) -> Result<()>
    ensures { result ≡ of_source sha256.now source.now }
{
    if sha256.as_str() == without_prefix(source) {
        Ok(())
    } else {
        Err(unexpected(UnexpectedKind::SubjectDigest))
    }
}

/// The digest without `sha256:` at its front.
fn without_prefix(digest: &str) -> &str
    ensures { result.now ≡ without_prefix digest.now }
{
    match after_prefix(digest) {
        Some(digits) => digits,
        None => digest,
    }
}

/// What is after `sha256:` at the text's front.
fn after_prefix(digest: &str) -> Option<&str>
    ensures { option_map (λ t. t.now) result ≡ after_separator (codes "sha256:") digest.now }
{
    digest.strip_prefix("sha256:")
}
