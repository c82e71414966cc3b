//! Texts of digests: `sha256:` and 64 hexadecimal digits in either case (RFC 4648 section 8), or `sha512:` and 128.
ghost use Rattle.std.specs.Prelude.{◌≡◌, Option, Some, IfSome, codes, option_map};
ghost use Rattle.sig_json.specs.Data.{Data};
ghost use Rattle.sig_rekor.specs.TextCuts.{after_separator};
ghost use Rattle.sig_request.specs.DigestText.{IsDigestText, bytes_after, digest_in, digest_kind};

use hex::FromHex;
use sig_dsse::ArtifactDigest;
use sig_json::{ElementReader, Json, MemberError};
use std::alloc::Global;

/// Reads texts of digests.
pub enum ArtifactDigestReader {}

impl ElementReader for ArtifactDigestReader {
    type Item = ArtifactDigest;

    ghost meaning = { digest_kind };

    #[tactic(auto, unfolding(crate::specs::DigestText::digest_kind, sig_json::specs::Kinds::text_of))]
    fn read(_alloc: Global, json: Json<'_, '_>) -> Result<ArtifactDigest, MemberError> {
        let Some(text) = json.text() else {
            return Err(MemberError::Member);
        };
        digest_of(text).ok_or(MemberError::Member)
    }
}

/// The digest of a text; `None` if and only if it is not a digest's text.
#[tactic(auto, using(crate::proofs::DigestTexts::texts))]
pub(crate) fn digest_of(text: &str) -> Option<ArtifactDigest>
    ensures exact { result ≡ digest_in text.now }
    ensures found { IfSome result (IsDigestText text.now) }
    ensures only { (digest : ArtifactDigest) → IsDigestText text.now digest → result ≡ Some digest }
{
    find_digest(text)
}

/// The digest of a text, by the definition.
#[tactic(auto, unfolding(crate::specs::DigestText::digest_in))]
fn find_digest(text: &str) -> Option<ArtifactDigest>
    ensures { result ≡ digest_in text.now }
{
    match sha256_bytes(text) {
        Some(bytes) => Some(ArtifactDigest::Sha256(bytes)),
        None => match sha512_bytes(text) {
            Some(bytes) => Some(ArtifactDigest::Sha512(bytes)),
            None => None,
        },
    }
}

/// The 32 bytes of a text `sha256:` and their digits.
fn sha256_bytes(text: &str) -> Option<[u8; 32]>
    ensures { result ≡ bytes_after (codes "sha256:") 32 text.now }
{
    match text_after(text, "sha256:") {
        Some(digits) => <[u8; 32] as FromHex>::from_hex(digits).ok(),
        None => None,
    }
}

/// What is after this beginning of the text; `None` if the text does not begin with it.
fn text_after<'a>(text: &'a str, beginning: &str) -> Option<&'a str>
    ensures { option_map (λ t. t.now) result ≡ after_separator beginning.now text.now }
{
    text.strip_prefix(beginning)
}

/// The 64 bytes of a text `sha512:` and their digits.
fn sha512_bytes(text: &str) -> Option<[u8; 64]>
    ensures { result ≡ bytes_after (codes "sha512:") 64 text.now }
{
    match text_after(text, "sha512:") {
        Some(digits) => <[u8; 64] as FromHex>::from_hex(digits).ok(),
        None => None,
    }
}
