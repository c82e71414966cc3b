//! The first part of a log entry's body that is not what it has to be.
//!
//! ```text
//! {"expected":"2c26..e7ae","got":"fcde..8fb9","part":"payloadHash"}
//! ```
ghost use Rattle.std.specs.Prelude.{◌≡◌, IfOk, Some, option_map};
ghost use Rattle.sig_base.specs.Base64.{base64_text};
ghost use Rattle.sig_base.specs.OptionSteps.{or_else};
ghost use Rattle.sig_base.specs.Sha256.{sha256};
ghost use Rattle.hex.specs.Hex.{encode_lower};
ghost use Rattle.sig_json.specs.Writing.{members, members_into, put_some};
ghost use Rattle.sig_certificate.specs.Pem.{pem_of};
ghost use Rattle.sig_dsse.specs.Digest.{digest_bytes};
ghost use Rattle.sig_evidence.specs.Body.{body_difference, body_rows, content_difference, differing};
ghost use Rattle.sig_evidence.specs.Body.{digest_difference, digits_of, dsse_difference, dsse_difference_in, envelope_difference};
ghost use Rattle.sig_evidence.specs.Body.{first_difference, first_item, hash_difference, hashedrekord_difference};
ghost use Rattle.sig_evidence.specs.Body.{hashedrekord_difference_in, hashes_difference, kind_difference};
ghost use Rattle.sig_evidence.specs.Body.{held_difference, is_text, member_of, part_of, part_rows, payload_difference, short};
ghost use Rattle.sig_evidence.specs.Body.{signature_difference, text_of};
ghost use Rattle.sig_json.specs.Tree.{tree};

use sig_base::{OutOfMemory, Text, sha256};
use sig_bundle::ArtifactDigest;
use sig_certificate::der_to_pem;
use sig_checked_bundle::{CheckedBundle, CheckedContent};
use sig_json::{BorrowedDocument, DocumentError, Json, Object, Scratch, required_hash};
use std::alloc::Global;

/// The greatest length in bytes of a part that is shown.
pub const MOST_COMPARED: usize = 256;

/// A part of a body that is not what it has to be.
#[derive(Clone, Copy)]
pub(crate) struct Part<'a> {
    pub(crate) name: &'static str,
    /// What it has to be.
    pub(crate) expected: &'a str,
    /// What it is, if it is a text.
    pub(crate) got: Option<&'a str>,
}

/// The texts that parts of every body have to be.
#[derive(Clone, Copy)]
struct Wanted<'a> {
    signature: &'a str,
    certificate: &'a str,
}

/// The hashes that an envelope and its payload have to have.
#[derive(Clone, Copy)]
struct Hashes<'a> {
    envelope: &'a str,
    payload: &'a str,
}

/// Those that the body has.
#[derive(Clone, Copy)]
struct Got<'a> {
    envelope: Option<&'a str>,
    payload: Option<&'a str>,
}

/// The object with what the link `body` finds: `part`, the first part of the log entry's body that is not what it has
/// to be, and `expected` and `got`, what this part has to be and what it is, each if it is a text of at most
/// [`MOST_COMPARED`] bytes. The parts, in this order:
///
/// - `json`: the body is not JSON, or holds a float;
/// - `kind`, `apiVersion`;
/// - for an envelope `envelopeHashAlgorithm`, `envelopeHash`, `payloadHashAlgorithm` and `payloadHash`; for an artifact
///   `digestAlgorithm` and `digest`;
/// - `signature`, and `certificate`, the PEM of the bundle's certificate, both in base64;
/// - `members`: another member is there, which a body about an artifact may not have.
///
/// Fails only if out of memory.
pub fn with_body(
    object: Object,
    alloc: Global,
    bundle: &CheckedBundle,
    digest: &ArtifactDigest,
) -> Result<Object, OutOfMemory>
    ensures { IfOk result (λ made. members made
        ≡ members_into (members object) (body_rows bundle.now digest.now)) }
{
    let body = bundle.entry().canonicalized_body.as_slice();
    let mut scratch = Scratch::new(alloc);
    match BorrowedDocument::read(alloc, body, &mut scratch) {
        Ok(document) => with_document(object, alloc, bundle, digest, document.view()),
        Err(DocumentError::NotJson | DocumentError::Float) => {
            object.with_text(alloc, "part", "json")
        }
        Err(DocumentError::OutOfMemory) => Err(OutOfMemory),
    }
}

/// The object with the part of a document that differs.
fn with_document(
    object: Object,
    alloc: Global,
    bundle: &CheckedBundle,
    digest: &ArtifactDigest,
    json: Json<'_, '_>,
) -> Result<Object, OutOfMemory>
    ensures { IfOk result (λ made. members made ≡ members_into (members object)
        (part_rows (body_difference bundle.now digest.now (tree json.entry)))) }
{
    let signature = signature_text(alloc, bundle)?;
    let certificate = certificate_text(alloc, bundle)?;
    let wanted = Wanted {
        signature: signature.as_str(),
        certificate: certificate.as_str(),
    };
    with_content(object, alloc, bundle, digest, wanted, Some(json))
}

/// The signature of a bundle, in base64.
fn signature_text(alloc: Global, bundle: &CheckedBundle) -> Result<Text, OutOfMemory>
    ensures { IfOk result (λ text. text ≡ base64_text bundle.now.signature) }
{
    Text::in_base64(alloc, bundle.signature())
}

/// The PEM of its certificate, in base64.
fn certificate_text(alloc: Global, bundle: &CheckedBundle) -> Result<Text, OutOfMemory>
    ensures { IfOk result (λ text. text ≡ base64_text (pem_of bundle.now.certificate.whole)) }
{
    let pem = der_to_pem(alloc, bundle.certificate().der())?;
    Text::in_base64(alloc, pem.as_str().as_bytes())
}

/// The object with the part that differs of a body about the content of a bundle.
fn with_content(
    object: Object,
    alloc: Global,
    bundle: &CheckedBundle,
    digest: &ArtifactDigest,
    wanted: Wanted<'_>,
    json: Option<Json<'_, '_>>,
) -> Result<Object, OutOfMemory>
    ensures { IfOk result (λ made. members made ≡ members_into (members object) (part_rows (content_difference
        bundle.now.content (digest_bytes digest.now) wanted.entry.signature.now wanted.entry.certificate.now
        (option_map tree json.entry)))) }
{
    match bundle.content() {
        CheckedContent::MessageSignature => {
            let digest = hex_of(alloc, digest.as_bytes())?;
            with_hashedrekord(object, alloc, digest.as_str(), wanted, json)
        }
        CheckedContent::Dsse {
            envelope_json,
            payload_bytes,
            ..
        } => {
            let envelope = digits(alloc, envelope_json.as_str().as_bytes())?;
            let payload = digits(alloc, payload_bytes.as_slice())?;
            let hashes = Hashes {
                envelope: envelope.as_str(),
                payload: payload.as_str(),
            };
            with_dsse(object, alloc, hashes, wanted, json)
        }
    }
}

/// Bytes in hexadecimal.
#[tactic(auto, unfolding(hex::specs::Hex::encode_with))]
fn hex_of(alloc: Global, bytes: &[u8]) -> Result<Text, OutOfMemory>
    ensures { IfOk result (λ text. text ≡ encode_lower bytes.now) }
{
    Ok(Text::from(hex::encode(alloc, bytes)?))
}

/// The object with the part that differs of a body about an artifact of this digest, in hexadecimal.
fn with_hashedrekord(
    object: Object,
    alloc: Global,
    digest: &str,
    wanted: Wanted<'_>,
    json: Option<Json<'_, '_>>,
) -> Result<Object, OutOfMemory>
    ensures { IfOk result (λ made. members made ≡ members_into (members object) (part_rows (hashedrekord_difference
        digest.now wanted.entry.signature.now wanted.entry.certificate.now (option_map tree json.entry)))) }
{
    let spec = member_of(json, "spec");
    let part = hashedrekord_difference(digest, wanted, json, spec);
    with_part(object, alloc, part)
}

/// The member of a value that may be there.
fn member_of<'a, 't>(json: Option<Json<'a, 't>>, name: &str) -> Option<Json<'a, 't>>
    ensures { option_map tree result ≡ member_of name.now (option_map tree json.entry) }
{
    match json {
        Some(json) => json.get(name),
        None => None,
    }
}

/// The part that differs of a body about an artifact of this digest, in hexadecimal.
fn hashedrekord_difference<'a, 't>(
    digest: &'a str,
    wanted: Wanted<'a>,
    json: Option<Json<'a, 't>>,
    spec: Option<Json<'a, 't>>,
) -> Option<Part<'a>>
    ensures { option_map part_of result ≡ hashedrekord_difference_in digest.now wanted.entry.signature.now
        wanted.entry.certificate.now (option_map tree json.entry) (option_map tree spec.entry) }
{
    let hash = member_of(member_of(spec, "data"), "hash");
    let rest = or_else(
        digest_difference(digest, hash),
        held_difference(wanted, member_of(spec, "signature")),
    );
    or_else(kind_difference("hashedrekord", json), rest)
}

/// The first of two parts that is there.
fn or_else<'a>(first: Option<Part<'a>>, other: Option<Part<'a>>) -> Option<Part<'a>>
    ensures { option_map part_of result ≡ or_else (option_map part_of first.entry) (option_map part_of other.entry) }
{
    match first {
        Some(part) => Some(part),
        None => other,
    }
}

/// The digest of an artifact.
fn digest_difference<'a, 't>(digest: &'a str, hash: Option<Json<'a, 't>>) -> Option<Part<'a>>
    ensures { option_map part_of result ≡ digest_difference digest.now (option_map tree hash.entry) }
{
    let got = text_of(hash, "value");
    hash_difference("digestAlgorithm", "digest", digest, hash, got)
}

/// The text of such a member.
fn text_of<'a, 't>(json: Option<Json<'a, 't>>, name: &str) -> Option<&'a str>
    ensures { option_map (λ text. text.now) result ≡ text_of name.now (option_map tree json.entry) }
{
    match member_of(json, name) {
        Some(json) => json.text(),
        None => None,
    }
}

/// The algorithm of a hash, or its digits.
fn hash_difference<'a, 't>(
    algorithm_name: &'static str,
    name: &'static str,
    digits: &'a str,
    hash: Option<Json<'a, 't>>,
    got: Option<&'a str>,
) -> Option<Part<'a>>
    ensures { option_map part_of result ≡ hash_difference algorithm_name.now name.now digits.now
        (option_map tree hash.entry) (option_map (λ got. got.now) got.entry) }
{
    or_else(
        differing(algorithm_name, "sha256", text_of(hash, "algorithm")),
        differing(name, digits, got),
    )
}

/// The part, if its text is absent or not the expected one.
fn differing<'a>(name: &'static str, expected: &'a str, got: Option<&'a str>) -> Option<Part<'a>>
    ensures { option_map part_of result
        ≡ differing name.now expected.now (option_map (λ got. got.now) got.entry) }
{
    if is_text(expected, got) {
        return None;
    }
    Some(Part {
        name,
        expected,
        got,
    })
}

/// Whether this is the text.
fn is_text(text: &str, found: Option<&str>) -> bool
    ensures { result ≡ is_text text.now (option_map (λ found. found.now) found.entry) }
{
    match found {
        Some(found) => found == text,
        None => false,
    }
}

/// The signature over an artifact, or its certificate.
fn held_difference<'a, 't>(wanted: Wanted<'a>, held: Option<Json<'a, 't>>) -> Option<Part<'a>>
    ensures { option_map part_of result ≡ held_difference wanted.entry.signature.now wanted.entry.certificate.now
        (option_map tree held.entry) }
{
    signature_difference(
        wanted,
        text_of(held, "content"),
        text_of(member_of(held, "publicKey"), "content"),
    )
}

/// The signature, or the certificate.
fn signature_difference<'a>(
    wanted: Wanted<'a>,
    signature: Option<&'a str>,
    certificate: Option<&'a str>,
) -> Option<Part<'a>>
    ensures { option_map part_of result ≡ signature_difference wanted.entry.signature.now wanted.entry.certificate.now
        (option_map (λ text. text.now) signature.entry) (option_map (λ text. text.now) certificate.entry) }
{
    or_else(
        differing("signature", wanted.signature, signature),
        differing("certificate", wanted.certificate, certificate),
    )
}

/// The kind of a body, or its version.
fn kind_difference<'a, 't>(kind: &'a str, json: Option<Json<'a, 't>>) -> Option<Part<'a>>
    ensures { option_map part_of result ≡ kind_difference kind.now (option_map tree json.entry) }
{
    or_else(
        differing("kind", kind, text_of(json, "kind")),
        differing("apiVersion", "0.0.1", text_of(json, "apiVersion")),
    )
}

/// The object with the part that differs.
fn with_part(object: Object, alloc: Global, part: Option<Part<'_>>) -> Result<Object, OutOfMemory>
    ensures { IfOk result (λ made. members made
        ≡ members_into (members object) (part_rows (option_map part_of part.entry))) }
{
    let Some(part) = part else {
        return object.with_text(alloc, "part", "members");
    };
    let object = object.with_text(alloc, "part", part.name)?;
    let object = with_short(object, alloc, "expected", Some(part.expected))?;
    with_short(object, alloc, "got", part.got)
}

/// The object with a text as a member, if there is one and it is short.
fn with_short(
    object: Object,
    alloc: Global,
    name: &str,
    text: Option<&str>,
) -> Result<Object, OutOfMemory>
    ensures { IfOk result (λ made. members made
        ≡ put_some name.now (short (option_map (λ text. text.now) text.entry)) (members object)) }
{
    match text {
        Some(text) => {
            if text.len() <= MOST_COMPARED {
                object.with_text(alloc, name, text)
            } else {
                Ok(object)
            }
        }
        None => Ok(object),
    }
}

/// The SHA-256 of bytes, in hexadecimal.
fn digits(alloc: Global, bytes: &[u8]) -> Result<Text, OutOfMemory>
    ensures { IfOk result (λ text. text ≡ encode_lower (sha256 bytes.now)) }
{
    hex_of(alloc, &sha256(bytes))
}

/// The object with the part that differs of a body about an envelope, whose text and payload have these hashes.
fn with_dsse(
    object: Object,
    alloc: Global,
    hashes: Hashes<'_>,
    wanted: Wanted<'_>,
    json: Option<Json<'_, '_>>,
) -> Result<Object, OutOfMemory>
    ensures { IfOk result (λ made. members made ≡ members_into (members object) (part_rows (dsse_difference
        hashes.entry.envelope.now hashes.entry.payload.now wanted.entry.signature.now wanted.entry.certificate.now
        (option_map tree json.entry)))) }
{
    let spec = member_of(json, "spec");
    let envelope = digits_of(alloc, member_of(spec, "envelopeHash"), "value")?;
    let payload = digits_of(alloc, member_of(spec, "payloadHash"), "value")?;
    let got = Got {
        envelope: borrowed(&envelope),
        payload: borrowed(&payload),
    };
    let part = dsse_difference(hashes, wanted, got, json, spec);
    with_part(object, alloc, part)
}

/// The digits of a hash that may be there, in lower case.
fn digits_of(
    alloc: Global,
    json: Option<Json<'_, '_>>,
    name: &str,
) -> Result<Option<Text>, OutOfMemory>
    ensures { IfOk result (λ digits. digits ≡ digits_of name.now (option_map tree json.entry)) }
{
    let Some(json) = json else {
        return Ok(None);
    };
    match required_hash(json, name) {
        Ok(hash) => Ok(Some(hex_of(alloc, &hash)?)),
        Err(_) => Ok(None),
    }
}

/// A text that may be there.
fn borrowed(text: &Option<Text>) -> Option<&str>
    ensures { option_map (λ text. text.now) result ≡ text.now }
{
    match text {
        Some(text) => Some(text.as_str()),
        None => None,
    }
}

/// The part that differs of a body about an envelope.
fn dsse_difference<'a, 't>(
    hashes: Hashes<'a>,
    wanted: Wanted<'a>,
    got: Got<'a>,
    json: Option<Json<'a, 't>>,
    spec: Option<Json<'a, 't>>,
) -> Option<Part<'a>>
    ensures { option_map part_of result ≡ dsse_difference_in hashes.entry.envelope.now hashes.entry.payload.now
        wanted.entry.signature.now wanted.entry.certificate.now (option_map (λ text. text.now) got.entry.envelope)
        (option_map (λ text. text.now) got.entry.payload) (option_map tree json.entry) (option_map tree spec.entry) }
{
    let first = first_item(member_of(spec, "signatures"));
    let rest = or_else(
        hashes_difference(hashes, got, spec),
        first_difference(wanted, first),
    );
    or_else(kind_difference("dsse", json), rest)
}

/// The first element of a list that may be there.
fn first_item<'a, 't>(json: Option<Json<'a, 't>>) -> Option<Json<'a, 't>>
    ensures { option_map tree result ≡ first_item (option_map tree json.entry) }
{
    match json {
        Some(json) => json.item(0),
        None => None,
    }
}

/// The hash of an envelope, or of its payload.
fn hashes_difference<'a, 't>(
    wanted: Hashes<'a>,
    got: Got<'a>,
    spec: Option<Json<'a, 't>>,
) -> Option<Part<'a>>
    ensures { option_map part_of result ≡ hashes_difference wanted.entry.envelope.now wanted.entry.payload.now
        (option_map (λ text. text.now) got.entry.envelope) (option_map (λ text. text.now) got.entry.payload)
        (option_map tree spec.entry) }
{
    let envelope = envelope_difference(wanted.envelope, got.envelope, spec);
    let payload = payload_difference(wanted.payload, got.payload, spec);
    or_else(envelope, payload)
}

/// The hash of an envelope.
fn envelope_difference<'a, 't>(
    digits: &'a str,
    got: Option<&'a str>,
    spec: Option<Json<'a, 't>>,
) -> Option<Part<'a>>
    ensures { option_map part_of result ≡ envelope_difference digits.now (option_map (λ text. text.now) got.entry)
        (option_map tree spec.entry) }
{
    let hash = member_of(spec, "envelopeHash");
    hash_difference("envelopeHashAlgorithm", "envelopeHash", digits, hash, got)
}

/// The hash of a payload.
fn payload_difference<'a, 't>(
    digits: &'a str,
    got: Option<&'a str>,
    spec: Option<Json<'a, 't>>,
) -> Option<Part<'a>>
    ensures { option_map part_of result ≡ payload_difference digits.now (option_map (λ text. text.now) got.entry)
        (option_map tree spec.entry) }
{
    let hash = member_of(spec, "payloadHash");
    hash_difference("payloadHashAlgorithm", "payloadHash", digits, hash, got)
}

/// The first signature of an envelope, or its certificate.
fn first_difference<'a, 't>(wanted: Wanted<'a>, first: Option<Json<'a, 't>>) -> Option<Part<'a>>
    ensures { option_map part_of result ≡ first_difference wanted.entry.signature.now wanted.entry.certificate.now
        (option_map tree first.entry) }
{
    signature_difference(
        wanted,
        text_of(first, "signature"),
        text_of(first, "verifier"),
    )
}
