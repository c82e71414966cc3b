//! The body of a log's entry about a signed envelope: Rekor's entry of kind `dsse`, version 0.0.1.
//!
//! ```text
//! {"apiVersion":"0.0.1","kind":"dsse","spec":{
//!   "envelopeHash":{"algorithm":"sha256","value":"2c26b46b68ffc68ff99b453c1d30413413422d706483bfa0f98a5e886266e7ae"},
//!   "payloadHash":{"algorithm":"sha256","value":"fcde2b2edba56bf408601fb721fe9b5c338d10ee429ea04fae5511b68fbf8fb9"},
//!   "signatures":[{"signature":"c2ln","verifier":"LS0tLS1CRUdJTi.."}]}}
//! ```
ghost use Rattle.std.specs.Prelude.{◌≡◌, ◌↔◌, IsTrue, IfOk, Ok, Option};
ghost use Rattle.std.specs.Result.{result_ok};
ghost use Rattle.sig_certificate.specs.Pem.{pem_of};
ghost use Rattle.sig_json.specs.Data.{Data};
ghost use Rattle.sig_json.specs.Record.{record_in};
ghost use Rattle.sig_json.specs.Tree.{tree};
ghost use Rattle.sig_checked_bundle.specs.DsseBody.{body_signature_of, dsse_body_of, dsse_spec_of, first_signature_of};
ghost use Rattle.sig_checked_bundle.specs.DsseBody.{body_about, hashed_part_of, sha256_of};

use sig_base::{Bytes, OutOfMemory, Text, sha256};
use sig_certificate::der_to_pem;
use sig_json::{
    ElementReader, Json, JsonError, MemberError, read_record, required, required_bytes,
    required_hash, required_text,
};
use std::alloc::Global;

/// What the entry says.
#[derive(Drop)]
struct DsseBody {
    kind: Text,
    api_version: Text,
    spec: DsseSpec,
}

/// What it says of the envelope.
#[derive(Drop)]
struct DsseSpec {
    envelope_hash: HashedPart,
    payload_hash: HashedPart,
    /// The first of the signatures.
    signature: BodySignature,
}

/// The hash of the envelope or of its payload, and the name of its algorithm.
#[derive(Drop)]
struct HashedPart {
    algorithm: Text,
    value: [u8; 32],
}

/// A signature of the envelope, and the text of the certificate that verifies it.
#[derive(Drop)]
struct BodySignature {
    signature: Bytes,
    verifier: Bytes,
}

enum HashedPartReader {}

impl ElementReader for HashedPartReader {
    type Item = HashedPart;

    ghost meaning = { hashed_part_of };

    #[tactic(auto, unfolding(crate::specs::DsseBody::hashed_part_of))]
    fn read(alloc: Global, json: Json<'_, '_>) -> Result<HashedPart, MemberError> {
        Ok(HashedPart {
            algorithm: required_text(alloc, json, "algorithm")?,
            value: required_hash(json, "value")?,
        })
    }
}

/// Reads signatures of the envelope.
enum BodySignatureReader {}

impl ElementReader for BodySignatureReader {
    type Item = BodySignature;

    ghost meaning = { body_signature_of };

    #[tactic(auto, unfolding(crate::specs::DsseBody::body_signature_of))]
    fn read(alloc: Global, json: Json<'_, '_>) -> Result<BodySignature, MemberError> {
        Ok(BodySignature {
            signature: required_bytes(alloc, json, "signature")?,
            verifier: required_bytes(alloc, json, "verifier")?,
        })
    }
}

/// Reads the first signature of a list.
enum FirstSignatureReader {}

impl ElementReader for FirstSignatureReader {
    type Item = BodySignature;

    ghost meaning = { first_signature_of };

    #[tactic(auto, using(crate::proofs::DsseBodies::firsts))]
    fn read(alloc: Global, json: Json<'_, '_>) -> Result<BodySignature, MemberError> {
        match json.item(0) {
            Some(first) => BodySignatureReader::read(alloc, first),
            None => Err(MemberError::Member),
        }
    }
}

/// Reads what entries say of envelopes.
enum DsseSpecReader {}

impl ElementReader for DsseSpecReader {
    type Item = DsseSpec;

    ghost meaning = { dsse_spec_of };

    #[tactic(auto, unfolding(crate::specs::DsseBody::dsse_spec_of))]
    fn read(alloc: Global, json: Json<'_, '_>) -> Result<DsseSpec, MemberError> {
        Ok(DsseSpec {
            envelope_hash: required::<HashedPartReader>(alloc, json, "envelopeHash")?,
            payload_hash: required::<HashedPartReader>(alloc, json, "payloadHash")?,
            signature: required::<FirstSignatureReader>(alloc, json, "signatures")?,
        })
    }
}

/// Reads entries.
enum DsseBodyReader {}

impl ElementReader for DsseBodyReader {
    type Item = DsseBody;

    ghost meaning = { dsse_body_of };

    #[tactic(auto, unfolding(crate::specs::DsseBody::dsse_body_of))]
    fn read(alloc: Global, json: Json<'_, '_>) -> Result<DsseBody, MemberError> {
        Ok(DsseBody {
            kind: required_text(alloc, json, "kind")?,
            api_version: required_text(alloc, json, "apiVersion")?,
            spec: required::<DsseSpecReader>(alloc, json, "spec")?,
        })
    }
}

/// Whether the body of an entry is about an envelope of this text and payload, with this signature, which the
/// certificate of this DER verifies: it is one of kind `dsse`, version 0.0.1, whose hashes are the SHA-256 of both, and
/// whose first signature is this one. [`log_bodies`](crate::laws::log_bodies) says it member by member. Fails only if out
/// of memory.
#[tactic(auto, using(crate::proofs::DsseBodies::bodies))]
pub fn is_about_envelope(
    alloc: Global,
    envelope: &[u8],
    payload: &[u8],
    signature: &[u8],
    certificate: &[u8],
    body: &[u8],
) -> Result<bool, OutOfMemory>
    ensures { IfOk result (λ about. IsTrue about ↔ (record_in dsse_body_of body.now
        ≡ Ok (body_about envelope.now payload.now signature.now (pem_of certificate.now)))) }
{
    match read_body(alloc, body)? {
        None => Ok(false),
        Some(found) => {
            let is_about = found.is_about_signed(alloc, envelope, payload, signature, certificate);
            drop(found);
            is_about
        }
    }
}

impl DsseBody {
    /// The same for the certificate of this DER. Fails only if out of memory.
    fn is_about_signed(
        &self,
        alloc: Global,
        envelope: &[u8],
        payload: &[u8],
        signature: &[u8],
        certificate: &[u8],
    ) -> Result<bool, OutOfMemory>
        ensures { IfOk result (λ about. IsTrue about ↔ (self.now
            ≡ body_about envelope.now payload.now signature.now (pem_of certificate.now))) }
    {
        let pem = der_to_pem(alloc, certificate)?;
        Ok(self.is_about(envelope, payload, signature, pem.as_str().as_bytes()))
    }

    /// Whether the entry is about an envelope of this text and payload, with this signature, which the certificate of
    /// this PEM verifies.
    fn is_about(&self, envelope: &[u8], payload: &[u8], signature: &[u8], pem: &[u8]) -> bool
        ensures { IsTrue result ↔ (self.now ≡ body_about envelope.now payload.now signature.now pem.now) }
    {
        self.kind.as_str() == "dsse"
            && self.api_version.as_str() == "0.0.1"
            && self.spec.envelope_hash.is_of(envelope)
            && self.spec.payload_hash.is_of(payload)
            && self.spec.signature.is_of(signature, pem)
    }
}

impl HashedPart {
    /// Whether this is the SHA-256 of the bytes.
    fn is_of(&self, bytes: &[u8]) -> bool
        ensures { IsTrue result ↔ (self.now ≡ sha256_of bytes.now) }
    {
        let digest = sha256(bytes);
        self.algorithm.as_str() == "sha256" && self.value == digest
    }
}

impl BodySignature {
    /// Whether this is the signature, and the text of the certificate.
    fn is_of(&self, signature: &[u8], pem: &[u8]) -> bool
        ensures { IsTrue result ↔ (self.now ≡ record { signature = signature.now; verifier = pem.now }) }
    {
        self.signature.as_slice() == signature && self.verifier.as_slice() == pem
    }
}

/// What the body of an entry says. `None` if it is not a document of these members.
fn read_body(alloc: Global, body: &[u8]) -> Result<Option<DsseBody>, OutOfMemory>
    ensures { IfOk result (λ found. found ≡ result_ok (record_in dsse_body_of body.now)) }
{
    match read_record::<DsseBodyReader>(alloc, body) {
        Ok(found) => Ok(Some(found)),
        Err(JsonError::NotJson | JsonError::Float | JsonError::Member) => Ok(None),
        Err(JsonError::OutOfMemory) => Err(OutOfMemory),
    }
}
