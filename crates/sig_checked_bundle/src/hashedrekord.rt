//! The body of a log's entry about a signature over an artifact: Rekor's entry of kind `hashedrekord`, version 0.0.1.
//!
//! ```text
//! {"apiVersion":"0.0.1","kind":"hashedrekord","spec":{
//!   "data":{"hash":{"algorithm":"sha256","value":"2c26b46b68ffc68ff99b453c1d30413413422d706483bfa0f98a5e886266e7ae"}},
//!   "signature":{"content":"c2ln","publicKey":{"content":"LS0tLS1CRUdJTi.."}}}}
//! ```
ghost use Rattle.std.specs.Prelude.{◌≡◌, ◌↔◌, IsTrue, IfOk, Ok};
ghost use Rattle.sig_certificate.specs.Pem.{pem_of};
ghost use Rattle.sig_json.specs.Document.{document_of};
ghost use Rattle.sig_json.specs.Tree.{document_tree};
ghost use Rattle.sig_checked_bundle.specs.Hashedrekord.{data_tree, hash_tree, hashedrekord_tree, public_key_tree};
ghost use Rattle.sig_checked_bundle.specs.Hashedrekord.{signature_tree, spec_tree};

use sig_base::OutOfMemory;
use sig_certificate::der_to_pem;
use sig_json::{BorrowedDocument, Document, DocumentError, Object, Scratch};
use std::alloc::Global;

/// Whether the body of an entry is about an artifact of this SHA-256 digest, with this signature, which the
/// certificate of this DER verifies: whether its tree is the one of kind `hashedrekord`, version 0.0.1, that says so,
/// without any other member. [`log_bodies`](crate::laws::log_bodies) says it member by member. Fails only if out of
/// memory.
pub(crate) fn is_about_artifact(
    alloc: Global,
    digest: &[u8],
    signature: &[u8],
    certificate: &[u8],
    body: &[u8],
) -> Result<bool, OutOfMemory>
    ensures { IfOk result (λ about. IsTrue about ↔ (document_of body.now
        ≡ Ok (hashedrekord_tree digest.now signature.now (pem_of certificate.now)))) }
{
    let mut scratch = Scratch::new(alloc);
    match BorrowedDocument::read(alloc, body, &mut scratch) {
        Ok(document) => {
            let entry = entry_with(alloc, digest, signature, certificate)?;
            let read = document.view();
            let wanted = entry.view();
            Ok(read.equals(wanted))
        }
        Err(DocumentError::NotJson | DocumentError::Float) => Ok(false),
        Err(DocumentError::OutOfMemory) => Err(OutOfMemory),
    }
}

/// The entry about an artifact of this SHA-256 digest, with this signature, which the certificate of this DER
/// verifies. Fails only if out of memory.
fn entry_with(
    alloc: Global,
    digest: &[u8],
    signature: &[u8],
    certificate: &[u8],
) -> Result<Document, OutOfMemory>
    ensures { IfOk result (λ document. document_tree document
        ≡ hashedrekord_tree digest.now signature.now (pem_of certificate.now)) }
{
    let pem = der_to_pem(alloc, certificate)?;
    entry_about(alloc, digest, signature, pem.as_str().as_bytes())
}

/// The entry about an artifact of this SHA-256 digest, with this signature, which the certificate of this PEM
/// verifies. Fails only if out of memory.
#[tactic(auto, unfolding(crate::specs::Hashedrekord::hashedrekord_tree))]
fn entry_about(
    alloc: Global,
    digest: &[u8],
    signature: &[u8],
    pem: &[u8],
) -> Result<Document, OutOfMemory>
    ensures { IfOk result (λ document. document_tree document
        ≡ hashedrekord_tree digest.now signature.now pem.now) }
{
    let spec = spec(alloc, digest, signature, pem)?;
    let object = Object::new(alloc)
        .with(alloc, "spec", spec)?
        .with_text(alloc, "apiVersion", "0.0.1")?
        .with_text(alloc, "kind", "hashedrekord")?;
    Ok(object.into_document())
}

/// What the entry says. Fails only if out of memory.
#[tactic(auto, unfolding(crate::specs::Hashedrekord::spec_tree))]
fn spec(alloc: Global, digest: &[u8], signature: &[u8], pem: &[u8]) -> Result<Document, OutOfMemory>
    ensures { IfOk result (λ document. document_tree document ≡ spec_tree digest.now signature.now pem.now) }
{
    let data = data_tree(alloc, digest)?;
    let object = Object::new(alloc).with(alloc, "data", data)?;
    let signature = signature_tree(alloc, signature, pem)?;
    let object = object.with(alloc, "signature", signature)?;
    Ok(object.into_document())
}

/// Returns what is signed. Fails only if out of memory.
#[tactic(auto, unfolding(crate::specs::Hashedrekord::data_tree))]
fn data_tree(alloc: Global, digest: &[u8]) -> Result<Document, OutOfMemory>
    ensures { IfOk result (λ document. document_tree document ≡ data_tree digest.now) }
{
    let hash = hash_tree(alloc, digest)?;
    let object = Object::new(alloc).with(alloc, "hash", hash)?;
    Ok(object.into_document())
}

/// The digest of the artifact. Fails only if out of memory.
#[tactic(auto, unfolding(crate::specs::Hashedrekord::hash_tree))]
fn hash_tree(alloc: Global, digest: &[u8]) -> Result<Document, OutOfMemory>
    ensures { IfOk result (λ document. document_tree document ≡ hash_tree digest.now) }
{
    let object = Object::new(alloc)
        .with_text(alloc, "algorithm", "sha256")?
        .with_hex(alloc, "value", digest)?;
    Ok(object.into_document())
}

/// The signature, and the certificate that verifies it. Fails only if out of memory.
#[tactic(auto, unfolding(crate::specs::Hashedrekord::signature_tree))]
fn signature_tree(alloc: Global, signature: &[u8], pem: &[u8]) -> Result<Document, OutOfMemory>
    ensures { IfOk result (λ document. document_tree document ≡ signature_tree signature.now pem.now) }
{
    let key = public_key_tree(alloc, pem)?;
    let object = Object::new(alloc)
        .with(alloc, "publicKey", key)?
        .with_bytes(alloc, "content", signature)?;
    Ok(object.into_document())
}

/// The text of the certificate. Fails only if out of memory.
#[tactic(auto, unfolding(crate::specs::Hashedrekord::public_key_tree))]
fn public_key_tree(alloc: Global, pem: &[u8]) -> Result<Document, OutOfMemory>
    ensures { IfOk result (λ document. document_tree document ≡ public_key_tree pem.now) }
{
    let object = Object::new(alloc).with_bytes(alloc, "content", pem)?;
    Ok(object.into_document())
}
