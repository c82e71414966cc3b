//! Whether a log signed its claimed promise.
ghost use Rattle.std.specs.Prelude.{◌≡◌, IfOk};
ghost use Rattle.sig_base.specs.Answers.{Answers};
ghost use Rattle.sig_base.specs.declared.error.SigstoreError.TheVariants.{OutOfMemory as Memory};
ghost use Rattle.sig_json.specs.Tree.{document_tree};
ghost use Rattle.sig_payload.specs.Bundles.{key_named, payload_text, payload_tree, promise_answer};

use crate::bundle::{Bundle, Payload};
use sig_base::{OutOfMemory, Result, SignatureChecker, SigstoreError, Text, UnexpectedKind};
use sig_json::{Document, Object};
use sig_json_text::{CanonicalError, canonical};
use sig_key::{CosignVerificationKey, Signature, VerificationKeys};
use std::alloc::Global;

/// Checks that the log of the payload's id signed the payload. Errors, the first that applies:
/// - `UnexpectedError` of `PromiseInteger`: an integer is outside plus or minus 2^53 - 1;
/// - `RekorPublicKeyNotFoundError` with the payload's log id: there is no key of this id;
/// - `Base64DecodeError`: the signature is not base64;
/// - `PublicKeyVerificationError`: the checker does not accept it over the payload's canonical JSON;
/// - `OutOfMemory`.
pub(crate) fn check_promise<C: SignatureChecker>(
    alloc: Global,
    bundle: &Bundle,
    keys: &VerificationKeys,
    checker: &C,
) -> Result<()>
    ensures { Answers Memory (λ done. done) result
        (promise_answer (C.spki_accepts checker.now) keys.now bundle.now) }
{
    let text = payload_text(alloc, &bundle.payload)?;
    let key = key_named(alloc, keys, &bundle.payload.log_id)?;
    let signature = Signature::Base64Encoded(bundle.signed_entry_timestamp.as_str().as_bytes());
    key.verify_signature(alloc, signature, text.as_str().as_bytes(), checker)
}

/// The canonical JSON of a payload.
fn payload_text(alloc: Global, payload: &Payload) -> Result<Text>
    ensures { Answers Memory (λ text. text) result (payload_text payload.now) }
{
    let object = payload_object(alloc, payload)?;
    match canonical(alloc, object.view()) {
        Ok(text) => Ok(text),
        Err(CanonicalError::IntegerTooLarge) => Err(SigstoreError::UnexpectedError(
            UnexpectedKind::PromiseInteger,
        )),
        Err(CanonicalError::OutOfMemory) => Err(SigstoreError::OutOfMemory),
    }
}

/// The object of a payload. Fails only if out of memory.
#[tactic(auto, unfolding(crate::specs::Bundles::payload_tree))]
fn payload_object(alloc: Global, payload: &Payload) -> std::result::Result<Document, OutOfMemory>
    ensures { IfOk result (λ document. document_tree document ≡ payload_tree payload.now) }
{
    let object = Object::new(alloc)
        .with_text(alloc, "body", payload.body.as_str())?
        .with_number(alloc, "integratedTime", payload.integrated_time)?
        .with_text(alloc, "logID", payload.log_id.as_str())?
        .with_number(alloc, "logIndex", payload.log_index)?;
    Ok(object.into_document())
}

/// The key of the log of this id. Fails with `RekorPublicKeyNotFoundError` and the id if there is none.
fn key_named<'k>(
    alloc: Global,
    keys: &'k VerificationKeys,
    id: &Text,
) -> Result<&'k CosignVerificationKey>
    ensures { Answers Memory (λ key. key.now) result (key_named keys.now id.now) }
{
    match keys.get(id.as_str()) {
        Some(key) => Ok(key),
        None => Err(SigstoreError::RekorPublicKeyNotFoundError(id.copy(alloc)?)),
    }
}
