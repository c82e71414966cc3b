//! Cases of requests: of the signatures that are in a request of `verify`, and of what is wrong with requests. `stdin`
//! lists calls, and `stdout` what they return.
//!
//! Their origin: `tools/request_cases.py` over `tools/fixture.py` and `tools/request_fault.py`, programs in another
//! language that were written from the standards. Each call for a signature asks for one, of which the rows after it
//! are accepted as genuine: all of the request's rows, or all except one.
#![tactic(auto)]

mod fault;

use sig_base::{Bytes, Result, TableChecker};
use sig_cases::{Answer, Arguments, Cases, run};
use sig_dsse::compute_pae;
use sig_json::Document;
use sig_json_text::canonical;
use sig_key::{CosignVerificationKey, Signature};
use sig_rekor::SignedCheckpoint;
use std::alloc::Global;

struct RequestCases;

impl Cases for RequestCases {
    fn answer(call: &str, arguments: &mut Arguments<'_>, answer: &mut Answer) {
        match call {
            "envelope" => envelope(arguments, answer),
            "promise" => promise(arguments, answer),
            "checkpoint" => checkpoint(arguments, answer),
            "log_request_fault" => fault::log(arguments, answer),
            "verify_request_fault" => fault::verify(arguments, answer),
            "consistency_request_fault" => fault::consistency(arguments, answer),
            "audit_request_fault" => fault::audit(arguments, answer),
            "spaces_fault" => fault::spaces(arguments, answer),
            _ => arguments.refuse(),
        }
    }
}

/// `envelope SPKI TYPE PAYLOAD SIGNATURE ROW ..`: whether the envelope's signature is the key's.
fn envelope(arguments: &mut Arguments<'_>, answer: &mut Answer) {
    let alloc = arguments.alloc();
    let key = key(arguments);
    let payload_type = arguments.text();
    let payload = arguments.hex();
    let signature = arguments.hex();
    let checker = arguments.checker();
    match compute_pae(alloc, payload_type.as_str(), &payload) {
        Ok(pae) => signed(alloc, answer, &key, &signature, pae.as_slice(), &checker),
        Err(_) => answer.out_of_memory(),
    }
    drop(checker);
    drop(key);
}

/// The key of the next argument. The line is a `bad line` if it is not one.
fn key(arguments: &mut Arguments<'_>) -> CosignVerificationKey {
    match CosignVerificationKey::try_from_spki(arguments.alloc(), &arguments.hex()) {
        Ok(key) => key,
        Err(error) => {
            drop(error);
            arguments.refuse();
            CosignVerificationKey::ED25519(Bytes::from(Vec::new(arguments.alloc())))
        }
    }
}

/// `promise SPKI JSON SIGNATURE ROW ..`: whether the signature over the canonical form of the JSON text is the key's.
fn promise(arguments: &mut Arguments<'_>, answer: &mut Answer) {
    let alloc = arguments.alloc();
    let key = key(arguments);
    let json = arguments.text();
    let signature = arguments.hex();
    let checker = arguments.checker();
    match Document::read(alloc, json.as_bytes()) {
        Ok(document) => {
            promised(alloc, answer, &key, &document, &signature, &checker);
            drop(document);
        }
        Err(refusal) => answer.error(refusal),
    }
    drop(checker);
    drop(key);
}

/// Whether the signature over the canonical form of the document is the key's.
fn promised(
    alloc: Global,
    answer: &mut Answer,
    key: &CosignVerificationKey,
    document: &Document,
    signature: &[u8],
    checker: &TableChecker,
) {
    match canonical(alloc, document.view()) {
        Ok(text) => signed(
            alloc,
            answer,
            key,
            signature,
            text.as_str().as_bytes(),
            checker,
        ),
        Err(refusal) => answer.error(refusal),
    }
}

/// Whether the signature over the message is the key's.
fn signed(
    alloc: Global,
    answer: &mut Answer,
    key: &CosignVerificationKey,
    signature: &[u8],
    message: &[u8],
    checker: &TableChecker,
) {
    checked(
        answer,
        key.verify_signature(alloc, Signature::Raw(signature), message, checker),
    );
}

/// What a check returned.
fn checked(answer: &mut Answer, found: Result<()>) {
    match found {
        Ok(()) => answer.ok(),
        Err(refusal) => answer.error(refusal),
    }
}

/// `checkpoint SPKI TEXT ROW ..`: whether the key signed the checkpoint.
fn checkpoint(arguments: &mut Arguments<'_>, answer: &mut Answer) {
    let alloc = arguments.alloc();
    let key = key(arguments);
    let text = arguments.text();
    let checker = arguments.checker();
    match SignedCheckpoint::decode(alloc, text.as_str()) {
        Ok(checkpoint) => {
            checked(answer, checkpoint.verify_signature(alloc, &key, &checker));
            drop(checkpoint);
        }
        Err(refusal) => answer.error(refusal),
    }
    drop(checker);
    drop(key);
}

fn main(rt: HostRuntime) -> anyhow::Result<()> {
    run::<RequestCases>(&rt)
}
