//! Statements, and what is read of them.
use crate::digests::add_taken;
use sig_cases::{Answer, Arguments};
use sig_dsse::{InTotoStatementV1, Subject, recognized_digests};
use sig_json::Document;
use sig_json_text::compact;
use std::alloc::Global;

/// `statement PAYLOAD` and its kin: what the call returns of the statement that the payload is.
pub(crate) fn of_payload(call: &str, arguments: &mut Arguments<'_>, answer: &mut Answer) {
    match InTotoStatementV1::from_json(arguments.alloc(), arguments.rest().as_bytes()) {
        Ok(statement) => {
            of_statement(call, arguments, answer, &statement);
            drop(statement);
        }
        Err(error) => answer.error(error),
    }
}

fn of_statement(
    call: &str,
    arguments: &mut Arguments<'_>,
    answer: &mut Answer,
    statement: &InTotoStatementV1,
) {
    let alloc = arguments.alloc();
    match call {
        "statement" => whole(alloc, answer, statement),
        "recognized_digests" => add_taken(alloc, answer, recognized_digests(alloc, statement)),
        "cosign" => cosign(answer, statement),
        "first_sha256" => first_sha256(alloc, answer, statement),
        _ => arguments.refuse(),
    }
}

/// `statement PAYLOAD`: the statement that the payload is: its two types, its predicate, and for each subject the
/// name, the digests and the annotations; `-` is an absent one.
fn whole(alloc: Global, answer: &mut Answer, statement: &InTotoStatementV1) {
    answer.ok();
    answer.debug(&statement.statement_type);
    answer.debug(&statement.predicate_type);
    add_document(alloc, answer, &statement.predicate);
    for subject in statement.subject.as_slice() {
        answer.value(&"|");
        add_subject(alloc, answer, subject);
    }
}

/// Adds what a document is, or `-` where there is none.
fn add_document(alloc: Global, answer: &mut Answer, document: &Option<Document>) {
    let Some(document) = document else {
        return answer.value(&"-");
    };
    match compact(alloc, document.view()) {
        Ok(text) => answer.value(&text.as_str()),
        Err(_) => answer.out_of_memory(),
    }
}

/// Adds what a subject says.
fn add_subject(alloc: Global, answer: &mut Answer, subject: &Subject) {
    match &subject.name {
        Some(name) => answer.debug(name),
        None => answer.value(&"-"),
    }
    for (algorithm, digest) in subject.digest.iter() {
        answer.value(&format_args!("{algorithm}={digest:?}"));
    }
    add_document(alloc, answer, &subject.annotations);
}

/// `cosign PAYLOAD`: whether the statement is one as `cosign` signs it.
fn cosign(answer: &mut Answer, statement: &InTotoStatementV1) {
    match statement.validate_cosign_v1() {
        Ok(()) => answer.ok(),
        Err(error) => answer.error(error),
    }
}

/// `first_sha256 PAYLOAD`: the digest of the first subject, and how many digests each subject has.
fn first_sha256(alloc: Global, answer: &mut Answer, statement: &InTotoStatementV1) {
    match statement.subject_sha256_digest(alloc) {
        Ok(digest) => {
            answer.ok();
            answer.value(&digest.as_str());
            for digests in statement.subject_digests() {
                answer.value(&digests.len());
            }
        }
        Err(error) => answer.error(error),
    }
}
