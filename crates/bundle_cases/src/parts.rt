//! Versions, digests and statements.

use crate::checked::add_digest;
use crate::read::text;
use crate::shown::shown;
use sig_bundle::{ArtifactDigest, InTotoStatementV1};
use sig_cases::{Answer, Arguments};
use sig_checked_bundle::Version;
use std::str::FromStr;

/// What a call of a part returns.
pub(crate) fn answer(call: &str, arguments: &mut Arguments<'_>, answer: &mut Answer) {
    match call {
        "version" => version(arguments, answer),
        "artifact_digest" => digest(arguments, answer),
        "subject_sha256_digest" => subject(arguments, answer),
        "shown" => shown(arguments, answer),
        _ => arguments.refuse(),
    }
}

/// `version TEXT`: the version that the media type names, and the media type that it is shown as.
fn version(arguments: &mut Arguments<'_>, answer: &mut Answer) {
    match Version::from_str(arguments.rest()) {
        Ok(version) => {
            answer.ok();
            answer.debug(&version);
            answer.value(&version);
        }
        Err(()) => answer.value(&"no version"),
    }
}

/// `artifact_digest BYTES`: the digest of 32 or 64 bytes, and its hexadecimal text.
fn digest(arguments: &mut Arguments<'_>, answer: &mut Answer) {
    let Some(digest) = digest_of(&arguments.hex()) else {
        return arguments.refuse();
    };
    match digest.to_hex(arguments.alloc()) {
        Ok(text) => {
            answer.ok();
            add_digest(answer, &digest);
            answer.value(&text.as_str());
        }
        Err(_) => answer.out_of_memory(),
    }
}

fn digest_of(bytes: &[u8]) -> Option<ArtifactDigest> {
    if let Ok(narrow) = bytes.try_into() {
        return Some(ArtifactDigest::Sha256(narrow));
    }
    match bytes.try_into() {
        Ok(wide) => Some(ArtifactDigest::Sha512(wide)),
        Err(_) => None,
    }
}

/// `subject_sha256_digest JSON`: the SHA-256 digest of the statement's first subject.
fn subject(arguments: &mut Arguments<'_>, answer: &mut Answer) {
    match InTotoStatementV1::from_json(arguments.alloc(), arguments.rest().as_bytes()) {
        Ok(statement) => text(answer, statement.subject_sha256_digest(arguments.alloc())),
        Err(error) => answer.error(error),
    }
}
