//! What a case is read into. What cannot be read is empty, and makes the line a `bad line`.

use sig_base::{AcceptedRow, Bytes, Operation, OwnedList, SigningScheme, TableChecker, Text};
use sig_cases::{Answer, Arguments};
use sig_key::CosignVerificationKey;
use sig_part_cases::verification_key;
use std::alloc::Global;

/// The next argument as a text that owns its memory.
pub(crate) fn text(arguments: &mut Arguments<'_>) -> Text {
    Text::from(arguments.text())
}

/// The key of the cases that name none.
pub(crate) const KEY: &[u8] = b"key";

/// A key, and the table of the signatures that are accepted.
#[derive(Drop)]
pub(crate) struct Accepted {
    pub(crate) key: CosignVerificationKey,
    pub(crate) table: TableChecker,
}

/// The key of these bytes, whose scheme is ECDSA over P-256, and the table of the next arguments `NOTES SIGNATURES`:
/// the notes over which a signature is accepted under that scheme and key, and those signatures.
pub(crate) fn keyed(arguments: &mut Arguments<'_>, answer: &mut Answer, key: &[u8]) -> Accepted {
    Accepted {
        key: verification_key(arguments.alloc(), answer, key, &SigningScheme::default()),
        table: table(arguments, answer, key),
    }
}

fn table(arguments: &mut Arguments<'_>, answer: &mut Answer, key: &[u8]) -> TableChecker {
    let alloc = arguments.alloc();
    let messages = arguments.hex_list();
    let signatures = arguments.hex_list();
    let mut rows = OwnedList::new(alloc);
    for (message, signature) in messages.into_iter().zip(signatures) {
        let row = AcceptedRow {
            operation: Operation::Message,
            scheme: copied(alloc, answer, b"ECDSA_P256_SHA256_ASN1"),
            key: copied(alloc, answer, key),
            message: Bytes::from(message),
            signature: Bytes::from(signature),
        };
        made(answer, rows.push(row), ());
    }
    made(
        answer,
        TableChecker::from_rows(alloc, rows),
        TableChecker::new(alloc),
    )
}

fn copied(alloc: Global, answer: &mut Answer, bytes: &[u8]) -> Bytes {
    made(
        answer,
        Bytes::copy_of(alloc, bytes),
        Bytes::from(Vec::new(alloc)),
    )
}

/// What was made; if memory ran out, the empty value.
pub(crate) fn made<T: Drop, E: Drop>(answer: &mut Answer, outcome: Result<T, E>, empty: T) -> T {
    match outcome {
        Ok(value) => value,
        Err(_) => {
            answer.out_of_memory();
            empty
        }
    }
}
