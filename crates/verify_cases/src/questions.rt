//! What the chain of trust of a bundle asks of a checker.

use crate::verified::digest;
use sig_base::{AcceptedRow, Operation, sha256};
use sig_cases::{Answer, Arguments};
use sig_questions::{NoQuestions, questions};
use std::alloc::Global;

/// `questions NOW DIGEST MOST ROOT BUNDLE`, for rows of at most MOST bytes: `ok`, their operations in order, and the
/// SHA-256 of all of them; or the name of the link that fails whatever is accepted, or `TooLong`.
pub(crate) fn listed(arguments: &mut Arguments<'_>, answer: &mut Answer) {
    let now = arguments.integer();
    let digest = digest(arguments);
    let most = arguments.natural() as usize;
    let root = arguments.text();
    let bundle = arguments.text();
    let alloc = arguments.alloc();
    match questions(
        alloc,
        root.as_bytes(),
        now,
        &digest,
        bundle.as_bytes(),
        most,
    ) {
        Ok(rows) => rows_of(alloc, rows.as_slice(), answer),
        Err(NoQuestions::Link(link)) => answer.value(&link.name()),
        Err(error) => answer.error(error),
    }
}

/// `ok`, the operations of the rows, and the SHA-256 of their text.
fn rows_of(alloc: Global, rows: &[AcceptedRow], answer: &mut Answer) {
    answer.ok();
    for row in rows {
        answer.value(&operation(row));
    }
    let mut text = Answer::new(alloc);
    text.value(&"rows");
    for row in rows {
        add_row(&mut text, row);
    }
    match text.line() {
        Some(text) => answer.hex(&sha256(text.as_bytes())),
        None => answer.out_of_memory(),
    }
}

fn operation(row: &AcceptedRow) -> &'static str {
    match row.operation {
        Operation::Certificate => "certificate",
        Operation::Point => "point",
        Operation::Message => "message",
        Operation::Prehash => "prehash",
    }
}

/// Adds a row as its operation and the bytes of its scheme, key, message and signature.
fn add_row(text: &mut Answer, row: &AcceptedRow) {
    text.value(&operation(row));
    text.hex(row.scheme.as_slice());
    text.hex(row.key.as_slice());
    text.hex(row.message.as_slice());
    text.hex(row.signature.as_slice());
}
