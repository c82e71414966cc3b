//! Calls of sig_base on tables of accepted rows.

use sig_base::{Operation, RowPart};
use sig_cases::{Answer, Arguments};

/// `accepts OPERATION SCHEME KEY MESSAGE SIGNATURE ROW ..`: whether the table of the rows accepts a row.
pub(crate) fn accepts(arguments: &mut Arguments<'_>, answer: &mut Answer) {
    let operation = operation(arguments);
    let scheme = arguments.text();
    let key = arguments.hex();
    let message = arguments.hex();
    let signature = arguments.hex();
    let checker = arguments.checker();
    answer.ok();
    answer.value(&checker.accepts(operation, scheme.as_bytes(), &key, &message, &signature));
}

/// The next argument as an operation.
fn operation(arguments: &mut Arguments<'_>) -> Operation {
    match arguments.word() {
        "message" => Operation::Message,
        "prehash" => Operation::Prehash,
        "point" => Operation::Point,
        "certificate" => Operation::Certificate,
        _ => {
            arguments.refuse();
            Operation::Point
        }
    }
}

/// `has PART BYTES ROW ..`: whether some row has these bytes as this part, and again once the rows are in the order of their
/// parts.
pub(crate) fn has(arguments: &mut Arguments<'_>, answer: &mut Answer) {
    let alloc = arguments.alloc();
    let part = part(arguments);
    let bytes = arguments.hex();
    let mut checker = arguments.checker();
    let found = checker.has(part, &bytes);
    match checker.order_parts(alloc) {
        Ok(()) => {
            answer.ok();
            answer.value(&found);
            answer.value(&checker.has(part, &bytes));
        }
        Err(_) => answer.out_of_memory(),
    }
}

/// The next argument as a part of a row.
fn part(arguments: &mut Arguments<'_>) -> RowPart {
    match arguments.word() {
        "key" => RowPart::Key,
        "message" => RowPart::Message,
        "signature" => RowPart::Signature,
        _ => {
            arguments.refuse();
            RowPart::Key
        }
    }
}
