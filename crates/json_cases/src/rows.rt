//! Readers of one row of a table.
use crate::documents::document;
use crate::readers::add_read;
use sig_cases::{Answer, Arguments};
use sig_json::{
    BytesReader, HashReader, MemberError, TextReader, read_bytes, read_i64, read_text, read_u64,
    required_bytes, required_hash, required_i64, required_text, required_u64,
};
use std::fmt::Display;

/// `read_text NAME DOCUMENT` and `required_text NAME DOCUMENT`: the text.
pub(crate) fn text(call: &str, arguments: &mut Arguments<'_>, answer: &mut Answer) {
    let alloc = arguments.alloc();
    let name = arguments.text();
    let name = name.as_str();
    let document = document(arguments, answer);
    let json = document.view();
    let read = match call {
        "read_text" => read_text(alloc, json, name),
        _ => required_text(alloc, json, name),
    };
    add_read::<TextReader, _>(alloc, answer, read);
    drop(document);
}

/// `read_bytes NAME DOCUMENT` and `required_bytes NAME DOCUMENT`: the bytes.
pub(crate) fn bytes(call: &str, arguments: &mut Arguments<'_>, answer: &mut Answer) {
    let alloc = arguments.alloc();
    let name = arguments.text();
    let name = name.as_str();
    let document = document(arguments, answer);
    let json = document.view();
    let read = match call {
        "read_bytes" => read_bytes(alloc, json, name),
        _ => required_bytes(alloc, json, name),
    };
    add_read::<BytesReader, _>(alloc, answer, read);
    drop(document);
}

/// `required_hash NAME DOCUMENT`: the hash.
pub(crate) fn hash(arguments: &mut Arguments<'_>, answer: &mut Answer) {
    let name = arguments.text();
    let document = document(arguments, answer);
    let read = required_hash(document.view(), name.as_str());
    add_read::<HashReader, _>(arguments.alloc(), answer, read);
    drop(document);
}

/// `integers NAME DOCUMENT`: what `read_i64`, `read_u64`, `required_i64` and `required_u64` return.
pub(crate) fn integers(arguments: &mut Arguments<'_>, answer: &mut Answer) {
    let name = arguments.text();
    let name = name.as_str();
    let document = document(arguments, answer);
    let json = document.view();
    answer.ok();
    add_integer(answer, read_i64(json, name));
    add_integer(answer, read_u64(json, name));
    add_integer(answer, required_i64(json, name));
    add_integer(answer, required_u64(json, name));
    drop(document);
}

/// Adds an integer, or why there is none.
fn add_integer<T: Display + Drop>(answer: &mut Answer, read: Result<T, MemberError>) {
    match read {
        Ok(integer) => answer.value(&integer),
        Err(error) => answer.value(&error),
    }
}
