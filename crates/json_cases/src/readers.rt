//! Readers of each kind of values.
use crate::documents::{add_tree, borrowed, bytes, document, names};
use crate::kinds::Kind;
use sig_base::OwnedList;
use sig_cases::{Answer, Arguments};
use sig_json::{
    AnyReader, BytesReader, Document, HashReader, Json, MemberError, TextMapReader, TextReader,
    optional, optional_list, read_record, required, required_list,
};
use std::alloc::Global;
use std::fmt::{Debug, Display};

/// `record KIND DOCUMENT`, `required KIND NAME DOCUMENT` and its kin, and `members_and_list KIND ..`: what the reader
/// of this kind returns.
pub(crate) fn reader(call: &str, arguments: &mut Arguments<'_>, answer: &mut Answer) {
    match arguments.word() {
        "text" => reader_of::<TextReader>(call, arguments, answer),
        "bytes" => reader_of::<BytesReader>(call, arguments, answer),
        "hash" => reader_of::<HashReader>(call, arguments, answer),
        "map" => reader_of::<TextMapReader>(call, arguments, answer),
        "any" => reader_of::<AnyReader>(call, arguments, answer),
        _ => arguments.refuse(),
    }
}

fn reader_of<K: Kind>(call: &str, arguments: &mut Arguments<'_>, answer: &mut Answer) {
    match call {
        "record" => record::<K>(arguments, answer),
        "members_and_list" => members_and_list::<K>(arguments, answer),
        _ => member::<K>(call, arguments, answer),
    }
}

fn record<K: Kind>(arguments: &mut Arguments<'_>, answer: &mut Answer) {
    let alloc = arguments.alloc();
    let text = bytes(arguments, answer);
    add_read::<K, _>(alloc, answer, read_record::<K>(alloc, &text));
}

/// `members_and_list KIND LIST COUNT NAME.. DOCUMENT`: the compact text of its tree with the members of these names
/// alone, and the elements of the list.
fn members_and_list<K: Kind>(arguments: &mut Arguments<'_>, answer: &mut Answer) {
    let alloc = arguments.alloc();
    let list = arguments.text();
    let names = names(arguments, answer);
    let borrowed = borrowed(alloc, answer, &names);
    let text = bytes(arguments, answer);
    add_parts::<K>(alloc, answer, &text, &borrowed, list.as_str());
}

/// Adds what a text was read for.
fn add_parts<K: Kind>(alloc: Global, answer: &mut Answer, text: &[u8], names: &[&str], list: &str) {
    match Document::read_members_and_list::<K>(alloc, text, names, list) {
        Ok((document, elements)) => {
            answer.ok();
            add_tree(alloc, answer, document.view());
            add_list::<K>(alloc, answer, &elements);
            drop(document);
        }
        Err(error) => answer.error(error),
    }
}

fn member<K: Kind>(call: &str, arguments: &mut Arguments<'_>, answer: &mut Answer) {
    let name = arguments.text();
    let document = document(arguments, answer);
    add_member::<K>(call, arguments, answer, document.view(), name.as_str());
    drop(document);
}

fn add_member<K: Kind>(
    call: &str,
    arguments: &mut Arguments<'_>,
    answer: &mut Answer,
    json: Json<'_, '_>,
    name: &str,
) {
    let alloc = arguments.alloc();
    match call {
        "required" => add_read::<K, _>(alloc, answer, required::<K>(alloc, json, name)),
        "optional" => add_optional::<K>(alloc, answer, optional::<K>(alloc, json, name)),
        "required_list" => add_each::<K>(alloc, answer, required_list::<K>(alloc, json, name)),
        "optional_list" => add_each::<K>(alloc, answer, optional_list::<K>(alloc, json, name)),
        _ => arguments.refuse(),
    }
}

/// Adds what was read of a value.
pub(crate) fn add_read<K: Kind, E: Debug + Display + Drop>(
    alloc: Global,
    answer: &mut Answer,
    read: Result<K::Item, E>,
) {
    match read {
        Ok(item) => {
            answer.ok();
            K::add(alloc, answer, &item);
        }
        Err(error) => answer.error(error),
    }
}

/// Adds what was read of a member, `none` where it is absent.
fn add_optional<K: Kind>(
    alloc: Global,
    answer: &mut Answer,
    read: Result<Option<K::Item>, MemberError>,
) {
    match read {
        Ok(Some(item)) => {
            answer.ok();
            K::add(alloc, answer, &item);
        }
        Ok(None) => {
            answer.ok();
            answer.value(&"none");
        }
        Err(error) => answer.error(error),
    }
}

/// Adds what was read of a list.
fn add_each<K: Kind>(
    alloc: Global,
    answer: &mut Answer,
    read: Result<OwnedList<K::Item>, MemberError>,
) {
    match read {
        Ok(list) => {
            answer.ok();
            add_list::<K>(alloc, answer, &list);
        }
        Err(error) => answer.error(error),
    }
}

/// Adds how many elements a list has, and each.
fn add_list<K: Kind>(alloc: Global, answer: &mut Answer, list: &OwnedList<K::Item>) {
    answer.value(&list.len());
    for item in list.as_slice() {
        K::add(alloc, answer, item);
    }
}
