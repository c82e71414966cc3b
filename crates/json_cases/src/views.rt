//! What a view shows of a tree.
use crate::documents::{add_text, add_tree, document};
use sig_cases::{Answer, Arguments};
use sig_json::Json;
use std::alloc::Global;
use std::fmt::Display;

/// `values DOCUMENT`: whether the value is null, its truth value, its integer, its text, how many elements it has,
/// each `none` if it is not such a value, and whether it has members.
pub(crate) fn values(arguments: &mut Arguments<'_>, answer: &mut Answer) {
    let document = document(arguments, answer);
    let json = document.view();
    answer.ok();
    answer.value(&json.is_null());
    add_value(answer, json.boolean());
    add_value(answer, json.integer());
    match json.text() {
        Some(text) => add_text(arguments.alloc(), answer, text),
        None => answer.value(&"none"),
    }
    add_value(answer, json.list_len());
    answer.value(&json.members().is_some());
    drop(document);
}

/// Adds a value, `none` where there is none.
fn add_value<T: Display + Drop>(answer: &mut Answer, value: Option<T>) {
    match value {
        Some(value) => answer.value(&value),
        None => answer.value(&"none"),
    }
}

/// `get NAME DOCUMENT`: the member of this name.
pub(crate) fn member(arguments: &mut Arguments<'_>, answer: &mut Answer) {
    let name = arguments.text();
    let document = document(arguments, answer);
    answer.ok();
    add_found(
        arguments.alloc(),
        answer,
        document.view().get(name.as_str()),
    );
    drop(document);
}

/// Adds the compact text of a tree, `none` where there is none.
fn add_found(alloc: Global, answer: &mut Answer, found: Option<Json<'_, '_>>) {
    match found {
        Some(json) => add_tree(alloc, answer, json),
        None => answer.value(&"none"),
    }
}

/// `item PLACE DOCUMENT`: the element at this place, counted from 0.
pub(crate) fn item(arguments: &mut Arguments<'_>, answer: &mut Answer) {
    let place = arguments.natural() as usize;
    let document = document(arguments, answer);
    answer.ok();
    add_found(arguments.alloc(), answer, document.view().item(place));
    drop(document);
}

/// `members DOCUMENT`: names and values in turn.
pub(crate) fn members(arguments: &mut Arguments<'_>, answer: &mut Answer) {
    let document = document(arguments, answer);
    answer.ok();
    add_members(arguments.alloc(), answer, document.view());
    drop(document);
}

fn add_members(alloc: Global, answer: &mut Answer, json: Json<'_, '_>) {
    match json.members() {
        Some(members) => {
            for (name, value) in members {
                add_text(alloc, answer, name);
                add_tree(alloc, answer, value);
            }
        }
        None => answer.value(&"none"),
    }
}
