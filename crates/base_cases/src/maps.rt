//! Calls of sig_base on maps and lists. Each is copied before it is read.

use sig_base::{Hashes, KeyMap, Numbers, TextMap};
use sig_cases::{Answer, Arguments};

/// `key_map SOUGHT KEY BYTES ..`: the number of entries, the value that is sought, the entry at index 1, and all
/// entries.
pub(crate) fn key_map(arguments: &mut Arguments<'_>, answer: &mut Answer) {
    let sought = arguments.text();
    let map = read_key_map(arguments, answer);
    match map.copy(arguments.alloc()) {
        Ok(copied) => show_key_map(answer, &copied, sought.as_str()),
        Err(_) => answer.out_of_memory(),
    }
}

/// The arguments to their end as a map of bytes.
fn read_key_map(arguments: &mut Arguments<'_>, answer: &mut Answer) -> KeyMap {
    let mut map = KeyMap::new(arguments.alloc());
    for _ in 0..u64::MAX {
        if arguments.is_empty() {
            break;
        }
        insert_bytes(&mut map, arguments, answer);
    }
    map
}

/// Reads a text and bytes as an entry.
fn insert_bytes(map: &mut KeyMap, arguments: &mut Arguments<'_>, answer: &mut Answer) {
    let key = arguments.text();
    let value = arguments.hex();
    if map.insert(key.as_str(), &value).is_err() {
        answer.out_of_memory();
    }
}

fn show_key_map(answer: &mut Answer, map: &KeyMap, sought: &str) {
    answer.ok();
    answer.value(&map.len());
    add_bytes(answer, map.get(sought));
    match map.at(1) {
        Some((key, value)) => add_key_and_bytes(answer, key, value),
        None => answer.value(&"None"),
    }
    for (key, value) in map.iter() {
        add_key_and_bytes(answer, key, value);
    }
}

/// Adds bytes, or `None`.
fn add_bytes(answer: &mut Answer, bytes: Option<&[u8]>) {
    match bytes {
        Some(bytes) => answer.hex(bytes),
        None => answer.value(&"None"),
    }
}

fn add_key_and_bytes(answer: &mut Answer, key: &str, value: &[u8]) {
    answer.debug(&key);
    answer.hex(value);
}

/// `text_map SOUGHT KEY TEXT ..`: the number of entries, the value that is sought, the entry at index 1, and all
/// entries.
pub(crate) fn text_map(arguments: &mut Arguments<'_>, answer: &mut Answer) {
    let sought = arguments.text();
    let map = read_text_map(arguments, answer);
    match map.copy(arguments.alloc()) {
        Ok(copied) => show_text_map(answer, &copied, sought.as_str()),
        Err(_) => answer.out_of_memory(),
    }
}

/// The arguments to their end as a map of texts.
fn read_text_map(arguments: &mut Arguments<'_>, answer: &mut Answer) -> TextMap {
    let mut map = TextMap::new(arguments.alloc());
    for _ in 0..u64::MAX {
        if arguments.is_empty() {
            break;
        }
        insert_text(&mut map, arguments, answer);
    }
    map
}

/// Reads two texts as an entry.
fn insert_text(map: &mut TextMap, arguments: &mut Arguments<'_>, answer: &mut Answer) {
    let key = arguments.text();
    let value = arguments.text();
    if map.insert(key.as_str(), value.as_str()).is_err() {
        answer.out_of_memory();
    }
}

fn show_text_map(answer: &mut Answer, map: &TextMap, sought: &str) {
    answer.ok();
    answer.value(&map.len());
    match map.get(sought) {
        Some(text) => answer.debug(&text),
        None => answer.value(&"None"),
    }
    match map.at(1) {
        Some((key, value)) => add_key_and_text(answer, key, value),
        None => answer.value(&"None"),
    }
    for (key, value) in map.iter() {
        add_key_and_text(answer, key, value);
    }
}

fn add_key_and_text(answer: &mut Answer, key: &str, value: &str) {
    answer.debug(&key);
    answer.debug(&value);
}

/// `entries INDEX BYTES,..`: the number of entries, whether the copy is equal, the entry at the index, and all
/// entries.
pub(crate) fn entries(arguments: &mut Arguments<'_>, answer: &mut Answer) {
    let index = arguments.natural() as usize;
    let entries = arguments.entries();
    match entries.copy(arguments.alloc()) {
        Ok(copied) => {
            answer.ok();
            answer.value(&copied.len());
            answer.value(&(copied == entries));
            add_bytes(answer, copied.get(index));
            for entry in copied.as_slice() {
                answer.hex(entry.as_slice());
            }
        }
        Err(_) => answer.out_of_memory(),
    }
}

/// `numbers INDEX NUMBER ..`: how many numbers there are, whether the copy is equal, the one at the index, and all.
pub(crate) fn numbers(arguments: &mut Arguments<'_>, answer: &mut Answer) {
    let index = arguments.natural() as usize;
    let numbers = read_numbers(arguments, answer);
    match numbers.copy(arguments.alloc()) {
        Ok(copied) => {
            let same = copied == numbers;
            show_numbers(answer, &copied, index, same);
        }
        Err(_) => answer.out_of_memory(),
    }
}

/// The arguments to their end as numbers.
fn read_numbers(arguments: &mut Arguments<'_>, answer: &mut Answer) -> Numbers {
    let mut numbers = Numbers::new(arguments.alloc());
    for _ in 0..u64::MAX {
        if arguments.is_empty() {
            break;
        }
        if numbers.push(arguments.natural() as usize).is_err() {
            answer.out_of_memory();
        }
    }
    numbers
}

fn show_numbers(answer: &mut Answer, numbers: &Numbers, index: usize, same: bool) {
    answer.ok();
    answer.value(&numbers.len());
    answer.value(&same);
    match numbers.get(index) {
        Some(number) => answer.value(number),
        None => answer.value(&"None"),
    }
    for number in numbers.as_slice() {
        answer.value(number);
    }
}

/// `hashes DIGEST ..`: how many digests there are, and all.
pub(crate) fn hashes(arguments: &mut Arguments<'_>, answer: &mut Answer) {
    let hashes = read_hashes(arguments, answer);
    match hashes.copy(arguments.alloc()) {
        Ok(copied) => show_hashes(answer, copied.as_slice()),
        Err(_) => answer.out_of_memory(),
    }
}

/// The arguments to their end as digests.
fn read_hashes(arguments: &mut Arguments<'_>, answer: &mut Answer) -> Hashes {
    let mut hashes = Hashes::new(arguments.alloc());
    for _ in 0..u64::MAX {
        if arguments.is_empty() {
            break;
        }
        if hashes.push(arguments.digest()).is_err() {
            answer.out_of_memory();
        }
    }
    hashes
}

fn show_hashes(answer: &mut Answer, hashes: &[[u8; 32]]) {
    answer.ok();
    answer.value(&hashes.len());
    for hash in hashes {
        answer.hex(hash);
    }
}
