//! Calls that read, write and tell times.

use sig_base::{Bytes, OutOfMemory};
use sig_cases::{Answer, Arguments};
use sig_der::{
    DerOut, Element, children, read_all, read_element, rfc3339_second, time_of, write_element,
    write_short,
};

/// `read_element BYTES`: the tag, the content and what follows.
pub(crate) fn read(arguments: &mut Arguments<'_>, answer: &mut Answer) {
    match read_element(&arguments.hex()) {
        Ok((element, rest)) => {
            answer.ok();
            answer.hex(&[element.tag]);
            answer.hex(element.content);
            answer.hex(rest);
        }
        Err(error) => answer.error(error),
    }
}

/// `read_all BYTES TAG`: the content.
pub(crate) fn read_whole(arguments: &mut Arguments<'_>, answer: &mut Answer) {
    let bytes = arguments.hex();
    match read_all(&bytes, tag(arguments)) {
        Ok(element) => {
            answer.ok();
            answer.hex(element.content);
        }
        Err(error) => answer.error(error),
    }
}

/// The next argument as one byte.
pub(crate) fn tag(arguments: &mut Arguments<'_>) -> u8 {
    match arguments.hex().as_slice() {
        [tag] => *tag,
        _ => {
            arguments.refuse();
            0
        }
    }
}

/// `children BYTES`: each element whole, and the error at which they end.
pub(crate) fn read_children(arguments: &mut Arguments<'_>, answer: &mut Answer) {
    let bytes = arguments.hex();
    answer.ok();
    for item in children(&bytes) {
        match item {
            Ok(element) => answer.hex(element.whole),
            Err(error) => answer.value(&error),
        }
    }
}

/// `write_element TAG CONTENT`: the first six bytes, and how many there are. `write_short` has to write the same.
pub(crate) fn write(arguments: &mut Arguments<'_>, answer: &mut Answer) {
    let tag = tag(arguments);
    let content = arguments.hex();
    if tag % 32 == 31 || content.len() >= 0x1_0000_0000 {
        return arguments.refuse();
    }
    let short = write_short(arguments.alloc(), tag, &content);
    match write_element(arguments.alloc(), tag, &content) {
        Ok(text) => {
            shortened(answer, text.as_slice());
            twin(answer, short, text.as_slice());
        }
        Err(error) => answer.error(error),
    }
}

/// The first six bytes, and how many there are.
fn shortened(answer: &mut Answer, bytes: &[u8]) {
    answer.ok();
    answer.hex(&bytes[..bytes.len().min(6)]);
    answer.value(&bytes.len());
}

/// Adds a word unless `write_short` wrote the same.
fn twin(answer: &mut Answer, short: Result<Bytes, OutOfMemory>, text: &[u8]) {
    match short {
        Ok(short) if short.as_slice() == text => {}
        Ok(_) => answer.value(&"twins differ"),
        Err(_) => answer.out_of_memory(),
    }
}

/// `close TAG PIECES`: the element of the pieces.
pub(crate) fn close(arguments: &mut Arguments<'_>, answer: &mut Answer) {
    let tag = tag(arguments);
    if tag % 32 == 31 {
        return arguments.refuse();
    }
    let mut out = DerOut::new(arguments.alloc());
    for piece in &arguments.hex_list() {
        if out.push(piece).is_err() {
            answer.out_of_memory();
        }
    }
    match out.close(tag) {
        Ok(text) => {
            answer.ok();
            answer.hex(text.as_slice());
        }
        Err(error) => answer.error(error),
    }
}

/// `time_of TAG TEXT`: the second since 1970.
pub(crate) fn time(arguments: &mut Arguments<'_>, answer: &mut Answer) {
    let tag = tag(arguments);
    let text = arguments.text();
    let content = text.as_bytes();
    let element = Element {
        tag,
        whole: content,
        content,
    };
    match time_of(&element) {
        Ok(second) => {
            answer.ok();
            answer.value(&second);
        }
        Err(error) => answer.error(error),
    }
}

/// `rfc3339_second TEXT`: the second since 1970.
pub(crate) fn instant(arguments: &mut Arguments<'_>, answer: &mut Answer) {
    match rfc3339_second(arguments.text().as_str()) {
        Some(second) => {
            answer.ok();
            answer.value(&second);
        }
        None => answer.value(&"none"),
    }
}
