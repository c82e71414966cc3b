//! The kinds of values that have readers, and what is written of a value of each.
use crate::documents::{add_text, add_tree};
use sig_base::{Bytes, Text, TextMap};
use sig_cases::Answer;
use sig_json::{
    AnyReader, BytesReader, Document, ElementReader, HashReader, TextMapReader, TextReader,
};
use std::alloc::Global;

/// A kind of values.
pub(crate) trait Kind: ElementReader {
    /// Adds a value that was read.
    fn add(alloc: Global, answer: &mut Answer, item: &Self::Item);
}

impl Kind for TextReader {
    fn add(alloc: Global, answer: &mut Answer, item: &Text) {
        add_text(alloc, answer, item.as_str());
    }
}

impl Kind for BytesReader {
    fn add(_alloc: Global, answer: &mut Answer, item: &Bytes) {
        answer.hex(item.as_slice());
    }
}

impl Kind for HashReader {
    fn add(_alloc: Global, answer: &mut Answer, item: &[u8; 32]) {
        answer.hex(item);
    }
}

impl Kind for TextMapReader {
    fn add(alloc: Global, answer: &mut Answer, item: &TextMap) {
        answer.value(&item.len());
        for (name, text) in item.iter() {
            add_text(alloc, answer, name);
            add_text(alloc, answer, text);
        }
    }
}

impl Kind for AnyReader {
    fn add(alloc: Global, answer: &mut Answer, item: &Document) {
        add_tree(alloc, answer, item.view());
    }
}
