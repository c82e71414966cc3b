//! Documents, read as the program reads them, and written.

use sig_json::{BorrowedDocument, Scratch};
use sig_json_text::{canonical, compact};
use std::alloc::Global;

/// Returns 0 if the text is a document.
pub fn read(alloc: Global, text: &[u8]) -> Option<u64> {
    let mut scratch = Scratch::new(alloc);
    let _document = BorrowedDocument::read(alloc, text, &mut scratch).ok()?;
    Some(0)
}

/// Returns how many bytes the document's compact text has.
pub fn written_compact(alloc: Global, text: &[u8]) -> Option<u64> {
    let mut scratch = Scratch::new(alloc);
    let document = BorrowedDocument::read(alloc, text, &mut scratch).ok()?;
    let written = compact(alloc, document.view()).ok()?;
    Some(written.as_str().len() as u64)
}

/// Returns how many bytes the document's canonical text has.
pub fn written_canonical(alloc: Global, text: &[u8]) -> Option<u64> {
    let mut scratch = Scratch::new(alloc);
    let document = BorrowedDocument::read(alloc, text, &mut scratch).ok()?;
    let written = canonical(alloc, document.view()).ok()?;
    Some(written.as_str().len() as u64)
}
