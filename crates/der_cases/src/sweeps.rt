//! Many readings in one digest: bytes cut at every length, and with every byte changed.

use crate::calls::tag;
use sig_base::{DerError, sha256};
use sig_cases::{Answer, Arguments};
use sig_der::read_element;
use std::alloc::AllocError;

/// `prefixes BYTES`: the digest of the readings of every prefix at its first 32 offsets.
pub(crate) fn prefixes(arguments: &mut Arguments<'_>, answer: &mut Answer) {
    let bytes = arguments.hex();
    let mut out = Vec::new(arguments.alloc());
    for n in 0..=bytes.len() {
        if note_each(&mut out, &bytes[..n], 0, 32).is_err() {
            answer.out_of_memory();
        }
    }
    answer.ok();
    answer.hex(&sha256(&out));
}

/// Appends how the bytes read at each offset from one up to another.
fn note_each(out: &mut Vec<u8>, bytes: &[u8], from: usize, to: usize) -> Result<(), AllocError> {
    for at in from..to.min(bytes.len()) {
        note(out, &bytes[at..])?;
    }
    Ok(())
}

/// Appends how the bytes read: 0, the tag and the lengths of content and rest in eight bytes each; or the number of
/// the error.
fn note(out: &mut Vec<u8>, bytes: &[u8]) -> Result<(), AllocError> {
    match read_element(bytes) {
        Ok((element, rest)) => {
            out.extend_from_slice(&[0, element.tag])?;
            out.extend_from_slice(&(element.content.len() as u64).to_be_bytes())?;
            out.extend_from_slice(&(rest.len() as u64).to_be_bytes())
        }
        Err(error) => out.extend_from_slice(&[number(error)]),
    }
}

fn number(error: DerError) -> u8 {
    match error {
        DerError::Truncated => 1,
        DerError::LongTag => 2,
        DerError::Length => 3,
        _ => 4,
    }
}

/// `flips BYTES MASK`: the digest of the readings of the bytes with each byte in turn changed by the mask, at the
/// changed byte and at the five offsets before it, since a tag and a length have at most six bytes.
pub(crate) fn flips(arguments: &mut Arguments<'_>, answer: &mut Answer) {
    let mut bytes = arguments.hex();
    let mask = tag(arguments);
    let mut out = Vec::new(arguments.alloc());
    for at in 0..bytes.len() {
        bytes[at] ^= mask;
        if note_each(&mut out, &bytes, at.saturating_sub(5), at + 1).is_err() {
            answer.out_of_memory();
        }
        bytes[at] ^= mask;
    }
    answer.ok();
    answer.hex(&sha256(&out));
}
