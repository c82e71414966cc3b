//! The encodings of arguments.
use crate::error::CaseError;
use base64::DecodeAllocError;
use base64::engine::general_purpose::STANDARD;
use hex::FromHexError;
use percent_encoding::percent_decode;
use std::alloc::Global;

/// A list of bytes in hexadecimal, separated by commas; `-` is the empty list.
pub(crate) fn hex_lists(alloc: Global, word: &str) -> Result<Vec<Vec<u8>>, CaseError> {
    let mut list = Vec::new(alloc);
    if word != "-" {
        for item in word.split(',') {
            list.push(hex_bytes(alloc, item)?)?;
        }
    }
    Ok(list)
}

/// The bytes of parts in hexadecimal that are joined by `+`.
pub(crate) fn hex_bytes(alloc: Global, word: &str) -> Result<Vec<u8>, CaseError> {
    let mut bytes = Vec::new(alloc);
    for part in word.split('+') {
        push_part(alloc, &mut bytes, part)?;
    }
    Ok(bytes)
}

/// Appends the bytes of a part: digits, or digits, `*` and the number of repetitions.
fn push_part(alloc: Global, bytes: &mut Vec<u8>, part: &str) -> Result<(), CaseError> {
    let (digits, times) = times_of(part)?;
    let piece = digits_of(alloc, digits)?;
    push_times(bytes, &piece, times)
}

fn times_of(part: &str) -> Result<(&str, u32), CaseError> {
    match part.split_once('*') {
        Some((digits, times)) => match times.parse::<u32>() {
            Ok(times) => Ok((digits, times)),
            Err(_) => Err(CaseError::BadLine),
        },
        None => Ok((part, 1)),
    }
}

/// The bytes of a text of hexadecimal digits.
fn digits_of(alloc: Global, digits: &str) -> Result<Vec<u8>, CaseError> {
    match hex::decode(alloc, digits) {
        Ok(bytes) => Ok(bytes),
        Err(FromHexError::OutOfMemory) => Err(CaseError::OutOfMemory),
        Err(_) => Err(CaseError::BadLine),
    }
}

fn push_times(bytes: &mut Vec<u8>, piece: &[u8], times: u32) -> Result<(), CaseError> {
    for _ in 0..times {
        bytes.extend_from_slice(piece)?;
    }
    Ok(())
}

pub(crate) fn base64_bytes(alloc: Global, word: &str) -> Result<Vec<u8>, CaseError> {
    match STANDARD.decode(alloc, word.as_bytes()) {
        Ok(bytes) => Ok(bytes),
        Err(DecodeAllocError::OutOfMemory) => Err(CaseError::OutOfMemory),
        Err(DecodeAllocError::DecodeError(_)) => Err(CaseError::BadLine),
    }
}

pub(crate) fn percent_text(alloc: Global, word: &str) -> Result<String, CaseError> {
    let mut bytes = Vec::new(alloc);
    percent_decode(word.as_bytes()).append_to(&mut bytes)?;
    match String::from_utf8(bytes) {
        Ok(text) => Ok(text),
        Err(_) => Err(CaseError::BadLine),
    }
}
