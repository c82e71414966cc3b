//! Payloads, read as statements.

use sig_dsse::{InTotoStatementV1, payload_digests, recognized_digests};
use std::alloc::Global;

/// Returns how many digests were taken of the statement; `None` if the payload is not one, or its digests are rejected.
pub fn digests_of(alloc: Global, payload: &[u8]) -> Option<u64> {
    let statement = InTotoStatementV1::from_json(alloc, payload).ok()?;
    let digests = recognized_digests(alloc, &statement).ok()?;
    Some(digests.len() as u64)
}

/// Returns how many digests were taken of the payload, where nothing else of the statement is kept; `None` as above.
pub fn digests_alone(alloc: Global, payload: &[u8]) -> Option<u64> {
    let digests = payload_digests(alloc, payload).ok()?;
    Some(digests.len() as u64)
}
