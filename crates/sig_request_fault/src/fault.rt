//! `RequestFault`: what is wrong with a text that has to be a request.
ghost use Rattle.std.specs.Prelude.{◌≡◌, IfOk};
ghost use Rattle.sig_request_fault.specs.RequestFault.{IsRequestFault, request_fault_in};

use sig_base::OutOfMemory;
use sig_request::MOST_BYTES;
use sig_table::{DocumentFault, MemberTable, document_fault};
use std::alloc::Global;

/// Why a text is not a request.
#[derive(Drop)]
pub enum RequestFault {
    /// The text has more than 2^24 bytes.
    TooLong,
    /// The text is not JSON, has a float, or a member breaks the table.
    Document(DocumentFault),
}

/// Returns what is wrong with a text that has to be a request of a table, or `None` if it is one. Fails only if out of
/// memory.
#[tactic(auto, unfolding(crate::specs::RequestFault::request_fault_in))]
pub fn request_fault<T: MemberTable>(
    alloc: Global,
    text: &[u8],
) -> Result<Option<RequestFault>, OutOfMemory>
    ensures value { IfOk result (λ found. found ≡ request_fault_in T.table text.now) }
    // The same in words.
    ensures first { IfOk result (IsRequestFault T.table text.now) }
{
    if text.len() > MOST_BYTES {
        return Ok(Some(RequestFault::TooLong));
    }
    match document_fault::<T>(alloc, text)? {
        Some(fault) => Ok(Some(RequestFault::Document(fault))),
        None => Ok(None),
    }
}
