//! What is wrong with requests.

use sig_base::OutOfMemory;
use sig_cases::{Answer, Arguments};
use sig_request_fault::{
    RequestFault, audit_request_fault, consistency_request_fault, log_request_fault,
    verify_request_fault,
};
use sig_table::DocumentFault;
use std::alloc::{AllocError, Global};

/// How many bytes are added at a time.
const PIECE: usize = 4096;

/// `log_request_fault TEXT`: `ok` if the text is a request of `log`, or what is wrong with it: for a member the cause
/// and the path.
pub(crate) fn log(arguments: &mut Arguments<'_>, answer: &mut Answer) {
    let text = arguments.rest();
    told(
        answer,
        log_request_fault(arguments.alloc(), text.as_bytes()),
    );
}

/// `verify_request_fault TEXT`: the same of `verify`.
pub(crate) fn verify(arguments: &mut Arguments<'_>, answer: &mut Answer) {
    let text = arguments.rest();
    told(
        answer,
        verify_request_fault(arguments.alloc(), text.as_bytes()),
    );
}

/// `consistency_request_fault TEXT`: the same of `consistency`.
pub(crate) fn consistency(arguments: &mut Arguments<'_>, answer: &mut Answer) {
    let text = arguments.rest();
    told(
        answer,
        consistency_request_fault(arguments.alloc(), text.as_bytes()),
    );
}

/// `audit_request_fault TEXT`: the same of `audit`.
pub(crate) fn audit(arguments: &mut Arguments<'_>, answer: &mut Answer) {
    let text = arguments.rest();
    told(
        answer,
        audit_request_fault(arguments.alloc(), text.as_bytes()),
    );
}

/// `spaces_fault COUNT`: what is wrong with a text of COUNT spaces, as a request of `log`, of `verify`, of
/// `consistency` and of `audit`.
pub(crate) fn spaces(arguments: &mut Arguments<'_>, answer: &mut Answer) {
    let alloc = arguments.alloc();
    match spaces_of(alloc, arguments.natural() as usize) {
        Ok(text) => {
            told(answer, log_request_fault(alloc, &text));
            told(answer, verify_request_fault(alloc, &text));
            told(answer, consistency_request_fault(alloc, &text));
            told(answer, audit_request_fault(alloc, &text));
        }
        Err(_) => answer.out_of_memory(),
    }
}

/// A text of `count` spaces.
fn spaces_of(alloc: Global, count: usize) -> Result<Vec<u8>, AllocError> {
    let mut text = Vec::with_capacity(alloc, count)?;
    let piece = [b' '; PIECE];
    'pieces: for _ in 0..count / PIECE {
        text.extend_from_slice(&piece)?;
    }
    text.extend_from_slice(&piece[..count % PIECE])?;
    Ok(text)
}

fn told(answer: &mut Answer, found: Result<Option<RequestFault>, OutOfMemory>) {
    match found {
        Ok(None) => answer.ok(),
        Ok(Some(RequestFault::TooLong)) => answer.value(&"TooLong"),
        Ok(Some(RequestFault::Document(DocumentFault::NotJson))) => answer.value(&"NotJson"),
        Ok(Some(RequestFault::Document(DocumentFault::Float))) => answer.value(&"Float"),
        Ok(Some(RequestFault::Document(DocumentFault::Member(fault)))) => {
            answer.debug(&fault.cause);
            answer.value(&fault.path);
            drop(fault);
        }
        Err(OutOfMemory) => answer.out_of_memory(),
    }
}
