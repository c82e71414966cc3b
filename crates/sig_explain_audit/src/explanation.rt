//! The explanation of an audit.
ghost use Rattle.std.specs.Prelude.{IfOk};
ghost use Rattle.sig_explain_audit.specs.AuditExplanation.{IsAuditExplanation, IsAuditTree, IsRequestTree};
ghost use Rattle.sig_json.specs.Tree.{document_tree};
ghost use Rattle.sig_request.specs.AuditRequest.{audit_request};
ghost use Rattle.sig_request.specs.ReadFrom.{IsRequestOf};
ghost use Rattle.sig_request.specs.declared.audit_request.AuditRequest.{AuditRequest as request_type};

use crate::audited::audited_document;
use crate::refused::{fault_document, unread_document};
use sig_audit::Heads;
use sig_audit_command::audit_of;
use sig_audit_command::read_heads::{NoHeads, read_heads};
use sig_base::OutOfMemory;
use sig_explain_log::request_explanation;
use sig_json::Document;
use sig_request::AuditRequest;
use sig_request_fault::audit_request_fault;
use std::alloc::Global;

/// Explains what `audit` says of a request's text: what is wrong with it, if it is not a request; else the first link
/// that fails, with the index of its head or watched entry, its cause, and what it compares; else what was audited.
/// docs/LINKS.md lists the members. Fails only if out of memory.
pub fn audit_explanation(alloc: Global, text: &[u8]) -> Result<Document, OutOfMemory>
    ensures { IfOk result (λ document. IsAuditExplanation text.now (document_tree document)) }
{
    let Some(request) = AuditRequest::read(alloc, text)? else {
        return request_fault_document(alloc, text);
    };
    let document = request_document(alloc, &request);
    drop(request);
    document
}

/// What is wrong with a text that is not a request.
fn request_fault_document(alloc: Global, text: &[u8]) -> Result<Document, OutOfMemory>
    requires { (request : request_type) → ¬ IsRequestOf audit_request text.now request }
    ensures { IfOk result (λ document. IsAuditExplanation text.now (document_tree document)) }
{
    let Some(fault) = audit_request_fault(alloc, text)? else {
        // A text with which nothing is wrong is a request.
        unreachable!()
    };
    let document = request_explanation(alloc, &fault);
    drop(fault);
    document
}

/// The explanation of a request.
fn request_document(alloc: Global, request: &AuditRequest) -> Result<Document, OutOfMemory>
    ensures { IfOk result (λ document. IsRequestTree request.now (document_tree document)) }
{
    match read_heads(alloc, request.heads.as_slice()) {
        Ok(heads) => {
            let document = audit_document(alloc, request, &heads);
            drop(heads);
            document
        }
        Err(NoHeads::Checkpoint(place)) => { unread_document(alloc, request, place) }
        Err(NoHeads::OutOfMemory) => Err(OutOfMemory),
    }
}

/// The explanation of a request with these heads.
fn audit_document(
    alloc: Global,
    request: &AuditRequest,
    heads: &Heads,
) -> Result<Document, OutOfMemory>
    ensures { IfOk result (λ document. IsAuditTree request.now heads.now (document_tree document)) }
{
    match audit_of(alloc, request, heads) {
        Ok(_) => audited_document(alloc, heads, &request.watched),
        Err(error) => fault_document(alloc, request, heads, error),
    }
}
