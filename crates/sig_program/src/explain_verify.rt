//! The command `explain verify`: the reply of `verify`, and why.
ghost use Rattle.std.specs.Prelude.{◌≡◌, ℕ, IfOk, List, None, Ok, Err, Some};
ghost use Rattle.sig_explain_verify.specs.Inputs.{inputs_of};
ghost use Rattle.sig_explain_verify.specs.RefusedTree.{IsRefusedTree};
ghost use Rattle.sig_explain_verify.specs.Verified.{IsVerifiedTree};
ghost use Rattle.sig_json.specs.Tree.{document_tree};
ghost use Rattle.sig_program.specs.ExplainedReply.{IsExplained};
ghost use Rattle.sig_program.specs.Explanation.{IsOutcome, shown_inputs};
ghost use Rattle.sig_program.specs.Reply.{IsEntryIn};
ghost use Rattle.sig_program.specs.declared.explained.Explained.TheVariants.{Verify};
ghost use Rattle.sig_request.specs.ReadFrom.{IsReadFrom, IsRequestOf};
ghost use Rattle.sig_request.specs.VerifyRequest.{verify_request};
ghost use Rattle.sig_verify.specs.OfflineErrors.{link_of};

use crate::explanation::{explained_by, refused_text};
use crate::reply::refused;
use crate::verify::{verified_reply, verify_chain};
use sig_base::OutOfMemory;
use sig_explain_verify::{VerifyInputs, refused_explanation, verified_explanation};
use sig_json::Document;
use sig_reply::Reply;
use sig_request::VerifyRequest;
use sig_request_fault::verify_request_fault;
use sig_verify::{Link, LoggedEntry, OfflineError};
use std::alloc::Global;

/// Returns the reply of `verify` to a request's text, and its explanation as the last line: what is wrong with a text
/// that is not a request; for a request, the first link of the chain of trust that fails with what it compares, or what
/// was verified. The chain of trust is tested once. Fails only if out of memory.
#[inline(never)]
pub fn explain_verify(alloc: Global, text: &[u8]) -> Result<Reply, OutOfMemory>
    ensures { IfOk result (IsExplained Verify text.now) }
{
    let Some(request) = VerifyRequest::read(alloc, text)? else {
        return explain_fault(alloc, text);
    };
    let reply = explain_request(alloc, &request);
    drop(request);
    reply
}

/// The explained reply to a text that is not a request.
fn explain_fault(alloc: Global, text: &[u8]) -> Result<Reply, OutOfMemory>
    requires { IsReadFrom verify_request text.now None }
    ensures { IfOk result (IsExplained Verify text.now) }
{
    match verify_request_fault(alloc, text)? {
        Some(fault) => refused_text(alloc, &fault),
        // Something is wrong with a text that is not a request.
        None => unreachable!(),
    }
}

fn explain_request(alloc: Global, request: &VerifyRequest) -> Result<Reply, OutOfMemory>
    ensures { (text : List ℕ) → IsRequestOf verify_request text request.entry.now
        → IfOk result (IsExplained Verify text) }
{
    match verify_chain(alloc, request) {
        Ok(offline) => {
            let reply = explain_entry(alloc, request, &offline);
            drop(offline);
            reply
        }
        Err(error) => {
            let reply = match error.link() {
                Some(link) => explain_refusal(alloc, request, &error, link),
                // Only `OutOfMemory` does not belong to a link.
                None => Err(OutOfMemory),
            };
            drop(error);
            reply
        }
    }
}

/// Returns the explained reply to a request for which every link holds, with the log entry of its bundle.
fn explain_entry(
    alloc: Global,
    request: &VerifyRequest,
    offline: &LoggedEntry,
) -> Result<Reply, OutOfMemory>
    requires outcome { IsOutcome request.now (Ok offline.now) }
    requires kept { IsEntryIn request.now offline.now }
    ensures { (text : List ℕ) → IsRequestOf verify_request text request.entry.now
        → IfOk result (IsExplained Verify text) }
{
    let plain = verified_reply(alloc, request, offline)?;
    let explanation = verified_document(alloc, request, offline)?;
    explained_by(alloc, &plain, &explanation)
}

/// Returns the explained reply to a request for which this link is the first that fails, with this error.
fn explain_refusal(
    alloc: Global,
    request: &VerifyRequest,
    error: &OfflineError,
    link: Link,
) -> Result<Reply, OutOfMemory>
    requires outcome { IsOutcome request.now (Err error.now) }
    requires link { link_of error.now ≡ Some link }
    ensures { (text : List ℕ) → IsRequestOf verify_request text request.entry.now
        → IfOk result (IsExplained Verify text) }
{
    let plain = refused(alloc, link)?;
    let explanation = refused_document(alloc, request, error)?;
    explained_by(alloc, &plain, &explanation)
}

/// Returns what was verified for a request with this log entry.
fn verified_document(
    alloc: Global,
    request: &VerifyRequest,
    offline: &LoggedEntry,
) -> Result<Document, OutOfMemory>
    ensures { IfOk result (λ document.
        IsVerifiedTree (shown_inputs request.entry.now) offline.now (document_tree document)) }
{
    let object = verified_explanation(alloc, &shown_inputs(request), offline)?;
    Ok(object.into_document())
}

/// Returns why a request is refused with this error.
fn refused_document(
    alloc: Global,
    request: &VerifyRequest,
    error: &OfflineError,
) -> Result<Document, OutOfMemory>
    ensures { IfOk result (λ document.
        IsRefusedTree (shown_inputs request.entry.now) error.now (document_tree document)) }
{
    let object = refused_explanation(alloc, &shown_inputs(request), error)?;
    Ok(object.into_document())
}

/// Returns what an explanation shows of a request.
fn shown_inputs(request: &VerifyRequest) -> VerifyInputs<'_>
    ensures { inputs_of result ≡ shown_inputs request.entry.now }
{
    VerifyInputs {
        trusted_root: request.trusted_root(),
        now: request.now(),
        digest: &request.digest,
        bundle: request.bundle(),
        policy: &request.policy,
        accepted: &request.accepted,
    }
}
