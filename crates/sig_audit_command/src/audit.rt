//! The command `audit`: are these heads of one log over time, and are these entries in it?
ghost use Rattle.std.specs.Prelude.{ℕ, IfOk, List};
ghost use Rattle.sig_audit_command.specs.Reply.{IsAuditReply};
ghost use Rattle.sig_request.specs.AuditRequest.{AreWithin, audit_request};
ghost use Rattle.sig_request.specs.ReadFrom.{IsRequestOf};

use crate::read_heads::{NoHeads, read_heads};
use crate::reply::reply_over;
use sig_base::OutOfMemory;
use sig_reply::Reply;
use sig_request::AuditRequest;
use std::alloc::Global;

/// Returns the reply to a request's text: `audited K W N`, the number of heads, that of watched entries and the size of
/// the last head, with status 0 if every link holds, and the second line if the request gives the log's entries.
/// Else, with status 1, the first link that fails and the index of its head or watched entry: `refused checkpoint I`
/// for the heads in order, then `refused note-key I`, `refused origin I` or `refused consistency I` for each head in
/// turn, then `refused inclusion I` for the watched entries in order; and `refused request` with status 2 if the text
/// is not a request of `audit`. Fails only if out of memory.
///
/// So each head of an audited log has the size and the root of the first entries of the list that the last one has, and
/// each watched entry is that list's at its index; or two different byte strings of equal SHA-256 are written.
pub fn audit_reply(alloc: Global, request: &[u8]) -> Result<Reply, OutOfMemory>
    ensures { IfOk result (IsAuditReply request.now) }
{
    let Some(request) = AuditRequest::read(alloc, request)? else {
        return Reply::refused(alloc, 2, "request");
    };
    let reply = reply_to(alloc, &request);
    drop(request);
    reply
}

fn reply_to(alloc: Global, request: &AuditRequest) -> Result<Reply, OutOfMemory>
    requires { AreWithin request.now.heads request.now.watched }
    ensures { (text : List ℕ) → IsRequestOf audit_request text request.now → IfOk result (IsAuditReply text) }
{
    match read_heads(alloc, request.heads.as_slice()) {
        Ok(heads) => {
            let reply = reply_over(alloc, request, &heads);
            drop(heads);
            reply
        }
        Err(NoHeads::Checkpoint(place)) => Reply::refused_at(alloc, "checkpoint", place),
        Err(NoHeads::OutOfMemory) => Err(OutOfMemory),
    }
}
