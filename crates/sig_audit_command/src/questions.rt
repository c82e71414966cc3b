//! The command `questions audit`: which signatures can the reply of `audit` depend on?
ghost use Rattle.std.specs.Prelude.{ℕ, IfOk, List};
ghost use Rattle.sig_audit_command.specs.Questions.{IsAuditQuestionsReply, audit_rows};
ghost use Rattle.sig_audit_command.specs.Suffice.{AuditListsAreGivenBack, AuditQuestionsSuffice};
ghost use Rattle.sig_reply.specs.Reply.{IsListingOf};
ghost use Rattle.sig_request.specs.AuditRequest.{audit_request};
ghost use Rattle.sig_request.specs.ReadFrom.{IsRequestOf};

use crate::laws::audit_lists;
use crate::read_heads::{NoHeads, read_heads};
use crate::rows::heads_document;
use sig_audit::Heads;
use sig_base::OutOfMemory;
use sig_reply::{Reply, room_beside};
use sig_request::AuditRequest;
use std::alloc::Global;

/// Returns the reply to a request's text: the list of the signatures that `audit` asks for, for each head in order each
/// signature over its note under the log's scheme and key, with status 0; else `refused checkpoint I` for the first
/// head whose text is not a checkpoint, and `refused request` if the text is not a request of `audit`, or text, list
/// and `,"accepted":` would have more than 2^24 bytes together. Which signatures the request itself accepts does not
/// matter. Fails only if out of memory.
///
/// For two requests that differ only in accepted signatures that are not asked for, `audit` has the same reply, also
/// where no list is written. And a list that is written fits one request with the request that it is for.
pub fn audit_questions(alloc: Global, request: &[u8]) -> Result<Reply, OutOfMemory>
    ensures reply { IfOk result (IsAuditQuestionsReply request.now) }
    ensures suffice { AuditQuestionsSuffice }
    ensures given_back { AuditListsAreGivenBack }
{
    // Why the list suffices, and fits one request with the request.
    audit_lists();
    reply_to_text(alloc, request)
}

/// The reply to a request's text.
fn reply_to_text(alloc: Global, request: &[u8]) -> Result<Reply, OutOfMemory>
    ensures { IfOk result (IsAuditQuestionsReply request.now) }
{
    let Some(read) = AuditRequest::read(alloc, request)? else {
        return Reply::refused(alloc, 2, "request");
    };
    let reply = reply_to(alloc, request, &read);
    drop(read);
    reply
}

/// The reply to a request, whose text this is.
fn reply_to(alloc: Global, text: &[u8], request: &AuditRequest) -> Result<Reply, OutOfMemory>
    requires { IsRequestOf audit_request text.now request.now }
    ensures { IfOk result (IsAuditQuestionsReply text.now) }
{
    match read_heads(alloc, request.heads.as_slice()) {
        Ok(heads) => {
            let reply = listing_reply(alloc, text, request, &heads);
            drop(heads);
            reply
        }
        Err(NoHeads::Checkpoint(place)) => Reply::refused_at(alloc, "checkpoint", place),
        Err(NoHeads::OutOfMemory) => Err(OutOfMemory),
    }
}

/// The reply to a request of this text with these heads.
fn listing_reply(
    alloc: Global,
    text: &[u8],
    request: &AuditRequest,
    heads: &Heads,
) -> Result<Reply, OutOfMemory>
    ensures { IfOk result (IsListingOf text.now (audit_rows request.now heads.now)) }
{
    match heads_document(alloc, request, heads.as_slice(), room_beside(text))? {
        Some(document) => Reply::listed(alloc, &document),
        None => Reply::refused(alloc, 2, "request"),
    }
}
