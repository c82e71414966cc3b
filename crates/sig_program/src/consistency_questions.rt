//! The command `questions consistency`: which signatures can the reply of `consistency` depend on?
ghost use Rattle.std.specs.Prelude.{IfOk};
ghost use Rattle.sig_program.specs.Reply.{IsReply};
ghost use Rattle.sig_program.specs.Suffice.{ConsistencyQuestionsSuffice};
ghost use Rattle.sig_program.specs.declared.command.Command.TheVariants.{ConsistencyQuestions};
ghost use Rattle.sig_request.specs.ReadFrom.{IsRequestOf};
ghost use Rattle.sig_request.specs.ConsistencyRequest.{consistency_request};

use crate::head_questions::head_listing;
use crate::reply::refused;
use sig_base::OutOfMemory;
use sig_reply::Reply;
use sig_request::ConsistencyRequest;
use sig_verify::Link;
use std::alloc::Global;

/// Returns the reply to a request's text: the list of the signatures that `consistency` asks for, each signature of the
/// checkpoint over its note under the log's scheme and key, in order, with status 0; else `refused checkpoint` if the
/// request's checkpoint has no reading, and `refused request` if the text is not a request of `consistency`, or text,
/// list and `,"accepted":` would have more than 2^24 bytes together. Which signatures the request itself accepts does
/// not matter. Fails only if out of memory.
///
/// For two requests that differ only in accepted signatures that are not asked for, `consistency` has the same reply,
/// also where no list is written.
pub fn consistency_questions(alloc: Global, request: &[u8]) -> Result<Reply, OutOfMemory>
    ensures reply { IfOk result (IsReply ConsistencyQuestions request.now) }
    ensures suffice { ConsistencyQuestionsSuffice }
{
    reply_to_text(alloc, request)
}

/// The reply to a request's text.
fn reply_to_text(alloc: Global, request: &[u8]) -> Result<Reply, OutOfMemory>
    ensures { IfOk result (IsReply ConsistencyQuestions request.now) }
{
    let Some(read) = ConsistencyRequest::read(alloc, request)? else {
        return refused(alloc, Link::Request);
    };
    let reply = reply_to(alloc, request, &read);
    drop(read);
    reply
}

/// The reply to a request, whose text this is.
fn reply_to(alloc: Global, text: &[u8], request: &ConsistencyRequest) -> Result<Reply, OutOfMemory>
    requires { IsRequestOf consistency_request text.now request.now }
    ensures { IfOk result (IsReply ConsistencyQuestions text.now) }
{
    head_listing(alloc, text, &request.head)
}
