//! The command `questions log`: which signatures can the reply of `log` depend on?
ghost use Rattle.std.specs.Prelude.{IfOk};
ghost use Rattle.sig_program.specs.Reply.{IsReply};
ghost use Rattle.sig_program.specs.Suffice.{LogQuestionsSuffice};
ghost use Rattle.sig_program.specs.declared.command.Command.TheVariants.{LogQuestions};
ghost use Rattle.sig_request.specs.ReadFrom.{IsRequestOf};
ghost use Rattle.sig_request.specs.Request.{log_request};

use crate::head_questions::head_listing;
use crate::reply::refused;
use sig_base::OutOfMemory;
use sig_reply::Reply;
use sig_request::LogRequest;
use sig_verify::Link;
use std::alloc::Global;

/// Returns the reply to a request's text: the list of the signatures that `log` asks for, each signature of the
/// checkpoint over its note under the log's scheme and key, in order, with status 0; else `refused checkpoint` if the
/// request's checkpoint has no reading, and `refused request` if the text is not a request of `log`, or text, list and
/// `,"accepted":` would have more than 2^24 bytes together. Which signatures the request itself accepts does not
/// matter. Fails only if out of memory.
///
/// For two requests that differ only in accepted signatures that are not asked for, `log` has the same reply, also
/// where no list is written.
pub fn log_questions(alloc: Global, request: &[u8]) -> Result<Reply, OutOfMemory>
    ensures reply { IfOk result (IsReply LogQuestions request.now) }
    ensures suffice { LogQuestionsSuffice }
{
    reply_to_text(alloc, request)
}

/// The reply to a request's text.
fn reply_to_text(alloc: Global, request: &[u8]) -> Result<Reply, OutOfMemory>
    ensures { IfOk result (IsReply LogQuestions request.now) }
{
    let Some(read) = LogRequest::read(alloc, request)? else {
        return refused(alloc, Link::Request);
    };
    let reply = reply_to(alloc, request, &read);
    drop(read);
    reply
}

/// The reply to a request, whose text this is.
fn reply_to(alloc: Global, text: &[u8], request: &LogRequest) -> Result<Reply, OutOfMemory>
    requires { IsRequestOf log_request text.now request.now }
    ensures { IfOk result (IsReply LogQuestions text.now) }
{
    head_listing(alloc, text, &request.head)
}
