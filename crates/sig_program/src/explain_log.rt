//! The command `explain log`: the reply of `log`, and why.
ghost use Rattle.std.specs.Prelude.{ℕ, IfOk, List, None};
ghost use Rattle.sig_program.specs.ExplainedReply.{IsExplained};
ghost use Rattle.sig_program.specs.declared.explained.Explained.TheVariants.{Log};
ghost use Rattle.sig_request.specs.ReadFrom.{IsReadFrom, IsRequestOf};
ghost use Rattle.sig_request.specs.Request.{log_request};

use crate::explanation::{explained_by, refused_text};
use crate::log::{failing_link, reply_under};
use sig_base::OutOfMemory;
use sig_explain_log::log_explanation;
use sig_reply::Reply;
use sig_request::LogRequest;
use sig_request_fault::log_request_fault;
use std::alloc::Global;

/// Returns the reply of `log` to a request's text, and its explanation as the last line: what is wrong with a text that
/// is not a request; for a request, the first link that fails with what it compares, or what was verified. Fails only
/// if out of memory.
#[inline(never)]
pub fn explain_log(alloc: Global, text: &[u8]) -> Result<Reply, OutOfMemory>
    ensures { IfOk result (IsExplained Log text.now) }
{
    let Some(request) = LogRequest::read(alloc, text)? else {
        return explain_fault(alloc, text);
    };
    let reply = explain_request(alloc, &request);
    drop(request);
    reply
}

/// The explained reply to a text that is not a request.
fn explain_fault(alloc: Global, text: &[u8]) -> Result<Reply, OutOfMemory>
    requires { IsReadFrom log_request text.now None }
    ensures { IfOk result (IsExplained Log text.now) }
{
    match log_request_fault(alloc, text)? {
        Some(fault) => refused_text(alloc, &fault),
        // Something is wrong with a text that is not a request.
        None => unreachable!(),
    }
}

fn explain_request(alloc: Global, request: &LogRequest) -> Result<Reply, OutOfMemory>
    ensures { (text : List ℕ) → IsRequestOf log_request text request.now → IfOk result (IsExplained Log text) }
{
    let verdict = failing_link(alloc, request)?;
    let plain = reply_under(alloc, request, verdict)?;
    let explanation = log_explanation(alloc, request, verdict)?;
    explained_by(alloc, &plain, &explanation)
}
