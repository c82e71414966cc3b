//! The line that explains a reply.
//!
//! ```text
//! refused request
//! {"cause":["Member"],"link":"request","path":"rootHash","why":"Absent"}
//! ```
ghost use Rattle.std.specs.Prelude.{◌≡◌, IfOk};
ghost use Rattle.sig_explain_log.specs.Request.{request_tree};
ghost use Rattle.sig_json.specs.Tree.{document_tree};
ghost use Rattle.sig_program.specs.ExplainedReply.{explained_by};
ghost use Rattle.sig_program.specs.Reply.{refusal_reply};
ghost use Rattle.sig_verify.specs.declared.link.Link.TheVariants.{Request};

use crate::reply::refused;
use sig_base::{OutOfMemory, Text};
use sig_explain_log::request_explanation;
use sig_json::Document;
use sig_json_text::compact;
use sig_reply::Reply;
use sig_request_fault::RequestFault;
use sig_verify::Link;
use std::alloc::Global;

/// Returns the reply with one more line, the text of its explanation without white space; its status stays. Fails only if
/// out of memory.
pub fn explained_by(
    alloc: Global,
    plain: &Reply,
    explanation: &Document,
) -> Result<Reply, OutOfMemory>
    ensures { IfOk result (λ reply. reply ≡ explained_by plain.now (document_tree explanation.now)) }
{
    let line = compact(alloc, explanation.view())?;
    let lines = plain.text.as_str();
    let line = line.as_str();
    let text = Text::from(format!(in alloc; "{lines}{line}\n")?);
    Ok(Reply {
        status: plain.status,
        text,
    })
}

/// Returns `refused request`, and what is wrong with the text that is not a request, with status 2. Fails only if out
/// of memory.
pub fn refused_text(alloc: Global, fault: &RequestFault) -> Result<Reply, OutOfMemory>
    ensures { IfOk result (λ reply. reply ≡ explained_by (refusal_reply Request) (request_tree fault.now)) }
{
    let plain = refused(alloc, Link::Request)?;
    let explanation = request_explanation(alloc, fault)?;
    explained_by(alloc, &plain, &explanation)
}
