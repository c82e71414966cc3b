//! `explain` before a command: the lines of its reply, with its status, and one line that says why.
//!
//! ```text
//! refused note-match
//! {"cause":["ConsistencyProofError","MismatchedRoot"],"link":"note-match","note":{..},"proof":{..}}
//! ```
//!
//! A module for each command that has its own links makes reply and explanation from one reading of the request, and so
//! does the crate of `explain gate`; those of `audit` and `witness` are made by the crates of these commands.
ghost use Rattle.std.specs.Prelude.{◌≡◌, IfOk};
ghost use Rattle.sig_program.specs.ExplainedReply.{IsExplained, long_explained};
ghost use Rattle.sig_program.specs.Explanation.{HasOneExplanation};
ghost use Rattle.sig_program.specs.declared.explained.Explained.TheVariants.{Audit, Consistency, Gate, Log};
ghost use Rattle.sig_program.specs.declared.explained.Explained.TheVariants.{Verify, Witness};

use crate::explain_consistency::explain_consistency;
use crate::explain_log::explain_log;
use crate::explain_verify::explain_verify;
use crate::explained::Explained;
use crate::explanation::{explained_by, refused_text};
use sig_audit_command::audit_reply;
use sig_base::OutOfMemory;
use sig_explain_audit::audit_explanation;
use sig_explain_gate::explained_gate;
use sig_explain_gate::laws::texts;
use sig_explain_verify::laws::results;
use sig_explain_witness::witness_explanation;
use sig_reply::Reply;
use sig_request_fault::RequestFault;
use sig_witness_command::witness_reply;
use std::alloc::Global;

/// Returns the reply of a command to a request's text, with its explanation as the last line: what is before that line
/// is the command's reply, and the status is the command's. Fails only if out of memory.
pub fn explained_reply(alloc: Global, what: Explained, request: &[u8]) -> Result<Reply, OutOfMemory>
    ensures reply { IfOk result (IsExplained what request.now) }
    // A text has no other explanation.
    ensures log { HasOneExplanation Log }
    ensures verify { HasOneExplanation Verify }
    ensures consistency { HasOneExplanation Consistency }
    ensures audit { HasOneExplanation Audit }
    ensures witness { HasOneExplanation Witness }
    ensures gate { HasOneExplanation Gate }
{
    // The laws of the trees of `verify` and of `gate`.
    results();
    texts();
    explain(alloc, what, request)
}

/// The explained reply of a command to a request's text. No command is a part of this function when it is compiled: a
/// caller of the library has 128 KB of stack, of which a text that nests to 127 takes half, and the others' frames
/// would be there too.
fn explain(alloc: Global, what: Explained, request: &[u8]) -> Result<Reply, OutOfMemory>
    ensures { IfOk result (IsExplained what request.now) }
{
    match what {
        Explained::Log => explain_log(alloc, request),
        Explained::Verify => explain_verify(alloc, request),
        Explained::Consistency => explain_consistency(alloc, request),
        Explained::Audit => explain_audit(alloc, request),
        Explained::Witness => explain_witness(alloc, request),
        Explained::Gate => explain_gate(alloc, request),
    }
}

/// Returns `refused request`, and that the text is too long, with status 2: the explained reply of each command to a
/// text of more than 2^24 bytes. Fails only if out of memory.
pub fn long_reply(alloc: Global) -> Result<Reply, OutOfMemory>
    ensures { IfOk result (λ reply. reply ≡ long_explained) }
{
    refused_text(alloc, &RequestFault::TooLong)
}

#[inline(never)]
fn explain_audit(alloc: Global, request: &[u8]) -> Result<Reply, OutOfMemory>
    ensures { IfOk result (IsExplained Audit request.now) }
{
    let plain = audit_reply(alloc, request)?;
    let explanation = audit_explanation(alloc, request)?;
    explained_by(alloc, &plain, &explanation)
}

#[inline(never)]
fn explain_witness(alloc: Global, request: &[u8]) -> Result<Reply, OutOfMemory>
    ensures { IfOk result (IsExplained Witness request.now) }
{
    let plain = witness_reply(alloc, request)?;
    let explanation = witness_explanation(alloc, request)?;
    explained_by(alloc, &plain, &explanation)
}

#[inline(never)]
fn explain_gate(alloc: Global, request: &[u8]) -> Result<Reply, OutOfMemory>
    ensures { IfOk result (IsExplained Gate request.now) }
{
    let explained = explained_gate(alloc, request)?;
    explained_by(alloc, &explained.reply, &explained.document)
}
