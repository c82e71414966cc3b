//! The command `log`: is this entry in the log, and does the log vouch for it?
ghost use Rattle.std.specs.Prelude.{◌↔◌, ℕ, IfOk, IsTrue, List};
ghost use Rattle.sig_program.specs.Link.{IsLogged, IsLogVerdict};
ghost use Rattle.sig_program.specs.Reply.{IsLoggedReply, IsReply};
ghost use Rattle.sig_program.specs.declared.command.Command.TheVariants.{Log};
ghost use Rattle.sig_request.specs.ReadFrom.{IsRequestOf};
ghost use Rattle.sig_request.specs.Request.{log_request};

use crate::head::failing_link_of;
use crate::reply::{logged, refused};
use crate::second_line::second_line;
use sig_base::OutOfMemory;
use sig_merkle::hash_leaf;
use sig_merkle::uncounted::verify_inclusion;
use sig_reply::Reply;
use sig_request::LogRequest;
use sig_verify::Link;
use std::alloc::Global;

/// Returns the reply to a request's text: `logged I N` with status 0 if every link holds, and the second line if the
/// request gives the log's entries, else `refused NAME` for the first link that fails, with status 2 for the link
/// `request` and 1 for every other. Fails only if out of memory.
pub fn log_reply(alloc: Global, request: &[u8]) -> Result<Reply, OutOfMemory>
    ensures { IfOk result (IsReply Log request.now) }
{
    let Some(request) = LogRequest::read(alloc, request)? else {
        return refused(alloc, Link::Request);
    };
    let reply = reply_to(alloc, &request);
    drop(request);
    reply
}

fn reply_to(alloc: Global, request: &LogRequest) -> Result<Reply, OutOfMemory>
    ensures { (text : List ℕ) → IsRequestOf log_request text request.now → IfOk result (IsReply Log text) }
{
    let verdict = failing_link(alloc, request)?;
    reply_under(alloc, request, verdict)
}

/// Returns the first link of a request that fails, or `None`.
#[tactic(auto, using(crate::proofs::LogVerdicts::verdicts))]
pub(crate) fn failing_link(alloc: Global, request: &LogRequest) -> Result<Option<Link>, OutOfMemory>
    ensures { IfOk result (IsLogVerdict request.now) }
{
    let proof = &request.proof;
    if let Some(link) = failing_link_of(alloc, &request.head, proof.tree_size, &proof.root_hash)? {
        return Ok(Some(link));
    }
    if !is_logged(request) {
        return Ok(Some(Link::Inclusion));
    }
    Ok(None)
}

/// Whether the path leads from the entry's leaf to the root.
#[tactic(auto, using(crate::proofs::ProofPaths::logged))]
fn is_logged(request: &LogRequest) -> bool
    ensures { IsTrue result ↔ IsLogged request.now }
{
    let proof = &request.proof;
    let Ok(index) = u64::try_from(proof.log_index) else {
        return false;
    };
    verify_inclusion(
        index,
        &hash_leaf(request.entry.as_slice()),
        proof.tree_size,
        proof.hashes.as_slice(),
        &proof.root_hash,
    )
    .is_ok()
}

/// Returns the reply to a request whose first failing link is this, or that has none.
pub(crate) fn reply_under(
    alloc: Global,
    request: &LogRequest,
    verdict: Option<Link>,
) -> Result<Reply, OutOfMemory>
    requires { IsLogVerdict request.now verdict }
    ensures { (text : List ℕ) → IsRequestOf log_request text request.now → IfOk result (IsReply Log text) }
{
    match verdict {
        Some(link) => refused(alloc, link),
        None => logged_reply(alloc, request),
    }
}

/// Returns the reply to a request for which every link holds.
fn logged_reply(alloc: Global, request: &LogRequest) -> Result<Reply, OutOfMemory>
    requires { IsLogged request.now }
    ensures { IfOk result (IsLoggedReply request.now) }
{
    let second = second_line(
        alloc,
        &request.entries,
        request.entry.as_slice(),
        &request.proof,
    )?;
    logged(alloc, &request.proof, &second)
}
