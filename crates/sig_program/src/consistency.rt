//! The command `consistency`: does the log still have the entries that it had, and does it vouch for that?
ghost use Rattle.std.specs.Prelude.{◌↔◌, ℕ, IfOk, IsTrue, List};
ghost use Rattle.sig_program.specs.ConsistencyLink.{IsConsistencyVerdict, IsGrown};
ghost use Rattle.sig_program.specs.Fronts.{FrontsAgree, TrivialFronts};
ghost use Rattle.sig_program.specs.Reply.{IsConsistentReply, IsReply};
ghost use Rattle.sig_program.specs.declared.command.Command.TheVariants.{Consistency};
ghost use Rattle.sig_request.specs.ConsistencyRequest.{consistency_request};
ghost use Rattle.sig_request.specs.ReadFrom.{IsRequestOf};

use crate::head::failing_link_of;
use crate::reply::{consistent, refused};
use crate::second_line::front_line;
use sig_base::OutOfMemory;
use sig_merkle::uncounted::verify_consistency;
use sig_reply::Reply;
use sig_request::ConsistencyRequest;
use sig_verify::Link;
use std::alloc::Global;

/// Returns the reply to a request's text: `consistent M N`, the old and the new size, with status 0 if every link
/// holds, and the second line where the request gives the log's entries, else `refused NAME` for the first that fails,
/// with status 2 for the link `request` and 1 for every other. Fails only if out of memory.
///
/// The second line is `prefix M` for every list of the log between equal sizes and from the empty tree; and of two
/// older trees of one new tree one is a front of the other, or a second line shows a collision.
pub fn consistency_reply(alloc: Global, request: &[u8]) -> Result<Reply, OutOfMemory>
    ensures reply { IfOk result (IsReply Consistency request.now) }
    ensures trivial { TrivialFronts }
    ensures agree { FrontsAgree }
{
    reply_to_text(alloc, request)
}

/// The reply to a request's text.
fn reply_to_text(alloc: Global, request: &[u8]) -> Result<Reply, OutOfMemory>
    ensures { IfOk result (IsReply Consistency request.now) }
{
    let Some(request) = ConsistencyRequest::read(alloc, request)? else {
        return refused(alloc, Link::Request);
    };
    let reply = reply_to(alloc, &request);
    drop(request);
    reply
}

fn reply_to(alloc: Global, request: &ConsistencyRequest) -> Result<Reply, OutOfMemory>
    ensures { (text : List ℕ) → IsRequestOf consistency_request text request.now
        → IfOk result (IsReply Consistency text) }
{
    let verdict = failing_link(alloc, request)?;
    reply_under(alloc, request, verdict)
}

/// Returns the first link of a request that fails, or `None`.
#[tactic(auto, using(crate::proofs::ConsistencyVerdicts::verdicts))]
pub(crate) fn failing_link(
    alloc: Global,
    request: &ConsistencyRequest,
) -> Result<Option<Link>, OutOfMemory>
    ensures { IfOk result (IsConsistencyVerdict request.now) }
{
    if let Some(link) = failing_link_of(
        alloc,
        &request.head,
        request.tree_size,
        &request.root_hash,
    )? {
        return Ok(Some(link));
    }
    if !is_grown(request) {
        return Ok(Some(Link::Consistency));
    }
    Ok(None)
}

/// Whether the hashes show that the tree has the older one as its first leaves.
fn is_grown(request: &ConsistencyRequest) -> bool
    ensures { IsTrue result ↔ IsGrown request.now }
{
    verify_consistency(
        request.old_size,
        request.tree_size,
        request.hashes.as_slice(),
        &request.old_root,
        &request.root_hash,
    )
    .is_ok()
}

/// Returns the reply to a request whose first failing link is this, or that has none.
pub(crate) fn reply_under(
    alloc: Global,
    request: &ConsistencyRequest,
    verdict: Option<Link>,
) -> Result<Reply, OutOfMemory>
    requires { IsConsistencyVerdict request.now verdict }
    ensures { (text : List ℕ) → IsRequestOf consistency_request text request.now
        → IfOk result (IsReply Consistency text) }
{
    match verdict {
        Some(link) => refused(alloc, link),
        None => grown_reply(alloc, request),
    }
}

/// Returns the reply to a request for which every link holds.
fn grown_reply(alloc: Global, request: &ConsistencyRequest) -> Result<Reply, OutOfMemory>
    requires { IsGrown request.now }
    ensures { IfOk result (IsConsistentReply request.now) }
{
    let second = front_line(alloc, request)?;
    consistent(alloc, request, &second)
}
