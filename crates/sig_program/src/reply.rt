//! The first lines of replies.
ghost use Rattle.std.specs.Prelude.{◌≡◌, IfOk};
ghost use Rattle.sig_program.specs.Reply.{consistent, logged, refusal_reply, success, verified};

use sig_base::{OutOfMemory, Text};
use sig_rekor::InclusionProof;
use sig_reply::Reply;
use sig_request::ConsistencyRequest;
use sig_verify::Link;
use std::alloc::Global;

/// The line for words that are not a command.
pub const USAGE_LINE: &str = "usage\n";

/// Returns `refused NAME`, for the first link that fails, with status 2 for the link `request`, else 1. Fails only if
/// out of memory.
pub fn refused(alloc: Global, link: Link) -> Result<Reply, OutOfMemory>
    ensures { IfOk result (λ reply. reply ≡ refusal_reply link) }
{
    let status = match link {
        Link::Request => 2,
        _ => 1,
    };
    Reply::refused(alloc, status, link.name())
}

/// Returns `logged I N`, the index and the size of the inclusion proof, and the second line after it, with status 0.
/// Fails only if out of memory.
pub fn logged(alloc: Global, proof: &InclusionProof, second: &Text) -> Result<Reply, OutOfMemory>
    ensures { IfOk result (λ reply. reply ≡ logged proof.now second.now) }
{
    success(alloc, "logged ", proof, second)
}

/// Returns `verified I N`, the index and the size of the inclusion proof, and the second line after it, with status 0.
/// Fails only if out of memory.
pub fn verified(alloc: Global, proof: &InclusionProof, second: &Text) -> Result<Reply, OutOfMemory>
    ensures { IfOk result (λ reply. reply ≡ verified proof.now second.now) }
{
    success(alloc, "verified ", proof, second)
}

/// The word, the index and the size of the inclusion proof, and the second line after them, with status 0.
fn success(
    alloc: Global,
    word: &str,
    proof: &InclusionProof,
    second: &Text,
) -> Result<Reply, OutOfMemory>
    ensures { IfOk result (λ reply. reply ≡ success word.now proof.now second.now) }
{
    let index = proof.log_index;
    let size = proof.tree_size;
    let second = second.as_str();
    let text = Text::from(format!(in alloc; "{word}{index} {size}\n{second}")?);
    Ok(Reply { status: 0, text })
}

/// Returns `consistent M N`, the old and the new size, and the second line after it, with status 0. Fails only if out
/// of memory.
pub fn consistent(
    alloc: Global,
    request: &ConsistencyRequest,
    second: &Text,
) -> Result<Reply, OutOfMemory>
    ensures { IfOk result (λ reply. reply ≡ consistent request.now second.now) }
{
    let old = request.old_size;
    let new = request.tree_size;
    let second = second.as_str();
    let text = Text::from(format!(in alloc; "consistent {old} {new}\n{second}")?);
    Ok(Reply { status: 0, text })
}
