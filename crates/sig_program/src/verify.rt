//! The command `verify`: may this artifact be trusted, by this bundle?
ghost use Rattle.std.specs.Prelude.{◌≡◌, ◌↔◌, IfOk};
ghost use Rattle.sig_base.specs.Answers.{UnlessMemory};
ghost use Rattle.sig_verify.specs.Judged.{Judged};
ghost use Rattle.sig_verify.specs.Links.{chain_links};
ghost use Rattle.sig_program.specs.Link.{EveryLinkHolds};
ghost use Rattle.sig_program.specs.Reply.{IsEntryIn, IsReply, IsVerifiedReply};
ghost use Rattle.sig_program.specs.ProofOf.{IsProofOf};
ghost use Rattle.sig_program.specs.VerifyLink.{HoldsOfVerify, IsOfflineOutcome, IsTrusted};
ghost use Rattle.sig_program.specs.declared.command.Command.TheVariants.{Verify};

use crate::reply::{refused, verified};
use crate::second_line::second_line;
use sig_base::OutOfMemory;
use sig_reply::Reply;
use sig_request::{BriefPolicy, VerifyRequest};
use sig_verify::{Link, LoggedEntry, OfflineError, verify_offline};
use std::alloc::Global;

/// Returns the reply to a request's text: `verified I N` with status 0 if every link holds, with the index and the
/// size of the inclusion proof of the bundle's log entry, and the second line if the request gives the log's entries;
/// else `refused NAME` for the first link that fails, with status 2 for the link `request` and 1 for every other. All
/// links hold if and only if the text is a request with valid inputs, and the trust chain of its bundle holds. Fails
/// only if out of memory.
pub fn verify_reply(alloc: Global, request: &[u8]) -> Result<Reply, OutOfMemory>
    ensures reply { IfOk result (IsReply Verify request.now) }
    ensures chain { EveryLinkHolds Verify request.now ↔ IsTrusted request.now }
{
    let Some(request) = VerifyRequest::read(alloc, request)? else {
        return refused(alloc, Link::Request);
    };
    match verify_chain(alloc, &request) {
        Ok(logged) => {
            let reply = verified_reply(alloc, &request, &logged);
            drop(logged);
            drop(request);
            reply
        }
        Err(error) => match error.link() {
            Some(link) => {
                drop(error);
                drop(request);
                refused(alloc, link)
            }
            // Only `OutOfMemory` does not belong to a link.
            None => {
                drop(error);
                drop(request);
                Err(OutOfMemory)
            }
        },
    }
}

/// The log entry of the request's bundle, or the error of the first link of the chain of trust that fails.
pub(crate) fn verify_chain(
    alloc: Global,
    request: &VerifyRequest,
) -> Result<LoggedEntry, OfflineError>
    ensures links { UnlessMemory OfflineError.OutOfMemory result
        (Judged (HoldsOfVerify request.entry.now) chain_links result) }
    ensures kept { IfOk result (λ offline. IsEntryIn request.entry.now offline) }
    ensures steps { UnlessMemory OfflineError.OutOfMemory result (IsOfflineOutcome request.entry.now result) }
{
    let now = request.now();
    // A refusal in full is never written, and may be longer than memory has room for.
    let policy = BriefPolicy {
        policy: &request.policy,
    };
    verify_offline(
        alloc,
        request.trusted_root(),
        now,
        &request.digest,
        request.bundle(),
        &policy,
        &request.accepted,
    )
}

/// Returns the reply to a request for which every link holds, with the log entry of its bundle.
pub(crate) fn verified_reply(
    alloc: Global,
    request: &VerifyRequest,
    logged: &LoggedEntry,
) -> Result<Reply, OutOfMemory>
    requires { IsProofOf logged.now.body logged.now.proof }
    ensures { IfOk result (IsVerifiedReply request.entry.now logged.now) }
{
    let second = second_line(
        alloc,
        &request.entries,
        logged.body.as_slice(),
        &logged.proof,
    )?;
    verified(alloc, &logged.proof, &second)
}
