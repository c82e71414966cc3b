//! The replies to a request whose heads were read.
ghost use Rattle.std.specs.Prelude.{◌≡◌, ◌≢◌, [], IfOk};
ghost use Rattle.std.specs.List.{AllByRecursion};
ghost use Rattle.sig_audit.specs.Audited.{IsAudited};
ghost use Rattle.sig_audit.specs.Faults.{IsAuditFault, IsLatestSize};
ghost use Rattle.sig_audit_command.specs.Heads.{IsUnder, accepts};
ghost use Rattle.sig_audit_command.specs.Line.{IsAuditedReply, audited};
ghost use Rattle.sig_audit_command.specs.Reply.{IsFaultReply, IsReplyOver, IsShown};

use crate::key::audit_of;
use crate::second_line::list_line;
use sig_audit::{AuditError, Heads};
use sig_base::{OutOfMemory, Text};
use sig_reply::Reply;
use sig_request::AuditRequest;
use std::alloc::Global;

/// The reply to a request with these heads.
pub fn reply_over(
    alloc: Global,
    request: &AuditRequest,
    heads: &Heads,
) -> Result<Reply, OutOfMemory>
    requires some { heads.now ≢ [] }
    requires under { AllByRecursion (IsUnder heads.now) request.now.watched }
    ensures { IfOk result (IsReplyOver request.now heads.now) }
{
    match audit_of(alloc, request, heads) {
        Ok(size) => audited_reply(alloc, request, heads, size),
        Err(error) => fault_reply(alloc, error),
    }
}

/// Returns the reply to a request for which every link holds.
fn audited_reply(
    alloc: Global,
    request: &AuditRequest,
    heads: &Heads,
    size: u64,
) -> Result<Reply, OutOfMemory>
    requires audited { IsAudited (accepts request.now) heads.now request.now.watched }
    requires latest { IsLatestSize heads.now size }
    ensures { IfOk result (IsAuditedReply request.now heads.now) }
{
    let second = list_line(alloc, &request.entries, heads, &request.watched)?;
    audited_lines(alloc, heads.len(), request.watched.len(), size, &second)
}

/// `audited K W N`, and the second line after it.
fn audited_lines(
    alloc: Global,
    heads: usize,
    watched: usize,
    size: u64,
    second: &Text,
) -> Result<Reply, OutOfMemory>
    ensures { IfOk result (λ reply. reply ≡ audited heads watched size second.now) }
{
    let second = second.as_str();
    let text = Text::from(format!(in alloc; "audited {heads} {watched} {size}\n{second}")?);
    Ok(Reply { status: 0, text })
}

/// The reply where the audit ended with this error.
fn fault_reply(alloc: Global, error: AuditError) -> Result<Reply, OutOfMemory>
    requires { IsShown error }
    ensures { IfOk result (IsFaultReply error) }
{
    match error {
        AuditError::NoteKey(place) => Reply::refused_at(alloc, "note-key", place),
        AuditError::Origin(place) => Reply::refused_at(alloc, "origin", place),
        AuditError::Consistency(place, _) => Reply::refused_at(alloc, "consistency", place),
        AuditError::Inclusion(place, _) => Reply::refused_at(alloc, "inclusion", place),
        AuditError::OutOfMemory => Err(OutOfMemory),
        // There is a head, and each watched entry is under one.
        AuditError::Empty | AuditError::Head(_) => unreachable!(),
    }
}
