//! The command `gate`: which artifacts are to be admitted?
ghost use Rattle.std.specs.Prelude.{◌≡◌, IfOk, length};
ghost use Rattle.sig_gate_command.specs.Reply.{IsGateReply, IsReportOf, reported};
ghost use Rattle.sig_gate_command.specs.Request.{parts_of};
ghost use Rattle.sig_manifest.specs.Manifest.{artifacts_view, manifest_view};
ghost use Rattle.sig_manifest.specs.Unknown.{AreNamed};

use crate::request::GateRequest;
use sig_base::OutOfMemory;
use sig_gate::{Verdicts, all_admitted, gate, report};
use sig_manifest::Manifest;
use sig_reply::Reply;
use std::alloc::Global;

/// Returns the reply to a request's text, a manifest: the report of the verdicts on its artifacts, by the signatures
/// that it accepts. For each artifact in order it has the first line that applies of
///
/// - `artifact NAME admit`: at least one of its bundles is verified, and its rule holds of those that are;
/// - `artifact NAME deny rule`: at least one bundle is verified, and the rule does not hold;
/// - `artifact NAME deny none`: no bundle is verified;
///
/// then for each bundle in order, PLACE being its index, `bundle PLACE verified I N` with the index and the tree size
/// of its proof, or `bundle PLACE refused LINK` with the first link of `verify` that fails; and at the end `admitted A
/// of T`, where A of T artifacts are admitted. The status is 0 if all are, else 1; and it is 2, with `refused request`,
/// if the text has more than 2^24 bytes or is not a manifest. Fails only if out of memory.
pub fn gate_reply(alloc: Global, request: &[u8]) -> Result<Reply, OutOfMemory>
    ensures { IfOk result (IsGateReply request.now) }
{
    let Some(request) = GateRequest::read(alloc, request)? else {
        return Reply::refused(alloc, 2, "request");
    };
    let reply = reply_to(alloc, &request);
    drop(request);
    reply
}

/// The reply to a manifest.
fn reply_to(alloc: Global, request: &GateRequest) -> Result<Reply, OutOfMemory>
    requires { AreNamed (manifest_view request.now.manifest) }
    ensures { IfOk result (IsReportOf (parts_of request.entry.now)) }
{
    let verdicts = gate(alloc, &request.manifest, &request.accepted)?;
    let reply = report_reply(alloc, &request.manifest, &verdicts);
    drop(verdicts);
    reply
}

/// Returns the reply with these verdicts on the artifacts of a manifest, one on each: their report, with status 0 if
/// each artifact is admitted, else 1. Fails only if out of memory.
pub fn report_reply(
    alloc: Global,
    manifest: &Manifest,
    verdicts: &Verdicts,
) -> Result<Reply, OutOfMemory>
    requires { length verdicts.now ≡ length manifest.now.artifacts }
    ensures { IfOk result (λ reply. reply ≡ reported (artifacts_view manifest.entry.now.artifacts) verdicts.now) }
{
    let text = report(alloc, manifest, verdicts)?;
    let status = if all_admitted(verdicts) { 0 } else { 1 };
    Ok(Reply { status, text })
}
