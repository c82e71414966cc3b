//! `explain gate`: the reply of `gate`, and what explains it.
ghost use Rattle.std.specs.Prelude.{◌≡◌, IfOk};
ghost use Rattle.sig_explain_gate.specs.Artifact.{IsGateTree, artifacts_tree};
ghost use Rattle.sig_explain_gate.specs.GateExplanation.{IsGateExplanation, unread_tree};
ghost use Rattle.sig_gate_command.specs.Reply.{IsGateReply, IsReportOf};
ghost use Rattle.sig_gate_command.specs.Request.{parts_of};
ghost use Rattle.sig_json.specs.Tree.{document_tree};
ghost use Rattle.sig_manifest.specs.Manifest.{manifest_view};
ghost use Rattle.sig_manifest.specs.Unknown.{AreNamed};
ghost use Rattle.sig_manifest_fault.specs.ManifestFault.{manifest_fault_in};
ghost use Rattle.sig_reply.specs.Reply.{no_request};

use crate::artifacts::find_artifacts;
use sig_base::OutOfMemory;
use sig_explain_log::request_explanation;
use sig_gate_command::{GateRequest, report_reply};
use sig_json::{Document, Object};
use sig_manifest_fault::manifest_fault;
use sig_reply::Reply;
use std::alloc::Global;

/// The reply of `gate` to a text, and what explains it.
#[derive(Drop)]
pub struct ExplainedGate {
    /// The reply that `gate_reply` of sig_gate_command makes.
    pub reply: Reply,
    /// What `explain gate` shows.
    pub document: Document,
}

/// Returns the reply of `gate` to a request's text, and what `explain gate` shows of it. For a manifest, this is an
/// object of one member, `artifacts`: for each artifact in order its `name`, whether it is `admitted`, `yes` or `no`,
/// and `bundles`, for each of its bundles in order the object of what was verified, or of why it is refused, as
/// `explain verify` shows it under the artifact's trusted root and policy. For a text that is not a manifest it is the
/// object of what is wrong with it, with the link `request`. Fails only if out of memory.
///
/// Both are made of one reading of the text, and of one verdict on each bundle; a text that is not a manifest is read
/// again, for what is wrong with it.
pub fn explained_gate(alloc: Global, text: &[u8]) -> Result<ExplainedGate, OutOfMemory>
    ensures reply { IfOk result (λ explained. IsGateReply text.now explained.reply) }
    ensures explanation { IfOk result (λ explained. IsGateExplanation text.now (document_tree explained.document)) }
{
    let Some(request) = GateRequest::read(alloc, text)? else {
        return explain_unread(alloc, text);
    };
    explain_read(alloc, request)
}

/// The reply to a text that is not a manifest, and what is wrong with it.
fn explain_unread(alloc: Global, text: &[u8]) -> Result<ExplainedGate, OutOfMemory>
    ensures reply { IfOk result (λ explained. explained.reply ≡ no_request) }
    ensures tree { IfOk result (λ explained. document_tree explained.document ≡ unread_tree (manifest_fault_in text.now)) }
{
    let reply = Reply::refused(alloc, 2, "request")?;
    let document = unread_document(alloc, text)?;
    Ok(ExplainedGate { reply, document })
}

/// What is wrong with a text that is not a manifest.
fn unread_document(alloc: Global, text: &[u8]) -> Result<Document, OutOfMemory>
    ensures { IfOk result (λ document. document_tree document ≡ unread_tree (manifest_fault_in text.now)) }
{
    match manifest_fault(alloc, text)? {
        Some(fault) => {
            let document = request_explanation(alloc, &fault);
            drop(fault);
            document
        }
        None => Ok(Object::new(alloc).into_document()),
    }
}

/// The reply to a manifest, and what is shown of it, once its accepted signatures can be asked by their parts.
fn explain_read(alloc: Global, request: GateRequest) -> Result<ExplainedGate, OutOfMemory>
    requires { AreNamed (manifest_view request.manifest) }
    ensures reply { IfOk result (λ explained. IsReportOf (parts_of request) explained.reply) }
    ensures tree { IfOk result (λ explained. IsGateTree (parts_of request) (document_tree explained.document)) }
{
    let mut request = request;
    request.accepted.order_parts(alloc)?;
    let explained = explain_manifest(alloc, &request);
    drop(request);
    explained
}

/// The reply to a manifest, and what is shown of it.
fn explain_manifest(alloc: Global, request: &GateRequest) -> Result<ExplainedGate, OutOfMemory>
    requires { AreNamed (manifest_view request.now.manifest) }
    ensures reply { IfOk result (λ explained. IsReportOf (parts_of request.entry.now) explained.reply) }
    ensures tree { IfOk result (λ explained. IsGateTree (parts_of request.entry.now) (document_tree explained.document)) }
{
    let found = find_artifacts(alloc, request)?;
    let reply = report_reply(alloc, &request.manifest, &found.verdicts)?;
    let document = under_artifacts(alloc, found.list)?;
    Ok(ExplainedGate { reply, document })
}

/// The object of a list of artifacts.
fn under_artifacts(alloc: Global, list: Document) -> Result<Document, OutOfMemory>
    ensures { IfOk result (λ document. document_tree document ≡ artifacts_tree (document_tree list)) }
{
    let object = Object::new(alloc).with(alloc, "artifacts", list)?;
    Ok(object.into_document())
}
