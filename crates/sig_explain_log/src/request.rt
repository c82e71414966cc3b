//! A text that has to be a request and is not one.
//!
//! ```text
//! {"cause":["TooLong"],"link":"request"}
//! {"cause":["Member"],"link":"request","path":"accepted[3].scheme","why":"NotAlone"}
//! ```
ghost use Rattle.std.specs.Prelude.{◌≡◌, IfOk};
ghost use Rattle.sig_json.specs.Writing.{members, members_into};
ghost use Rattle.sig_explain_log.specs.Request.{document_fault_name, request_fault_name, request_fault_rows, request_tree};
ghost use Rattle.sig_json.specs.Tree.{document_tree};

use sig_base::OutOfMemory;
use sig_evidence::with_document_fault;
use sig_explanation::with_cause;
use sig_json::{Document, Object};
use sig_request_fault::RequestFault;
use sig_table::DocumentFault;
use sig_verify::Link;
use std::alloc::Global;

/// The explanation of a text that is not a request: `link`, which is `request`; `cause`, a list of `TooLong`,
/// `NotJson`, `Float` or `Member`; and of a member that breaks the table its `path`, and `why`. Fails only if out of
/// memory.
#[tactic(auto, unfolding(crate::specs::Request::request_tree))]
pub fn request_explanation(alloc: Global, fault: &RequestFault) -> Result<Document, OutOfMemory>
    ensures { IfOk result (λ document. document_tree document ≡ request_tree fault.now) }
{
    let object = Object::new(alloc).with_text(alloc, "link", Link::Request.name())?;
    let object = with_cause(object, alloc, request_fault_name(fault))?;
    let object = with_request_fault(object, alloc, fault)?;
    Ok(object.into_document())
}

/// The name of what is wrong with a request.
fn request_fault_name(fault: &RequestFault) -> &'static str
    ensures { result.now ≡ request_fault_name fault.now }
{
    match fault {
        RequestFault::TooLong => "TooLong",
        RequestFault::Document(fault) => document_fault_name(fault),
    }
}

/// The name of what is wrong with a document.
fn document_fault_name(fault: &DocumentFault) -> &'static str
    ensures { result.now ≡ document_fault_name fault.now }
{
    match fault {
        DocumentFault::NotJson => "NotJson",
        DocumentFault::Float => "Float",
        DocumentFault::Member(_) => "Member",
    }
}

/// The object with where the first member is that breaks the table, and why, if a member does.
fn with_request_fault(
    object: Object,
    alloc: Global,
    fault: &RequestFault,
) -> Result<Object, OutOfMemory>
    ensures { IfOk result (λ made. members made ≡ members_into (members object) (request_fault_rows fault.now)) }
{
    match fault {
        RequestFault::TooLong => Ok(object),
        RequestFault::Document(fault) => with_document_fault(object, alloc, fault),
    }
}
