//! The member of a document that breaks a table.
//!
//! ```text
//! {"path":"verificationMaterial.tlogEntries[0].logIndex","why":"OtherKind"}
//! ```
ghost use Rattle.std.specs.Prelude.{◌≡◌, IfOk};
ghost use Rattle.sig_json.specs.Writing.{members, members_into};
ghost use Rattle.sig_evidence.specs.Fault.{fault_rows, member_rows, why_name};

use sig_base::OutOfMemory;
use sig_json::Object;
use sig_shown::with_shown;
use sig_table::{Cause, DocumentFault, MemberFault};
use std::alloc::Global;

/// The object with what the links `root-json` and `bundle-json` find: `path`, where the first member is that breaks its
/// row of the table, from outside; and `why`, which is `Absent`, `OtherKind`, `BeyondRange` or `NotAlone`. No member
/// is added if the text is not JSON or holds a float. Fails only if out of memory.
pub fn with_document_fault(
    object: Object,
    alloc: Global,
    fault: &DocumentFault,
) -> Result<Object, OutOfMemory>
    ensures { IfOk result (λ made. members made ≡ members_into (members object) (fault_rows fault.now)) }
{
    match fault {
        DocumentFault::NotJson | DocumentFault::Float => Ok(object),
        DocumentFault::Member(fault) => with_member(object, alloc, fault),
    }
}

/// The object with where a member is, and why it breaks its row.
fn with_member(object: Object, alloc: Global, fault: &MemberFault) -> Result<Object, OutOfMemory>
    ensures { IfOk result (λ made. members made ≡ members_into (members object) (member_rows fault.now)) }
{
    let path = &fault.path;
    let text = format!(in alloc; "{path}")?;
    let object = with_shown(object, alloc, "path", "pathLength", text.as_str())?;
    object.with_text(alloc, "why", why_name(&fault.cause))
}

/// The name of why a member breaks its row of a table.
fn why_name(cause: &Cause) -> &'static str
    ensures { result.now ≡ why_name cause.now }
{
    match cause {
        Cause::Absent => "Absent",
        Cause::OtherKind => "OtherKind",
        Cause::BeyondRange => "BeyondRange",
        Cause::NotAlone => "NotAlone",
    }
}
