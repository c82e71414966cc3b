//! The first artifact that names a trusted root or a policy that is not there, as a fault.
ghost use Rattle.std.specs.Prelude.{◌≡◌, IfOk, OnOk};
ghost use Rattle.sig_base.specs.Answers.{OrMemory};
ghost use Rattle.sig_manifest.specs.Read.{manifest_in};
ghost use Rattle.sig_manifest_fault.specs.ManifestFault.{at_artifact, member_of_artifact, unknown_fault};
ghost use Rattle.sig_table.specs.declared.fault.TableError.TheVariants.{Fault};

use sig_base::OutOfMemory;
use sig_manifest::{ManifestError, read_manifest};
use sig_request_fault::RequestFault;
use sig_table::{Cause, DocumentFault, TableError, after_index, after_name, fault_here};
use std::alloc::Global;

/// What is wrong with a text because of what artifacts name; `None` if they name what is there, or if the text is not a
/// manifest for another reason. Fails only if out of memory.
pub(crate) fn unknown_name(alloc: Global, text: &[u8]) -> Result<Option<RequestFault>, OutOfMemory>
    ensures { IfOk result (λ found. found ≡ unknown_fault (manifest_in text.now)) }
{
    match read_manifest(alloc, text) {
        Ok(parts) => {
            drop(parts);
            Ok(None)
        }
        Err(ManifestError::UnknownRoot(place)) => at_artifact(alloc, place, "root"),
        Err(ManifestError::UnknownPolicy(place)) => at_artifact(alloc, place, "policy"),
        Err(ManifestError::NotJson | ManifestError::Float | ManifestError::Member) => Ok(None),
        Err(ManifestError::OutOfMemory) => Err(OutOfMemory),
    }
}

/// The same as the fault of a text.
fn at_artifact(alloc: Global, place: usize, name: &str) -> Result<Option<RequestFault>, OutOfMemory>
    ensures { IfOk result (λ found. found ≡ at_artifact place name.now) }
{
    match member_fault(alloc, place, name) {
        TableError::Fault(fault) => Ok(Some(RequestFault::Document(DocumentFault::Member(fault)))),
        TableError::OutOfMemory => Err(OutOfMemory),
    }
}

/// The member of this name of the artifact at this index, outside its range.
fn member_fault(alloc: Global, place: usize, name: &str) -> TableError
    ensures { OrMemory TableError.OutOfMemory result (result ≡ Fault (member_of_artifact place name.now)) }
{
    let member = after_name(alloc, name, fault_here(alloc, Cause::BeyondRange));
    let artifact = after_index(place, member);
    after_name(alloc, "artifacts", artifact)
}
