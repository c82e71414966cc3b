//! What is wrong with a manifest.
ghost use Rattle.std.specs.Prelude.{◌≡◌, ◌↔◌, IfOk, None};
ghost use Rattle.sig_json.specs.SeenAs.{value_by};
ghost use Rattle.sig_manifest.specs.Manifest.{artifacts_view};
ghost use Rattle.sig_manifest_fault.specs.ManifestFault.{IsManifest, manifest_fault_in};
ghost use Rattle.sig_manifest_fault.specs.ManifestTable.{artifacts_kind, manifest_table};
ghost use Rattle.sig_request_fault.specs.RequestFault.{request_fault_in};

use crate::artifact::ArtifactTable;
use crate::range::InRange;
use crate::unknown::unknown_name;
use crate::values::ValuesOf;
use sig_base::OutOfMemory;
use sig_json::{ElementReader, Json, MemberError, read_list};
use sig_manifest::{ArtifactReader, Artifacts, is_within};
use sig_request_fault::{AcceptedTable, PolicyTable, RequestFault, request_fault};
use sig_table::{
    ListOf, MemberTable, TableError, TextTable, object, optional, required, required_i64,
};
use std::alloc::Global;

/// Reads lists of as many artifacts as a manifest may have, with as many bundles.
enum ArtifactsReader {}

impl ElementReader for ArtifactsReader {
    type Item = Artifacts;

    ghost seen_as = { value_by artifacts_view };

    ghost meaning = { artifacts_kind };

    #[tactic(auto, unfolding(crate::specs::ManifestTable::artifacts_kind))]
    fn read(alloc: Global, json: Json<'_, '_>) -> Result<Artifacts, MemberError> {
        let artifacts = read_list::<ArtifactReader>(alloc, json)?;
        if is_within(artifacts.as_slice()) {
            return Ok(artifacts);
        }
        drop(artifacts);
        Err(MemberError::Member)
    }
}

/// The table of manifests, whatever their artifacts name.
enum ManifestTable {}

impl MemberTable for ManifestTable {
    ghost table = { manifest_table };

    #[tactic(auto, using(sig_table::proofs::Steps::steps), unfolding(crate::specs::ManifestTable::manifest_table))]
    fn check(alloc: Global, json: Json<'_, '_>) -> Result<(), TableError> {
        object(alloc, json)?;
        required_i64(alloc, json, "now")?;
        required::<ValuesOf<TextTable>>(alloc, json, "roots")?;
        required::<ValuesOf<PolicyTable>>(alloc, json, "policies")?;
        optional::<AcceptedTable>(alloc, json, "accepted")?;
        required::<ListOf<ArtifactTable>>(alloc, json, "artifacts")?;
        required::<InRange<ArtifactsReader>>(alloc, json, "artifacts")
    }
}

/// Returns what is wrong with a text that has to be a manifest, or `None` if and only if it is one: that it has more
/// than 2^24 bytes; else that it is not JSON, or has a float; else the first member that breaks the table, in its
/// order; else the first artifact that names a trusted root, or else a policy, that is not there, as a member outside
/// its range. Fails only if out of memory.
pub fn manifest_fault(alloc: Global, text: &[u8]) -> Result<Option<RequestFault>, OutOfMemory>
    ensures value { IfOk result (λ found. found ≡ manifest_fault_in text.now) }
    ensures manifest { IfOk result (λ found. (found ≡ None) ↔ IsManifest text.now) }
{
    find(alloc, text)
}

/// What is wrong with a text that has to be a manifest.
#[tactic(auto, unfolding(crate::specs::ManifestFault::manifest_fault_in))]
fn find(alloc: Global, text: &[u8]) -> Result<Option<RequestFault>, OutOfMemory>
    ensures { IfOk result (λ found. found ≡ manifest_fault_in text.now) }
{
    match table_fault(alloc, text)? {
        Some(fault) => Ok(Some(fault)),
        None => unknown_name(alloc, text),
    }
}

/// The first fault of a text that has to be a manifest, whatever its artifacts name.
fn table_fault(alloc: Global, text: &[u8]) -> Result<Option<RequestFault>, OutOfMemory>
    ensures { IfOk result (λ found. found ≡ request_fault_in manifest_table text.now) }
{
    request_fault::<ManifestTable>(alloc, text)
}
