//! The table of the artifacts of a manifest.
ghost use Rattle.sig_manifest_fault.specs.ManifestTable.{artifact_table};

use crate::range::InRange;
use crate::rule::NestedTable;
use sig_json::Json;
use sig_manifest::{NameReader, RuleReader};
use sig_request_fault::DigestTable;
use sig_table::{ListOf, MemberTable, ReadBy, TableError, TextTable, object, optional, required};
use std::alloc::Global;

/// The table of artifacts, whatever trusted roots and policies there are.
pub(crate) enum ArtifactTable {}

impl MemberTable for ArtifactTable {
    ghost table = { artifact_table };

    #[tactic(auto, using(sig_table::proofs::Steps::steps), unfolding(crate::specs::ManifestTable::artifact_table))]
    fn check(alloc: Global, json: Json<'_, '_>) -> Result<(), TableError> {
        object(alloc, json)?;
        required::<ReadBy<NameReader>>(alloc, json, "name")?;
        required::<DigestTable>(alloc, json, "digest")?;
        required::<TextTable>(alloc, json, "root")?;
        required::<TextTable>(alloc, json, "policy")?;
        optional::<ListOf<TextTable>>(alloc, json, "bundles")?;
        required::<NestedTable>(alloc, json, "rule")?;
        required::<InRange<RuleReader>>(alloc, json, "rule")
    }
}
