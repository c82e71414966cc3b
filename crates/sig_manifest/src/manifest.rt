//! `Manifest`: what decides which artifacts are admitted.
ghost use Rattle.std.specs.Prelude.{◌≡◌};
ghost use Rattle.sig_base.specs.Answers.{Answers};
ghost use Rattle.sig_json.specs.OrMember.{or_member};
ghost use Rattle.sig_json.specs.Tree.{tree};
ghost use Rattle.sig_manifest.specs.Manifest.{are_few_bundles, artifacts_view, is_within, kept_within};
ghost use Rattle.sig_manifest.specs.Manifest.{manifest_members, manifest_view};

use crate::artifact::{Artifact, ArtifactReader, Artifacts, MOST_ARTIFACTS, MOST_BUNDLES};
use crate::policies::{Policies, PoliciesReader};
use sig_base::TextMap;
use sig_json::{Json, MemberError, TextMapReader, required, required_i64, required_list};
use std::alloc::Global;

/// The members of a manifest, except for `accepted`.
#[derive(Drop)]
pub struct Manifest {
    /// The time of the verification, in seconds since 1970.
    pub now: i64,
    /// The texts of trusted roots, by their names.
    pub roots: TextMap,
    /// Policies, by their names.
    pub policies: Policies,
    /// The artifacts: from 1 to 256, with at most 256 bundles together, if they were read.
    pub artifacts: Artifacts,
}

/// Whether there are as many artifacts and bundles as a manifest may have: from 1 to 256, and at most 256 of all
/// together.
pub fn is_within(artifacts: &[Artifact]) -> bool
    ensures { result ≡ is_within (artifacts_view artifacts.now) }
{
    0 < artifacts.len() && artifacts.len() < MOST_ARTIFACTS + 1 && are_few_bundles(artifacts)
}

/// Whether the artifacts have at most 256 bundles together.
#[tactic(auto, using(crate::proofs::ArtifactWalks::bundles))]
fn are_few_bundles(artifacts: &[Artifact]) -> bool
    ensures { result ≡ are_few_bundles MOST_BUNDLES (artifacts_view artifacts.now) }
{
    let mut left = MOST_BUNDLES;
    'artifacts: for artifact in artifacts {
        let count = artifact.bundles.len();
        if left < count {
            return false;
        }
        left -= count;
    }
    true
}

#[tactic(auto, unfolding(crate::specs::Manifest::manifest_members))]
pub(crate) fn read_members(alloc: Global, json: Json<'_, '_>) -> Result<Manifest, MemberError>
    ensures { Answers MemberError.OutOfMemory manifest_view result
        (or_member (manifest_members (tree json.entry))) }
{
    let now = required_i64(json, "now")?;
    kept_within(Manifest {
        now,
        roots: required::<TextMapReader>(alloc, json, "roots")?,
        policies: required::<PoliciesReader>(alloc, json, "policies")?,
        artifacts: required_list::<ArtifactReader>(alloc, json, "artifacts")?,
    })
}

/// The manifest, if it has as many artifacts as it may have. Fails with `Member` if not.
fn kept_within(manifest: Manifest) -> Result<Manifest, MemberError>
    ensures { Answers MemberError.OutOfMemory manifest_view result
        (or_member (kept_within (manifest_view manifest))) }
{
    if is_within(manifest.artifacts.as_slice()) {
        return Ok(manifest);
    }
    drop(manifest);
    Err(MemberError::Member)
}
