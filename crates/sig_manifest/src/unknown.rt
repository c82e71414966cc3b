//! Whether the trusted roots and the policies that artifacts name are there.
ghost use Rattle.std.specs.Prelude.{◌≡◌};
ghost use Rattle.sig_manifest.specs.Artifact.{artifact_view};
ghost use Rattle.sig_manifest.specs.Manifest.{manifest_view};
ghost use Rattle.sig_manifest.specs.Unknown.{unknown_at, unknown_in};

use crate::artifact::Artifact;
use crate::error::ManifestError;
use crate::manifest::Manifest;

/// Why the first artifact is refused that names a trusted root or a policy that is not there.
#[tactic(auto, using(crate::proofs::ArtifactWalks::names))]
pub(crate) fn unknown_in(manifest: &Manifest) -> Option<ManifestError>
    ensures { result ≡ unknown_in (manifest_view manifest.entry.now) }
{
    let artifacts = manifest.artifacts.as_slice();
    'artifacts: for (place, artifact) in artifacts.iter().enumerate() {
        if let Some(error) = unknown_at(manifest, place, artifact) {
            return Some(error);
        }
    }
    None
}

/// Why the artifact at this index is refused, if it names a trusted root or a policy that is not there.
fn unknown_at(manifest: &Manifest, place: usize, artifact: &Artifact) -> Option<ManifestError>
    ensures { result ≡ unknown_at (manifest_view manifest.entry.now) place (artifact_view artifact.now) }
{
    let root = manifest.roots.get(artifact.root.as_str());
    let policy = manifest.policies.get(artifact.policy.as_str());
    match (root, policy) {
        (None, _) => Some(ManifestError::UnknownRoot(place)),
        (Some(_), None) => Some(ManifestError::UnknownPolicy(place)),
        (Some(_), Some(_)) => None,
    }
}
