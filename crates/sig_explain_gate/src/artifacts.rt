//! The results for the artifacts of a manifest.
ghost use Rattle.std.specs.Prelude.{◌≡◌, IfOk, length};
ghost use Rattle.sig_explain_gate.specs.Artifact.{AreArtifactsFound};
ghost use Rattle.sig_explain_gate.specs.Roots.{AreRead};
ghost use Rattle.sig_gate.specs.NamedPolicies.{AreHeldPolicies};
ghost use Rattle.sig_gate_command.specs.Request.{parts_of};
ghost use Rattle.sig_manifest.specs.Manifest.{manifest_view};
ghost use Rattle.sig_manifest.specs.Unknown.{AreNamed};

use crate::artifact::find_artifact;
use crate::roots::ReadRoots;
use sig_base::OutOfMemory;
use sig_gate::{NamedPolicies, Verdicts};
use sig_gate_command::GateRequest;
use sig_json::Document;
use std::alloc::Global;

/// The results for the artifacts of a manifest, in order.
#[derive(Drop)]
pub(crate) struct ArtifactFindings {
    pub(crate) verdicts: Verdicts,
    /// The list of what is shown of each.
    pub(crate) list: Document,
}

/// Returns the results for the artifacts of a manifest. Fails only if out of memory.
pub(crate) fn find_artifacts(
    alloc: Global,
    request: &GateRequest,
) -> Result<ArtifactFindings, OutOfMemory>
    requires { AreNamed (manifest_view request.now.manifest) }
    ensures found { IfOk result (AreArtifactsFound (parts_of request.entry.now)) }
    ensures count { IfOk result (λ found. length found.verdicts ≡ length request.entry.now.manifest.artifacts) }
{
    let mut roots = ReadRoots::new(alloc);
    let mut policies = NamedPolicies::new(alloc);
    let found = find_each(alloc, &mut roots, &mut policies, request);
    drop(policies);
    drop(roots);
    found
}

/// Returns the results for the artifacts of a manifest, under trusted roots and policies that were or will be read.
fn find_each<'a>(
    alloc: Global,
    roots: &mut ReadRoots,
    policies: &mut NamedPolicies<'a>,
    request: &'a GateRequest,
) -> Result<ArtifactFindings, OutOfMemory>
    requires named { AreNamed (manifest_view request.now.manifest) }
    requires read { AreRead (manifest_view request.now.manifest) roots.old }
    requires policies { AreHeldPolicies (manifest_view request.now.manifest) policies.old }
    ensures { IfOk result (AreArtifactsFound (parts_of request.entry.now)) }
{
    let mut verdicts = Verdicts::new(alloc);
    let mut list = Document::list(alloc);
    let artifacts = request.manifest.artifacts.as_slice();
    'artifacts: for artifact in artifacts {
        let found = find_artifact(alloc, roots, policies, request, artifact)?;
        verdicts.push(found.verdict)?;
        list.push(found.document)?;
    }
    Ok(ArtifactFindings { verdicts, list })
}
