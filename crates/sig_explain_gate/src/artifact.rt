//! The result for an artifact: the verdict on it, and what is shown of it.
ghost use Rattle.std.specs.Prelude.{◌≡◌, IfOk, OnOk, Some};
ghost use Rattle.sig_base.specs.ByText.{text_lookup};
ghost use Rattle.sig_explain_gate.specs.Artifact.{AreFound, IsArtifactFound, artifact_tree};
ghost use Rattle.sig_explain_gate.specs.Roots.{AreRead, IsReadRoot};
ghost use Rattle.sig_gate.specs.NamedPolicies.{AreHeldPolicies};
ghost use Rattle.sig_gate_command.specs.Request.{parts_of};
ghost use Rattle.sig_json.specs.Tree.{document_tree};
ghost use Rattle.sig_manifest.specs.Artifact.{artifact_view};
ghost use Rattle.sig_manifest.specs.Manifest.{manifest_view};
ghost use Rattle.sig_manifest.specs.Unknown.{IsNamedIn};

use crate::bundle::find_under;
use crate::roots::{ReadRoot, ReadRoots, read_named};
use sig_base::OutOfMemory;
use sig_explain_verify::VerifyInputs;
use sig_gate::{BundleVerdicts, NamedPolicies, Verdict, hold_policy, is_admitted};
use sig_gate_command::GateRequest;
use sig_json::{Document, Object};
use sig_manifest::Artifact;
use sig_policy::HeldPolicy;
use std::alloc::Global;

/// The verdict on an artifact, and the document that explains it.
#[derive(Drop)]
pub(crate) struct ArtifactFinding {
    pub(crate) verdict: Verdict,
    /// The object with `admitted`, `yes` or `no`; `bundles`, what is shown of each; and `name`.
    pub(crate) document: Document,
}

/// The results for the bundles of an artifact, in order.
#[derive(Drop)]
pub(crate) struct Findings {
    verdicts: BundleVerdicts,
    /// The list of what is shown of each.
    list: Document,
}

/// Returns the result for an artifact. Its trusted root is read and its policy is held afterwards, if it has a bundle.
/// Fails only if out of memory.
pub(crate) fn find_artifact<'a>(
    alloc: Global,
    roots: &mut ReadRoots,
    policies: &mut NamedPolicies<'a>,
    request: &'a GateRequest,
    artifact: &Artifact,
) -> Result<ArtifactFinding, OutOfMemory>
    requires named { IsNamedIn (manifest_view request.now.manifest) (artifact_view artifact.now) }
    requires read { AreRead (manifest_view request.now.manifest) roots.old }
    requires policies { AreHeldPolicies (manifest_view request.now.manifest) policies.old }
    ensures found { IfOk result (IsArtifactFound (parts_of request.entry.now) (artifact_view artifact.now)) }
    ensures read { OnOk result (AreRead (manifest_view request.entry.now.manifest) roots.new) }
    ensures policies { OnOk result (AreHeldPolicies (manifest_view request.entry.now.manifest) policies.new) }
{
    let found = find_bundles(alloc, roots, policies, request, artifact)?;
    let admitted = is_admitted(alloc, &artifact.rule, found.verdicts.as_slice())?;
    let document = written(alloc, admitted, found.list, artifact.name.as_str())?;
    let verdict = Verdict {
        admitted,
        bundles: found.verdicts,
    };
    Ok(ArtifactFinding { verdict, document })
}

/// Returns the results for the bundles of an artifact. Its trusted root is read and its policy is held afterwards, if
/// it has one.
fn find_bundles<'a>(
    alloc: Global,
    roots: &mut ReadRoots,
    policies: &mut NamedPolicies<'a>,
    request: &'a GateRequest,
    artifact: &Artifact,
) -> Result<Findings, OutOfMemory>
    requires named { IsNamedIn (manifest_view request.now.manifest) (artifact_view artifact.now) }
    requires read { AreRead (manifest_view request.now.manifest) roots.old }
    requires policies { AreHeldPolicies (manifest_view request.now.manifest) policies.old }
    ensures found { IfOk result (AreFound (parts_of request.entry.now) (artifact_view artifact.now)
        artifact.now.bundles) }
    ensures read { OnOk result (AreRead (manifest_view request.entry.now.manifest) roots.new) }
    ensures policies { OnOk result (AreHeldPolicies (manifest_view request.entry.now.manifest) policies.new) }
{
    if artifact.bundles.len() == 0 {
        return Ok(Findings {
            verdicts: BundleVerdicts::new(alloc),
            list: Document::list(alloc),
        });
    }
    let name = artifact.root.as_str();
    read_named(alloc, roots, &request.manifest, name)?;
    let Some(root) = roots.get(name) else {
        unreachable!()
    };
    let Some(text) = request.manifest.roots.get(name) else {
        unreachable!()
    };
    let policy_name = artifact.policy.as_str();
    hold_policy(alloc, policies, &request.manifest, policy_name)?;
    let Some(policy) = policies.get(policy_name) else {
        unreachable!()
    };
    let now = request.manifest.now;
    find_each(alloc, root, text.as_bytes(), now, policy, request, artifact)
}

/// Returns the results for the bundles of an artifact under its trusted root, at the manifest's time, and its policy.
fn find_each(
    alloc: Global,
    root: &ReadRoot,
    text: &[u8],
    now: i64,
    policy: &HeldPolicy<'_>,
    request: &GateRequest,
    artifact: &Artifact,
) -> Result<Findings, OutOfMemory>
    requires read { IsReadRoot text.now request.now.manifest.now root.now }
    requires time { now ≡ request.now.manifest.now }
    requires root { text_lookup artifact.now.root request.now.manifest.roots ≡ Some text.now }
    requires policy { text_lookup artifact.now.policy request.now.manifest.policies ≡ Some policy.now }
    ensures { IfOk result (AreFound (parts_of request.entry.now) (artifact_view artifact.now) artifact.now.bundles) }
{
    let mut verdicts = BundleVerdicts::new(alloc);
    let mut list = Document::list(alloc);
    let bundles = artifact.bundles.as_slice();
    'bundles: for bundle in bundles {
        let inputs = VerifyInputs {
            trusted_root: text,
            now,
            digest: &artifact.digest,
            bundle: bundle.as_slice(),
            policy: policy.policy(),
            accepted: &request.accepted,
        };
        let found = find_under(alloc, root, policy, &inputs)?;
        verdicts.push(found.verdict)?;
        list.push(found.document)?;
    }
    Ok(Findings { verdicts, list })
}

/// The object of an artifact.
fn written(
    alloc: Global,
    admitted: bool,
    bundles: Document,
    name: &str,
) -> Result<Document, OutOfMemory>
    ensures { IfOk result (λ document. document_tree document
        ≡ artifact_tree admitted (document_tree bundles) name.now) }
{
    let word = if admitted { "yes" } else { "no" };
    let object = Object::new(alloc).with_text(alloc, "admitted", word)?;
    let object = object.with(alloc, "bundles", bundles)?;
    let object = object.with_text(alloc, "name", name)?;
    Ok(object.into_document())
}
