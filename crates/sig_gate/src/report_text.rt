//! The report of a gate: a text of the artifacts' names and the verdicts.
ghost use Rattle.std.specs.Prelude.{◌≡◌, ◌++◌, IfOk, OnOk, codes, decimal, length, string_bytes};
ghost use Rattle.std.specs.List.{list_all};
ghost use Rattle.sig_gate.specs.Report.{all_lines, artifact_lines, bundle_line, bundle_lines, decision, is_admitted};
ghost use Rattle.sig_gate.specs.Report.{last_line, report_text, verified_end};
ghost use Rattle.sig_manifest.specs.Manifest.{artifacts_view};
ghost use Rattle.sig_verify.specs.Link.{link_name};

use crate::decision::has_verified;
use crate::verdict::{BundleVerdict, Verdict, Verdicts};
use sig_base::{OutOfMemory, Text};
use sig_manifest::Manifest;
use sig_rekor::InclusionProof;
use sig_verify::Link;
use std::alloc::Global;

/// Returns the report of verdicts on the artifacts of a manifest, one on each. For each artifact in order it has a
/// line, the first that applies of
///
/// - `artifact NAME admit`: it is admitted;
/// - `artifact NAME deny rule`: its rule does not hold of the bundles that are verified;
/// - `artifact NAME deny none`: no bundle of it is verified;
///
/// then for each bundle in order, PLACE being its index, `bundle PLACE verified I N` with the index and the tree size
/// of its proof, or `bundle PLACE refused LINK` with the name of the first link that fails; and at the end `admitted A
/// of T`, where A of T artifacts are admitted. Fails only if out of memory.
pub fn report(alloc: Global, manifest: &Manifest, verdicts: &Verdicts) -> Result<Text, OutOfMemory>
    requires { length verdicts.now ≡ length manifest.now.artifacts }
    ensures { IfOk result (λ text. text ≡ report_text (artifacts_view manifest.entry.now.artifacts) verdicts.now) }
{
    let mut text = String::new(alloc);
    push_artifacts(alloc, &mut text, manifest, verdicts)?;
    push_last(alloc, &mut text, verdicts.as_slice())?;
    Ok(Text::from(text))
}

/// Whether each artifact is admitted.
pub fn all_admitted(verdicts: &Verdicts) -> bool
    ensures { result ≡ list_all is_admitted verdicts.now }
{
    verdicts.as_slice().iter().all(|verdict| verdict.admitted)
}

/// Writes the lines of all artifacts after a text. Fails only if out of memory.
#[tactic(auto, using(crate::proofs::Lines::artifacts))]
fn push_artifacts(
    alloc: Global,
    text: &mut String,
    manifest: &Manifest,
    verdicts: &Verdicts,
) -> Result<(), OutOfMemory>
    requires { length verdicts.now ≡ length manifest.now.artifacts }
    ensures { OnOk result (string_bytes text.new ≡ string_bytes text.old
        ++ all_lines (artifacts_view manifest.entry.now.artifacts) verdicts.now) }
{
    let artifacts = manifest.artifacts.as_slice();
    'artifacts: for (place, artifact) in artifacts.iter().enumerate() {
        let Some(verdict) = verdicts.get(place) else {
            unreachable!()
        };
        push_artifact(alloc, text, artifact.name.as_str(), verdict)?;
    }
    Ok(())
}

/// Writes the lines of an artifact after a text. Fails only if out of memory.
fn push_artifact(
    alloc: Global,
    text: &mut String,
    name: &str,
    verdict: &Verdict,
) -> Result<(), OutOfMemory>
    ensures { OnOk result (string_bytes text.new ≡ string_bytes text.old ++ artifact_lines name.now verdict.now) }
{
    let decision = decision(verdict);
    let line = format!(in alloc; "artifact {name} {decision}\n")?;
    text.push_str(line.as_str())?;
    push_bundles(alloc, text, verdict.bundles.as_slice())
}

/// The words that say whether an artifact is admitted, and why not.
fn decision(verdict: &Verdict) -> &'static str
    ensures { result.now ≡ decision verdict.now }
{
    if verdict.admitted {
        return "admit";
    }
    if has_verified(verdict.bundles.as_slice()) {
        return "deny rule";
    }
    "deny none"
}

/// Writes the lines of bundles after a text. Fails only if out of memory.
#[tactic(auto, using(crate::proofs::Lines::bundles))]
fn push_bundles(
    alloc: Global,
    text: &mut String,
    bundles: &[BundleVerdict],
) -> Result<(), OutOfMemory>
    ensures { OnOk result (string_bytes text.new ≡ string_bytes text.old ++ bundle_lines 0 bundles.now) }
{
    'bundles: for (place, verdict) in bundles.iter().enumerate() {
        push_bundle(alloc, text, place, verdict)?;
    }
    Ok(())
}

/// Writes the line of the bundle at this place after a text. Fails only if out of memory.
fn push_bundle(
    alloc: Global,
    text: &mut String,
    place: usize,
    verdict: &BundleVerdict,
) -> Result<(), OutOfMemory>
    ensures { OnOk result (string_bytes text.new ≡ string_bytes text.old ++ bundle_line place verdict.now) }
{
    match verdict {
        BundleVerdict::Verified(entry) => push_verified(alloc, text, place, &entry.proof),
        BundleVerdict::Refused(link) => push_refused(alloc, text, place, *link),
    }
}

/// Writes the line of a verified bundle after a text. Fails only if out of memory.
fn push_verified(
    alloc: Global,
    text: &mut String,
    place: usize,
    proof: &InclusionProof,
) -> Result<(), OutOfMemory>
    ensures { OnOk result (string_bytes text.new ≡ string_bytes text.old
        ++ (codes "bundle " ++ (decimal place ++ (codes " verified " ++ verified_end proof.now)))) }
{
    let index = proof.log_index;
    let size = proof.tree_size;
    let line = format!(in alloc; "bundle {place} verified {index} {size}\n")?;
    text.push_str(line.as_str())?;
    Ok(())
}

/// Appends the line of a bundle with a failing link to a text. Fails only if out of memory.
fn push_refused(
    alloc: Global,
    text: &mut String,
    place: usize,
    link: Link,
) -> Result<(), OutOfMemory>
    ensures { OnOk result (string_bytes text.new ≡ string_bytes text.old
        ++ (codes "bundle " ++ (decimal place ++ (codes " refused " ++ (link_name link ++ codes "\n"))))) }
{
    let name = link.name();
    let line = format!(in alloc; "bundle {place} refused {name}\n")?;
    text.push_str(line.as_str())?;
    Ok(())
}

/// Writes the last line after a text. Fails only if out of memory.
fn push_last(alloc: Global, text: &mut String, verdicts: &[Verdict]) -> Result<(), OutOfMemory>
    ensures { OnOk result (string_bytes text.new ≡ string_bytes text.old ++ last_line verdicts.now) }
{
    let admitted = verdicts.iter().filter(|verdict| verdict.admitted).count();
    let all = verdicts.len();
    let line = format!(in alloc; "admitted {admitted} of {all}\n")?;
    text.push_str(line.as_str())?;
    Ok(())
}
