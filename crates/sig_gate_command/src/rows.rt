//! The list of the signatures that a manifest's bundles ask for, each once.
ghost use Rattle.std.specs.Prelude.{◌≡◌, ◌≤◌, ◌++◌, ℕ, ℤ, All, IfOk, List, OnOk};
ghost use Rattle.sig_base.specs.declared.checker.AcceptedRow.{AcceptedRow as row_type};
ghost use Rattle.sig_gate_command.specs.AskedRoots.{AreAsked, IsOfSomeText, IsRootOf, inputs_at};
ghost use Rattle.sig_gate_command.specs.Questions.{IsQuestionsDocument, artifact_inputs};
ghost use Rattle.sig_gate_command.specs.RowList.{HasAdded, HasAddedOf, HasAddedRows, HasRoom, IsListSoFar, IsSomeList};
ghost use Rattle.sig_gate_command.specs.declared.asked_roots.NamedRoot.TheVariants.{Asked};
ghost use Rattle.sig_manifest.specs.Artifact.{artifact_view};
ghost use Rattle.sig_manifest.specs.Manifest.{manifest_view};
ghost use Rattle.sig_manifest.specs.Unknown.{AreNamed, IsNamedIn};
ghost use Rattle.sig_questions.specs.AskedRoot.{IsAskedRootOf};
ghost use Rattle.sig_questions.specs.Rows.{HasScheme, bytes_of_rows};
ghost use Rattle.sig_verify.specs.Outcome.{inputs_of};

use crate::asked_roots::{AskedRoots, NamedRoot, hold_root};
use crate::row_list::RowList;
use sig_base::{AcceptedRow, OutOfMemory, Text};
use sig_dsse::ArtifactDigest;
use sig_json_text::compact;
use sig_manifest::{Artifact, Manifest};
use sig_questions::laws::{one_list, schemes};
use sig_questions::{AskedRoot, NoQuestions};
use std::alloc::Global;

/// The document of the signatures that the bundles of a manifest ask for, each once; `None` if it would have more than
/// `most` bytes, or the signatures have more than 2^26, each counted as often as it is asked for. Fails only if out of
/// memory.
///
/// A trusted root is read once, however many artifacts name it, and only if one of these has a bundle.
pub fn questions_document(
    alloc: Global,
    manifest: &Manifest,
    most: usize,
) -> Result<Option<Text>, OutOfMemory>
    requires { AreNamed (manifest_view manifest.now) }
    ensures { IfOk result (IsQuestionsDocument most (manifest_view manifest.entry.now)) }
{
    // A list has two brackets.
    if most < 2 {
        return Ok(None);
    }
    let mut held = AskedRoots::new(alloc);
    let document = document_under(alloc, &mut held, manifest, most);
    drop(held);
    document
}

/// The document, under trusted roots that are held or will be.
fn document_under(
    alloc: Global,
    held: &mut AskedRoots,
    manifest: &Manifest,
    most: usize,
) -> Result<Option<Text>, OutOfMemory>
    requires least { 2 ≤ most }
    requires named { AreNamed (manifest_view manifest.now) }
    requires held { AreAsked (manifest_view manifest.now) held.old }
    ensures { IfOk result (IsQuestionsDocument most (manifest_view manifest.entry.now)) }
{
    // Why there is no other list.
    one_list();
    let mut rows = RowList::new(alloc, most);
    'artifacts: for artifact in manifest.artifacts.as_slice() {
        if !add_artifact(alloc, &mut rows, held, manifest, artifact)? {
            drop(rows);
            return Ok(None);
        }
    }
    let text = compact(alloc, rows.list.view());
    drop(rows);
    Ok(Some(text?))
}

/// Adds what the bundles of an artifact ask for; `false` if the list has no room. The artifact's trusted root is held
/// afterwards, if it has a bundle. Fails only if out of memory.
fn add_artifact(
    alloc: Global,
    rows: &mut RowList,
    held: &mut AskedRoots,
    manifest: &Manifest,
    artifact: &Artifact,
) -> Result<bool, OutOfMemory>
    requires named { IsNamedIn (manifest_view manifest.now) (artifact_view artifact.now) }
    requires list { IsSomeList rows.old }
    requires held { AreAsked (manifest_view manifest.now) held.old }
    ensures added { (before : List row_type) → IsListSoFar before rows.old
        → IfOk result (HasAddedOf (artifact_inputs (manifest_view manifest.entry.now) (artifact_view artifact.now)) before
        rows.new) }
    ensures most { IfOk result (λ _. rows.new.most ≡ rows.old.most) }
    ensures held { OnOk result (AreAsked (manifest_view manifest.entry.now) held.new) }
{
    if artifact.bundles.len() == 0 {
        return Ok(true);
    }
    let name = artifact.root.as_str();
    hold_root(alloc, held, manifest, name)?;
    let Some(root) = held.get(name) else {
        unreachable!()
    };
    add_bundles(alloc, rows, root, artifact)
}

/// Adds what the bundles of an artifact ask for under what is held of its trusted root.
fn add_bundles(
    alloc: Global,
    rows: &mut RowList,
    root: &NamedRoot,
    artifact: &Artifact,
) -> Result<bool, OutOfMemory>
    requires root { IsOfSomeText root.now }
    requires list { IsSomeList rows.old }
    ensures added { (text : List ℕ) (now : ℤ) → IsRootOf text now root.now → (before : List row_type)
        → IsListSoFar before rows.old → IfOk result (HasAddedOf
        (inputs_at text now artifact.now.digest artifact.now.bundles) before rows.new) }
    ensures most { IfOk result (λ _. rows.new.most ≡ rows.old.most) }
{
    // Why there is no other list.
    one_list();
    let texts = artifact.bundles.as_slice();
    'bundles: for bundle in texts {
        if !add_bundle(alloc, rows, root, &artifact.digest, bundle.as_slice())? {
            return Ok(false);
        }
    }
    Ok(true)
}

/// Adds what a bundle asks for, unless a link up to `issuer` fails whatever is accepted; `false` if the list has no
/// room. Fails only if out of memory.
fn add_bundle(
    alloc: Global,
    rows: &mut RowList,
    root: &NamedRoot,
    digest: &ArtifactDigest,
    bundle: &[u8],
) -> Result<bool, OutOfMemory>
    requires root { IsOfSomeText root.now }
    requires list { IsSomeList rows.old }
    ensures added { (text : List ℕ) (now : ℤ) → IsRootOf text now root.now → (before : List row_type)
        → IsListSoFar before rows.old
        → IfOk result (HasAdded (inputs_of text now digest.now bundle.now) before rows.new) }
    ensures most { IfOk result (λ _. rows.new.most ≡ rows.old.most) }
{
    match root {
        NamedRoot::Asked(root) => add_questions(alloc, rows, root, digest, bundle),
        // The link `root-json` fails.
        NamedRoot::NotRoot => Ok(true),
    }
}

/// Adds what a bundle asks for under a trusted root.
fn add_questions(
    alloc: Global,
    rows: &mut RowList,
    root: &AskedRoot,
    digest: &ArtifactDigest,
    bundle: &[u8],
) -> Result<bool, OutOfMemory>
    requires root { IsOfSomeText (Asked root.now) }
    requires list { IsSomeList rows.old }
    ensures added { (text : List ℕ) (now : ℤ) → IsAskedRootOf text now root.now → (before : List row_type)
        → IsListSoFar before rows.old
        → IfOk result (HasAdded (inputs_of text now digest.now bundle.now) before rows.new) }
    ensures most { IfOk result (λ _. rows.new.most ≡ rows.old.most) }
{
    // Why there is no other list, and each row of it is written.
    one_list();
    schemes();
    match root.questions(alloc, digest, bundle, rows.left) {
        Ok(asked) => {
            let added = add_rows(alloc, rows, asked.as_slice());
            drop(asked);
            added
        }
        Err(NoQuestions::Link(_)) => Ok(true),
        Err(NoQuestions::TooLong) => Ok(false),
        Err(NoQuestions::OutOfMemory) => Err(OutOfMemory),
    }
}

/// Adds rows that have at most as many bytes as are left.
fn add_rows(alloc: Global, rows: &mut RowList, asked: &[AcceptedRow]) -> Result<bool, OutOfMemory>
    requires room { HasRoom rows.old }
    requires left { bytes_of_rows asked.now ≤ rows.old.left }
    requires schemes { All HasScheme asked.now }
    ensures added { (before : List row_type) → IsListSoFar before rows.old
        → IfOk result (HasAddedRows (before ++ asked.now) rows.new) }
    ensures most { IfOk result (λ _. rows.new.most ≡ rows.old.most) }
{
    'asked: for row in asked {
        if !rows.add(alloc, row)? {
            return Ok(false);
        }
    }
    Ok(true)
}
