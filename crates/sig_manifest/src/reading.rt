//! A manifest, read from its text.
ghost use Rattle.std.specs.Prelude.{IfErr, IfOk};
ghost use Rattle.std.specs.Option.{ok_or};
ghost use Rattle.sig_base.specs.Answers.{Answers};
ghost use Rattle.sig_json.specs.Record.{record_in};
ghost use Rattle.sig_json.specs.Tree.{tree};
ghost use Rattle.sig_manifest.specs.Manifest.{manifest_view, with_accepted};
ghost use Rattle.sig_manifest.specs.Read.{IsManifestWith, IsRefused, manifest_in, parts_view};
ghost use Rattle.sig_manifest.specs.Unknown.{AreNamed};
ghost use Rattle.sig_request.specs.Accepted.{with_rows};

use crate::error::ManifestError;
use crate::manifest::{Manifest, read_members};
use crate::unknown::unknown_in;
use sig_base::{AcceptedRow, OwnedList, TableChecker};
use sig_json::{BorrowedDocument, Json, JsonError, Scratch};
use sig_request::RowReader;
use std::alloc::Global;

/// The names of the members that a manifest has; `accepted` is read beside them, row by row. A member of another name
/// is ignored: no tree is made of it.
const MEMBERS: [&str; 4] = ["now", "roots", "policies", "artifacts"];

/// Reads a manifest, and the signatures that it accepts as genuine. Errors, the first that applies:
///
/// - `NotJson`: the text has no reading;
/// - `Float`: its tree holds a number with a point or an exponent, `-0`, or an integer outside -2^63 to 2^64 - 1;
/// - `Member`: a member is not what it has to be;
/// - `UnknownRoot`, `UnknownPolicy` with the index of the first artifact that names a trusted root, or else a policy,
///   that is not there;
/// - `OutOfMemory`.
#[tactic(auto, using(crate::proofs::Refusals::refusals))]
pub fn read_manifest(alloc: Global, text: &[u8]) -> Result<(Manifest, TableChecker), ManifestError>
    // A manifest that is returned is that of the text, and the trusted root and the policy of each artifact are there.
    ensures found { IfOk result (λ parts. IsManifestWith text.now (parts_view parts)) }
    ensures named { IfOk result (λ parts. AreNamed (manifest_view parts.0)) }
    // An error is the first cause why the text is not a manifest.
    ensures refused { IfErr result (IsRefused text.now) }
    // The same in one equation.
    ensures answer { Answers ManifestError.OutOfMemory parts_view result (manifest_in text.now) }
{
    read(alloc, text)
}

/// The manifest of a text, with the signatures that it accepts as genuine.
fn read(alloc: Global, text: &[u8]) -> Result<(Manifest, TableChecker), ManifestError>
    ensures { Answers ManifestError.OutOfMemory parts_view result (manifest_in text.now) }
{
    let (manifest, accepted) = read_parts(alloc, text)?;
    match unknown_in(&manifest) {
        None => Ok((manifest, accepted)),
        Some(error) => {
            drop(manifest);
            drop(accepted);
            Err(error)
        }
    }
}

/// The manifest of a text, and the rows of its `accepted`, whatever the artifacts name.
fn read_parts(alloc: Global, text: &[u8]) -> Result<(Manifest, TableChecker), JsonError>
    ensures { Answers JsonError.OutOfMemory parts_view result (record_in (with_rows with_accepted) text.now) }
{
    let mut scratch = Scratch::new(alloc);
    let mut spare = Scratch::new(alloc);
    let (members, rows) = BorrowedDocument::read_members_and_list::<RowReader>(
        alloc,
        text,
        &MEMBERS,
        "accepted",
        &mut scratch,
        &mut spare,
    )?;
    let parts = parts_of(alloc, members.view(), rows);
    drop(members);
    parts
}

/// The manifest of its members, and the rows of its `accepted`.
fn parts_of(
    alloc: Global,
    members: Json<'_, '_>,
    rows: OwnedList<AcceptedRow>,
) -> Result<(Manifest, TableChecker), JsonError>
    ensures { Answers JsonError.OutOfMemory parts_view result
        (ok_or (with_accepted rows (tree members.entry)) JsonError.Member) }
{
    let Ok(accepted) = TableChecker::from_rows(alloc, rows) else {
        return Err(JsonError::OutOfMemory);
    };
    let manifest = read_members(alloc, members)?;
    Ok((manifest, accepted))
}
