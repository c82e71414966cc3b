//! What is kept of a statement about an image: its types, and the SHA-256 of each subject. What else it has is tested
//! as its reader tests it, and not copied; no tree is made of the predicate.
ghost use Rattle.std.specs.Prelude.{◌≡◌, codes, IfOk};
ghost use Rattle.sig_base.specs.Answers.{Answers};
ghost use Rattle.sig_base.specs.ByText.{text_lookup};
ghost use Rattle.sig_json.specs.Record.{record_in};
ghost use Rattle.sig_attestation.specs.Stated.{sha256_in, stated_in, stated_of};

use crate::refusal::unexpected;
use sig_base::{OutOfMemory, OwnedList, SigstoreError, Text, TextMap, UnexpectedKind};
use sig_json::{
    ElementReader, Json, JsonError, MemberError, TextMapReader, TextReader, optional,
    read_record_with, required, required_list, required_text,
};
use std::alloc::Global;

/// The names of the members that are read.
const MEMBERS: [&str; 3] = ["_type", "subject", "predicateType"];

/// What is kept of a statement.
#[derive(Drop)]
pub(crate) struct Stated {
    /// Which version of statements it is.
    pub(crate) statement_type: Text,
    pub(crate) predicate_type: Text,
    /// The SHA-256 of each subject, `None` if it is absent.
    pub(crate) sha256s: OwnedList<Option<Text>>,
}

/// Reads the SHA-256 of subjects.
enum Sha256Reader {}

impl ElementReader for Sha256Reader {
    type Item = Option<Text>;

    ghost meaning = { sha256_in };

    // `annotations` may be anything, so no object is rejected for them.
    #[tactic(auto, using(crate::proofs::StatementParts::of_subject))]
    fn read(alloc: Global, json: Json<'_, '_>) -> Result<Option<Text>, MemberError> {
        let name = optional::<TextReader>(alloc, json, "name")?;
        drop(name);
        let digest = required::<TextMapReader>(alloc, json, "digest")?;
        let sha256 = sha256_of(alloc, &digest);
        drop(digest);
        Ok(sha256?)
    }
}

/// The text of the digest named `sha256`. Fails only if out of memory.
fn sha256_of(alloc: Global, digest: &TextMap) -> Result<Option<Text>, OutOfMemory>
    ensures { IfOk result (λ found. found ≡ text_lookup (codes "sha256") digest.now) }
{
    match digest.get("sha256") {
        Some(sha256) => Ok(Some(Text::copy_of(alloc, sha256)?)),
        None => Ok(None),
    }
}

/// Reads what is kept of statements.
enum StatedReader {}

impl ElementReader for StatedReader {
    type Item = Stated;

    ghost meaning = { stated_in };

    // `predicate` may be anything, so no object is rejected for it.
    #[tactic(auto, using(crate::proofs::StatementParts::of_statement))]
    fn read(alloc: Global, json: Json<'_, '_>) -> Result<Stated, MemberError> {
        let statement_type = required_text(alloc, json, "_type")?;
        let predicate_type = required_text(alloc, json, "predicateType")?;
        let sha256s = required_list::<Sha256Reader>(alloc, json, "subject")?;
        Ok(Stated {
            statement_type,
            predicate_type,
            sha256s,
        })
    }
}

/// What is kept of the statement that a payload is. Fails with `Statement` where it is not one.
#[tactic(auto, using(crate::proofs::StatementParts::of_record))]
pub(crate) fn read_stated(alloc: Global, payload: &[u8]) -> sig_base::Result<Stated>
    ensures { Answers SigstoreError.OutOfMemory (λ said. said) result (stated_of payload.now) }
{
    match read_stated_record(alloc, payload) {
        Ok(said) => Ok(said),
        Err(JsonError::NotJson | JsonError::Float | JsonError::Member) => Err(unexpected(
            UnexpectedKind::Statement,
        )),
        Err(JsonError::OutOfMemory) => Err(SigstoreError::OutOfMemory),
    }
}

/// The same by the error of a record, as if the whole payload were read: `MEMBERS` has every name except `predicate`,
/// of which nothing is required.
fn read_stated_record(alloc: Global, payload: &[u8]) -> Result<Stated, JsonError>
    ensures { Answers JsonError.OutOfMemory (λ said. said) result (record_in stated_in payload.now) }
{
    read_record_with::<StatedReader>(alloc, payload, &MEMBERS)
}
