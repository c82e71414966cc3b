//! `WitnessRequest`: the request of `witness`, a JSON document.
//!
//! ```text
//! {
//!   "state": "log.example\nECDSA_P256_SHA256_ASN1\na2V5\n1\nOVqgZKpM..TVY=\n",
//!   "origins": [{ "origin": "other.example", "scheme": "ED25519", "key": "a2V5" }],
//!   "updates": [{ "checkpoint": "log.example\n2\n..", "oldSize": 1, "hashes": ["395aa064.."] }],
//!   "accepted": []
//! }
//! ```
ghost use Rattle.std.specs.Prelude.{IfOk, List, Option};
ghost use Rattle.std.specs.Option.{ok_or};
ghost use Rattle.sig_base.specs.Answers.{Answers};
ghost use Rattle.sig_json.specs.Only.{names_of};
ghost use Rattle.sig_json.specs.OrMember.{or_member};
ghost use Rattle.sig_json.specs.Record.{record_in};
ghost use Rattle.sig_json.specs.Tree.{tree};
ghost use Rattle.sig_request.specs.Accepted.{AsksOnly};
ghost use Rattle.sig_request.specs.ReadFrom.{IsReadFrom};
ghost use Rattle.sig_witness_command.specs.Request.{few_updates, origin_key_of, update_text_of, witness_members, witness_request};

use sig_base::{
    AcceptedRow, Bytes, Hashes, OutOfMemory, OwnedList, SigningScheme, TableChecker, Text,
};
use sig_json::{
    BorrowedDocument, ElementReader, HashReader, Json, JsonError, MemberError, Scratch,
    optional_list, read_text, required, required_bytes, required_text, required_u64,
};
use sig_request::{MOST_BYTES, RowReader, SchemeReader};
use std::alloc::Global;

/// The greatest number of updates of a request.
pub const MOST_UPDATES: usize = 4096;

/// A log that a request adds to the state.
#[derive(Drop)]
pub struct OriginKey {
    /// The origin of the log's checkpoints.
    pub origin: Text,
    /// The scheme of the log's key.
    pub scheme: SigningScheme,
    /// The log's key (DER).
    pub key: Bytes,
}

/// An update as a request gives it.
#[derive(Drop)]
pub struct UpdateText {
    /// A signed note with the log's size and root.
    pub checkpoint: Text,
    /// The size of the kept head, from which the proof is.
    pub old_size: u64,
    /// The consistency proof from the kept head, the smallest tree's hash first.
    pub hashes: Hashes,
}

/// The members of a request of `witness`.
#[derive(Drop)]
pub struct WitnessRequest {
    /// The state that is kept, empty before the first run.
    pub state: Text,
    /// The logs that are added to it, in order.
    pub origins: OwnedList<OriginKey>,
    /// The updates, in order: at most 4,096.
    pub updates: OwnedList<UpdateText>,
    /// The signatures that are accepted as genuine.
    pub accepted: TableChecker,
}

/// The names of the members that a request may have; `accepted` is read beside them, row by row. A member of another
/// name is ignored: no tree is made of it.
const MEMBERS: [&str; 3] = ["state", "origins", "updates"];

impl WitnessRequest {
    /// Reads a request; `None` if and only if the text has more than 2^24 bytes, is not a JSON document without floats,
    /// or does not have the members of a request, of which `updates` has at most 4,096 elements. Fails only if out of
    /// memory.
    #[tactic(auto, using(sig_request::proofs::RequestTexts::texts))]
    pub fn read(alloc: Global, text: &[u8]) -> Result<Option<WitnessRequest>, OutOfMemory>
        ensures { IfOk result (IsReadFrom witness_request text.now) }
    {
        if text.len() > MOST_BYTES {
            return Ok(None);
        }
        match read_parts(alloc, text, &MEMBERS) {
            Ok(request) => Ok(Some(request)),
            Err(JsonError::NotJson | JsonError::Float | JsonError::Member) => Ok(None),
            Err(JsonError::OutOfMemory) => Err(OutOfMemory),
        }
    }
}

/// The request of a text: the rows of `accepted`, and the members of these names.
fn read_parts(alloc: Global, text: &[u8], names: &[&str]) -> Result<WitnessRequest, JsonError>
    requires { AsksOnly (names_of names.now) witness_members }
    ensures { Answers JsonError.OutOfMemory (λ request. request) result (record_in witness_request text.now) }
{
    let mut scratch = Scratch::new(alloc);
    let mut spare = Scratch::new(alloc);
    let (members, rows) = BorrowedDocument::read_members_and_list::<RowReader>(
        alloc,
        text,
        names,
        "accepted",
        &mut scratch,
        &mut spare,
    )?;
    let request = request_of_parts(alloc, members.view(), rows);
    drop(members);
    request
}

/// The request of its members and the rows of `accepted`.
fn request_of_parts(
    alloc: Global,
    members: Json<'_, '_>,
    rows: OwnedList<AcceptedRow>,
) -> Result<WitnessRequest, JsonError>
    ensures { Answers JsonError.OutOfMemory (λ request. request) result
        (ok_or (witness_members rows (tree members.entry)) JsonError.Member) }
{
    let Ok(accepted) = TableChecker::from_rows(alloc, rows) else {
        return Err(JsonError::OutOfMemory);
    };
    Ok(read_members(alloc, members, accepted)?)
}

/// The request of its members. Fails with `Member` if and only if they are not those of a request.
#[tactic(auto, unfolding(crate::specs::Request::witness_members))]
fn read_members(
    alloc: Global,
    json: Json<'_, '_>,
    accepted: TableChecker,
) -> Result<WitnessRequest, MemberError>
    ensures { Answers MemberError.OutOfMemory (λ request. request) result
        (or_member (witness_members accepted (tree json.entry))) }
{
    with_few_updates(WitnessRequest {
        state: read_text(alloc, json, "state")?,
        origins: optional_list::<OriginKeyReader>(alloc, json, "origins")?,
        updates: optional_list::<UpdateTextReader>(alloc, json, "updates")?,
        accepted,
    })
}

/// The request, if it has no more updates than it may have. Fails with `Member` if not.
fn with_few_updates(request: WitnessRequest) -> Result<WitnessRequest, MemberError>
    ensures { Answers MemberError.OutOfMemory (λ request. request) result (or_member (few_updates request)) }
{
    if request.updates.len() < MOST_UPDATES + 1 {
        return Ok(request);
    }
    drop(request);
    Err(MemberError::Member)
}

/// Reads the logs that are added.
enum OriginKeyReader {}

impl ElementReader for OriginKeyReader {
    type Item = OriginKey;

    ghost meaning = { origin_key_of };

    #[tactic(auto, unfolding(crate::specs::Request::origin_key_of))]
    fn read(alloc: Global, json: Json<'_, '_>) -> Result<OriginKey, MemberError> {
        Ok(OriginKey {
            origin: required_text(alloc, json, "origin")?,
            scheme: required::<SchemeReader>(alloc, json, "scheme")?,
            key: required_bytes(alloc, json, "key")?,
        })
    }
}

enum UpdateTextReader {}

impl ElementReader for UpdateTextReader {
    type Item = UpdateText;

    ghost meaning = { update_text_of };

    #[tactic(auto, unfolding(crate::specs::Request::update_text_of))]
    fn read(alloc: Global, json: Json<'_, '_>) -> Result<UpdateText, MemberError> {
        Ok(UpdateText {
            checkpoint: required_text(alloc, json, "checkpoint")?,
            old_size: required_u64(json, "oldSize")?,
            hashes: optional_list::<HashReader>(alloc, json, "hashes")?,
        })
    }
}
