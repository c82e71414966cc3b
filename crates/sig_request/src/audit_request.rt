//! `AuditRequest`: the request of `audit`, a JSON document.
//!
//! ```text
//! {
//!   "heads": [
//!     { "checkpoint": "log.example\n1\nOVqgZKpM..TVY=\n\n\u2014 log.example AAAAAXNpZw==\n" },
//!     { "checkpoint": "log.example\n2\n..", "hashes": ["395aa064.."] }
//!   ],
//!   "watched": [{ "head": 1, "index": 0, "hashes": ["6e340b9c.."], "entry": "TDEyMzQ1Ng==" }],
//!   "scheme": "ECDSA_P256_SHA256_ASN1",
//!   "key": "a2V5",
//!   "accepted": [],
//!   "entries": ["TDEyMzQ1Ng==", ".."]
//! }
//! ```
ghost use Rattle.std.specs.Prelude.{◌≡◌, IfOk};
ghost use Rattle.sig_base.specs.Answers.{Answers};
ghost use Rattle.sig_json.specs.OrMember.{or_member};
ghost use Rattle.sig_request.specs.AuditRequest.{are_under, head_text_of, is_within, kept_within, watch_of};

use crate::request_text::{RequestReader, request_from_text};
use crate::row::{EntriesReader, SchemeReader};
use sig_audit::{Watch, WatchList};
use sig_base::{Bytes, Entries, Hashes, OutOfMemory, OwnedList, SigningScheme, TableChecker, Text};
use sig_json::{
    ElementReader, HashReader, Json, MemberError, optional, optional_list, required,
    required_bytes, required_list, required_text, required_u64,
};
use std::alloc::Global;

/// The greatest number of heads of an audit, which has at least one.
pub const MOST_HEADS: usize = 256;

/// The greatest number of watched entries of an audit.
pub const MOST_WATCHES: usize = 4096;

/// A head as a request of `audit` gives it.
#[derive(Drop)]
pub struct HeadText {
    /// A signed note with the log's size and root.
    pub checkpoint: Text,
    /// The consistency proof from the head before this one, the smallest tree's hash first. That of the first head is
    /// not checked.
    pub hashes: Hashes,
}

/// The members of a request of `audit`.
#[derive(Drop)]
pub struct AuditRequest {
    /// The heads of the log, the oldest first: from 1 to 256.
    pub heads: OwnedList<HeadText>,
    /// The watched entries, each under one of the heads: at most 4,096.
    pub watched: WatchList,
    /// The scheme of the log's key.
    pub scheme: SigningScheme,
    /// The log's key (DER).
    pub key: Bytes,
    /// The signatures that are accepted as genuine.
    pub accepted: TableChecker,
    /// All entries of the log as the last head has it, if they are given.
    pub entries: Option<Entries>,
}

/// The names of the members that a request may have; `accepted` is read beside them, row by row. A member of another
/// name is ignored: no tree is made of it.
const MEMBERS: [&str; 5] = ["heads", "watched", "scheme", "key", "entries"];

enum HeadTextReader {}

impl ElementReader for HeadTextReader {
    type Item = HeadText;

    ghost meaning = { head_text_of };

    #[tactic(auto, unfolding(crate::specs::AuditRequest::head_text_of))]
    fn read(alloc: Global, json: Json<'_, '_>) -> Result<HeadText, MemberError> {
        Ok(HeadText {
            checkpoint: required_text(alloc, json, "checkpoint")?,
            hashes: optional_list::<HashReader>(alloc, json, "hashes")?,
        })
    }
}

/// Reads watched entries.
enum WatchReader {}

impl ElementReader for WatchReader {
    type Item = Watch;

    ghost meaning = { watch_of };

    #[tactic(auto, unfolding(crate::specs::AuditRequest::watch_of))]
    fn read(alloc: Global, json: Json<'_, '_>) -> Result<Watch, MemberError> {
        let head = required_u64(json, "head")? as usize;
        let index = required_u64(json, "index")?;
        Ok(Watch {
            head,
            index,
            hashes: optional_list::<HashReader>(alloc, json, "hashes")?,
            entry: required_bytes(alloc, json, "entry")?,
        })
    }
}

enum AuditRequestReader {}

impl RequestReader for AuditRequestReader {
    ghost use Rattle.sig_request.specs.AuditRequest.{audit_members};

    type Item = AuditRequest;

    ghost meaning = { audit_members };

    #[tactic(auto, unfolding(crate::specs::AuditRequest::audit_members))]
    fn read(
        alloc: Global,
        json: Json<'_, '_>,
        accepted: TableChecker,
    ) -> Result<AuditRequest, MemberError> {
        kept_within(AuditRequest {
            heads: required_list::<HeadTextReader>(alloc, json, "heads")?,
            watched: optional_list::<WatchReader>(alloc, json, "watched")?,
            scheme: required::<SchemeReader>(alloc, json, "scheme")?,
            key: required_bytes(alloc, json, "key")?,
            accepted,
            entries: optional::<EntriesReader>(alloc, json, "entries")?,
        })
    }
}

/// The request, if its lists are as long as they may be, and each watched entry is under one of the heads. Fails with
/// `Member` if not.
fn kept_within(request: AuditRequest) -> Result<AuditRequest, MemberError>
    ensures { Answers MemberError.OutOfMemory (λ request. request) result (or_member (kept_within request)) }
{
    if is_within(request.heads.as_slice(), request.watched.as_slice()) {
        return Ok(request);
    }
    drop(request);
    Err(MemberError::Member)
}

/// Whether there are as many heads and watched entries as a request may have, and each of these is under one of the
/// heads.
fn is_within(heads: &[HeadText], watched: &[Watch]) -> bool
    ensures { result ≡ is_within heads.now watched.now }
{
    let count = heads.len();
    0 < count
        && count < MOST_HEADS + 1
        && watched.len() < MOST_WATCHES + 1
        && are_under(count, watched)
}

/// Whether each watched entry is under one of this number of heads.
fn are_under(count: usize, watched: &[Watch]) -> bool
    ensures { result ≡ are_under count watched.now }
{
    watched.iter().all(|watch| watch.head < count)
}

impl AuditRequest {
    ghost use Rattle.sig_request.specs.ReadFrom.{IsReadFrom};
    ghost use Rattle.sig_request.specs.AuditRequest.{audit_request};

    /// Reads a request; `None` if and only if the text has more than 2^24 bytes, is not a JSON document without floats,
    /// or does not have the members of a request: from 1 to 256 heads, and at most 4,096 watched entries, each of which
    /// names one of these heads by its index. Fails only if out of memory.
    pub fn read(alloc: Global, text: &[u8]) -> Result<Option<AuditRequest>, OutOfMemory>
        ensures { IfOk result (IsReadFrom audit_request text.now) }
    {
        request_from_text::<AuditRequestReader>(alloc, text, &MEMBERS)
    }
}
