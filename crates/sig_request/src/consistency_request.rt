//! `ConsistencyRequest`: the request of `consistency`, a JSON document.
//!
//! ```text
//! {
//!   "oldSize": 1,
//!   "oldRoot": "395aa064aa4c29f7010acfe3f25db9485bbd4b91897b6ad7ad547639252b4d56",
//!   "treeSize": 1,
//!   "rootHash": "395aa064aa4c29f7010acfe3f25db9485bbd4b91897b6ad7ad547639252b4d56",
//!   "hashes": [],
//!   "checkpoint": "log.example\n1\nOVqgZKpM..TVY=\n\n\u2014 log.example AAAAAXNpZw==\n",
//!   "scheme": "ECDSA_P256_SHA256_ASN1",
//!   "key": "a2V5",
//!   "accepted": [],
//!   "entries": ["TDEyMzQ1Ng=="]
//! }
//! ```
ghost use Rattle.std.specs.Prelude.{IfOk};

use crate::head_members::{ClaimedHead, read_head};
use crate::request_text::{RequestReader, request_from_text};
use crate::row::EntriesReader;
use sig_base::{Entries, Hashes, OutOfMemory, TableChecker};
use sig_json::{
    HashReader, Json, MemberError, optional, optional_list, required_hash, required_u64,
};
use std::alloc::Global;

/// The members of a request of `consistency`.
#[derive(Drop)]
pub struct ConsistencyRequest {
    /// How many entries the log had.
    pub old_size: u64,
    /// The root hash that it had then.
    pub old_root: [u8; 32],
    /// How many entries the log has now.
    pub tree_size: u64,
    /// The root hash that it has now.
    pub root_hash: [u8; 32],
    /// The consistency proof, the smallest tree's hash first.
    pub hashes: Hashes,
    /// The checkpoint that is to vouch for the new tree.
    pub head: ClaimedHead,
    /// All entries of the new tree, if they are given.
    pub entries: Option<Entries>,
}

/// The names of the members that a request may have; `accepted` is read beside them, row by row. A member of another
/// name is ignored: no tree is made of it.
const MEMBERS: [&str; 9] = [
    "oldSize",
    "oldRoot",
    "treeSize",
    "rootHash",
    "hashes",
    "checkpoint",
    "scheme",
    "key",
    "entries",
];

enum ConsistencyRequestReader {}

impl RequestReader for ConsistencyRequestReader {
    ghost use Rattle.sig_request.specs.ConsistencyRequest.{consistency_members};

    type Item = ConsistencyRequest;

    ghost meaning = { consistency_members };

    #[tactic(auto, unfolding(crate::specs::ConsistencyRequest::consistency_members))]
    fn read(
        alloc: Global,
        json: Json<'_, '_>,
        accepted: TableChecker,
    ) -> Result<ConsistencyRequest, MemberError> {
        Ok(ConsistencyRequest {
            old_size: required_u64(json, "oldSize")?,
            old_root: required_hash(json, "oldRoot")?,
            tree_size: required_u64(json, "treeSize")?,
            root_hash: required_hash(json, "rootHash")?,
            hashes: optional_list::<HashReader>(alloc, json, "hashes")?,
            head: read_head(alloc, json, accepted)?,
            entries: optional::<EntriesReader>(alloc, json, "entries")?,
        })
    }
}

impl ConsistencyRequest {
    ghost use Rattle.sig_request.specs.ReadFrom.{IsReadFrom};
    ghost use Rattle.sig_request.specs.ConsistencyRequest.{consistency_request};

    /// Reads a request; `None` if and only if the text has more than 2^24 bytes, is not a JSON document without floats,
    /// or does not have the members of a request. Fails only if out of memory.
    pub fn read(alloc: Global, text: &[u8]) -> Result<Option<ConsistencyRequest>, OutOfMemory>
        ensures { IfOk result (IsReadFrom consistency_request text.now) }
    {
        request_from_text::<ConsistencyRequestReader>(alloc, text, &MEMBERS)
    }
}
