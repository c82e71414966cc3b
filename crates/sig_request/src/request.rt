//! `LogRequest`: the request of `log`, a JSON document.
//!
//! ```text
//! {
//!   "entry": "TDEyMzQ1Ng==",
//!   "logIndex": 0,
//!   "treeSize": 1,
//!   "rootHash": "395aa064aa4c29f7010acfe3f25db9485bbd4b91897b6ad7ad547639252b4d56",
//!   "hashes": [],
//!   "checkpoint": "log.example\n1\nOVqgZKpM..TVY=\n\n\u2014 log.example AAAAAXNpZw==\n",
//!   "scheme": "ECDSA_P256_SHA256_ASN1",
//!   "key": "a2V5",
//!   "accepted": [
//!     {
//!       "operation": "message",
//!       "scheme": "ECDSA_P256_SHA256_ASN1",
//!       "key": "a2V5",
//!       "message": "bG9nLmV4YW1wbGUKMQpPVnFnWktwTUtmY0JDcy9qOGwyNVNGdTlTNUdKZTJyWHJWUjJPU1VyVFZZPQo=",
//!       "signature": "c2ln"
//!     }
//!   ],
//!   "entries": ["TDEyMzQ1Ng=="]
//! }
//! ```
ghost use Rattle.std.specs.Prelude.{IfOk};

use crate::head_members::{ClaimedHead, read_head};
use crate::request_text::{RequestReader, request_from_text};
use crate::row::EntriesReader;
use sig_base::{Bytes, Entries, OutOfMemory, TableChecker};
use sig_json::{
    HashReader, Json, MemberError, optional, optional_list, required_bytes, required_hash,
    required_i64, required_u64,
};
use sig_rekor::InclusionProof;
use std::alloc::Global;

/// The members of a request of `log`.
#[derive(Drop)]
pub struct LogRequest {
    /// The entry that is claimed to be logged.
    pub entry: Bytes,
    /// The proof that it is at an index of the log's tree; the tree's checkpoint is in `head`.
    pub proof: InclusionProof,
    /// The checkpoint that is to vouch for the tree.
    pub head: ClaimedHead,
    /// All entries of the log, if they are given.
    pub entries: Option<Entries>,
}

/// The names of the members that a request may have; `accepted` is read beside them, row by row. A member of another
/// name is ignored: no tree is made of it.
const MEMBERS: [&str; 9] = [
    "entry",
    "logIndex",
    "treeSize",
    "rootHash",
    "hashes",
    "checkpoint",
    "scheme",
    "key",
    "entries",
];

enum LogRequestReader {}

impl RequestReader for LogRequestReader {
    ghost use Rattle.sig_request.specs.Request.{log_members};

    type Item = LogRequest;

    ghost meaning = { log_members };

    #[tactic(auto, unfolding(crate::specs::Request::log_members))]
    fn read(
        alloc: Global,
        json: Json<'_, '_>,
        accepted: TableChecker,
    ) -> Result<LogRequest, MemberError> {
        let entry = required_bytes(alloc, json, "entry")?;
        let log_index = required_i64(json, "logIndex")?;
        let tree_size = required_u64(json, "treeSize")?;
        let root_hash = required_hash(json, "rootHash")?;
        let hashes = optional_list::<HashReader>(alloc, json, "hashes")?;
        let head = read_head(alloc, json, accepted)?;
        let entries = optional::<EntriesReader>(alloc, json, "entries")?;
        Ok(LogRequest {
            entry,
            proof: InclusionProof::new(log_index, root_hash, tree_size, hashes, None),
            head,
            entries,
        })
    }
}

impl LogRequest {
    ghost use Rattle.sig_request.specs.ReadFrom.{IsReadFrom};
    ghost use Rattle.sig_request.specs.Request.{log_request};

    /// Reads a request; `None` if and only if the text has more than 2^24 bytes, is not a JSON document without floats,
    /// or does not have the members of a request. Fails only if out of memory.
    pub fn read(alloc: Global, text: &[u8]) -> Result<Option<LogRequest>, OutOfMemory>
        ensures { IfOk result (IsReadFrom log_request text.now) }
    {
        request_from_text::<LogRequestReader>(alloc, text, &MEMBERS)
    }
}
