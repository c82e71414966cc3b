//! What is wrong with a request of `log`.
ghost use Rattle.std.specs.Prelude.{◌≡◌, ◌↔◌, IfOk, None};
ghost use Rattle.sig_request.specs.Request.{log_request};
ghost use Rattle.sig_request_fault.specs.RequestFault.{IsRequest, IsRequestFault, request_fault_in};
ghost use Rattle.sig_request_fault.specs.RequestTable.{log_table};

use crate::fault::{RequestFault, request_fault};
use crate::row::{AcceptedTable, EntriesTable, SchemeTable};
use sig_base::OutOfMemory;
use sig_json::Json;
use sig_table::{
    BytesTable, HashTable, ListOf, MemberTable, TableError, TextTable, object, optional, required,
    required_i64, required_u64,
};
use std::alloc::Global;

/// The table of requests of `log`.
enum LogTable {}

impl MemberTable for LogTable {
    ghost table = { log_table };

    #[tactic(auto, using(sig_table::proofs::Steps::steps), unfolding(crate::specs::RequestTable::log_table))]
    fn check(alloc: Global, json: Json<'_, '_>) -> Result<(), TableError> {
        object(alloc, json)?;
        required::<BytesTable>(alloc, json, "entry")?;
        required_i64(alloc, json, "logIndex")?;
        required_u64(alloc, json, "treeSize")?;
        required::<HashTable>(alloc, json, "rootHash")?;
        optional::<ListOf<HashTable>>(alloc, json, "hashes")?;
        required::<TextTable>(alloc, json, "checkpoint")?;
        required::<SchemeTable>(alloc, json, "scheme")?;
        required::<BytesTable>(alloc, json, "key")?;
        optional::<AcceptedTable>(alloc, json, "accepted")?;
        optional::<EntriesTable>(alloc, json, "entries")
    }
}

/// Returns what is wrong with a text that has to be a request of `log`, or `None` if and only if it is one: that it has
/// more than 2^24 bytes; else that it is not JSON, or has a float; else the first member that breaks the table, in its
/// order. Fails only if out of memory.
pub fn log_request_fault(alloc: Global, text: &[u8]) -> Result<Option<RequestFault>, OutOfMemory>
    ensures value { IfOk result (λ found. found ≡ request_fault_in log_table text.now) }
    ensures first { IfOk result (IsRequestFault log_table text.now) }
    ensures request { IfOk result (λ found. (found ≡ None) ↔ IsRequest log_request text.now) }
{
    request_fault::<LogTable>(alloc, text)
}
