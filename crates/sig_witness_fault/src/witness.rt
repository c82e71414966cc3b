//! The table of the requests of `witness`.
ghost use Rattle.std.specs.Prelude.{◌≡◌, ◌↔◌, IfOk, None};
ghost use Rattle.sig_request_fault.specs.RequestFault.{IsRequest, IsRequestFault, request_fault_in};
ghost use Rattle.sig_request_fault.specs.RowTable.{scheme_table};
ghost use Rattle.sig_witness_command.specs.Request.{witness_request};
ghost use Rattle.sig_witness_fault.specs.WitnessTable.{origin_table, update_table, updates_table, witness_table};

use sig_base::OutOfMemory;
use sig_json::Json;
use sig_request::SchemeReader;
use sig_request_fault::{AcceptedTable, RequestFault, request_fault};
use sig_table::{
    BytesTable, HashTable, ListOf, MemberTable, ReadBy, TableError, TextTable, length_between,
    object, optional, required, required_u64,
};
use std::alloc::Global;

/// The table of names of signature schemes.
enum SchemeTable {}

impl MemberTable for SchemeTable {
    ghost table = { scheme_table };

    #[tactic(auto, unfolding(sig_request_fault::specs::RowTable::scheme_table))]
    fn check(alloc: Global, json: Json<'_, '_>) -> Result<(), TableError> {
        ReadBy::<SchemeReader>::check(alloc, json)
    }
}

/// The table of logs that are added.
enum OriginTable {}

impl MemberTable for OriginTable {
    ghost table = { origin_table };

    #[tactic(auto, using(sig_table::proofs::Steps::steps), unfolding(crate::specs::WitnessTable::origin_table))]
    fn check(alloc: Global, json: Json<'_, '_>) -> Result<(), TableError> {
        object(alloc, json)?;
        required::<TextTable>(alloc, json, "origin")?;
        required::<SchemeTable>(alloc, json, "scheme")?;
        required::<BytesTable>(alloc, json, "key")
    }
}

enum UpdateTable {}

impl MemberTable for UpdateTable {
    ghost table = { update_table };

    #[tactic(auto, using(sig_table::proofs::Steps::steps), unfolding(crate::specs::WitnessTable::update_table))]
    fn check(alloc: Global, json: Json<'_, '_>) -> Result<(), TableError> {
        object(alloc, json)?;
        required::<TextTable>(alloc, json, "checkpoint")?;
        required_u64(alloc, json, "oldSize")?;
        optional::<ListOf<HashTable>>(alloc, json, "hashes")
    }
}

/// The table of lists of as many updates as a request may have.
enum UpdatesTable {}

impl MemberTable for UpdatesTable {
    ghost table = { updates_table };

    #[tactic(auto, using(sig_table::proofs::Steps::guards), unfolding(crate::specs::WitnessTable::updates_table))]
    fn check(alloc: Global, json: Json<'_, '_>) -> Result<(), TableError> {
        length_between(alloc, json, 0, 4096)?;
        ListOf::<UpdateTable>::check(alloc, json)
    }
}

/// The table of requests of `witness`.
enum WitnessTable {}

impl MemberTable for WitnessTable {
    ghost table = { witness_table };

    #[tactic(auto, using(sig_table::proofs::Steps::steps), unfolding(crate::specs::WitnessTable::witness_table))]
    fn check(alloc: Global, json: Json<'_, '_>) -> Result<(), TableError> {
        object(alloc, json)?;
        optional::<TextTable>(alloc, json, "state")?;
        optional::<ListOf<OriginTable>>(alloc, json, "origins")?;
        optional::<UpdatesTable>(alloc, json, "updates")?;
        optional::<AcceptedTable>(alloc, json, "accepted")
    }
}

/// Returns what is wrong with a text that has to be a request of `witness`, or `None` if and only if it is one: that it
/// has more than 2^24 bytes; else that it is not JSON, or has a float; else the first member that breaks the table, in
/// its order. There are at most 4,096 updates. Fails only if out of memory.
pub fn witness_request_fault(
    alloc: Global,
    text: &[u8],
) -> Result<Option<RequestFault>, OutOfMemory>
    ensures value { IfOk result (λ found. found ≡ request_fault_in witness_table text.now) }
    ensures first { IfOk result (IsRequestFault witness_table text.now) }
    ensures request { IfOk result (λ found. (found ≡ None) ↔ IsRequest witness_request text.now) }
{
    request_fault::<WitnessTable>(alloc, text)
}
