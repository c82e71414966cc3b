//! What is wrong with a request of `audit`.
ghost use Rattle.std.specs.Prelude.{◌≡◌, ◌↔◌, IfOk, None, codes};
ghost use Rattle.sig_base.specs.Answers.{Answers};
ghost use Rattle.sig_json.specs.Tree.{tree};
ghost use Rattle.sig_request.specs.AuditRequest.{audit_request};
ghost use Rattle.sig_request_fault.specs.AuditTable.{audit_table, head_count, head_table, heads_table, watch_table};
ghost use Rattle.sig_request_fault.specs.AuditTable.{watched_table};
ghost use Rattle.sig_request_fault.specs.RequestFault.{IsRequest, IsRequestFault, request_fault_in};
ghost use Rattle.sig_table.specs.Fault.{fault_of, or_fault, row_fault};
ghost use Rattle.sig_table.specs.Table.{elements, optional_row};

use crate::fault::{RequestFault, request_fault};
use crate::row::{AcceptedTable, EntriesTable, SchemeTable};
use sig_base::OutOfMemory;
use sig_json::Json;
use sig_table::{
    BytesTable, Cause, HashTable, ListOf, MemberTable, TableError, TextTable, after_index,
    after_name, fault_here, length_between, member, object, optional, required, required_below,
    required_u64,
};
use std::alloc::Global;

/// The table of a head: its checkpoint, and the consistency proof from the head before.
enum HeadTable {}

impl MemberTable for HeadTable {
    ghost table = { head_table };

    #[tactic(auto, unfolding(crate::specs::AuditTable::head_table))]
    fn check(alloc: Global, json: Json<'_, '_>) -> Result<(), TableError> {
        object(alloc, json)?;
        required::<TextTable>(alloc, json, "checkpoint")?;
        optional::<ListOf<HashTable>>(alloc, json, "hashes")
    }
}

/// The table of lists of as many heads as an audit may have.
enum HeadsTable {}

impl MemberTable for HeadsTable {
    ghost table = { heads_table };

    #[tactic(auto, using(sig_table::proofs::Steps::guards), unfolding(crate::specs::AuditTable::heads_table))]
    fn check(alloc: Global, json: Json<'_, '_>) -> Result<(), TableError> {
        length_between(alloc, json, 1, 256)?;
        ListOf::<HeadTable>::check(alloc, json)
    }
}

/// The table of requests of `audit`.
enum AuditTable {}

impl MemberTable for AuditTable {
    ghost table = { audit_table };

    #[tactic(auto, using(sig_table::proofs::Steps::steps), unfolding(crate::specs::AuditTable::audit_table))]
    fn check(alloc: Global, json: Json<'_, '_>) -> Result<(), TableError> {
        object(alloc, json)?;
        required::<HeadsTable>(alloc, json, "heads")?;
        watched(alloc, json, head_count(json))?;
        required::<SchemeTable>(alloc, json, "scheme")?;
        required::<BytesTable>(alloc, json, "key")?;
        optional::<AcceptedTable>(alloc, json, "accepted")?;
        optional::<EntriesTable>(alloc, json, "entries")
    }
}

/// The row of the watched entries.
fn watched(alloc: Global, json: Json<'_, '_>, count: usize) -> Result<(), TableError>
    ensures { Answers TableError.OutOfMemory (λ x. x) result
        (or_fault (row_fault (optional_row (codes "watched") (watched_table count)) (tree json.entry))) }
{
    match member(json, "watched") {
        Some(value) => match few_watches(alloc, value, count) {
            Ok(()) => Ok(()),
            Err(error) => Err(after_name(alloc, "watched", error)),
        },
        None => Ok(()),
    }
}

/// Checks the watched entries, of which there are as many as an audit may have.
#[tactic(auto, using(sig_table::proofs::Steps::guards), unfolding(crate::specs::AuditTable::watched_table))]
fn few_watches(alloc: Global, json: Json<'_, '_>, count: usize) -> Result<(), TableError>
    ensures { Answers TableError.OutOfMemory (λ x. x) result
        (or_fault (fault_of (watched_table count) (tree json.entry))) }
{
    length_between(alloc, json, 0, 4096)?;
    watches(alloc, json, count)
}

/// Checks a list of watched entries, each of them under one of this number of heads.
#[tactic(auto, using(sig_table::proofs::Elements::elements))]
fn watches(alloc: Global, json: Json<'_, '_>, count: usize) -> Result<(), TableError>
    ensures { Answers TableError.OutOfMemory (λ x. x) result
        (or_fault (fault_of (elements (watch_table count)) (tree json.entry))) }
{
    let Some(len) = json.list_len() else {
        return Err(fault_here(alloc, Cause::OtherKind));
    };
    'elements: for index in 0..len {
        let Some(element) = json.item(index) else {
            // The index is below the length.
            unreachable!()
        };
        if let Err(error) = watch(alloc, element, count) {
            return Err(after_index(index, error));
        }
    }
    Ok(())
}

/// Checks a watched entry, which is under one of this number of heads.
#[tactic(auto, using(sig_table::proofs::Steps::steps), unfolding(crate::specs::AuditTable::watch_table))]
fn watch(alloc: Global, json: Json<'_, '_>, count: usize) -> Result<(), TableError>
    ensures { Answers TableError.OutOfMemory (λ x. x) result
        (or_fault (fault_of (watch_table count) (tree json.entry))) }
{
    object(alloc, json)?;
    required_below(alloc, json, "head", count as u64)?;
    required_u64(alloc, json, "index")?;
    optional::<ListOf<HashTable>>(alloc, json, "hashes")?;
    required::<BytesTable>(alloc, json, "entry")
}

/// How many heads a request has.
fn head_count(json: Json<'_, '_>) -> usize
    ensures { result ≡ head_count (tree json.entry) }
{
    match member(json, "heads") {
        Some(heads) => heads.list_len().unwrap_or(0),
        None => 0,
    }
}

/// Returns what is wrong with a text that has to be a request of `audit`, or `None` if and only if it is one: that it
/// has more than 2^24 bytes; else that it is not JSON, or has a float; else the first member that breaks the table, in
/// its order. There are from 1 to 256 heads and at most 4,096 watched entries, each of them under one of the heads.
/// Fails only if out of memory.
pub fn audit_request_fault(alloc: Global, text: &[u8]) -> Result<Option<RequestFault>, OutOfMemory>
    ensures value { IfOk result (λ found. found ≡ request_fault_in audit_table text.now) }
    ensures first { IfOk result (IsRequestFault audit_table text.now) }
    ensures request { IfOk result (λ found. (found ≡ None) ↔ IsRequest audit_request text.now) }
{
    request_fault::<AuditTable>(alloc, text)
}
