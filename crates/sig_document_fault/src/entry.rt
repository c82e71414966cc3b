//! The tables of entries of transparency logs.
ghost use Rattle.sig_document_fault.specs.BundleTable.{checkpoint_table, entry_table, kind_version_table};
ghost use Rattle.sig_document_fault.specs.BundleTable.{promise_table, proof_table};

use crate::common::LogIdTable;
use sig_json::Json;
use sig_table::{
    BytesTable, ListOf, MemberTable, TableError, TextTable, object, optional, optional_i64,
};
use std::alloc::Global;

/// The table of promises of inclusion.
enum PromiseTable {}

impl MemberTable for PromiseTable {
    ghost table = { promise_table };

    #[tactic(auto, unfolding(crate::specs::BundleTable::promise_table))]
    fn check(alloc: Global, json: Json<'_, '_>) -> Result<(), TableError> {
        object(alloc, json)?;
        optional::<BytesTable>(alloc, json, "signedEntryTimestamp")
    }
}

/// The table of the checkpoint of an inclusion proof: the text of the log's signed note.
enum CheckpointTable {}

impl MemberTable for CheckpointTable {
    ghost table = { checkpoint_table };

    #[tactic(auto, unfolding(crate::specs::BundleTable::checkpoint_table))]
    fn check(alloc: Global, json: Json<'_, '_>) -> Result<(), TableError> {
        object(alloc, json)?;
        optional::<TextTable>(alloc, json, "envelope")
    }
}

/// The table of kinds of entries.
enum KindVersionTable {}

impl MemberTable for KindVersionTable {
    ghost table = { kind_version_table };

    #[tactic(auto, unfolding(crate::specs::BundleTable::kind_version_table))]
    fn check(alloc: Global, json: Json<'_, '_>) -> Result<(), TableError> {
        object(alloc, json)?;
        optional::<TextTable>(alloc, json, "kind")?;
        optional::<TextTable>(alloc, json, "version")
    }
}

/// The table of inclusion proofs.
enum ProofTable {}

impl MemberTable for ProofTable {
    ghost table = { proof_table };

    #[tactic(auto, using(sig_table::proofs::Steps::steps), unfolding(crate::specs::BundleTable::proof_table))]
    fn check(alloc: Global, json: Json<'_, '_>) -> Result<(), TableError> {
        object(alloc, json)?;
        optional_i64(alloc, json, "logIndex")?;
        optional::<BytesTable>(alloc, json, "rootHash")?;
        optional_i64(alloc, json, "treeSize")?;
        optional::<ListOf<BytesTable>>(alloc, json, "hashes")?;
        optional::<CheckpointTable>(alloc, json, "checkpoint")
    }
}

/// The table of a bundle's log entry. Every member of it may be absent.
pub(crate) enum EntryTable {}

impl MemberTable for EntryTable {
    ghost table = { entry_table };

    #[tactic(auto, using(sig_table::proofs::Steps::steps), unfolding(crate::specs::BundleTable::entry_table))]
    fn check(alloc: Global, json: Json<'_, '_>) -> Result<(), TableError> {
        object(alloc, json)?;
        optional_i64(alloc, json, "logIndex")?;
        optional::<LogIdTable>(alloc, json, "logId")?;
        optional::<KindVersionTable>(alloc, json, "kindVersion")?;
        optional_i64(alloc, json, "integratedTime")?;
        optional::<PromiseTable>(alloc, json, "inclusionPromise")?;
        optional::<ProofTable>(alloc, json, "inclusionProof")?;
        optional::<BytesTable>(alloc, json, "canonicalizedBody")
    }
}
