//! Readers of the entries of transparency logs.
ghost use Rattle.std.specs.Prelude.{Option};
ghost use Rattle.sig_json.specs.Data.{Data};
ghost use Rattle.sig_bundle.specs.BundleRecord.{checkpoint_envelope_of, entry_of, kind_version_of};
ghost use Rattle.sig_bundle.specs.BundleRecord.{promise_of};
ghost use Rattle.sig_bundle.specs.BundleRecord.{proof_of};
ghost use Rattle.sig_json.specs.Tree.{tree};

use crate::log_entries::SparseEntry;
use crate::material::{KindVersion, ProofFields, TransparencyLogEntry};
use sig_base::{Bytes, Entries, Text};
use sig_json::{
    BytesReader, ElementReader, Json, LogIdReader, MemberError, optional, optional_list,
    read_bytes, read_i64, read_text,
};
use std::alloc::Global;

/// Reads promises of inclusion.
enum PromiseReader {}

impl ElementReader for PromiseReader {
    type Item = Bytes;

    ghost meaning = { promise_of };

    fn read(alloc: Global, json: Json<'_, '_>) -> Result<Bytes, MemberError> {
        read_bytes(alloc, json, "signedEntryTimestamp")
    }
}

/// Reads the texts of signed checkpoints.
enum CheckpointReader {}

impl ElementReader for CheckpointReader {
    type Item = Text;

    ghost meaning = { checkpoint_envelope_of };

    fn read(alloc: Global, json: Json<'_, '_>) -> Result<Text, MemberError> {
        read_text(alloc, json, "envelope")
    }
}

/// Reads kinds of entries.
enum KindVersionReader {}

impl ElementReader for KindVersionReader {
    type Item = KindVersion;

    ghost meaning = { kind_version_of };

    #[tactic(auto, unfolding(crate::specs::BundleRecord::kind_version_of))]
    fn read(alloc: Global, json: Json<'_, '_>) -> Result<KindVersion, MemberError> {
        Ok(KindVersion {
            kind: read_text(alloc, json, "kind")?,
            version: read_text(alloc, json, "version")?,
        })
    }
}

/// Reads inclusion proofs.
enum ProofReader {}

impl ElementReader for ProofReader {
    type Item = ProofFields;

    ghost meaning = { proof_of };

    #[tactic(auto, unfolding(crate::specs::BundleRecord::proof_of))]
    fn read(alloc: Global, json: Json<'_, '_>) -> Result<ProofFields, MemberError> {
        Ok(ProofFields {
            log_index: read_i64(json, "logIndex")?,
            root_hash: read_bytes(alloc, json, "rootHash")?,
            tree_size: read_i64(json, "treeSize")?,
            hashes: Entries::of(alloc, optional_list::<BytesReader>(alloc, json, "hashes")?),
            checkpoint: optional::<CheckpointReader>(alloc, json, "checkpoint")?,
        })
    }
}

/// Reads entries of logs.
enum EntryReader {}

impl ElementReader for EntryReader {
    type Item = TransparencyLogEntry;

    ghost meaning = { entry_of };

    #[tactic(auto, unfolding(crate::specs::BundleRecord::entry_of))]
    fn read(alloc: Global, json: Json<'_, '_>) -> Result<TransparencyLogEntry, MemberError> {
        Ok(TransparencyLogEntry {
            log_index: read_i64(json, "logIndex")?,
            log_id: optional::<LogIdReader>(alloc, json, "logId")?,
            kind_version: optional::<KindVersionReader>(alloc, json, "kindVersion")?,
            integrated_time: read_i64(json, "integratedTime")?,
            inclusion_promise: optional::<PromiseReader>(alloc, json, "inclusionPromise")?,
            inclusion_proof: optional::<ProofReader>(alloc, json, "inclusionProof")?,
            canonicalized_body: read_bytes(alloc, json, "canonicalizedBody")?,
        })
    }
}

/// Reads entries of logs, and holds little of those without members.
pub(crate) enum SparseEntryReader {}

impl ElementReader for SparseEntryReader {
    type Item = SparseEntry;

    ghost meaning = { entry_of };

    fn read(alloc: Global, json: Json<'_, '_>) -> Result<SparseEntry, MemberError> {
        let entry = EntryReader::read(alloc, json)?;
        Ok(SparseEntry::new(alloc, entry)?)
    }
}
