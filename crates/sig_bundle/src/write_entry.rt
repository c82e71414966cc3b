//! Writers of the entries of transparency logs.
ghost use Rattle.std.specs.Prelude.{◌≡◌, IfOk, Option};
ghost use Rattle.sig_json.specs.Data.{Data};
ghost use Rattle.sig_json.specs.CommonRecord.{log_id_of};
ghost use Rattle.sig_bundle.specs.BundleRecord.{checkpoint_envelope_of, entry_of, kind_version_of};
ghost use Rattle.sig_bundle.specs.BundleRecord.{promise_of};
ghost use Rattle.sig_bundle.specs.BundleRecord.{proof_of};
ghost use Rattle.sig_bundle.specs.BundleTree.{checkpoint_tree, entry_tree, kind_version_tree, log_id_tree};
ghost use Rattle.sig_bundle.specs.BundleTree.{promise_record_tree, proof_tree};
ghost use Rattle.sig_json.specs.Writing.{IsReadAs};
ghost use Rattle.sig_json.specs.Tree.{document_tree};

use crate::log_entries::{SmallEntries, SparseEntry};
use crate::material::{KindVersion, ProofFields, TransparencyLogEntry};
use sig_base::{Bytes, OutOfMemory, Text};
use sig_json::{BytesWriter, Document, ElementWriter, Object};
use std::alloc::Global;

/// Writes the ids of logs.
enum LogIdWriter {}

impl ElementWriter for LogIdWriter {
    type Item = Bytes;

    ghost written = { log_id_tree };

    ghost meaning = { log_id_of };

    #[tactic(auto, using(crate::proofs::EntryReadings::back), unfolding(crate::specs::BundleTree::log_id_tree))]
    fn write(alloc: Global, item: &Bytes) -> Result<Document, OutOfMemory> {
        let object = Object::new(alloc).with_bytes(alloc, "keyId", item.as_slice())?;
        Ok(object.into_document())
    }
}

/// Writes promises of inclusion.
enum PromiseWriter {}

impl ElementWriter for PromiseWriter {
    type Item = Bytes;

    ghost written = { promise_record_tree };

    ghost meaning = { promise_of };

    #[tactic(auto, using(crate::proofs::EntryReadings::back), unfolding(crate::specs::BundleTree::promise_record_tree))]
    fn write(alloc: Global, item: &Bytes) -> Result<Document, OutOfMemory> {
        let object = Object::new(alloc).with_bytes(alloc, "signedEntryTimestamp", item.as_slice())?;
        Ok(object.into_document())
    }
}

/// Writes the texts of signed checkpoints.
enum CheckpointWriter {}

impl ElementWriter for CheckpointWriter {
    type Item = Text;

    ghost written = { checkpoint_tree };

    ghost meaning = { checkpoint_envelope_of };

    #[tactic(auto, using(crate::proofs::EntryReadings::back), unfolding(crate::specs::BundleTree::checkpoint_tree))]
    fn write(alloc: Global, item: &Text) -> Result<Document, OutOfMemory> {
        let object = Object::new(alloc).with_text(alloc, "envelope", item.as_str())?;
        Ok(object.into_document())
    }
}

/// Writes kinds of entries.
enum KindVersionWriter {}

impl ElementWriter for KindVersionWriter {
    type Item = KindVersion;

    ghost written = { kind_version_tree };

    ghost meaning = { kind_version_of };

    #[tactic(auto, using(crate::proofs::EntryReadings::back), unfolding(crate::specs::BundleTree::kind_version_tree))]
    fn write(alloc: Global, item: &KindVersion) -> Result<Document, OutOfMemory> {
        let object = Object::new(alloc)
            .with_text(alloc, "kind", item.kind.as_str())?
            .with_text(alloc, "version", item.version.as_str())?;
        Ok(object.into_document())
    }
}

/// Writes inclusion proofs.
enum ProofWriter {}

impl ElementWriter for ProofWriter {
    type Item = ProofFields;

    ghost written = { proof_tree };

    ghost meaning = { proof_of };

    #[tactic(auto, using(crate::proofs::EntryReadings::back), unfolding(crate::specs::BundleTree::proof_tree))]
    fn write(alloc: Global, item: &ProofFields) -> Result<Document, OutOfMemory> {
        let object = Object::new(alloc)
            .with_integer(alloc, "logIndex", &item.log_index)?
            .with_bytes(alloc, "rootHash", item.root_hash.as_slice())?
            .with_integer(alloc, "treeSize", &item.tree_size)?
            .with_list::<BytesWriter>(alloc, "hashes", item.hashes.as_slice())?
            .with_option::<CheckpointWriter>(alloc, "checkpoint", &item.checkpoint)?;
        Ok(object.into_document())
    }
}

/// Writes entries of logs.
enum EntryWriter {}

impl ElementWriter for EntryWriter {
    type Item = TransparencyLogEntry;

    ghost written = { entry_tree };

    ghost meaning = { entry_of };

    #[tactic(auto, using(crate::proofs::EntryReadings::back), unfolding(crate::specs::BundleTree::entry_tree))]
    fn write(alloc: Global, item: &TransparencyLogEntry) -> Result<Document, OutOfMemory> {
        let object = Object::new(alloc)
            .with_integer(alloc, "logIndex", &item.log_index)?
            .with_option::<LogIdWriter>(alloc, "logId", &item.log_id)?
            .with_option::<KindVersionWriter>(alloc, "kindVersion", &item.kind_version)?
            .with_integer(alloc, "integratedTime", &item.integrated_time)?
            .with_option::<PromiseWriter>(alloc, "inclusionPromise", &item.inclusion_promise)?
            .with_option::<ProofWriter>(alloc, "inclusionProof", &item.inclusion_proof)?
            .with_bytes(
                alloc,
                "canonicalizedBody",
                item.canonicalized_body.as_slice(),
            )?;
        Ok(object.into_document())
    }
}

/// Writes entries of logs held as `SparseEntry`.
pub(crate) enum SparseEntryWriter {}

impl ElementWriter for SparseEntryWriter {
    type Item = SparseEntry;

    ghost written = { entry_tree };

    ghost meaning = { entry_of };

    fn write(alloc: Global, item: &SparseEntry) -> Result<Document, OutOfMemory> {
        let small = SmallEntries::new(alloc);
        let written = EntryWriter::write(alloc, item.get(&small));
        drop(small);
        written
    }
}
