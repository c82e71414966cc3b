//! Copies of log entries in memory of their own.
ghost use Rattle.std.specs.Prelude.{◌≡◌, IfOk};

use crate::material::{KindVersion, ProofFields, TransparencyLogEntry};
use sig_base::{Bytes, OutOfMemory, Text};
use std::alloc::Global;

/// A value that can be copied into memory of its own.
trait Copies: Drop {
    /// Returns the same value in memory of its own. Fails only if out of memory.
    fn copied(&self, alloc: Global) -> Result<Self, OutOfMemory>
        ensures { IfOk result (λ copy. copy ≡ self.now) };
}

impl Copies for Bytes {
    fn copied(&self, alloc: Global) -> Result<Bytes, OutOfMemory> {
        self.copy(alloc)
    }
}

impl Copies for Text {
    fn copied(&self, alloc: Global) -> Result<Text, OutOfMemory> {
        self.copy(alloc)
    }
}

impl Copies for KindVersion {
    fn copied(&self, alloc: Global) -> Result<KindVersion, OutOfMemory> {
        Ok(KindVersion {
            kind: self.kind.copy(alloc)?,
            version: self.version.copy(alloc)?,
        })
    }
}

impl Copies for ProofFields {
    fn copied(&self, alloc: Global) -> Result<ProofFields, OutOfMemory> {
        Ok(ProofFields {
            log_index: self.log_index,
            root_hash: self.root_hash.copy(alloc)?,
            tree_size: self.tree_size,
            hashes: self.hashes.copy(alloc)?,
            checkpoint: copied_option(alloc, &self.checkpoint)?,
        })
    }
}

/// A value that may be absent, copied.
fn copied_option<T: Copies>(alloc: Global, value: &Option<T>) -> Result<Option<T>, OutOfMemory>
    ensures { IfOk result (λ copy. copy ≡ value.now) }
{
    match value {
        Some(value) => Ok(Some(value.copied(alloc)?)),
        None => Ok(None),
    }
}

impl TransparencyLogEntry {
    /// Returns the same entry in memory of its own. Fails only if out of memory.
    pub fn copy(&self, alloc: Global) -> Result<TransparencyLogEntry, OutOfMemory>
        ensures { IfOk result (λ copied. copied ≡ self.now) }
    {
        // What has most parts is copied last: a failing copy drops those before it.
        let canonicalized_body = self.canonicalized_body.copy(alloc)?;
        let log_id = copied_option(alloc, &self.log_id)?;
        let inclusion_promise = copied_option(alloc, &self.inclusion_promise)?;
        let kind_version = copied_option(alloc, &self.kind_version)?;
        let inclusion_proof = copied_option(alloc, &self.inclusion_proof)?;
        Ok(TransparencyLogEntry {
            log_index: self.log_index,
            log_id,
            kind_version,
            integrated_time: self.integrated_time,
            inclusion_promise,
            inclusion_proof,
            canonicalized_body,
        })
    }
}
