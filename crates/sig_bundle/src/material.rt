//! `VerificationMaterial`: what a bundle brings to check its signature with: certificates, and entries of transparency
//! logs.

use crate::log_entries::LogEntries;
use sig_base::{Bytes, Entries, Text};

/// Certificates or a hint at a key, and the entries of logs.
#[derive(Drop, PartialEq, Eq)]
pub struct VerificationMaterial {
    /// What the signer is claimed to be.
    pub content: Option<MaterialContent>,
    /// What transparency logs say of the signature.
    pub tlog_entries: LogEntries,
}

/// What the signer of a bundle is claimed to be.
#[derive(Drop, PartialEq, Eq)]
pub enum MaterialContent {
    /// The signing certificate (DER).
    Certificate(Bytes),
    /// The signing certificate and then those above it (DER).
    X509CertificateChain(Entries),
    /// A hint at a key that the bundle does not hold. It is not read.
    PublicKey,
}

/// An entry of a transparency log, with the log's promise and proof. None of them is checked here.
#[derive(Drop, PartialEq, Eq)]
pub struct TransparencyLogEntry {
    /// The entry's index in the whole log, over all shards.
    pub log_index: i64,
    /// The SHA-256 of the log's key.
    pub log_id: Option<Bytes>,
    /// What kind of entry the body is.
    pub kind_version: Option<KindVersion>,
    /// When the log took the entry, in seconds since 1970.
    pub integrated_time: i64,
    /// The log's signature over a promise to include the entry.
    pub inclusion_promise: Option<Bytes>,
    /// The proof that the entry is in the log's tree.
    pub inclusion_proof: Option<ProofFields>,
    /// The entry itself, whose hash is the leaf of the log's tree.
    pub canonicalized_body: Bytes,
}

/// The kind of a log entry.
#[derive(Drop, PartialEq, Eq)]
pub struct KindVersion {
    /// The name of the kind.
    pub kind: Text,
    /// The version of the kind's form, such as `0.0.1`.
    pub version: Text,
}

/// The members of an inclusion proof as they are: lengths and sizes are not checked before `to_proof`.
#[derive(Drop, PartialEq, Eq)]
pub struct ProofFields {
    /// The index of the leaf in the tree, counted from 0.
    pub log_index: i64,
    /// The root hash of the tree.
    pub root_hash: Bytes,
    /// How many leaves the tree has.
    pub tree_size: i64,
    /// The hashes of the path, from the leaf to the root.
    pub hashes: Entries,
    /// The text of a signed checkpoint.
    pub checkpoint: Option<Text>,
}
