//! Models of the transparency log Rekor's API: log entries, tree heads, consistency proofs, and entries to propose.
//!
//! A log entry, long texts cut short:
//!
//! ```text
//! {"body":"eyJhcGlWZXJzaW9uIjoiMC4wLjEiLCJraW5kIjoiaGFzaGVkcmVrb3JkIiwic3BlYyI6e319","integratedTime":1702446656,
//!  "logID":"c0d23d6ad406973f9559f3ba2d1ca01f84147d8ffc5b8445c224f98b9591801d","logIndex":1688,
//!  "verification":{"signedEntryTimestamp":"AA==","inclusionProof":{"hashes":["810320ec"],"logIndex":1227,
//!    "rootHash":"effa4fa4","treeSize":14358,"checkpoint":"rekor.sigstage.dev - 108574341321668964\n14358\n.."}}}
//! ```
//!
//! The layer above uses four facts. A text is read as the log entry that its members are, if and only if they fit the
//! table of the format. A log entry's check of inclusion fails with the first condition that does not hold: a proof,
//! its texts, a canonical body, and then those of [`InclusionProof::verify`]. What the API says of a tree head and of
//! a consistency proof is taken for them if and only if each hash is 64 hexadecimal digits, and else the first that is
//! not is the error. The JSON of a body and of a proposed entry is the object of its kind, version and spec.
//!
//! [`InclusionProof::verify`]: sig_rekor::InclusionProof::verify
#![tactic(auto)]

mod body;
mod consistency_proof;
mod entry_kind;
mod entry_object;
mod hashedrekord;
pub mod laws;
mod log_entry;
mod log_info;
mod proposed_entry;
mod public_key;
mod read_body;
mod read_entry;
mod verify_entry;
mod verify_head;

pub use body::{Body, BodyContent};
pub use consistency_proof::{ConsistencyProof, RekorConsistencyProof};
pub use entry_kind::EntryKind;
pub use hashedrekord::{AlgorithmKind, Data, Hash, Hashedrekord, Signature, Spec};
pub use log_entry::{Attestation, LogEntry, Verification};
pub use log_info::{InactiveShardLogInfo, LogInfo, RekorLogInfo, Shards};
pub use proposed_entry::ProposedEntry;
pub use public_key::PublicKey;
