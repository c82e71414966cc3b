//! What every crate of this project depends on: bytes, texts and lists that own their memory, the errors, and the
//! traits of the outside.
//!
//! The layer above uses five facts. An `OwnedList` is the list of what was pushed, and a push that fails changes
//! nothing. A map from texts is the list of its entries in byte order, each text once. A text is base64 if and only if
//! it is the one encoding of its bytes. A fault of a source or a sink comes only where its count of faults rose. A
//! signature check is a predicate of the bytes that it is given.
#![tactic(auto)]

mod base64_coding;
mod by_text;
mod by_text_entries;
mod bytes;
mod checker;
mod collision;
mod copy_map;
mod copy_map_entries;
mod entries;
mod equality;
mod error;
mod fault;
mod hash;
mod key_list;
pub mod laws;
mod memory;
mod memory_sink;
mod memory_source;
mod merkle_error;
mod owned;
mod owned_list;
mod part_order;
mod rank;
mod row_order;
mod scheme;
mod steps;
mod stream;
mod text;
mod unexpected;

pub use by_text::ByText;
pub use by_text_entries::ByTextEntries;
pub use bytes::Bytes;
pub use checker::{AcceptedRow, Operation, SignatureChecker, TableChecker};
pub use collision::Collision;
pub use copy_map::{CopyMap, KeyMap, TextMap};
pub use copy_map_entries::CopyMapEntries;
pub use entries::Entries;
pub use error::{Result, SigstoreError};
pub use fault::{CheckpointFault, DerError, PkiFault, PoolError, TokenFault, TrustPart};
pub use hash::sha256;
pub use key_list::KeyList;
pub use memory::OutOfMemory;
pub use memory_sink::MemorySink;
pub use memory_source::MemorySource;
pub use merkle_error::{MerkleProofError, RootHex};
pub use owned::Owned;
pub use owned_list::{Hashes, Numbers, OwnedList};
pub use part_order::RowPart;
pub use rank::{rank_from, shared};
pub use scheme::{DEFAULT_KEY_SIZE, SigningScheme, UnknownScheme, VerifyScheme};
pub use steps::Steps;
pub use stream::{Failed, Sink, Source};
pub use text::Text;
pub use unexpected::UnexpectedKind;
