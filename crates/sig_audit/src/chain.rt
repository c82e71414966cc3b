//! A chain of tree heads: what a log's tree was, from the oldest head to the latest.

use sig_base::{Hashes, OwnedList};

/// A tree head, and the proof from the head before it.
#[derive(Drop, PartialEq, Eq)]
pub struct ChainHead {
    /// How many leaves the tree has.
    pub size: u64,
    /// The root hash of the tree (RFC 6962 section 2.1).
    pub hash: [u8; 32],
    /// The consistency proof from the head before this one (RFC 6962 section 2.1.2). That of the first head is not
    /// checked.
    pub hashes: Hashes,
}

/// Tree heads of one log, the oldest first.
pub type Chain = OwnedList<ChainHead>;
