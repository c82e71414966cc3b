//! What is audited: signed checkpoints of one log, the oldest first, and entries watched under them.

use sig_base::{Bytes, Hashes, OwnedList};
use sig_rekor::SignedCheckpoint;

/// A signed checkpoint, and the proof from the one before it.
#[derive(Drop, PartialEq, Eq)]
pub struct AuditHead {
    /// What the log said of its tree, and the signatures over it.
    pub checkpoint: SignedCheckpoint,
    /// The consistency proof from the head before this one (RFC 6962 section 2.1.2). That of the first head is not
    /// checked.
    pub hashes: Hashes,
}

/// Signed checkpoints of one log, the oldest first.
pub type Heads = OwnedList<AuditHead>;

/// An entry that a head's tree is to have.
#[derive(Drop, PartialEq, Eq)]
pub struct Watch {
    /// The index of the head.
    pub head: usize,
    /// The index of the entry in the tree.
    pub index: u64,
    /// The audit path of the entry (RFC 6962 section 2.1.1).
    pub hashes: Hashes,
    /// The entry itself, whose hash is the leaf of the log's tree.
    pub entry: Bytes,
}

/// Watched entries in order.
pub type WatchList = OwnedList<Watch>;
