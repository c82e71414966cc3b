//! The hashes of a tree (RFC 6962 section 2.1).
ghost use Rattle.std.specs.Prelude.{◌≡◌, ◌+◌, []};
ghost use Rattle.sig_base.specs.Sha256.{sha256};
ghost use Rattle.sig_merkle.specs.Root.{leaf_of, node_of};

use sha2::{Digest, Sha256};
use sig_base::Steps;
use std::sync::ledger::Ledger;

/// The byte before a leaf's entry in the hash of the leaf (RFC 6962 section 2.1).
pub(crate) const LEAF_HASH_PREFIX: u8 = 0x00;

/// The byte before the children's hashes in the hash of a node, so that no node is hashed as a leaf (RFC 6962 section
/// 2.1).
pub(crate) const NODE_HASH_PREFIX: u8 = 0x01;

/// Returns the root of a tree without entries: SHA-256 of nothing (RFC 6962 section 2.1).
pub fn empty_root() -> [u8; 32]
    ensures { result ≡ sha256 [] }
{
    Sha256::new().finalize()
}

/// Returns the hash of a leaf: SHA-256 of 0x00 and the entry's bytes (RFC 6962 section 2.1).
pub fn hash_leaf(leaf: &[u8]) -> [u8; 32]
    ensures { result ≡ leaf_of leaf.now }
{
    let mut hasher = Sha256::new();
    hasher.update([LEAF_HASH_PREFIX].as_slice());
    hasher.update(leaf);
    hasher.finalize()
}

/// Returns the hash of a node: SHA-256 of 0x01, the left child's hash and the right child's (RFC 6962 section 2.1).
pub fn hash_children(left: &[u8], right: &[u8]) -> [u8; 32]
    ensures { result ≡ node_of left.now right.now }
{
    let mut hasher = Sha256::new();
    hasher.update([NODE_HASH_PREFIX].as_slice());
    hasher.update(left);
    hasher.update(right);
    hasher.finalize()
}

/// Returns the hash of a node of a path, which is one step.
pub(crate) fn hash_step<L: Ledger>(
    left: &[u8; 32],
    right: &[u8; 32],
    steps: &mut Steps<L>,
) -> [u8; 32]
    ensures value { result ≡ node_of left.now right.now }
    ensures steps { steps.new ≡ steps.old + 1 }
{
    steps.tick();
    hash_children(left.as_slice(), right.as_slice())
}
