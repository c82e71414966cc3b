//! The result for two texts that are hashed beside each other, on the way up to two roots.
ghost use Rattle.std.specs.Prelude.{◌≡◌, ◌∷◌, ◌++◌, IfOk};
ghost use Rattle.sig_merkle.specs.HashedText.{AreHashedTexts};
ghost use Rattle.sig_merkle.specs.Meeting.{TextsMeet, LeavesMeet, NodesMeet};

use crate::hashing::{LEAF_HASH_PREFIX, NODE_HASH_PREFIX};
use sig_base::{Bytes, Collision, OutOfMemory, sha256 as hash};
use std::alloc::Global;

/// The result for two texts.
#[derive(Drop)]
pub(crate) enum Meeting {
    /// Their hashes, which are equal only if the texts are.
    Hashed { one: [u8; 32], other: [u8; 32] },
    /// Two texts that were hashed on the way differ and have the same hash.
    Collided(Collision),
}

/// The hashes of a node's children.
#[derive(Clone, Copy)]
pub(crate) struct Children {
    pub(crate) left: [u8; 32],
    pub(crate) right: [u8; 32],
}

/// Hashes two leaves. Fails only if out of memory.
pub(crate) fn meet_leaves(alloc: Global, one: &[u8], other: &[u8]) -> Result<Meeting, OutOfMemory>
    ensures { IfOk result (LeavesMeet one.now other.now) }
{
    Ok(hash_both(
        Bytes::join(alloc, LEAF_HASH_PREFIX, one, &[])?,
        Bytes::join(alloc, LEAF_HASH_PREFIX, other, &[])?,
    ))
}

/// Hashes two nodes. Fails only if out of memory.
pub(crate) fn meet_nodes(
    alloc: Global,
    one: Children,
    other: Children,
) -> Result<Meeting, OutOfMemory>
    ensures { IfOk result (NodesMeet one.left one.right other.left other.right) }
{
    Ok(hash_both(node_text(alloc, one)?, node_text(alloc, other)?))
}

/// Returns the bytes that the hash of a node is over: 0x01, and the hashes of its children. Fails only if out of
/// memory.
fn node_text(alloc: Global, children: Children) -> Result<Bytes, OutOfMemory>
    ensures { IfOk result (λ text. text ≡ 1 ∷ children.left ++ children.right) }
{
    Bytes::join(
        alloc,
        NODE_HASH_PREFIX,
        children.left.as_slice(),
        children.right.as_slice(),
    )
}

/// Hashes two texts, both of leaves or both of nodes.
fn hash_both(one: Bytes, other: Bytes) -> Meeting
    requires { AreHashedTexts one other }
    ensures { TextsMeet one other result }
{
    let one_hash = hash(one.as_slice());
    let other_hash = hash(other.as_slice());
    if one_hash == other_hash && one.as_slice() != other.as_slice() {
        Meeting::Collided(Collision {
            left: one,
            right: other,
        })
    } else {
        Meeting::Hashed {
            one: one_hash,
            other: other_hash,
        }
    }
}
