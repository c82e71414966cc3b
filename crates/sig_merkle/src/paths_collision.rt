//! Two byte strings of equal SHA-256, from the proofs of two entries at one index of a tree.
ghost use Rattle.std.specs.Prelude.{◌≡◌, ◌<◌, ◌↔◌, length, IsNone, IfOk, IfSome};
ghost use Rattle.sig_base.specs.Collision.{IsCollision};
ghost use Rattle.sig_merkle.specs.HashedText.{AreHashedTexts};
ghost use Rattle.sig_merkle.specs.Inclusion.{AreIncluded};
ghost use Rattle.sig_merkle.specs.Meeting.{PathsMeet};
ghost use Rattle.sig_merkle.specs.Path.{path_len};

use crate::meeting::{Children, Meeting, meet_leaves, meet_nodes};
use crate::split::split_point;
use sig_base::{Collision, OutOfMemory};
use std::alloc::Global;

/// Returns two different byte strings of equal SHA-256 that the inclusion proofs of two entries exhibit, which are
/// accepted at one index of a tree of one size and root; `None` if and only if the entries are equal. Fails only if out
/// of memory.
///
/// The proofs lead to one root from different leaves (RFC 6962 section 2.1.1). From the leaf upward, the first two nodes
/// that differ in what they hash and not in their hash are the two byte strings: they begin with the byte 0x00 of a leaf
/// or 0x01 of a node.
#[tactic(auto, using(crate::proofs::PathMeetings::finds_path))]
pub fn proof_collision(
    alloc: Global,
    index: u64,
    tree_size: u64,
    left: &[u8],
    left_hashes: &[[u8; 32]],
    right: &[u8],
    right_hashes: &[[u8; 32]],
) -> Result<Option<Collision>, OutOfMemory>
    requires { AreIncluded index tree_size left.now left_hashes.now right.now right_hashes.now }
    ensures none { IfOk result (λ found. IsNone found ↔ (left.now ≡ right.now)) }
    ensures some { IfOk result (λ found. IfSome found (λ c. IsCollision c.left c.right)) }
    ensures texts { IfOk result (λ found. IfSome found (λ c. AreHashedTexts c.left c.right)) }
{
    if left == right {
        return Ok(None);
    }
    match meet_paths(
        alloc,
        index,
        tree_size,
        left,
        left_hashes,
        right,
        right_hashes,
    )? {
        Meeting::Collided(found) => Ok(Some(found)),
        Meeting::Hashed { .. } => unreachable!(),
    }
}

/// Hashes the paths of both entries beside each other to their roots, or to the first two texts that collide.
fn meet_paths(
    alloc: Global,
    index: u64,
    size: u64,
    left: &[u8],
    left_hashes: &[[u8; 32]],
    right: &[u8],
    right_hashes: &[[u8; 32]],
) -> Result<Meeting, OutOfMemory>
    requires index { index < size }
    requires left_count { length left_hashes.now ≡ path_len index size }
    requires right_count { length right_hashes.now ≡ path_len index size }
    ensures { IfOk result (PathsMeet index size left.now left_hashes.now right.now right_hashes.now) }
{
    let Some((left_last, left_rest)) = left_hashes.split_last() else {
        return meet_leaves(alloc, left, right);
    };
    let Some((right_last, right_rest)) = right_hashes.split_last() else {
        unreachable!()
    };
    let half = split_point(size);
    if index < half {
        match meet_paths(alloc, index, half, left, left_rest, right, right_rest)? {
            Meeting::Hashed { one, other } => meet_nodes(
                alloc,
                Children {
                    left: one,
                    right: *left_last,
                },
                Children {
                    left: other,
                    right: *right_last,
                },
            ),
            Meeting::Collided(found) => Ok(Meeting::Collided(found)),
        }
    } else {
        match meet_paths(
            alloc,
            index - half,
            size - half,
            left,
            left_rest,
            right,
            right_rest,
        )? {
            Meeting::Hashed { one, other } => meet_nodes(
                alloc,
                Children {
                    left: *left_last,
                    right: one,
                },
                Children {
                    left: *right_last,
                    right: other,
                },
            ),
            Meeting::Collided(found) => Ok(Meeting::Collided(found)),
        }
    }
}
