//! Two byte strings of equal SHA-256, from a consistency proof whose older tree is not that of the list's first entries.
ghost use Rattle.std.specs.Prelude.{◌≡◌, ◌<◌, ◌≤◌, ◌↔◌, Bool, length, take, IsNone, IfOk, IfSome};
ghost use Rattle.sig_base.specs.Collision.{IsCollision};
ghost use Rattle.sig_merkle.specs.Consistency.{roots_len};
ghost use Rattle.sig_merkle.specs.ConsistencyAnswer.{IsConsistent, HasGrown};
ghost use Rattle.sig_merkle.specs.HashedText.{AreHashedTexts};
ghost use Rattle.sig_merkle.specs.Meeting.{GrowthMeets};
ghost use Rattle.sig_merkle.specs.Root.{root};

use crate::meeting::{Children, Meeting, meet_nodes};
use crate::tree::{halves, root_in};
use sig_base::{Bytes, Collision, Entries, OutOfMemory};
use std::alloc::Global;

/// Returns two different byte strings of equal SHA-256 that a consistency proof exhibits, which is accepted for the size
/// and root of the list, where the old root is not that of the list's first `old_size` entries; `None` if and only if it
/// is. Fails only if out of memory.
///
/// Both trees are built from the hashes of the proof, and the list's from its entries (RFC 6962 section 2.1.2). From the
/// last node that the old tree fills upward, the first two nodes of the new tree that differ in what they hash and not
/// in their hash are the two byte strings: they begin with the byte 0x01.
pub fn consistency_collision(
    alloc: Global,
    old_size: u64,
    old_root: &[u8; 32],
    proof_hashes: &[[u8; 32]],
    entries: &Entries,
) -> Result<Option<Collision>, OutOfMemory>
    requires { IsConsistent old_size (length entries.now) proof_hashes.now old_root.now (root entries.now) }
    ensures none { IfOk result (λ found. IsNone found ↔ (old_root.now ≡ root (take old_size entries.now))) }
    ensures some { IfOk result (λ found. IfSome found (λ c. IsCollision c.left c.right)) }
    ensures texts { IfOk result (λ found. IfSome found (λ c. AreHashedTexts c.left c.right)) }
{
    consistency_collision_in(alloc, old_size, old_root, proof_hashes, entries.as_slice())
}

/// The same for the tree of these entries, which may be the first of a list.
#[tactic(auto, using(crate::proofs::GrowthMeetings::finds_growth))]
pub fn consistency_collision_in(
    alloc: Global,
    old_size: u64,
    old_root: &[u8; 32],
    proof_hashes: &[[u8; 32]],
    entries: &[Bytes],
) -> Result<Option<Collision>, OutOfMemory>
    requires { IsConsistent old_size (length entries.now) proof_hashes.now old_root.now (root entries.now) }
    ensures none { IfOk result (λ found. IsNone found ↔ (old_root.now ≡ root (take old_size entries.now))) }
    ensures some { IfOk result (λ found. IfSome found (λ c. IsCollision c.left c.right)) }
    ensures texts { IfOk result (λ found. IfSome found (λ c. AreHashedTexts c.left c.right)) }
{
    let old_size = old_size as usize;
    if root_in(&entries[..old_size]) == *old_root {
        return Ok(None);
    }
    match meet_growth(alloc, old_size, true, old_root, proof_hashes, entries)? {
        Meeting::Collided(found) => Ok(Some(found)),
        Meeting::Hashed { .. } => unreachable!(),
    }
}

/// Hashes what the proof and the entries have of the new tree beside each other to the new roots, or to the first two
/// texts that collide. `known` says that the proof does not repeat the old root.
fn meet_growth(
    alloc: Global,
    old_size: usize,
    known: bool,
    old_root: &[u8; 32],
    proof_hashes: &[[u8; 32]],
    entries: &[Bytes],
) -> Result<Meeting, OutOfMemory>
    requires some { 0 < old_size }
    requires within { old_size ≤ length entries.now }
    requires count { length proof_hashes.now ≡ roots_len old_size (length entries.now) known }
    ensures { IfOk result (GrowthMeets old_size known old_root.now proof_hashes.now entries.now) }
{
    let Some((last, rest)) = proof_hashes.split_last() else {
        return Ok(Meeting::Hashed {
            one: *old_root,
            other: root_in(entries),
        });
    };
    if old_size == entries.len() {
        return Ok(Meeting::Hashed {
            one: *last,
            other: root_in(entries),
        });
    }
    let (left, right) = halves(entries);
    if old_size <= left.len() {
        match meet_growth(alloc, old_size, known, old_root, rest, left)? {
            Meeting::Hashed { one, other } => meet_nodes(
                alloc,
                Children {
                    left: one,
                    right: *last,
                },
                Children {
                    left: other,
                    right: root_in(right),
                },
            ),
            Meeting::Collided(found) => Ok(Meeting::Collided(found)),
        }
    } else {
        match meet_growth(alloc, old_size - left.len(), false, old_root, rest, right)? {
            Meeting::Hashed { one, other } => meet_nodes(
                alloc,
                Children {
                    left: *last,
                    right: one,
                },
                Children {
                    left: root_in(left),
                    right: other,
                },
            ),
            Meeting::Collided(found) => Ok(Meeting::Collided(found)),
        }
    }
}
