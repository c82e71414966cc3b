//! Two byte strings of equal SHA-256, from the proof of an entry that the list does not have at the index.
ghost use Rattle.std.specs.Prelude.{◌≡◌, ◌≢◌, ◌<◌, ◌↔◌, length, Some, IsNone, IsTrue, IfOk, IfSome, slice_get};
ghost use Rattle.sig_base.specs.Collision.{IsCollision};
ghost use Rattle.sig_merkle.specs.HashedText.{AreHashedTexts};
ghost use Rattle.sig_merkle.specs.Inclusion.{IsIncluded};
ghost use Rattle.sig_merkle.specs.Meeting.{EntryMeets};
ghost use Rattle.sig_merkle.specs.Path.{path_len};
ghost use Rattle.sig_merkle.specs.Root.{leaf_of, root};

use crate::meeting::{Children, Meeting, meet_leaves, meet_nodes};
use crate::tree::{halves, root_in};
use sig_base::{Bytes, Collision, Entries, OutOfMemory};
use std::alloc::Global;

/// Returns two different byte strings of equal SHA-256 that the inclusion proof of an entry exhibits, where the list of
/// that size and root has another entry at the index; `None` if and only if it has this entry there. Fails only if out
/// of memory.
///
/// The proof and the list lead to one root from different leaves. From the leaf upward, the first two nodes (RFC 6962
/// section 2.1) that differ in what they hash and not in their hash are the two byte strings: they begin with the byte
/// 0x00 of a leaf or 0x01 of a node.
pub fn inclusion_collision(
    alloc: Global,
    entry: &[u8],
    index: u64,
    proof_hashes: &[[u8; 32]],
    entries: &Entries,
) -> Result<Option<Collision>, OutOfMemory>
    requires { IsIncluded index (leaf_of entry.now) (length entries.now) proof_hashes.now (root entries.now) }
    ensures none { IfOk result (λ found. IsNone found ↔ (slice_get entries.now index ≡ Some entry.now)) }
    ensures some { IfOk result (λ found. IfSome found (λ c. IsCollision c.left c.right)) }
    ensures texts { IfOk result (λ found. IfSome found (λ c. AreHashedTexts c.left c.right)) }
{
    if is_at(entries, index as usize, entry) {
        return Ok(None);
    }
    let found = inclusion_collision_in(alloc, entry, index, proof_hashes, entries.as_slice())?;
    Ok(Some(found))
}

/// Returns two different byte strings of equal SHA-256 that the inclusion proof of an entry exhibits, which is not the
/// one at the index of these entries. They may be the first of a list. Fails only if out of memory.
#[tactic(auto, using(crate::proofs::EntryMeetings::finds_entry))]
pub fn inclusion_collision_in(
    alloc: Global,
    entry: &[u8],
    index: u64,
    proof_hashes: &[[u8; 32]],
    entries: &[Bytes],
) -> Result<Collision, OutOfMemory>
    requires accepted { IsIncluded index (leaf_of entry.now) (length entries.now) proof_hashes.now
        (root entries.now) }
    requires other { slice_get entries.now index ≢ Some entry.now }
    ensures collide { IfOk result (λ c. IsCollision c.left c.right) }
    ensures texts { IfOk result (λ c. AreHashedTexts c.left c.right) }
{
    match meet_entry(alloc, entry, index as usize, proof_hashes, entries)? {
        Meeting::Collided(found) => Ok(found),
        Meeting::Hashed { .. } => unreachable!(),
    }
}

/// Whether this is the entry at the index.
fn is_at(entries: &Entries, index: usize, entry: &[u8]) -> bool
    ensures { IsTrue result ↔ (slice_get entries.now index ≡ Some entry.now) }
{
    match entries.get(index) {
        Some(listed) => listed == entry,
        None => false,
    }
}

/// Hashes the path of the entry and the tree of the entries beside each other to their roots, or to the first two texts
/// that collide.
fn meet_entry(
    alloc: Global,
    entry: &[u8],
    index: usize,
    proof_hashes: &[[u8; 32]],
    entries: &[Bytes],
) -> Result<Meeting, OutOfMemory>
    requires index { index < length entries.now }
    requires count { length proof_hashes.now ≡ path_len index (length entries.now) }
    ensures { IfOk result (EntryMeets index entry.now proof_hashes.now entries.now) }
{
    let Some((last, rest)) = proof_hashes.split_last() else {
        return meet_leaves(alloc, entry, entries[index].as_slice());
    };
    let (left, right) = halves(entries);
    if index < left.len() {
        match meet_entry(alloc, entry, index, rest, left)? {
            Meeting::Hashed { one, other } => meet_nodes(
                alloc,
                Children {
                    left: one,
                    right: *last,
                },
                Children {
                    left: other,
                    right: root_in(right),
                },
            ),
            Meeting::Collided(found) => Ok(Meeting::Collided(found)),
        }
    } else {
        match meet_entry(alloc, entry, index - left.len(), rest, right)? {
            Meeting::Hashed { one, other } => meet_nodes(
                alloc,
                Children {
                    left: *last,
                    right: one,
                },
                Children {
                    left: root_in(left),
                    right: other,
                },
            ),
            Meeting::Collided(found) => Ok(Meeting::Collided(found)),
        }
    }
}
