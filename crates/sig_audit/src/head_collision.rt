//! Two byte strings of equal SHA-256, from a chain of heads, if one is not that of the list's first entries.
ghost use Rattle.std.specs.Prelude.{◌≡◌, ◌↔◌, length, take, IsNone, IfOk, IfSome};
ghost use Rattle.std.specs.List.{AllByRecursion};
ghost use Rattle.sig_audit.specs.Chained.{AreChained, HasGrownFrom};
ghost use Rattle.sig_audit.specs.Fronts.{IsOfFront, IsWithin, EndsInList, fronts_of, sizes_in};
ghost use Rattle.sig_base.specs.Collision.{IsCollision};
ghost use Rattle.sig_merkle.specs.HashedText.{AreHashedTexts};
ghost use Rattle.sig_merkle.specs.Root.{root};

use crate::chain::{Chain, ChainHead};
use sig_base::{Bytes, Collision, Entries, OutOfMemory};
use sig_merkle::consistency_collision_in;
use sig_merkle::uncounted::roots_of_fronts;
use std::alloc::Global;

/// Returns two different byte strings of equal SHA-256 that the heads and their proofs exhibit, if the hash of one of
/// them is not the root of the list's first entries, whose number is its size; `None` if and only if each is. The last
/// head has the size and the root of the list. Fails only if out of memory.
///
/// Going back from the last head, the first whose hash is another is refuted by the proof of the head after it (RFC
/// 6962 section 2.1.2).
#[tactic(auto, using(crate::proofs::Chains::sizes_within))]
pub fn chain_collision(
    alloc: Global,
    chain: &Chain,
    entries: &Entries,
) -> Result<Option<Collision>, OutOfMemory>
    requires chained { AreChained chain.now }
    requires latest { EndsInList entries.now chain.now }
    ensures none { IfOk result (λ found. IsNone found ↔ AllByRecursion (IsOfFront entries.now) chain.now) }
    ensures some { IfOk result (λ found. IfSome found (λ c. IsCollision c.left c.right)) }
    ensures texts { IfOk result (λ found. IfSome found (λ c. AreHashedTexts c.left c.right)) }
{
    let roots = roots_beside(alloc, chain.as_slice(), entries)?;
    collision_beside(
        alloc,
        chain.as_slice(),
        roots.as_slice(),
        entries.as_slice(),
    )
}

/// Returns, for each head, the root of the list's first entries, whose number is its size: the tree of the list is
/// hashed once. Fails only if out of memory.
#[tactic(auto, using(crate::proofs::Chains::sizes_ascend))]
pub(crate) fn roots_beside(
    alloc: Global,
    heads: &[ChainHead],
    entries: &Entries,
) -> Result<Vec<[u8; 32]>, OutOfMemory>
    requires chained { AreChained heads.now }
    requires within { AllByRecursion (IsWithin (length entries.now)) heads.now }
    ensures { IfOk result (λ roots. roots.items ≡ fronts_of entries.now heads.now) }
{
    let sizes = sizes_of(alloc, heads)?;
    roots_of_fronts(alloc, entries, sizes.as_slice())
}

#[tactic(auto, using(std::proofs::lemmas::List::map_more))]
fn sizes_of(alloc: Global, heads: &[ChainHead]) -> Result<Vec<usize>, OutOfMemory>
    ensures { IfOk result (λ sizes. sizes.items ≡ sizes_in heads.now) }
{
    let mut sizes = Vec::with_capacity(alloc, heads.len())?;
    for head in heads {
        sizes.push(head.size as usize)?;
    }
    Ok(sizes)
}

/// The same beside the roots of the list's first entries.
pub(crate) fn collision_beside(
    alloc: Global,
    heads: &[ChainHead],
    roots: &[[u8; 32]],
    entries: &[Bytes],
) -> Result<Option<Collision>, OutOfMemory>
    requires chained { AreChained heads.now }
    requires latest { EndsInList entries.now heads.now }
    requires roots { roots.now ≡ fronts_of entries.now heads.now }
    ensures none { IfOk result (λ found. IsNone found ↔ AllByRecursion (IsOfFront entries.now) heads.now) }
    ensures some { IfOk result (λ found. IfSome found (λ c. IsCollision c.left c.right)) }
    ensures texts { IfOk result (λ found. IfSome found (λ c. AreHashedTexts c.left c.right)) }
{
    let mut place = heads.len() - 1;
    'heads: while place > 0 {
        let head = &heads[place];
        let older = &heads[place - 1];
        if let Some(found) = pair_collision(alloc, older, &roots[place - 1], head, entries)? {
            return Ok(Some(found));
        }
        place -= 1;
    }
    Ok(None)
}

/// The same for a head, where this is the root of the list's first entries, by the proof of the head after it, which
/// is of the list's first entries.
fn pair_collision(
    alloc: Global,
    older: &ChainHead,
    front_root: &[u8; 32],
    head: &ChainHead,
    entries: &[Bytes],
) -> Result<Option<Collision>, OutOfMemory>
    requires grown { HasGrownFrom older.now head.now }
    requires front { IsOfFront entries.now head.now }
    requires root { front_root.now ≡ root (take older.now.size entries.now) }
    ensures none { IfOk result (λ found. IsNone found ↔ IsOfFront entries.now older.now) }
    ensures some { IfOk result (λ found. IfSome found (λ c. IsCollision c.left c.right)) }
    ensures texts { IfOk result (λ found. IfSome found (λ c. AreHashedTexts c.left c.right)) }
{
    if older.hash == *front_root {
        return Ok(None);
    }
    consistency_collision_in(
        alloc,
        older.size,
        &older.hash,
        head.hashes.as_slice(),
        &entries[..head.size as usize],
    )
}
