//! Two byte strings of equal SHA-256, from audited heads and watched entries that are not those of the list.
ghost use Rattle.std.specs.Prelude.{◌≡◌, ◌↔◌, IsNone, IsTrue, IfOk, IfSome};
ghost use Rattle.std.specs.List.{AllByRecursion};
ghost use Rattle.sig_audit.specs.Audited.{chain_of, AreListed, IsListed, IsWatched};
ghost use Rattle.sig_audit.specs.Chained.{AreChained};
ghost use Rattle.sig_audit.specs.Fronts.{IsOfFront, EndsInList, fronts_of};
ghost use Rattle.sig_base.specs.Collision.{IsCollision};
ghost use Rattle.sig_merkle.specs.HashedText.{AreHashedTexts};

use crate::chain::{Chain, ChainHead};
use crate::head_collision::{collision_beside, roots_beside};
use crate::heads::{AuditHead, Heads, Watch, WatchList};
use sig_base::{Collision, Entries, OutOfMemory};
use sig_merkle::inclusion_collision_in;
use std::alloc::Global;

/// Returns two different byte strings of equal SHA-256 that the proofs of the heads or of the watches exhibit, if the
/// hash of a head is not the root of the list's first entries, whose number is its size, or a watched entry is not the
/// list's at its index; `None` if and only if all are. The last head has the size and the root of the list. Fails only
/// if out of memory.
#[tactic(auto, using(crate::proofs::Chains::sizes_within))]
pub fn audit_collision(
    alloc: Global,
    heads: &Heads,
    watched: &WatchList,
    entries: &Entries,
) -> Result<Option<Collision>, OutOfMemory>
    requires chained { AreChained (chain_of heads.now) }
    requires included { AllByRecursion (IsWatched (chain_of heads.now)) watched.now }
    requires latest { EndsInList entries.now (chain_of heads.now) }
    ensures none { IfOk result (λ found. IsNone found ↔ AreListed entries.now (chain_of heads.now) watched.now) }
    ensures some { IfOk result (λ found. IfSome found (λ c. IsCollision c.left c.right)) }
    ensures texts { IfOk result (λ found. IfSome found (λ c. AreHashedTexts c.left c.right)) }
{
    let chain = chain_of(alloc, heads.as_slice())?;
    let roots = roots_beside(alloc, chain.as_slice(), entries)?;
    log_collision(
        alloc,
        chain.as_slice(),
        roots.as_slice(),
        watched.as_slice(),
        entries,
    )
}

/// Returns what the heads say of their trees, with copies of their proofs, as [`chain_collision`] takes it. Fails only
/// if out of memory.
///
/// [`chain_collision`]: crate::chain_collision
#[tactic(auto, using(std::proofs::lemmas::List::map_more))]
pub fn chain_of(alloc: Global, heads: &[AuditHead]) -> Result<Chain, OutOfMemory>
    ensures { IfOk result (λ chain. chain ≡ chain_of heads.now) }
{
    let mut chain = Chain::new(alloc);
    for head in heads {
        let note = &head.checkpoint.note;
        chain.push(ChainHead {
            size: note.size,
            hash: note.hash,
            hashes: head.hashes.copy(alloc)?,
        })?;
    }
    Ok(chain)
}

/// The same for these heads, beside the roots of the list's first entries.
#[tactic(auto, using(crate::proofs::Listings::finds_log))]
pub(crate) fn log_collision(
    alloc: Global,
    heads: &[ChainHead],
    roots: &[[u8; 32]],
    watched: &[Watch],
    entries: &Entries,
) -> Result<Option<Collision>, OutOfMemory>
    requires chained { AreChained heads.now }
    requires included { AllByRecursion (IsWatched heads.now) watched.now }
    requires latest { EndsInList entries.now heads.now }
    requires roots { roots.now ≡ fronts_of entries.now heads.now }
    ensures none { IfOk result (λ found. IsNone found ↔ AreListed entries.now heads.now watched.now) }
    ensures some { IfOk result (λ found. IfSome found (λ c. IsCollision c.left c.right)) }
    ensures texts { IfOk result (λ found. IfSome found (λ c. AreHashedTexts c.left c.right)) }
{
    match collision_beside(alloc, heads, roots, entries.as_slice())? {
        Some(found) => Ok(Some(found)),
        None => watched_collision(alloc, heads, watched, entries),
    }
}

/// The same for only the watches, under heads of the list's first entries.
fn watched_collision(
    alloc: Global,
    heads: &[ChainHead],
    watched: &[Watch],
    entries: &Entries,
) -> Result<Option<Collision>, OutOfMemory>
    requires fronts { AllByRecursion (IsOfFront entries.now) heads.now }
    requires included { AllByRecursion (IsWatched heads.now) watched.now }
    ensures none { IfOk result (λ found. IsNone found ↔ AllByRecursion (IsListed entries.now) watched.now) }
    ensures some { IfOk result (λ found. IfSome found (λ c. IsCollision c.left c.right)) }
    ensures texts { IfOk result (λ found. IfSome found (λ c. AreHashedTexts c.left c.right)) }
{
    'watches: for watch in watched {
        if let Some(found) = watch_collision(alloc, heads, watch, entries)? {
            return Ok(Some(found));
        }
    }
    Ok(None)
}

/// The same for one watch.
fn watch_collision(
    alloc: Global,
    heads: &[ChainHead],
    watch: &Watch,
    entries: &Entries,
) -> Result<Option<Collision>, OutOfMemory>
    requires fronts { AllByRecursion (IsOfFront entries.now) heads.now }
    requires included { IsWatched heads.now watch.now }
    ensures none { IfOk result (λ found. IsNone found ↔ IsListed entries.now watch.now) }
    ensures some { IfOk result (λ found. IfSome found (λ c. IsCollision c.left c.right)) }
    ensures texts { IfOk result (λ found. IfSome found (λ c. AreHashedTexts c.left c.right)) }
{
    if is_listed(entries, watch) {
        return Ok(None);
    }
    let Some(head) = heads.get(watch.head) else {
        unreachable!()
    };
    let found = inclusion_collision_in(
        alloc,
        watch.entry.as_slice(),
        watch.index,
        watch.hashes.as_slice(),
        &entries.as_slice()[..head.size as usize],
    )?;
    Ok(Some(found))
}

/// Whether the list has the watched entry at its index.
fn is_listed(entries: &Entries, watch: &Watch) -> bool
    ensures { IsTrue result ↔ IsListed entries.now watch.now }
{
    match entries.get(watch.index as usize) {
        Some(listed) => listed == watch.entry.as_slice(),
        None => false,
    }
}
