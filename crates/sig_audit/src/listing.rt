//! Audited heads and watched entries beside the list of all entries.
ghost use Rattle.std.specs.Prelude.{◌≡◌, ◌↔◌, length, IfOk, IsTrue};
ghost use Rattle.std.specs.List.{AllByRecursion};
ghost use Rattle.sig_audit.specs.Audited.{chain_of, IsWatched};
ghost use Rattle.sig_audit.specs.Chained.{AreChained};
ghost use Rattle.sig_audit.specs.Fronts.{EndsInList, IsLast, fronts_of};
ghost use Rattle.sig_audit.specs.Listing.{IsListing};
ghost use Rattle.sig_merkle.specs.Root.{root};

use crate::chain::ChainHead;
use crate::head_collision::roots_beside;
use crate::heads::{Heads, Watch, WatchList};
use crate::log_collision::{chain_of, log_collision};
use sig_base::{Collision, Entries, OutOfMemory};
use std::alloc::Global;

/// How a list of entries compares with audited heads and watches.
#[derive(Drop)]
pub enum Listing {
    /// It has another size or root than the last head.
    Other,
    /// Each head has the size and the root of the list's first entries, and each watched entry is the list's at its
    /// index.
    Listed,
    /// The list has the size and the root of the last head, not all of the others are the list's, and two different
    /// byte strings have the same SHA-256.
    Collided(Collision),
}

/// Compares audited heads and watches with a list of entries, whose tree is hashed once. Fails only if out of memory.
pub fn compare_list(
    alloc: Global,
    heads: &Heads,
    watched: &WatchList,
    entries: &Entries,
) -> Result<Listing, OutOfMemory>
    requires chained { AreChained (chain_of heads.now) }
    requires included { AllByRecursion (IsWatched (chain_of heads.now)) watched.now }
    ensures { IfOk result (IsListing entries.now (chain_of heads.now) watched.now) }
{
    let chain = chain_of(alloc, heads.as_slice())?;
    let listing = compare_heads(alloc, chain.as_slice(), watched.as_slice(), entries);
    drop(chain);
    listing
}

/// The same for these heads.
#[tactic(auto, using(crate::proofs::Ends::finds_size))]
fn compare_heads(
    alloc: Global,
    heads: &[ChainHead],
    watched: &[Watch],
    entries: &Entries,
) -> Result<Listing, OutOfMemory>
    requires chained { AreChained heads.now }
    requires included { AllByRecursion (IsWatched heads.now) watched.now }
    ensures { IfOk result (IsListing entries.now heads.now watched.now) }
{
    let last = &heads[heads.len() - 1];
    if last.size != entries.len() as u64 {
        return Ok(Listing::Other);
    }
    let roots = roots_beside(alloc, heads, entries)?;
    compare_roots(alloc, heads, last, roots.as_slice(), watched, entries)
}

/// The same beside the roots of the list's first entries. The last head has the list's size.
#[tactic(auto, using(crate::proofs::Ends::finds_place))]
fn compare_roots(
    alloc: Global,
    heads: &[ChainHead],
    last: &ChainHead,
    roots: &[[u8; 32]],
    watched: &[Watch],
    entries: &Entries,
) -> Result<Listing, OutOfMemory>
    requires chained { AreChained heads.now }
    requires included { AllByRecursion (IsWatched heads.now) watched.now }
    requires last { IsLast heads.now last.now }
    requires size { last.now.size ≡ length entries.now }
    requires roots { roots.now ≡ fronts_of entries.now heads.now }
    ensures { IfOk result (IsListing entries.now heads.now watched.now) }
{
    if has_hash(last, &roots[heads.len() - 1]) {
        match log_collision(alloc, heads, roots, watched, entries)? {
            Some(found) => Ok(Listing::Collided(found)),
            None => Ok(Listing::Listed),
        }
    } else {
        Ok(Listing::Other)
    }
}

/// Whether the head has this root.
fn has_hash(head: &ChainHead, root: &[u8; 32]) -> bool
    ensures { IsTrue result ↔ (head.now.hash ≡ root.now) }
{
    head.hash == *root
}
