//! The trees of a list's first entries at several sizes, hashed together.
ghost use Rattle.std.specs.Prelude.{◌≡◌, ℕ, ◌+◌, ◌-◌, ◌*◌, ◌^◌, ◌<◌, ◌≤◌, [], length, map, replicate, IfOk};
ghost use Rattle.sig_base.specs.Sha256.{sha256};
ghost use Rattle.std.specs.List.{AllByRecursion};
ghost use Rattle.sig_merkle.specs.Fronts.{Ascend, front_root, root_after, within_len};
ghost use Rattle.sig_merkle.specs.Root.{node_of, root};

use crate::hashing::{empty_root, hash_step};
use crate::repeats::Repeats;
use crate::tree::{halves, tree_in};
use sig_base::{Bytes, Entries, OutOfMemory, Steps};
use std::alloc::Global;
use std::sync::ledger::Ledger;

/// Returns for each count the root of the tree of that number of first entries (RFC 6962 section 2.1). No count is
/// below the one before it. Fails only if out of memory.
///
/// Each entry, and each node of the tree of all entries, is hashed once. A step is one hash of two children: those of
/// the tree of all entries, one fewer than there are, and for each count at most one at each level of that tree.
pub fn roots_of_fronts<L: Ledger>(
    alloc: Global,
    entries: &Entries,
    counts: &[usize],
    steps: &mut Steps<L>,
) -> Result<Vec<[u8; 32]>, OutOfMemory>
    requires ascending { Ascend 0 counts.now }
    requires within { AllByRecursion (λ count. count ≤ length entries.now) counts.now }
    ensures roots { IfOk result (λ roots. roots.items ≡ map (front_root entries.now) counts.now) }
    ensures steps { (level : ℕ) → length entries.now ≤ 2 ^ level → steps.new
        ≤ steps.old + (length entries.now - 1) + length counts.now * level }
{
    let mut roots = vec![in alloc; empty_root(); counts.len()]?;
    write_fronts(entries, counts, roots.as_mut_slice(), steps);
    Ok(roots)
}

/// Writes the root for each count. They start as the root of no entries.
fn write_fronts<L: Ledger>(
    entries: &Entries,
    counts: &[usize],
    roots: &mut [[u8; 32]],
    steps: &mut Steps<L>,
)
    requires ascending { Ascend 0 counts.now }
    requires within { AllByRecursion (λ count. count ≤ length entries.now) counts.now }
    requires empty { roots.old ≡ replicate (length counts.now) (sha256 []) }
    ensures roots { roots.new ≡ map (front_root entries.now) counts.now }
    ensures steps { (level : ℕ) → length entries.now ≤ 2 ^ level → steps.new
        ≤ steps.old + (length entries.now - 1) + length counts.now * level }
{
    let none = count_within(counts, 0);
    let (_, some) = counts.split_at(none);
    let (_, of_some) = roots.split_at_mut(none);
    write_roots(
        entries.as_slice(),
        0,
        some,
        of_some,
        &mut Repeats::new(),
        steps,
    );
}

/// Returns how many of the counts, from the first, are at most this.
#[tactic(auto, using(crate::proofs::FrontLists::counts_within))]
fn count_within(counts: &[usize], most: usize) -> usize
    ensures value { result ≡ within_len most counts.now }
    ensures bound { result ≤ length counts.now }
{
    'counts: for (place, count) in counts.iter().enumerate() {
        if *count > most {
            return place;
        }
    }
    counts.len()
}

/// Writes the root for each count of these entries, which are those after `start`; returns the root of all.
fn write_roots<L: Ledger>(
    entries: &[Bytes],
    start: usize,
    counts: &[usize],
    roots: &mut [[u8; 32]],
    repeats: &mut Repeats,
    steps: &mut Steps<L>,
) -> [u8; 32]
    requires fits { start + length entries.now < 2 ^ 64 }
    requires ascending { Ascend (start + 1) counts.now }
    requires within { AllByRecursion (λ count. count ≤ start + length entries.now) counts.now }
    requires as_many { length roots.old ≡ length counts.now }
    ensures root { result ≡ root entries.now }
    ensures roots { roots.new ≡ map (root_after start entries.now) counts.now }
    ensures steps { (level : ℕ) → length entries.now ≤ 2 ^ level → steps.new
        ≤ steps.old + (length entries.now - 1) + length counts.now * level }
{
    if counts.is_empty() {
        return tree_in(entries, repeats, steps).root;
    }
    if entries.len() == 1 {
        let leaf = repeats.leaf(entries[0].as_slice());
        put_leaf(&leaf, roots);
        return leaf;
    }
    let (left, right) = halves(entries);
    let middle = start + left.len();
    let (low, high) = counts.split_at(count_within(counts, middle));
    let (low_roots, high_roots) = roots.split_at_mut(low.len());
    let one = write_roots(left, start, low, low_roots, repeats, steps);
    let other = write_roots(right, middle, high, high_roots, repeats, steps);
    put_left(&one, high_roots, steps);
    hash_step(&one, &other, steps)
}

/// Writes the root of the only entry for each count.
#[tactic(auto, using(crate::proofs::FrontLists::put_roots))]
fn put_leaf(leaf: &[u8; 32], roots: &mut [[u8; 32]])
    ensures { roots.new ≡ map (λ _. leaf.now) roots.old }
{
    'roots: for place in 0..roots.len() {
        roots[place] = *leaf;
    }
}

/// Hashes the left half's root before each root of the right half's first entries.
#[tactic(auto, using(crate::proofs::FrontLists::put_roots))]
fn put_left<L: Ledger>(left: &[u8; 32], roots: &mut [[u8; 32]], steps: &mut Steps<L>)
    ensures roots { roots.new ≡ map (node_of left.now) roots.old }
    ensures steps { steps.new ≡ steps.old + length roots.old }
{
    'roots: for place in 0..roots.len() {
        roots[place] = hash_step(left, &roots[place], steps);
    }
}
