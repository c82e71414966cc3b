//! A consistency proof (RFC 6962 section 2.1.2) as a walk over bits, from the last node that the old tree fills up to
//! both roots.
ghost use Rattle.std.specs.Prelude.{◌≡◌, ◌+◌, ◌-◌, ◌*◌, ◌^◌, ◌<◌, ◌≤◌, true, length, drop, nat_eq, Some};
ghost use Rattle.sig_merkle.specs.Consistency.{roots_of, roots_len};
ghost use Rattle.sig_merkle.specs.Walk.{border_len};
ghost use Rattle.sig_merkle.specs.GrowthWalk.{shift_of, kept_by_bit, right_fold, seed_len, seed_of};
ghost use Rattle.sig_merkle.specs.GrowthWalk.{growth_inner_len};

use crate::hashing::hash_step;
use crate::walk::{chain_border_right, chain_inner, decomp_inclusion_proof};
use sig_base::Steps;
use std::sync::ledger::Ledger;

/// The roots that a consistency proof leads to.
#[derive(Clone, Copy)]
pub struct Roots {
    /// The root of the first leaves.
    pub old: [u8; 32],
    /// The root of all leaves.
    pub new: [u8; 32],
}

/// Returns the hash that the inner hashes of a consistency proof lead to in the old tree: the hash at index i is that
/// of the left child where bit i of the index is 1, and is not in the old tree where it is 0. A step is one hash of two
/// children, so there are at most as many steps as hashes.
#[tactic(auto, using(crate::proofs::BitFolds::follows_bits))]
pub fn chain_inner_right<L: Ledger>(
    seed: &[u8; 32],
    proof_hashes: &[[u8; 32]],
    index: u64,
    steps: &mut Steps<L>,
) -> [u8; 32]
    ensures value { result ≡ right_fold seed.now proof_hashes.now index }
    ensures steps { steps.old ≤ steps.new }
    ensures most { steps.new ≤ steps.old + length proof_hashes.now }
{
    let mut value = *seed;
    let mut bits = index;
    for hash in proof_hashes {
        value = keep_by_bit(&value, hash, bits % 2, steps);
        bits /= 2;
    }
    value
}

/// Returns the value itself where the bit is 0, and else the hash of the node above it and the hash on its left.
fn keep_by_bit<L: Ledger>(
    value: &[u8; 32],
    hash: &[u8; 32],
    bit: u64,
    steps: &mut Steps<L>,
) -> [u8; 32]
    ensures value { result ≡ kept_by_bit bit value.now hash.now }
    ensures steps { steps.old ≤ steps.new }
    ensures most { steps.new ≤ steps.old + 1 }
{
    if bit == 0 {
        *value
    } else {
        hash_step(hash, value, steps)
    }
}

/// Returns how many hashes of a consistency proof come before the walk, how many are inner ones, and how many are of
/// the right border.
#[tactic(auto, using(crate::proofs::GrowthSteps::parts_growth))]
pub(crate) fn decomp_consistency_proof(old_size: u64, new_size: u64) -> (u64, u64, u64)
    requires some { 0 < old_size }
    requires grown { old_size < new_size }
    ensures inner { result.1 ≡ growth_inner_len old_size new_size }
    ensures sum { result.0 + (result.1 + result.2) ≡ roots_len old_size new_size true }
    ensures bound { result.0 + (result.1 + result.2) ≤ 65 }
{
    let (above, border) = decomp_inclusion_proof(old_size - 1, new_size);
    let inner = above - u64::from(shift(old_size));
    (taken(old_size), inner, border)
}

/// Returns the level of the last node that a tree of this size fills.
#[tactic(auto, using(crate::proofs::GrowthSteps::counts_zeros))]
fn shift(size: u64) -> u32
    requires { 0 < size }
    ensures value { result ≡ shift_of size }
    ensures bound { result < 64 }
{
    size.trailing_zeros()
}

/// Returns the number of hashes of a proof before the walk: 0 if the walk starts at the old root.
#[tactic(auto, using(crate::proofs::GrowthSteps::takes_seed))]
fn taken(old_size: u64) -> u64
    requires { 0 < old_size }
    ensures { result ≡ seed_len old_size }
{
    if is_full(old_size) { 0 } else { 1 }
}

/// Returns whether a tree of this size is one full node.
fn is_full(size: u64) -> bool
    requires { 0 < size }
    ensures { result ≡ nat_eq size (2 ^ shift_of size) }
{
    size == 1 << shift(size)
}

/// Returns the roots that a proof of the right number of hashes leads to.
#[tactic(auto, using(crate::proofs::GrowthSteps::ends_growth))]
pub(crate) fn walk_growth<L: Ledger>(
    old_size: u64,
    new_size: u64,
    inner: usize,
    old_root: &[u8; 32],
    proof_hashes: &[[u8; 32]],
    steps: &mut Steps<L>,
) -> Roots
    requires some { 0 < old_size }
    requires grown { old_size < new_size }
    requires inner { inner ≡ growth_inner_len old_size new_size }
    requires count { length proof_hashes.now ≡ roots_len old_size new_size true }
    ensures roots { roots_of old_size new_size true old_root.now proof_hashes.now
        ≡ Some (result.old, result.new) }
    ensures steps { steps.old ≤ steps.new }
    ensures most { steps.new ≤ steps.old + 2 * length proof_hashes.now }
{
    let (seed, hashes) = start(old_size, old_root, proof_hashes);
    let (inner_hashes, border_hashes) = hashes.split_at(inner);
    let mask = (old_size - 1) >> shift(old_size);
    let old = chain_inner_right(seed, inner_hashes, mask, steps);
    let new = chain_inner(seed, inner_hashes, mask, steps);
    Roots {
        old: chain_border_right(&old, border_hashes, steps),
        new: chain_border_right(&new, border_hashes, steps),
    }
}

/// Returns the hash of the last node that the old tree fills, and the hashes above it.
#[tactic(auto, using(crate::proofs::GrowthSteps::takes_seed))]
fn start<'a>(
    old_size: u64,
    old_root: &'a [u8; 32],
    proof_hashes: &'a [[u8; 32]],
) -> (&'a [u8; 32], &'a [[u8; 32]])
    requires some { 0 < old_size }
    requires enough { seed_len old_size ≤ length proof_hashes.now }
    ensures seed { result.0.now ≡ seed_of old_size old_root.now proof_hashes.now }
    ensures rest { result.1.now ≡ drop (seed_len old_size) proof_hashes.now }
{
    if is_full(old_size) {
        return (old_root, proof_hashes);
    }
    match proof_hashes.split_first() {
        Some((first, rest)) => (first, rest),
        None => (old_root, proof_hashes),
    }
}
