//! An audit path (RFC 6962 section 2.1.1) as a walk over the bits of the leaf's index, from the leaf up.
ghost use Rattle.std.specs.Prelude.{◌≡◌, ◌+◌, ◌/◌, ◌^◌, ◌<◌, ◌≤◌, length, count_ones};
ghost use Rattle.sig_merkle.specs.Path.{path_len};
ghost use Rattle.sig_merkle.specs.Walk.{inner_len, border_len, node_by_bit, inner_fold, border_fold};

use crate::hashing::hash_step;
use sig_base::Steps;
use std::sync::ledger::Ledger;

/// Returns how many hashes of the audit path of the leaf at the index are inner ones, and how many are of the tree's
/// right border (RFC 6962 section 2.1.1). Their sum is the number of hashes of the path, at most 64.
///
/// The inner hashes lie below the node where the path leaves that of the last leaf: as many as the index xor that of
/// the last leaf has bits. The border hashes are as many as the index has one bits above these.
#[tactic(auto, using(crate::proofs::WalkSteps::parts_path))]
pub fn decomp_inclusion_proof(index: u64, tree_size: u64) -> (u64, u64)
    requires { index < tree_size }
    ensures inner { result.0 ≡ inner_len index tree_size }
    ensures border { result.1 ≡ border_len index tree_size }
    ensures sum { result.0 + result.1 ≡ path_len index tree_size }
    ensures bound { result.0 + result.1 ≤ 64 }
{
    let inner = 64 - (index ^ (tree_size - 1)).leading_zeros();
    let border = ones_above(index, inner);
    (u64::from(inner), u64::from(border))
}

/// Returns how many bits of a number are ones, besides its lowest ones.
#[tactic(auto, using(crate::proofs::WalkSteps::counts_ones))]
fn ones_above(number: u64, lowest: u32) -> u32
    requires { lowest ≤ 64 }
    ensures { result ≡ count_ones (number / 2 ^ lowest) }
{
    match number.checked_shr(lowest) {
        Some(above) => above.count_ones(),
        None => 0,
    }
}

/// Returns the hash that the inner hashes of an audit path lead to from a hash: the hash at index i is that of the
/// right child where bit i of the index is 0, and else that of the left child. A step is one hash of two children.
#[tactic(auto, using(crate::proofs::BitFolds::follows_bits))]
pub fn chain_inner<L: Ledger>(
    seed: &[u8; 32],
    proof_hashes: &[[u8; 32]],
    index: u64,
    steps: &mut Steps<L>,
) -> [u8; 32]
    ensures value { result ≡ inner_fold seed.now proof_hashes.now index }
    ensures steps { steps.new ≡ steps.old + length proof_hashes.now }
{
    let mut value = *seed;
    let mut bits = index;
    for hash in proof_hashes {
        value = hash_by_bit(&value, hash, bits % 2, steps);
        bits /= 2;
    }
    value
}

/// Returns the hash that the hashes along a tree's right border lead to from a hash: each is that of the left child.
/// A step is one hash of two children.
#[tactic(auto, using(crate::proofs::WalkSteps::follows_border))]
pub fn chain_border_right<L: Ledger>(
    seed: &[u8; 32],
    proof_hashes: &[[u8; 32]],
    steps: &mut Steps<L>,
) -> [u8; 32]
    ensures value { result ≡ border_fold seed.now proof_hashes.now }
    ensures steps { steps.new ≡ steps.old + length proof_hashes.now }
{
    let mut value = *seed;
    for hash in proof_hashes {
        value = hash_step(hash, &value, steps);
    }
    value
}

/// Returns the hash of the node above a value: the hash is that of the right child where the bit is 0, and else that of
/// the left child.
fn hash_by_bit<L: Ledger>(
    value: &[u8; 32],
    hash: &[u8; 32],
    bit: u64,
    steps: &mut Steps<L>,
) -> [u8; 32]
    ensures value { result ≡ node_by_bit bit value.now hash.now }
    ensures steps { steps.new ≡ steps.old + 1 }
{
    if bit == 0 {
        hash_step(value, hash, steps)
    } else {
        hash_step(hash, value, steps)
    }
}
