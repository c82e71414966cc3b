//! The recursions of RFC 6962 sections 2.1.1 and 2.1.2 as plain programs, from the root's children down. The checks
//! walk over bits instead, and a test runs both.
ghost use Rattle.std.specs.Prelude.{◌≡◌, ◌+◌, ◌*◌, ◌<◌, ◌≤◌, Bool, length, Some};
ghost use Rattle.sig_merkle.specs.Path.{path_root, path_len};
ghost use Rattle.sig_merkle.specs.Consistency.{shared_len, roots_of, roots_len};

use crate::growth_walk::Roots;
use crate::hashing::hash_step;
use crate::split::split_point;
use sig_base::Steps;
use std::sync::ledger::Ledger;

/// Returns the number of hashes of the audit path of the leaf at the index, at most 64 (RFC 6962 section 2.1.1).
#[tactic(auto, using(crate::proofs::PathSteps::counts_path))]
pub fn proof_len(index: u64, size: u64) -> u64
    requires { index < size }
    ensures value { result ≡ path_len index size }
    ensures bound { result ≤ 64 }
{
    if size == 1 {
        return 0;
    }
    let half = split_point(size);
    if index < half {
        proof_len(index, half) + 1
    } else {
        proof_len(index - half, size - half) + 1
    }
}

/// Returns the root that an audit path of the right number of hashes leads to (RFC 6962 section 2.1.1). A step is one
/// hash of two children.
pub fn fold_path<L: Ledger>(
    index: u64,
    leaf_hash: &[u8; 32],
    size: u64,
    proof_hashes: &[[u8; 32]],
    steps: &mut Steps<L>,
) -> [u8; 32]
    requires index { index < size }
    requires count { length proof_hashes.now ≡ path_len index size }
    ensures root { path_root index leaf_hash.now size proof_hashes.now ≡ Some result }
    ensures steps { steps.new ≡ steps.old + length proof_hashes.now }
{
    let Some((last, rest)) = proof_hashes.split_last() else {
        return *leaf_hash;
    };
    let half = split_point(size);
    if index < half {
        let left = fold_path(index, leaf_hash, half, rest, steps);
        hash_step(&left, last, steps)
    } else {
        let right = fold_path(index - half, leaf_hash, size - half, rest, steps);
        hash_step(last, &right, steps)
    }
}

/// Returns the number of hashes of a consistency proof, at most 65. `known` says that the proof does
/// not repeat the old root.
pub fn growth_len(old_size: u64, size: u64, known: bool) -> u64
    requires some { 0 < old_size }
    requires within { old_size ≤ size }
    ensures value { result ≡ roots_len old_size size known }
    ensures bound { result ≤ 65 }
{
    if old_size == size {
        return whole_len(known);
    }
    let half = split_point(size);
    if old_size <= half {
        growth_len(old_size, half, known) + 1
    } else {
        growth_len(old_size - half, size - half, false) + 1
    }
}

/// Returns the number of hashes of a proof within a tree that the old one fills: its root, unless known.
fn whole_len(known: bool) -> u64
    ensures { result ≡ shared_len known }
{
    if known { 0 } else { 1 }
}

/// Returns the roots that a proof of the right number of hashes leads to, from the new root's
/// children downward.
pub fn fold_roots<L: Ledger>(
    old_size: u64,
    size: u64,
    known: bool,
    old_root: &[u8; 32],
    proof_hashes: &[[u8; 32]],
    steps: &mut Steps<L>,
) -> Roots
    requires some { 0 < old_size }
    requires within { old_size ≤ size }
    requires count { length proof_hashes.now ≡ roots_len old_size size known }
    ensures roots { roots_of old_size size known old_root.now proof_hashes.now
        ≡ Some (result.old, result.new) }
    ensures steps { steps.old ≤ steps.new }
    ensures most { steps.new ≤ steps.old + 2 * length proof_hashes.now }
{
    let Some((last, rest)) = proof_hashes.split_last() else {
        return Roots {
            old: *old_root,
            new: *old_root,
        };
    };
    if old_size == size {
        return Roots {
            old: *last,
            new: *last,
        };
    }
    let half = split_point(size);
    if old_size <= half {
        let left = fold_roots(old_size, half, known, old_root, rest, steps);
        Roots {
            old: left.old,
            new: hash_step(&left.new, last, steps),
        }
    } else {
        let right = fold_roots(old_size - half, size - half, false, old_root, rest, steps);
        Roots {
            old: hash_step(last, &right.old, steps),
            new: hash_step(last, &right.new, steps),
        }
    }
}
