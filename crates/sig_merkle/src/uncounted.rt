//! The checks of proofs, and the roots of a list and of its front, for a caller that does not count steps.
ghost use Rattle.std.specs.Prelude.{◌≡◌, ◌<◌, ◌≤◌, ◌↔◌, length, map, take, IsOk, IfOk};
ghost use Rattle.std.specs.List.{AllByRecursion};
ghost use Rattle.sig_merkle.specs.Inclusion.{IsIncluded, inclusion_answer, IsInclusionAnswer};
ghost use Rattle.sig_merkle.specs.ConsistencyAnswer.{IsConsistent, consistency_answer, IsConsistencyAnswer};
ghost use Rattle.sig_merkle.specs.Fronts.{Ascend, front_root};
ghost use Rattle.sig_merkle.specs.Root.{root};

use crate::growth_walk::Roots;
use sig_base::{Entries, MerkleProofError, OutOfMemory, Steps};
use std::alloc::Global;
use std::marker::Brand;
use std::sync::ledger::{Blank, Ledger};

/// Checks that the leaf of this hash is at the index of the tree of this size and root, as
/// `verify_inclusion` of this crate does, with the same errors.
pub fn verify_inclusion(
    index: u64,
    leaf_hash: &[u8; 32],
    tree_size: u64,
    proof_hashes: &[[u8; 32]],
    root_hash: &[u8; 32],
) -> Result<(), MerkleProofError>
    ensures answer { result
        ≡ inclusion_answer index leaf_hash.now tree_size proof_hashes.now root_hash.now }
    ensures ok { IsOk result
        ↔ IsIncluded index leaf_hash.now tree_size proof_hashes.now root_hash.now }
    ensures causes { IsInclusionAnswer
        index leaf_hash.now tree_size proof_hashes.now root_hash.now result }
{
    let blank = Blank::new(1);
    verify_on::<Brand>(blank, index, leaf_hash, tree_size, proof_hashes, root_hash)
}

/// The check of an inclusion proof over a ledger of its own.
fn verify_on<L: Ledger>(
    blank: Blank,
    index: u64,
    leaf_hash: &[u8; 32],
    tree_size: u64,
    proof_hashes: &[[u8; 32]],
    root_hash: &[u8; 32],
) -> Result<(), MerkleProofError>
    requires name { blank.name ≡ L.name }
    requires parts { blank.parts ≡ L.parts }
    requires some { 0 < blank.parts }
    ensures answer { result
        ≡ inclusion_answer index leaf_hash.now tree_size proof_hashes.now root_hash.now }
    ensures ok { IsOk result
        ↔ IsIncluded index leaf_hash.now tree_size proof_hashes.now root_hash.now }
    ensures causes { IsInclusionAnswer
        index leaf_hash.now tree_size proof_hashes.now root_hash.now result }
{
    let mut steps = Steps::<L>::new(blank);
    crate::inclusion::verify_inclusion(
        index,
        leaf_hash,
        tree_size,
        proof_hashes,
        root_hash,
        &mut steps,
    )
}

/// Checks that the tree of the new size and root has the tree of the old size and root as its first
/// leaves, as `verify_consistency` of this crate does, with the same errors.
pub fn verify_consistency(
    old_size: u64,
    new_size: u64,
    proof_hashes: &[[u8; 32]],
    old_root: &[u8; 32],
    new_root: &[u8; 32],
) -> Result<(), MerkleProofError>
    ensures answer { result
        ≡ consistency_answer old_size new_size proof_hashes.now old_root.now new_root.now }
    ensures ok { IsOk result
        ↔ IsConsistent old_size new_size proof_hashes.now old_root.now new_root.now }
    ensures causes { IsConsistencyAnswer
        old_size new_size proof_hashes.now old_root.now new_root.now result }
{
    let blank = Blank::new(1);
    verify_consistency_on::<Brand>(blank, old_size, new_size, proof_hashes, old_root, new_root)
}

/// The check of a consistency proof over a ledger of its own.
fn verify_consistency_on<L: Ledger>(
    blank: Blank,
    old_size: u64,
    new_size: u64,
    proof_hashes: &[[u8; 32]],
    old_root: &[u8; 32],
    new_root: &[u8; 32],
) -> Result<(), MerkleProofError>
    requires name { blank.name ≡ L.name }
    requires parts { blank.parts ≡ L.parts }
    requires some { 0 < blank.parts }
    ensures answer { result
        ≡ consistency_answer old_size new_size proof_hashes.now old_root.now new_root.now }
    ensures ok { IsOk result
        ↔ IsConsistent old_size new_size proof_hashes.now old_root.now new_root.now }
    ensures causes { IsConsistencyAnswer
        old_size new_size proof_hashes.now old_root.now new_root.now result }
{
    let mut steps = Steps::<L>::new(blank);
    crate::consistency::verify_consistency(
        old_size,
        new_size,
        proof_hashes,
        old_root,
        new_root,
        &mut steps,
    )
}

/// Returns the root of the tree of the first `count` entries and that of the tree of all entries, as `front_roots` of
/// this crate does.
pub fn front_roots(entries: &Entries, count: usize) -> Roots
    requires { count ≤ length entries.now }
    ensures old { result.old ≡ root (take count entries.now) }
    ensures new { result.new ≡ root entries.now }
{
    let blank = Blank::new(1);
    front_roots_on::<Brand>(blank, entries, count)
}

/// The roots over a ledger of its own.
fn front_roots_on<L: Ledger>(blank: Blank, entries: &Entries, count: usize) -> Roots
    requires name { blank.name ≡ L.name }
    requires parts { blank.parts ≡ L.parts }
    requires some { 0 < blank.parts }
    requires within { count ≤ length entries.now }
    ensures old { result.old ≡ root (take count entries.now) }
    ensures new { result.new ≡ root entries.now }
{
    let mut steps = Steps::<L>::new(blank);
    crate::front::front_roots(entries, count, &mut steps)
}

/// Returns for each count the root of the tree of that number of first entries, as `roots_of_fronts` of this crate
/// does.
pub fn roots_of_fronts(
    alloc: Global,
    entries: &Entries,
    counts: &[usize],
) -> Result<Vec<[u8; 32]>, OutOfMemory>
    requires ascending { Ascend 0 counts.now }
    requires within { AllByRecursion (λ count. count ≤ length entries.now) counts.now }
    ensures { IfOk result (λ roots. roots.items ≡ map (front_root entries.now) counts.now) }
{
    let blank = Blank::new(1);
    roots_of_fronts_on::<Brand>(blank, alloc, entries, counts)
}

/// The roots over a ledger of its own.
fn roots_of_fronts_on<L: Ledger>(
    blank: Blank,
    alloc: Global,
    entries: &Entries,
    counts: &[usize],
) -> Result<Vec<[u8; 32]>, OutOfMemory>
    requires name { blank.name ≡ L.name }
    requires parts { blank.parts ≡ L.parts }
    requires some { 0 < blank.parts }
    requires ascending { Ascend 0 counts.now }
    requires within { AllByRecursion (λ count. count ≤ length entries.now) counts.now }
    ensures { IfOk result (λ roots. roots.items ≡ map (front_root entries.now) counts.now) }
{
    let mut steps = Steps::<L>::new(blank);
    crate::fronts::roots_of_fronts(alloc, entries, counts, &mut steps)
}
