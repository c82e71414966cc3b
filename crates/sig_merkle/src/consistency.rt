//! The check that a tree has an older one as its first leaves (RFC 6962 section 2.1.2).
ghost use Rattle.std.specs.Prelude.{◌≡◌, ◌≢◌, ℕ, ◌+◌, ◌*◌, ◌<◌, ◌≤◌, ◌↔◌, Bool, true, length, Some, Ok, IsOk};
ghost use Rattle.sig_merkle.specs.Consistency.{shared_len, roots_of, roots_len};
ghost use Rattle.sig_merkle.specs.Inclusion.{match_root};
ghost use Rattle.sig_merkle.specs.ConsistencyAnswer.{IsConsistent, same_tree_answer, from_empty_answer};
ghost use Rattle.sig_merkle.specs.ConsistencyAnswer.{growth_answer, consistency_answer, most_steps};
ghost use Rattle.sig_merkle.specs.ConsistencyAnswer.{IsConsistencyAnswer};

use crate::growth_walk::{decomp_consistency_proof, walk_growth};
use crate::hashing::empty_root;
use sig_base::{MerkleProofError, RootHex, Steps};
use std::sync::ledger::Ledger;

/// Checks that the tree of the new size and root has the tree of the old size and root as its first
/// leaves (RFC 6962 section 2.1.2). A step is one hash of two children, and there are at most two
/// for each hash of the proof.
///
/// Trees of one size need equal roots and no hash; two empty trees too are consistent under any equal
/// roots. From the empty tree, whose root is the hash of nothing, every larger tree grows, whatever its
/// root, and the proof has no hash.
///
/// Errors, in this order:
/// - `NewTreeSmaller`: the new size is below the old, both kept;
/// - `MismatchedRoot`: the sizes are equal, there is no hash, and the old root, `expected`, is not
///   the new, `got`;
/// - `UnexpectedNonEmptyProof`: the sizes are equal or the old one is 0, and there are hashes;
/// - `WrongEmptyTreeHash`: only the old size is 0, and the old root is not the hash of nothing;
/// - `UnexpectedEmptyProof`: the tree grew from one that is not empty, and there are no hashes;
/// - `WrongProofSize`: the number of hashes, `got`, is not that of a proof between trees of these
///   sizes, `want`;
/// - `MismatchedRoot`: the old root that the proof leads to, `expected`, is not the old root, `got`;
///   else the new root that it leads to, `expected`, is not the new root, `got`.
pub fn verify_consistency<L: Ledger>(
    old_size: u64,
    new_size: u64,
    proof_hashes: &[[u8; 32]],
    old_root: &[u8; 32],
    new_root: &[u8; 32],
    steps: &mut Steps<L>,
) -> Result<(), MerkleProofError>
    ensures answer { result
        ≡ consistency_answer old_size new_size proof_hashes.now old_root.now new_root.now }
    ensures ok { IsOk result
        ↔ IsConsistent old_size new_size proof_hashes.now old_root.now new_root.now }
    ensures causes { IsConsistencyAnswer
        old_size new_size proof_hashes.now old_root.now new_root.now result }
    ensures steps { steps.old ≤ steps.new }
    ensures most { steps.new ≤ steps.old + most_steps result (length proof_hashes.now) }
{
    if old_size > new_size {
        return Err(MerkleProofError::NewTreeSmaller {
            new: new_size,
            old: old_size,
        });
    }
    if old_size == new_size {
        return verify_same_tree(proof_hashes, old_root, new_root);
    }
    if old_size == 0 {
        return verify_from_empty(proof_hashes, old_root);
    }
    verify_growth(old_size, new_size, proof_hashes, old_root, new_root, steps)
}

/// The check of trees of one size.
fn verify_same_tree(
    proof_hashes: &[[u8; 32]],
    old_root: &[u8; 32],
    new_root: &[u8; 32],
) -> Result<(), MerkleProofError>
    ensures { result ≡ same_tree_answer proof_hashes.now old_root.now new_root.now }
{
    if !proof_hashes.is_empty() {
        return Err(MerkleProofError::UnexpectedNonEmptyProof);
    }
    compare_roots(old_root, new_root)
}

/// The check of a tree that grew from the empty one.
fn verify_from_empty(proof_hashes: &[[u8; 32]], old_root: &[u8; 32]) -> Result<(), MerkleProofError>
    ensures { result ≡ from_empty_answer proof_hashes.now old_root.now }
{
    if !proof_hashes.is_empty() {
        return Err(MerkleProofError::UnexpectedNonEmptyProof);
    }
    if *old_root != empty_root() {
        return Err(MerkleProofError::WrongEmptyTreeHash);
    }
    Ok(())
}

/// The check of a tree that grew from one that is not empty.
fn verify_growth<L: Ledger>(
    old_size: u64,
    new_size: u64,
    proof_hashes: &[[u8; 32]],
    old_root: &[u8; 32],
    new_root: &[u8; 32],
    steps: &mut Steps<L>,
) -> Result<(), MerkleProofError>
    requires some { 0 < old_size }
    requires grown { old_size < new_size }
    ensures answer { result
        ≡ growth_answer old_size new_size proof_hashes.now old_root.now new_root.now }
    ensures steps { steps.old ≤ steps.new }
    ensures most { steps.new ≤ steps.old + most_steps result (length proof_hashes.now) }
{
    if proof_hashes.is_empty() {
        return Err(MerkleProofError::UnexpectedEmptyProof);
    }
    let got = proof_hashes.len() as u64;
    let (taken, inner, border) = decomp_consistency_proof(old_size, new_size);
    let want = taken + (inner + border);
    if got != want {
        return Err(MerkleProofError::WrongProofSize { got, want });
    }
    let led = walk_growth(
        old_size,
        new_size,
        inner as usize,
        old_root,
        proof_hashes,
        steps,
    );
    compare_roots(&led.old, old_root)?;
    compare_roots(&led.new, new_root)
}

/// Compares the root that was computed with the one that was given.
fn compare_roots(expected: &[u8; 32], got: &[u8; 32]) -> Result<(), MerkleProofError>
    ensures { result ≡ match_root (Ok expected.now) got.now }
{
    if expected != got {
        return Err(MerkleProofError::MismatchedRoot {
            expected: RootHex { root: *expected },
            got: RootHex { root: *got },
        });
    }
    Ok(())
}
