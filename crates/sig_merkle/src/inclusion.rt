//! The check that a leaf is in a tree (RFC 6962 section 2.1.1).
ghost use Rattle.std.specs.Prelude.{◌≡◌, ◌+◌, ◌<◌, ◌≤◌, ◌↔◌, length, Some, IsOk, OnOk, OnErr};
ghost use Rattle.sig_merkle.specs.Path.{path_root, path_len};
ghost use Rattle.sig_merkle.specs.Walk.{inner_len};
ghost use Rattle.sig_merkle.specs.Inclusion.{IsIncluded, inclusion_root, inclusion_answer, IsRootAnswer};
ghost use Rattle.sig_merkle.specs.Inclusion.{IsInclusionAnswer, inclusion_steps};

use crate::walk::{chain_border_right, chain_inner, decomp_inclusion_proof};
use sig_base::{MerkleProofError, RootHex, Steps};
use std::sync::ledger::Ledger;

/// Returns the root that an audit path leads to from the hash of the leaf at the index, in a tree
/// of this size (RFC 6962 section 2.1.1). A step is one hash of two children; an error takes none.
///
/// Errors, in this order:
/// - `IndexGtTreeSize`: the index is not below the size;
/// - `WrongProofSize`: the number of hashes, `got`, is not that of such a path, `want`.
#[tactic(auto, using(crate::proofs::InclusionLaws::finds_root))]
pub fn root_from_inclusion_proof<L: Ledger>(
    index: u64,
    leaf_hash: &[u8; 32],
    tree_size: u64,
    proof_hashes: &[[u8; 32]],
    steps: &mut Steps<L>,
) -> Result<[u8; 32], MerkleProofError>
    ensures answer { result ≡ inclusion_root index leaf_hash.now tree_size proof_hashes.now }
    ensures causes { IsRootAnswer index leaf_hash.now tree_size proof_hashes.now result }
    ensures steps { OnOk result (steps.new ≡ steps.old + length proof_hashes.now) }
    ensures no_steps { OnErr result (steps.new ≡ steps.old) }
{
    if index >= tree_size {
        return Err(MerkleProofError::IndexGtTreeSize);
    }
    let got = proof_hashes.len() as u64;
    let (inner, border) = decomp_inclusion_proof(index, tree_size);
    let want = inner + border;
    if got != want {
        return Err(MerkleProofError::WrongProofSize { got, want });
    }
    Ok(walk(
        index,
        leaf_hash,
        tree_size,
        inner as usize,
        proof_hashes,
        steps,
    ))
}

/// Checks that the leaf of this hash is at the index of the tree of this size and root
/// (RFC 6962 section 2.1.1). A step is one hash of two children.
///
/// Errors, in this order:
/// - `IndexGtTreeSize`: the index is not below the size;
/// - `WrongProofSize`: the number of hashes, `got`, is not that of such a path, `want`;
/// - `MismatchedRoot`: the root that the path leads to, `expected`, is not this one, `got`.
#[tactic(auto, using(crate::proofs::InclusionLaws::passes_refusal))]
pub fn verify_inclusion<L: Ledger>(
    index: u64,
    leaf_hash: &[u8; 32],
    tree_size: u64,
    proof_hashes: &[[u8; 32]],
    root_hash: &[u8; 32],
    steps: &mut Steps<L>,
) -> Result<(), MerkleProofError>
    ensures answer { result
        ≡ inclusion_answer index leaf_hash.now tree_size proof_hashes.now root_hash.now }
    ensures ok { IsOk result
        ↔ IsIncluded index leaf_hash.now tree_size proof_hashes.now root_hash.now }
    ensures causes { IsInclusionAnswer
        index leaf_hash.now tree_size proof_hashes.now root_hash.now result }
    ensures steps { steps.new ≡ steps.old + inclusion_steps result (length proof_hashes.now) }
{
    let root = root_from_inclusion_proof(index, leaf_hash, tree_size, proof_hashes, steps)?;
    if root != *root_hash {
        return Err(MerkleProofError::MismatchedRoot {
            expected: RootHex { root },
            got: RootHex { root: *root_hash },
        });
    }
    Ok(())
}

/// Returns the root that an audit path of the right number of hashes leads to, by its inner hashes and then by those of
/// the right border.
#[tactic(auto, using(crate::proofs::WalkSteps::ends_walk))]
fn walk<L: Ledger>(
    index: u64,
    leaf_hash: &[u8; 32],
    tree_size: u64,
    inner: usize,
    proof_hashes: &[[u8; 32]],
    steps: &mut Steps<L>,
) -> [u8; 32]
    requires index { index < tree_size }
    requires inner { inner ≡ inner_len index tree_size }
    requires count { length proof_hashes.now ≡ path_len index tree_size }
    ensures root { path_root index leaf_hash.now tree_size proof_hashes.now ≡ Some result }
    ensures steps { steps.new ≡ steps.old + length proof_hashes.now }
{
    let (inner_hashes, border_hashes) = proof_hashes.split_at(inner);
    let below = chain_inner(leaf_hash, inner_hashes, index, steps);
    chain_border_right(&below, border_hashes, steps)
}
