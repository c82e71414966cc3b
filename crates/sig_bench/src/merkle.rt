//! Checks that a leaf is in a tree of 2^63 leaves, of whose nodes only those beside the leaf's path are made up, beside
//! only the hashes of such a check.
ghost use Rattle.std.specs.Prelude.{◌≡◌, ◌<◌};

use sig_base::Steps;
use sig_merkle::recursion::{fold_path, proof_len};
use sig_merkle::{hash_children, hash_leaf, root_from_inclusion_proof, uncounted};
use std::marker::Brand;
use std::sync::ledger::{Blank, Ledger};

/// The size of the tree, and how many hashes an audit path has in it.
const SIZE: u64 = 1 << 63;

const HASHES: usize = 63;

/// The leaf's index. Its bits alternate, so that about as many hashes of the path are on the left as on the right.
const INDEX: u64 = 0x5555_5555_5555_5555;

/// The hash of the leaf, and the hashes of its audit path.
#[derive(Drop)]
struct Path {
    leaf: [u8; 32],
    hashes: [[u8; 32]; HASHES],
}

/// Returns how often the check of `sig_merkle` accepts the path in `count` times.
pub fn walked(times: u64) -> Option<u64> {
    let path = made_up();
    let root = root_on::<Brand>(Blank::new(1), &path)?;
    let mut accepted = 0u64;
    for _ in 0..times {
        let checked = uncounted::verify_inclusion(INDEX, &path.leaf, SIZE, &path.hashes, &root);
        accepted = accepted.saturating_add(u64::from(checked.is_ok()));
    }
    Some(accepted)
}

/// Returns how often the recursion of RFC 6962 section 2.1.1 leads to the path's root in `count` times.
pub fn recursed(times: u64) -> Option<u64> {
    recursed_on::<Brand>(Blank::new(1), times)
}

/// Returns how often as many hashes of nodes as the path has, and nothing else, lead to one value in `count` times: by
/// calls of `hash_children` like the check's.
pub fn hashed(times: u64) -> u64 {
    let path = made_up();
    let wanted = top(&path);
    let mut equal = 0u64;
    for _ in 0..times {
        let value = top(&path);
        equal = equal.saturating_add(u64::from(value == wanted));
    }
    equal
}

/// The same by calls that the compiler writes out for hashes of 32 bytes, each in its place.
pub fn hashed_inline(times: u64) -> u64 {
    let path = made_up();
    let wanted = top(&path);
    let mut equal = 0u64;
    for _ in 0..times {
        let value = top_inline(&path);
        equal = equal.saturating_add(u64::from(value == wanted));
    }
    equal
}

/// The hash of a leaf, and as many hashes as its path has, each that of another leaf.
fn made_up() -> Path {
    let mut hashes = [[0; 32]; HASHES];
    let mut place = 0u8;
    for hash in &mut hashes {
        *hash = hash_leaf(&[place]);
        place = place.wrapping_add(1);
    }
    Path {
        leaf: hash_leaf(b"leaf"),
        hashes,
    }
}

/// The root that the path leads to, on a ledger.
fn root_on<L: Ledger>(blank: Blank, path: &Path) -> Option<[u8; 32]>
    requires name { blank.name ≡ L.name }
    requires parts { blank.parts ≡ L.parts }
    requires some { 0 < blank.parts }
{
    let mut steps = Steps::<L>::new(blank);
    root_from_inclusion_proof(INDEX, &path.leaf, SIZE, &path.hashes, &mut steps).ok()
}

/// The count of `recursed`, on a ledger.
fn recursed_on<L: Ledger>(blank: Blank, times: u64) -> Option<u64>
    requires name { blank.name ≡ L.name }
    requires parts { blank.parts ≡ L.parts }
    requires some { 0 < blank.parts }
{
    let path = made_up();
    let mut steps = Steps::<L>::new(blank);
    let root = root_from_inclusion_proof(INDEX, &path.leaf, SIZE, &path.hashes, &mut steps).ok()?;
    let mut accepted = 0u64;
    for _ in 0..times {
        let led = root_by_recursion(&path, &mut steps);
        accepted = accepted.saturating_add(u64::from(led == Some(root)));
    }
    Some(accepted)
}

/// The root that the path leads to by the recursion; `None` if it has another number of hashes than such a path.
fn root_by_recursion<L: Ledger>(path: &Path, steps: &mut Steps<L>) -> Option<[u8; 32]> {
    if path.hashes.len() as u64 != proof_len(INDEX, SIZE) {
        return None;
    }
    Some(fold_path(INDEX, &path.leaf, SIZE, &path.hashes, steps))
}

/// The hash that the path's hashes lead to, as though each were that of a right child.
fn top(path: &Path) -> [u8; 32] {
    let mut value = path.leaf;
    for hash in &path.hashes {
        value = node(&value, hash);
    }
    value
}

/// The hash of a node, by a call that stays one.
#[inline(never)]
fn node(left: &[u8], right: &[u8]) -> [u8; 32] {
    hash_children(left, right)
}

/// The hash of `top`.
fn top_inline(path: &Path) -> [u8; 32] {
    let mut value = path.leaf;
    for hash in &path.hashes {
        value = hash_children(&value, hash);
    }
    value
}
