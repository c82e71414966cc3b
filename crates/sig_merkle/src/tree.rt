//! The tree of a list of entries: its root, and the audit path of an entry (RFC 6962 sections 2.1 and 2.1.1).
ghost use Rattle.std.specs.Prelude.{◌≡◌, ◌+◌, ◌-◌, ◌++◌, ◌<◌, ◌≤◌, ◌↔◌, length, take, IsTrue, IfOk, OnOk};
ghost use Rattle.sig_merkle.specs.AuditPath.{AreHalves, audit_path};
ghost use Rattle.sig_merkle.specs.Root.{node_of, root};

use crate::hashing::{empty_root, hash_step};
use crate::repeats::Repeats;
use crate::split::split_point;
use sig_base::{Bytes, Entries, Hashes, OutOfMemory, Steps};
use std::alloc::Global;
use std::marker::Brand;
use std::sync::ledger::{Blank, Ledger};

/// Returns the root of the tree of the first `count` entries (RFC 6962 section 2.1). It takes no memory.
pub fn root_of(entries: &Entries, count: usize) -> [u8; 32]
    requires { count ≤ length entries.now }
    ensures { result ≡ root (take count entries.now) }
{
    let (first, _) = entries.as_slice().split_at(count);
    root_in(first)
}

/// Returns the audit path of the entry at the index in the tree of all entries: the hashes of the halves that the entry
/// is not in, the smallest one first (RFC 6962 section 2.1.1). Fails only if out of memory.
pub fn path_of(alloc: Global, entries: &Entries, index: usize) -> Result<Hashes, OutOfMemory>
    requires { index < length entries.now }
    ensures { IfOk result (λ path. path ≡ audit_path index entries.now) }
{
    let mut path = Hashes::new(alloc);
    push_path(&mut path, entries.as_slice(), index)?;
    Ok(path)
}

/// Returns the root of the tree of these entries. Each entry and each node is hashed once; a half of equal entries that
/// its neighbour repeats, an empty entry, and a node of two equal children like the last one of its height, not at all.
pub(crate) fn root_in(entries: &[Bytes]) -> [u8; 32]
    ensures { result ≡ root entries.now }
{
    root_on::<Brand>(Blank::new(1), entries)
}

/// The root of a tree over a ledger of its own.
fn root_on<L: Ledger>(blank: Blank, entries: &[Bytes]) -> [u8; 32]
    requires name { blank.name ≡ L.name }
    requires parts { blank.parts ≡ L.parts }
    requires some { 0 < blank.parts }
    ensures { result ≡ root entries.now }
{
    let mut steps = Steps::<L>::new(blank);
    tree_in(entries, &mut Repeats::new(), &mut steps).root
}

/// A tree that was hashed.
#[derive(Clone, Copy)]
pub(crate) struct Tree {
    pub(crate) root: [u8; 32],
    /// Whether its entries were found equal: then its neighbour is compared with it before it is hashed.
    alike: bool,
}

/// Hashes the tree of these entries. A step is one hash of two children.
pub(crate) fn tree_in<L: Ledger>(
    entries: &[Bytes],
    repeats: &mut Repeats,
    steps: &mut Steps<L>,
) -> Tree
    ensures root { result.root ≡ root entries.now }
    ensures steps { steps.new ≤ steps.old + (length entries.now - 1) }
{
    match entries {
        [] => Tree {
            root: empty_root(),
            alike: true,
        },
        [entry] => Tree {
            root: repeats.leaf(entry.as_slice()),
            alike: true,
        },
        _ => {
            let (left, right) = halves(entries);
            let one = tree_in(left, repeats, steps);
            if one.alike && is_repeated(left, right) {
                Tree {
                    root: repeats.node(&one.root, left.len().ilog2(), steps),
                    alike: true,
                }
            } else {
                let other = tree_in(right, repeats, steps);
                Tree {
                    root: hash_step(&one.root, &other.root, steps),
                    alike: false,
                }
            }
        }
    }
}

/// Adds the audit path of the entry at the index.
#[tactic(auto, using(crate::proofs::HalfSteps::pushes_path))]
fn push_path(path: &mut Hashes, entries: &[Bytes], index: usize) -> Result<(), OutOfMemory>
    requires { index < length entries.now }
    ensures { OnOk result (path.new ≡ path.old ++ audit_path index entries.now) }
{
    if entries.len() == 1 {
        return Ok(());
    }
    let (left, right) = halves(entries);
    if index < left.len() {
        push_path(path, left, index)?;
        path.push(root_in(right))
    } else {
        push_path(path, right, index - left.len())?;
        path.push(root_in(left))
    }
}

/// The entries of the left and of the right half of the tree.
pub(crate) fn halves(entries: &[Bytes]) -> (&[Bytes], &[Bytes])
    requires { 1 < length entries.now }
    ensures { AreHalves entries.now result.0.now result.1.now }
{
    entries.split_at(split_point(entries.len() as u64) as usize)
}

/// Whether both halves have the same entries. Entries of different lengths are told apart by these.
fn is_repeated(left: &[Bytes], right: &[Bytes]) -> bool
    ensures { IsTrue result ↔ (left.now ≡ right.now) }
{
    left == right
}
