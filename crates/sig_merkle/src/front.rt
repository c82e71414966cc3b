//! The trees of a list of entries and of its front, hashed together.
ghost use Rattle.std.specs.Prelude.{◌≡◌, ℕ, ◌+◌, ◌-◌, ◌<◌, ◌≤◌, Bool, true, length, take};
ghost use Rattle.sig_merkle.specs.Consistency.{roots_len};
ghost use Rattle.sig_merkle.specs.Root.{root};

use crate::growth_walk::Roots;
use crate::hashing::{empty_root, hash_step};
use crate::repeats::Repeats;
use crate::tree::{halves, tree_in};
use sig_base::{Bytes, Entries, Steps};
use std::sync::ledger::Ledger;

/// Returns the root of the tree of the first `count` entries and that of the tree of all entries (RFC 6962 section 2.1).
/// It takes no memory.
///
/// Each entry, and each node that both trees have, is hashed once. A step is one hash of two children: those of the tree
/// of all entries, one fewer than there are, and at most as many more as a consistency proof between the trees has
/// hashes.
pub fn front_roots<L: Ledger>(entries: &Entries, count: usize, steps: &mut Steps<L>) -> Roots
    requires { count ≤ length entries.now }
    ensures old { result.old ≡ root (take count entries.now) }
    ensures new { result.new ≡ root entries.now }
    ensures steps { steps.new
        ≤ steps.old + (length entries.now - 1) + roots_len count (length entries.now) true }
{
    let mut repeats = Repeats::new();
    if count == 0 {
        let old = empty_root();
        let new = tree_in(entries.as_slice(), &mut repeats, steps).root;
        return Roots { old, new };
    }
    roots_in(entries.as_slice(), count, &mut repeats, steps)
}

/// The roots of the tree of the first entries, at least one, and of the tree of all.
fn roots_in<L: Ledger>(
    entries: &[Bytes],
    count: usize,
    repeats: &mut Repeats,
    steps: &mut Steps<L>,
) -> Roots
    requires some { 0 < count }
    requires within { count ≤ length entries.now }
    ensures old { result.old ≡ root (take count entries.now) }
    ensures new { result.new ≡ root entries.now }
    ensures steps { (known : Bool) → steps.new
        ≤ steps.old + (length entries.now - 1) + roots_len count (length entries.now) known }
{
    if count == entries.len() {
        let root = tree_in(entries, repeats, steps).root;
        return Roots {
            old: root,
            new: root,
        };
    }
    let (left, right) = halves(entries);
    if count <= left.len() {
        let first = roots_in(left, count, repeats, steps);
        let rest = tree_in(right, repeats, steps).root;
        Roots {
            old: first.old,
            new: hash_step(&first.new, &rest, steps),
        }
    } else {
        let first = tree_in(left, repeats, steps).root;
        let rest = roots_in(right, count - left.len(), repeats, steps);
        Roots {
            old: hash_step(&first, &rest.old, steps),
            new: hash_step(&first, &rest.new, steps),
        }
    }
}
