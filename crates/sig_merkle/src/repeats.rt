//! Hashes that the tree of a list has again and again, where many of its entries are equal.
//!
//! A list can have millions of empty entries between others, each of which costs its sender next to nothing. With these
//! hashes no tree of only such entries is hashed twice.
ghost use Rattle.std.specs.Prelude.{◌≡◌, ◌+◌, ◌<◌, ◌≤◌, []};
ghost use Rattle.sig_merkle.specs.Root.{leaf_of, node_of};

use crate::hashing::{hash_leaf, hash_step};
use sig_base::Steps;
use std::marker::Model;
use std::sync::ledger::Ledger;

/// A node of two equal children, and the hash of one of them.
#[derive(Clone, Copy)]
struct Twins {
    child: [u8; 32],
    node: [u8; 32],
}

impl Model for Twins {
    ghost use Rattle.std.specs.Prelude.{◌≡◌, ℕ, List};
    ghost use Rattle.sig_merkle.specs.Root.{node_of};

    ghost Value = { List ℕ × List ℕ };

    ghost view = { λ t. (t.child, t.node) };

    ghost inverse = { λ d. record { child = d.0; node = d.1 } };

    ghost invariant = { λ t. t.node ≡ node_of t.child t.child };
}

/// The hash of a leaf without a byte, and by height the node of two equal children that was hashed last.
#[derive(Drop)]
pub(crate) struct Repeats {
    blank: [u8; 32],
    twins: [Option<Twins>; 64],
}

impl Model for Repeats {
    ghost use Rattle.std.specs.Prelude.{◌≡◌, ⊤, []};
    ghost use Rattle.sig_merkle.specs.Root.{leaf_of};

    ghost Value = { ⊤ };

    ghost view = { λ _. tt };

    ghost invariant = { λ r. r.blank ≡ leaf_of [] };
}

impl Repeats {
    /// Returns the store without hashes. It takes no memory.
    pub(crate) fn new() -> Repeats {
        Repeats {
            blank: hash_leaf(&[]),
            twins: [None; 64],
        }
    }

    /// Returns the hash of a leaf, which is kept if the entry is empty.
    pub(crate) fn leaf(&self, entry: &[u8]) -> [u8; 32]
        ensures { result ≡ leaf_of entry.now }
    {
        if entry.is_empty() {
            return self.blank;
        }
        hash_leaf(entry)
    }

    /// Returns the hash of a node of two equal children, which is kept if the last one of this height had the same.
    pub(crate) fn node<L: Ledger>(
        &mut self,
        child: &[u8; 32],
        height: u32,
        steps: &mut Steps<L>,
    ) -> [u8; 32]
        requires { height < 64 }
        ensures value { result ≡ node_of child.now child.now }
        ensures steps { steps.new ≤ steps.old + 1 }
    {
        if let Some(last) = self.twins[height as usize] {
            if last.child == *child {
                return last.node;
            }
        }
        let node = hash_step(child, child, steps);
        self.twins[height as usize] = Some(Twins {
            child: *child,
            node,
        });
        node
    }
}
