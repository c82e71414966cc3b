//! Calls of sig_merkle's extractors of collisions, each only where its condition holds, which is that the proof is
//! accepted. Since no collision of SHA-256 is known, each of them returns `None`.
ghost use Rattle.std.specs.Prelude.{◌≤◌, ◌↔◌, length, IsTrue};
ghost use Rattle.sig_merkle.specs.Inclusion.{IsIncluded};
ghost use Rattle.sig_merkle.specs.Root.{leaf_of};

use crate::consistency::push_numbered;
use sig_base::{Collision, Entries, Hashes, OutOfMemory, sha256};
use sig_cases::{Answer, Arguments};
use sig_merkle::uncounted::{front_roots, verify_consistency, verify_inclusion};
use sig_merkle::{
    consistency_collision, hash_leaf, inclusion_collision, path_of, proof_collision, proof_of,
    root_of,
};
use std::alloc::{AllocError, Global};

/// `fronts OLD NEW`: the digest of both roots of `front_roots`, for `NEW` numbered entries of which the first `OLD` are
/// the old tree; then a letter for what `consistency_collision` returns of the proof beside the entries, beside them
/// with the first or the last changed, and beside one more and one fewer: `n` for `None`, `x` where the proof is not
/// accepted.
pub(crate) fn fronts(arguments: &mut Arguments<'_>, answer: &mut Answer) {
    let old = arguments.natural();
    let new = arguments.natural();
    let alloc = arguments.alloc();
    let entries = listed(alloc, answer, new, new);
    if old as usize > entries.len() {
        arguments.refuse();
    } else {
        fronts_of(alloc, answer, &entries, old as usize);
    }
}

/// The entries `entry 0`, `entry 1` and so on, `count` of them, with `other` in place of the one of this number.
fn listed(alloc: Global, answer: &mut Answer, count: u64, changed: u64) -> Entries {
    let mut entries = Entries::new(alloc);
    for number in 0..count {
        if number != changed {
            push_numbered(alloc, answer, &mut entries, number);
        } else if entries.push("other".as_bytes()).is_err() {
            answer.out_of_memory();
        }
    }
    entries
}

fn fronts_of(alloc: Global, answer: &mut Answer, entries: &Entries, old: usize)
    requires { old ≤ length entries.now }
{
    let roots = front_roots(entries, old);
    match proof_between(alloc, entries, old) {
        Ok(proof) => {
            let front = Front {
                size: old as u64,
                root: roots.old,
                hashes: proof.as_slice(),
            };
            let mut bytes = Vec::new(alloc);
            if push_both(&mut bytes, &roots.old, &roots.new).is_err() {
                answer.out_of_memory();
            }
            answer.ok();
            answer.hex(&sha256(&bytes));
            let mut letters = String::new(alloc);
            if push_lists(alloc, answer, &mut letters, front, entries.len() as u64).is_err() {
                answer.out_of_memory();
            }
            answer.value(&letters);
        }
        Err(_) => answer.out_of_memory(),
    }
}

/// The proof between the first entries and all, which has no hash from none of them.
fn proof_between(alloc: Global, entries: &Entries, old: usize) -> Result<Hashes, OutOfMemory>
    requires { old ≤ length entries.now }
{
    if old == 0 {
        return Ok(Hashes::new(alloc));
    }
    proof_of(alloc, entries, old)
}

fn push_both(bytes: &mut Vec<u8>, old: &[u8; 32], new: &[u8; 32]) -> Result<(), AllocError> {
    bytes.extend_from_slice(old)?;
    bytes.extend_from_slice(new)
}

/// A tree's front, and the proof that it is one.
#[derive(Clone, Copy)]
struct Front<'a> {
    size: u64,
    root: [u8; 32],
    hashes: &'a [[u8; 32]],
}

/// Adds a letter for each list beside which the front is.
fn push_lists(
    alloc: Global,
    answer: &mut Answer,
    letters: &mut String,
    front: Front<'_>,
    new: u64,
) -> Result<(), AllocError> {
    letters.push_str(beside(alloc, answer, front, new, new))?;
    letters.push_str(beside(alloc, answer, front, new, 0))?;
    letters.push_str(beside(alloc, answer, front, new, new.saturating_sub(1)))?;
    letters.push_str(beside(alloc, answer, front, new.saturating_add(1), u64::MAX))?;
    letters.push_str(beside(alloc, answer, front, new.saturating_sub(1), u64::MAX))
}

/// The letter for a front beside this number of entries, one of which is changed.
fn beside(
    alloc: Global,
    answer: &mut Answer,
    front: Front<'_>,
    count: u64,
    changed: u64,
) -> &'static str {
    let entries = listed(alloc, answer, count, changed);
    let found = front_letter(alloc, front, &entries);
    drop(entries);
    found
}

fn front_letter(alloc: Global, front: Front<'_>, entries: &Entries) -> &'static str {
    let size = entries.len() as u64;
    let root = root_of(entries, entries.len());
    if verify_consistency(front.size, size, front.hashes, &front.root, &root).is_err() {
        return "x";
    }
    letter(consistency_collision(alloc, front.size, &front.root, front.hashes, entries))
}

/// The letter for what an extractor returns.
fn letter(found: Result<Option<Collision>, OutOfMemory>) -> &'static str {
    match found {
        Ok(None) => "n",
        Ok(Some(found)) => {
            drop(found);
            "c"
        }
        Err(_) => "m",
    }
}

/// `twins INDEX COUNT`: a letter for what `proof_collision` returns of an entry's path and itself, and of both for
/// another entry; and for what `inclusion_collision` returns of the path beside the entries, and beside them with this
/// one changed.
pub(crate) fn twins(arguments: &mut Arguments<'_>, answer: &mut Answer) {
    let index = arguments.natural();
    let count = arguments.natural();
    let alloc = arguments.alloc();
    let entries = listed(alloc, answer, count, count);
    let other = listed(alloc, answer, count, index);
    if index as usize >= entries.len() {
        arguments.refuse();
    } else {
        match path_of(alloc, &entries, index as usize) {
            Ok(path) => twins_of(alloc, answer, index, path.as_slice(), &entries, &other),
            Err(_) => answer.out_of_memory(),
        }
    }
}

fn twins_of(
    alloc: Global,
    answer: &mut Answer,
    index: u64,
    path: &[[u8; 32]],
    entries: &Entries,
    other: &Entries,
) {
    let entry = match entries.get(index as usize) {
        Some(entry) => entry,
        None => &[],
    };
    let size = entries.len() as u64;
    let root = root_of(entries, entries.len());
    answer.ok();
    answer.value(&paths_letter(alloc, index, size, &root, path, entry, entry));
    answer.value(&paths_letter(alloc, index, size, &root, path, entry, &[]));
    answer.value(&entry_letter(alloc, index, path, entry, entries));
    answer.value(&entry_letter(alloc, index, path, entry, other));
}

fn paths_letter(
    alloc: Global,
    index: u64,
    size: u64,
    root: &[u8; 32],
    path: &[[u8; 32]],
    left: &[u8],
    right: &[u8],
) -> &'static str {
    if is_included(index, left, size, path, root) {
        if is_included(index, right, size, path, root) {
            return letter(proof_collision(alloc, index, size, left, path, right, path));
        }
    }
    "x"
}

/// Whether this is the path of the entry at the index.
fn is_included(index: u64, entry: &[u8], size: u64, path: &[[u8; 32]], root: &[u8; 32]) -> bool
    ensures { IsTrue result ↔ IsIncluded index (leaf_of entry.now) size path.now root.now }
{
    verify_inclusion(index, &hash_leaf(entry), size, path, root).is_ok()
}

fn entry_letter(
    alloc: Global,
    index: u64,
    path: &[[u8; 32]],
    entry: &[u8],
    entries: &Entries,
) -> &'static str {
    let size = entries.len() as u64;
    let root = root_of(entries, entries.len());
    if !is_included(index, entry, size, path, &root) {
        return "x";
    }
    letter(inclusion_collision(alloc, entry, index, path, entries))
}
