//! Calls of sig_merkle on hashes, lists of entries and inclusion proofs.
ghost use Rattle.std.specs.Prelude.{◌≡◌, ◌<◌};

use sig_base::{Hashes, OutOfMemory, Steps};
use sig_cases::{Answer, Arguments};
use sig_merkle::uncounted::verify_inclusion;
use sig_merkle::{
    empty_root, hash_children, hash_leaf, path_of, root_from_inclusion_proof, root_of,
};
use std::marker::Brand;
use std::sync::ledger::{Blank, Ledger};

/// `empty_root`: the hash of no entries.
pub(crate) fn empty(answer: &mut Answer) {
    answer.ok();
    answer.hex(&empty_root());
}

/// `hash_leaf ENTRY`: the hash of a leaf.
pub(crate) fn leaf(arguments: &mut Arguments<'_>, answer: &mut Answer) {
    answer.ok();
    answer.hex(&hash_leaf(&arguments.hex()));
}

/// `hash_children LEFT RIGHT`: the hash of a node of two children, given as they are.
pub(crate) fn children(arguments: &mut Arguments<'_>, answer: &mut Answer) {
    let left = arguments.hex();
    let right = arguments.hex();
    answer.ok();
    answer.hex(&hash_children(&left, &right));
}

/// `root_of COUNT ENTRY,..`: the root of the tree of the first COUNT entries.
pub(crate) fn root(arguments: &mut Arguments<'_>, answer: &mut Answer) {
    let count = arguments.natural() as usize;
    let entries = arguments.entries();
    if count > entries.len() {
        return arguments.refuse();
    }
    answer.ok();
    answer.hex(&root_of(&entries, count));
}

/// `path_of INDEX ENTRY,..`: the audit path of an entry.
pub(crate) fn audit_path(arguments: &mut Arguments<'_>, answer: &mut Answer) {
    let index = arguments.natural() as usize;
    let entries = arguments.entries();
    if index >= entries.len() {
        return arguments.refuse();
    }
    show(answer, path_of(arguments.alloc(), &entries, index));
}

/// Adds hashes.
pub(crate) fn show(answer: &mut Answer, hashes: Result<Hashes, OutOfMemory>) {
    match hashes {
        Ok(hashes) => {
            answer.ok();
            for hash in hashes.as_slice() {
                answer.hex(hash);
            }
        }
        Err(_) => answer.out_of_memory(),
    }
}

/// `verify_inclusion INDEX LEAF SIZE PATH ROOT`: whether the leaf of this hash is at the index of the tree.
pub(crate) fn inclusion(arguments: &mut Arguments<'_>, answer: &mut Answer) {
    let index = arguments.natural();
    let leaf = arguments.digest();
    let size = arguments.natural();
    let path = path(arguments, answer);
    let root = arguments.digest();
    match verify_inclusion(index, &leaf, size, path.as_slice(), &root) {
        Ok(()) => answer.ok(),
        Err(error) => answer.error(error),
    }
}

/// The next argument as a list of hashes.
pub(crate) fn path(arguments: &mut Arguments<'_>, answer: &mut Answer) -> Hashes {
    let mut path = Hashes::new(arguments.alloc());
    for hash in &arguments.hex_list() {
        let Ok(hash) = hash.as_slice().try_into() else {
            arguments.refuse();
            break;
        };
        if path.push(hash).is_err() {
            answer.out_of_memory();
        }
    }
    path
}

/// `counted INDEX LEAF SIZE PATH`: the root that the path leads to, with a counter of steps.
pub(crate) fn counted(arguments: &mut Arguments<'_>, answer: &mut Answer) {
    let index = arguments.natural();
    let leaf = arguments.digest();
    let size = arguments.natural();
    let path = path(arguments, answer);
    counted_on::<Brand>(answer, Blank::new(1), index, &leaf, size, path.as_slice());
}

/// The root that a path leads to, and the check against it, on a ledger.
fn counted_on<L: Ledger>(
    answer: &mut Answer,
    blank: Blank,
    index: u64,
    leaf: &[u8; 32],
    size: u64,
    path: &[[u8; 32]],
)
    requires name { blank.name ≡ L.name }
    requires parts { blank.parts ≡ L.parts }
    requires some { 0 < blank.parts }
{
    let mut steps = Steps::<L>::new(blank);
    let root = match root_from_inclusion_proof(index, leaf, size, path, &mut steps) {
        Ok(root) => root,
        Err(error) => return answer.error(error),
    };
    match sig_merkle::verify_inclusion(index, leaf, size, path, &root, &mut steps) {
        Ok(()) => {
            answer.ok();
            answer.hex(&root);
        }
        Err(error) => answer.error(error),
    }
}
