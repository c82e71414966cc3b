//! Calls of sig_merkle on consistency proofs.
ghost use Rattle.std.specs.Prelude.{◌<◌, ◌≤◌, length};

use crate::merkle::{path, show};
use sig_base::{Entries, MerkleProofError, sha256};
use sig_cases::{Answer, Arguments};
use sig_merkle::uncounted::verify_consistency;
use sig_merkle::{proof_of, root_of};
use std::alloc::{AllocError, Global};

/// `verify_consistency OLD NEW PATH OLDROOT NEWROOT`: whether one tree has the other as its first leaves.
pub(crate) fn check(arguments: &mut Arguments<'_>, answer: &mut Answer) {
    let old_size = arguments.natural();
    let new_size = arguments.natural();
    let path = path(arguments, answer);
    let old_root = arguments.digest();
    let new_root = arguments.digest();
    match verify_consistency(old_size, new_size, path.as_slice(), &old_root, &new_root) {
        Ok(()) => answer.ok(),
        Err(error) => answer.error(error),
    }
}

/// `proof_of OLD ENTRY,..`: the proof between the first entries and all.
pub(crate) fn proof(arguments: &mut Arguments<'_>, answer: &mut Answer) {
    let old = arguments.natural() as usize;
    let entries = arguments.entries();
    if old == 0 || old > entries.len() {
        return arguments.refuse();
    }
    show(answer, proof_of(arguments.alloc(), &entries, old));
}

/// `sweep OLD NEW`: the hash of the proof's hashes between two trees of `entry 0`, `entry 1` and so on, and a letter
/// for what the check returns of the proof, of it with each hash changed, dropped and doubled, and of it with each size
/// one less and one more.
pub(crate) fn sweep(arguments: &mut Arguments<'_>, answer: &mut Answer) {
    let old = arguments.natural() as usize;
    let entries = numbered(arguments, answer);
    if old == 0 || old > entries.len() {
        arguments.refuse();
    } else {
        sweep_of(arguments.alloc(), answer, &entries, old);
    }
}

/// The next argument as a number of made entries.
fn numbered(arguments: &mut Arguments<'_>, answer: &mut Answer) -> Entries {
    let mut entries = Entries::new(arguments.alloc());
    for number in 0..arguments.natural() {
        push_numbered(arguments.alloc(), answer, &mut entries, number);
    }
    entries
}

/// Adds `entry NUMBER`.
pub(crate) fn push_numbered(
    alloc: Global,
    answer: &mut Answer,
    entries: &mut Entries,
    number: u64,
) {
    match format!(in alloc; "entry {number}") {
        Ok(entry) => {
            if entries.push(entry.as_str().as_bytes()).is_err() {
                answer.out_of_memory();
            }
        }
        Err(_) => answer.out_of_memory(),
    }
}

/// Two trees.
#[derive(Clone, Copy)]
struct Trees {
    old_size: u64,
    new_size: u64,
    old_root: [u8; 32],
    new_root: [u8; 32],
}

impl Trees {
    /// The letter for what the check of these hashes returns.
    fn letter(&self, hashes: &[[u8; 32]]) -> &'static str {
        self.letter_at(self.old_size, self.new_size, hashes)
    }

    /// The same, of other sizes.
    fn letter_at(&self, old_size: u64, new_size: u64, hashes: &[[u8; 32]]) -> &'static str {
        match verify_consistency(old_size, new_size, hashes, &self.old_root, &self.new_root) {
            Ok(()) => "k",
            Err(MerkleProofError::MismatchedRoot { .. }) => "r",
            Err(MerkleProofError::WrongProofSize { .. }) => "w",
            Err(MerkleProofError::UnexpectedNonEmptyProof) => "f",
            Err(MerkleProofError::UnexpectedEmptyProof) => "e",
            Err(MerkleProofError::NewTreeSmaller { .. }) => "s",
            Err(MerkleProofError::WrongEmptyTreeHash) => "h",
            Err(MerkleProofError::IndexGtTreeSize) => "i",
        }
    }
}

/// Adds the letters of the proof between this number of first entries and all.
fn sweep_of(alloc: Global, answer: &mut Answer, entries: &Entries, old: usize)
    requires some { 0 < old }
    requires within { old ≤ length entries.now }
{
    let trees = Trees {
        old_size: old as u64,
        new_size: entries.len() as u64,
        old_root: root_of(entries, old),
        new_root: root_of(entries, entries.len()),
    };
    match proof_of(alloc, entries, old) {
        Ok(proof) => swept(alloc, answer, &trees, proof.as_slice()),
        Err(_) => answer.out_of_memory(),
    }
}

/// Adds the hash of the proof's hashes, and the letters.
fn swept(alloc: Global, answer: &mut Answer, trees: &Trees, proof: &[[u8; 32]]) {
    let mut bytes = Vec::new(alloc);
    if push_hashes(&mut bytes, proof).is_err() {
        answer.out_of_memory();
    }
    let mut letters = String::new(alloc);
    let mut changed = Vec::new(alloc);
    if push_letters(&mut letters, &mut changed, trees, proof).is_err() {
        answer.out_of_memory();
    }
    answer.ok();
    answer.hex(&sha256(&bytes));
    answer.value(&letters);
}

fn push_hashes(bytes: &mut Vec<u8>, hashes: &[[u8; 32]]) -> Result<(), AllocError> {
    for hash in hashes {
        bytes.extend_from_slice(hash)?;
    }
    Ok(())
}

/// Adds the letters of the proof and of what it is changed to, which is made in `changed`.
fn push_letters(
    letters: &mut String,
    changed: &mut Vec<[u8; 32]>,
    trees: &Trees,
    proof: &[[u8; 32]],
) -> Result<(), AllocError> {
    letters.push_str(trees.letter(proof))?;
    for place in 0..proof.len() {
        let (before, hash, after) = (&proof[..place], proof[place], &proof[place + 1..]);
        for other in [[flipped(hash)].as_slice(), &[], &[hash, hash]] {
            change(changed, before, other, after)?;
            letters.push_str(trees.letter(changed))?;
        }
    }
    push_other_sizes(letters, trees, proof)
}

/// The hash with its first byte changed.
fn flipped(hash: [u8; 32]) -> [u8; 32] {
    let mut other = hash;
    other[0] ^= 1;
    other
}

/// Makes these hashes of the three lists.
fn change(
    changed: &mut Vec<[u8; 32]>,
    before: &[[u8; 32]],
    other: &[[u8; 32]],
    after: &[[u8; 32]],
) -> Result<(), AllocError> {
    changed.clear();
    changed.extend_from_slice(before)?;
    changed.extend_from_slice(other)?;
    changed.extend_from_slice(after)
}

/// Adds the letters of the proof between trees of which one size is one less or one more.
fn push_other_sizes(
    letters: &mut String,
    trees: &Trees,
    proof: &[[u8; 32]],
) -> Result<(), AllocError> {
    let (old, new) = (trees.old_size, trees.new_size);
    letters.push_str(trees.letter_at(old.saturating_sub(1), new, proof))?;
    letters.push_str(trees.letter_at(old.saturating_add(1), new, proof))?;
    letters.push_str(trees.letter_at(old, new.saturating_sub(1), proof))?;
    letters.push_str(trees.letter_at(old, new.saturating_add(1), proof))
}
