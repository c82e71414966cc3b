//! The second line of a reply: what the log's own entries say of the entry that the inclusion proof is of, and of the
//! old root that the consistency proof is from.
//!
//! ```text
//! entry 2
//! prefix 3
//! other list
//! collision 00ab.. 00cd..
//! ```
ghost use Rattle.std.specs.Prelude.{◌≡◌, ◌↔◌, IfOk, IsTrue};
ghost use Rattle.sig_program.specs.ProofOf.{IsProofOf};
ghost use Rattle.sig_program.specs.ConsistencyLink.{IsGrown};
ghost use Rattle.sig_program.specs.SecondLine.{AreOfProof, IsFrontLine, IsFrontLineOf, IsLineOf, IsSecondLine};
ghost use Rattle.sig_program.specs.SecondLine.{entry_line, prefix_line};
ghost use Rattle.sig_reply.specs.SecondLine.{collision_line, other_line};

use sig_base::{Entries, OutOfMemory, Text};
use sig_merkle::uncounted::front_roots;
use sig_merkle::{consistency_collision, inclusion_collision, root_of};
use sig_rekor::InclusionProof;
use sig_reply::{collision_text, other_text};
use sig_request::ConsistencyRequest;
use std::alloc::Global;

/// Returns the second line of a reply of `log` or `verify`, empty if the request does not give entries:
///
/// - `other list` if the entries are not those of the proof's tree: their number is not its size, or their RFC 6962
///   root is not its root;
/// - `entry I` if they are, and the entry at the proof's index I is the logged body;
/// - `collision HEX HEX` if they are, and it is not: two different byte strings of equal SHA-256, in lower case.
///
/// Fails only if out of memory.
pub fn second_line(
    alloc: Global,
    entries: &Option<Entries>,
    body: &[u8],
    proof: &InclusionProof,
) -> Result<Text, OutOfMemory>
    requires { IsProofOf body.now proof.now }
    ensures { IfOk result (IsSecondLine entries.now body.now proof.now) }
{
    match entries {
        Some(entries) => line_of(alloc, entries, body, proof),
        None => Text::copy_of(alloc, ""),
    }
}

/// The line of a list of entries.
#[tactic(auto, using(crate::proofs::SecondLines::second_lines))]
fn line_of(
    alloc: Global,
    entries: &Entries,
    body: &[u8],
    proof: &InclusionProof,
) -> Result<Text, OutOfMemory>
    requires { IsProofOf body.now proof.now }
    ensures { IfOk result (IsLineOf entries.now body.now proof.now) }
{
    if !are_of_proof(entries, proof) {
        return other_text(alloc);
    }
    // A negative index is not that of a leaf.
    let Ok(index) = u64::try_from(proof.log_index) else {
        unreachable!()
    };
    match inclusion_collision(alloc, body, index, proof.hashes.as_slice(), entries)? {
        None => entry_text(alloc, proof.log_index),
        Some(found) => collision_text(alloc, &found),
    }
}

/// Whether the entries have the size and the root of the proof's tree.
#[tactic(auto, using(crate::proofs::SecondLines::whole_list))]
fn are_of_proof(entries: &Entries, proof: &InclusionProof) -> bool
    ensures { IsTrue result ↔ AreOfProof entries.now proof.now }
{
    if entries.len() as u64 != proof.tree_size {
        return false;
    }
    if root_of(entries, entries.len()) != proof.root_hash {
        return false;
    }
    true
}

/// Returns the second line of a reply of `consistency`, empty if the request does not give entries:
///
/// - `other list` if the entries are not those of the new tree: their number is not its size, or their RFC 6962 root
///   is not its root;
/// - `prefix M` if they are, and the old root is that of the first M of them, M being the old size;
/// - `collision HEX HEX` if they are, and it is not: two different byte strings of equal SHA-256, in lower case.
///
/// Fails only if out of memory.
pub fn front_line(alloc: Global, request: &ConsistencyRequest) -> Result<Text, OutOfMemory>
    requires { IsGrown request.now }
    ensures { IfOk result (IsFrontLine request.now.entries request.now) }
{
    match &request.entries {
        Some(entries) => front_line_of(alloc, request, entries),
        None => Text::copy_of(alloc, ""),
    }
}

/// The line of a list of entries, whose tree is hashed once, the tree of its first entries with it.
#[tactic(auto, using(crate::proofs::FrontLines::front_lines))]
fn front_line_of(
    alloc: Global,
    request: &ConsistencyRequest,
    entries: &Entries,
) -> Result<Text, OutOfMemory>
    requires { IsGrown request.now }
    ensures { IfOk result (IsFrontLineOf entries.now request.now) }
{
    if entries.len() as u64 != request.tree_size {
        return other_text(alloc);
    }
    let roots = front_roots(entries, request.old_size as usize);
    if roots.new != request.root_hash {
        return other_text(alloc);
    }
    if roots.old == request.old_root {
        return prefix_text(alloc, request.old_size);
    }
    match consistency_collision(
        alloc,
        request.old_size,
        &request.old_root,
        request.hashes.as_slice(),
        entries,
    )? {
        Some(found) => collision_text(alloc, &found),
        // The old root is not that of the first entries.
        None => unreachable!(),
    }
}

/// `entry I`.
fn entry_text(alloc: Global, index: i64) -> Result<Text, OutOfMemory>
    ensures { IfOk result (λ line. line ≡ entry_line index) }
{
    Ok(Text::from(format!(in alloc; "entry {index}\n")?))
}

/// `prefix M`.
fn prefix_text(alloc: Global, count: u64) -> Result<Text, OutOfMemory>
    ensures { IfOk result (λ line. line ≡ prefix_line count) }
{
    Ok(Text::from(format!(in alloc; "prefix {count}\n")?))
}
