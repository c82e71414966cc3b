//! The consistency proof of a list of entries (RFC 6962 section 2.1.2).
ghost use Rattle.std.specs.Prelude.{◌≡◌, ◌++◌, ◌<◌, ◌≤◌, Bool, length, IfOk, OnOk};
ghost use Rattle.sig_merkle.specs.ConsistencyProof.{shared_proof, subproof, consistency_proof};

use crate::tree::{halves, root_in};
use sig_base::{Bytes, Entries, Hashes, OutOfMemory};
use std::alloc::Global;

/// Returns the consistency proof between the first `old` entries and all of them, PROOF of RFC 6962
/// section 2.1.2: it has no hash where `old` is their number. Fails only if out of memory.
pub fn proof_of(alloc: Global, entries: &Entries, old: usize) -> Result<Hashes, OutOfMemory>
    requires some { 0 < old }
    requires within { old ≤ length entries.now }
    ensures { IfOk result (λ proof. proof ≡ consistency_proof old entries.now) }
{
    let mut proof = Hashes::new(alloc);
    push_proof(&mut proof, entries.as_slice(), old, true)?;
    Ok(proof)
}

/// Adds the hashes of SUBPROOF. `known` says that the root of the first `old` entries is not one.
#[tactic(auto, using(crate::proofs::SubproofSteps::pushes_proof))]
fn push_proof(
    proof: &mut Hashes,
    entries: &[Bytes],
    old: usize,
    known: bool,
) -> Result<(), OutOfMemory>
    requires some { 0 < old }
    requires within { old ≤ length entries.now }
    ensures { OnOk result (proof.new ≡ proof.old ++ subproof old entries.now known) }
{
    if old == entries.len() {
        return push_shared(proof, entries, known);
    }
    let (left, right) = halves(entries);
    if old <= left.len() {
        push_proof(proof, left, old, known)?;
        proof.push(root_in(right))
    } else {
        push_proof(proof, right, old - left.len(), false)?;
        proof.push(root_in(left))
    }
}

/// Adds the root of the tree that both have, unless it is known.
fn push_shared(proof: &mut Hashes, entries: &[Bytes], known: bool) -> Result<(), OutOfMemory>
    ensures { OnOk result (proof.new ≡ proof.old ++ shared_proof known entries.now) }
{
    if known {
        return Ok(());
    }
    proof.push(root_in(entries))
}
