//! The different signatures of a list, so that a checker is asked once for each.
ghost use Rattle.std.specs.Prelude.{◌≡◌, ℕ, List, map, Bool, IfOk};
ghost use Rattle.std.specs.List.{list_any};

use crate::checkpoint::CheckpointSignature;
use sig_base::OutOfMemory;
use std::alloc::Global;

/// Returns the raw bytes of the signatures, each once, in byte order. Fails only if out of memory.
///
/// The sort takes no memory, and compares each signature about log n times, which costs at most its own bytes.
pub fn different(
    alloc: Global,
    signatures: &[CheckpointSignature],
) -> Result<Vec<&[u8]>, OutOfMemory>
    ensures { IfOk result (λ raws. (test : List ℕ → Bool)
        → list_any (λ raw. test raw.now) raws.items ≡ list_any (λ s. test s.raw) signatures.now) }
{
    let mut raws = raws_of(alloc, signatures)?;
    raws.sort_unstable();
    raws.dedup();
    Ok(raws)
}

/// Returns the raw bytes of the signatures in their order, 16 bytes for each. Fails only if out of memory.
#[tactic(auto, using(std::proofs::lemmas::List::map_more))]
fn raws_of(alloc: Global, signatures: &[CheckpointSignature]) -> Result<Vec<&[u8]>, OutOfMemory>
    ensures { IfOk result (λ raws. map (λ raw. raw.now) raws.items ≡ map (λ s. s.raw) signatures.now) }
{
    let mut raws = Vec::with_capacity(alloc, signatures.len())?;
    for signature in signatures {
        raws.push(signature.raw.as_slice())?;
    }
    Ok(raws)
}
