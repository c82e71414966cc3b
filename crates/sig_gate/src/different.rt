//! How many different log bodies the verified bundles of an artifact have.
ghost use Rattle.std.specs.Prelude.{◌≡◌, ℕ, List, map, Bool, IfOk, length};
ghost use Rattle.std.specs.List.{list_any};
ghost use Rattle.sig_gate.specs.RuleHolds.{AreDifferent, bodies_of};
ghost use Rattle.sig_gate.specs.VerifiedBundles.{IsDifferentCount, entries_of};

use crate::verdict::BundleVerdict;
use sig_base::OutOfMemory;
use std::alloc::Global;

/// How many different log bodies the verified bundles have. Fails only if out of memory.
pub(crate) fn count_different(
    alloc: Global,
    bundles: &[BundleVerdict],
) -> Result<usize, OutOfMemory>
    ensures { IfOk result (IsDifferentCount (entries_of bundles.now)) }
{
    let bodies = different_bodies(alloc, bundles)?;
    let count = bodies.as_slice().len();
    drop(bodies);
    Ok(count)
}

/// The log bodies of the verified bundles, each once, in byte order. Fails only if out of memory.
///
/// The sort takes no memory, and compares each body about log n times, which costs at most its own bytes.
fn different_bodies(alloc: Global, bundles: &[BundleVerdict]) -> Result<Vec<&[u8]>, OutOfMemory>
    ensures kept { IfOk result (λ bodies. (test : List ℕ → Bool)
        → list_any (λ body. test body.now) bodies.items ≡ list_any test (bodies_of (entries_of bundles.now))) }
    ensures apart { IfOk result (λ bodies. AreDifferent (map (λ body. body.now) bodies.items)) }
{
    let mut bodies = bodies_of(alloc, bundles)?;
    bodies.sort_unstable();
    bodies.dedup();
    Ok(bodies)
}

/// The log bodies of the verified bundles in their order. Fails only if out of memory.
#[tactic(auto, using(crate::proofs::VerdictWalks::bodies))]
fn bodies_of(alloc: Global, bundles: &[BundleVerdict]) -> Result<Vec<&[u8]>, OutOfMemory>
    ensures { IfOk result (λ bodies. map (λ body. body.now) bodies.items ≡ bodies_of (entries_of bundles.now)) }
{
    let mut bodies = Vec::new(alloc);
    'bundles: for verdict in bundles {
        if let BundleVerdict::Verified(entry) = verdict {
            bodies.push(entry.body.as_slice())?;
        }
    }
    Ok(bodies)
}
