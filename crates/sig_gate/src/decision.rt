//! Whether an artifact is admitted.
ghost use Rattle.std.specs.Prelude.{◌≡◌, ◌↔◌, true, [], ◌∷◌, IfOk};
ghost use Rattle.std.specs.List.{list_any};
ghost use Rattle.sig_gate.specs.RuleHolds.{IsAdmitted};
ghost use Rattle.sig_gate.specs.Report.{is_verified};
ghost use Rattle.sig_gate.specs.VerifiedBundles.{entries_of, larger, largest_from};
ghost use Rattle.sig_manifest.specs.Formula.{rule_view};

use crate::different::count_different;
use crate::holding::{Shown, holds};
use crate::verdict::BundleVerdict;
use sig_base::OutOfMemory;
use sig_manifest::Rule;
use std::alloc::Global;

/// Returns whether at least one bundle is verified, and the rule holds of those that are. Fails only if out of memory.
pub fn is_admitted(
    alloc: Global,
    rule: &Rule,
    bundles: &[BundleVerdict],
) -> Result<bool, OutOfMemory>
    ensures { IfOk result (λ admitted. (admitted ≡ true) ↔ IsAdmitted (rule_view rule.now) (entries_of bundles.now)) }
{
    if !has_verified(bundles) {
        return Ok(false);
    }
    let different = count_different(alloc, bundles)?;
    let largest = largest_size(bundles);
    let shown = Shown {
        bundles,
        different,
        largest,
    };
    Ok(holds(rule, &shown))
}

/// Whether at least one bundle is verified.
pub(crate) fn has_verified(bundles: &[BundleVerdict]) -> bool
    ensures { result ≡ list_any is_verified bundles.now }
{
    bundles.iter().any(|verdict| is_verified(verdict))
}

/// Whether a bundle is verified.
fn is_verified(verdict: &BundleVerdict) -> bool
    ensures { result ≡ is_verified verdict.now }
{
    match verdict {
        BundleVerdict::Verified(_) => true,
        BundleVerdict::Refused(_) => false,
    }
}

/// The largest tree size of the proofs of bundles that are verified; 0 if none is.
#[tactic(auto, using(crate::proofs::VerdictWalks::sizes))]
fn largest_size(bundles: &[BundleVerdict]) -> u64
    ensures { result ≡ largest_from 0 (entries_of bundles.now) }
{
    let mut largest = 0;
    'bundles: for verdict in bundles {
        largest = with_size(largest, verdict);
    }
    largest
}

/// The larger of a tree size and that of a bundle's proof, if the bundle is verified.
fn with_size(largest: u64, verdict: &BundleVerdict) -> u64
    ensures { result ≡ largest_from largest (entries_of (verdict.now ∷ [])) }
{
    match verdict {
        BundleVerdict::Verified(entry) => larger(largest, entry.proof.tree_size),
        BundleVerdict::Refused(_) => largest,
    }
}

/// The larger of two sizes.
fn larger(a: u64, b: u64) -> u64
    ensures { result ≡ larger a b }
{
    if a < b { b } else { a }
}
