//! `Verdict`: the result of a gate for an artifact and each of its bundles.

use sig_base::OwnedList;
use sig_verify::{Link, LoggedEntry};

/// The result for a bundle.
#[derive(Drop)]
pub enum BundleVerdict {
    /// Every link of the chain of trust holds; this is the bundle's log entry, with its proof.
    Verified(LoggedEntry),
    /// This link of the chain of trust is the first that fails.
    Refused(Link),
}

/// Verdicts on bundles in order.
pub type BundleVerdicts = OwnedList<BundleVerdict>;

/// The result for an artifact.
#[derive(Drop)]
pub struct Verdict {
    /// Whether it is admitted: at least one of its bundles is verified, and its rule holds of those that are.
    pub admitted: bool,
    /// The results for its bundles, in order.
    pub bundles: BundleVerdicts,
}

/// Verdicts on artifacts in order.
pub type Verdicts = OwnedList<Verdict>;
