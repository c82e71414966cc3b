//! A gate: which artifacts of a manifest are admitted, by what their bundles show.
//!
//! ```text
//! artifact tool-1.0.tar.gz admit
//! bundle 0 refused time
//! bundle 1 verified 2 5
//! admitted 1 of 1
//! ```
//!
//! The layer above uses two facts. The verdict on a bundle is the one that offline verification gives under the trusted
//! root and the policy that the artifact names; and an artifact is admitted if and only if one of its bundles is
//! verified and its rule holds of those that are. The report is the text of names and verdicts that the definition
//! gives.
#![tactic(auto)]

mod admission;
mod decision;
mod different;
mod holding;
mod judging;
pub mod laws;
mod named_policies;
mod named_roots;
mod report_text;
mod verdict;

pub use admission::gate;
pub use decision::is_admitted;
pub use named_policies::{NamedPolicies, hold_policy};
pub use report_text::{all_admitted, report};
pub use verdict::{BundleVerdict, BundleVerdicts, Verdict, Verdicts};
