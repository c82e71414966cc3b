//! The command `explain gate`: the reply of `gate`, and why. The explanation says for each artifact of a manifest
//! whether it is admitted, and for each of its bundles why it is not trusted, or what was verified; or what is wrong
//! with a text that is not a manifest.
//!
//! ```text
//! {"artifacts":[{"admitted":"no","bundles":[{"cause":["Certificate","Expired"],"link":"time",..}],"name":"tool-1.0.tar.gz"}]}
//! {"cause":["Member"],"link":"request","path":"artifacts[7].root","why":"BeyondRange"}
//! ```
//!
//! The layer above uses one fact: [`explained_gate`] returns the reply of `gate`, and the document whose tree the
//! definition gives. Both are made of one reading of the manifest and of the same verdicts: each trusted root is held
//! once, and each bundle is verified once. By [`laws`] a text has one such tree.
#![tactic(auto)]

mod artifact;
mod artifacts;
mod bundle;
mod explanation;
pub mod laws;
mod roots;

pub use explanation::{ExplainedGate, explained_gate};
