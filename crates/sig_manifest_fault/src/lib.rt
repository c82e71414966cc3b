//! What is wrong with a text that has to be a manifest, the request of `gate`: the first member that breaks the table,
//! or else the first artifact that names a trusted root or a policy that is not there.
//!
//! ```text
//! roots.sigstore                   of another kind: not a text
//! policies.release.any             beside another member: `all` is there
//! artifacts                        beyond its range: none, more than 256, or more than 256 bundles together
//! artifacts[3].rule.all[0].least   beyond its range: not from 1 to 16
//! artifacts[3].rule                beyond its range: more than 64 nodes
//! artifacts[7].root                beyond its range: no trusted root has this name
//! ```
//!
//! The layer above uses one fact. The fault of a text is that of the definition: it has more than 2^24 bytes; else it
//! is not JSON, or has a float; else the first member in the order of the table, which is that of docs/REQUESTS.md,
//! whatever the order in the text; else the first name that is not there.
//!
//! The reader of manifests does not keep a member's name: this is a second pass over the text, for a caller that has to
//! tell what is wrong with it. It takes linear time, and the memory of two readings.
#![tactic(auto)]

mod artifact;
pub mod laws;
mod manifest;
mod range;
mod rule;
mod unknown;
mod values;

pub use manifest::manifest_fault;
