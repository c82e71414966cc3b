//! The explanation of a run of a witness: the outcome of each update, and why, as JSON.
//!
//! ```text
//! {"updateCount":"2","updates":[{"accepted":"2","origin":"log.example"},
//!  {"cause":["OldSize"],"expected":"2","got":"1","link":"old-size"}]}
//! ```
//!
//! The layer above uses one fact. [`witness_explanation`] makes the tree that the definition gives for every text: what
//! is wrong with it as a request; or why there are no logs to start from; or for each update in order the new head, or
//! the first link that fails, with what it compares.
#![tactic(auto)]

mod explanation;
mod refused;
mod start;
mod walk;

pub use explanation::witness_explanation;
pub use refused::MOST_UNSIGNED;
