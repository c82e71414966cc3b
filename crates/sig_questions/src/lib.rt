//! The questions that the chain of trust of a signed bundle asks of a signature checker, as rows of a table.
//!
//! The layer above uses one fact. [`questions`] returns the rows that the chain of trust can depend on: two checkers
//! that agree on each of them have the same links that hold. Or it says which link fails whatever the checker says.
//! [`AskedRoot`] lists them for many bundles under one trusted root, which is read once.
#![tactic(auto)]

mod anchors;
mod asked_root;
mod bytes;
mod content;
mod entry;
mod front;
pub mod laws;
mod listing;
mod paths;
mod points;
mod rows;
mod trust;

pub use asked_root::AskedRoot;
pub use listing::{NoQuestions, questions};
