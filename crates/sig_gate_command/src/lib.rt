//! The commands `gate` and `questions gate`: the admission of many artifacts by a manifest.
//!
//! ```text
//! artifact tool-1.0.tar.gz admit
//! bundle 0 verified 2 5
//! artifact tool-1.1.tar.gz deny rule
//! bundle 0 refused time
//! bundle 1 verified 3 5
//! admitted 1 of 2
//! ```
//!
//! The layer above uses four facts. [`gate_reply`] makes the reply of the definition: the report of the verdicts, or
//! `refused request` if and only if the text is not a manifest. [`report_reply`] makes it from verdicts that a caller
//! has. [`gate_questions`] lists the signatures that the reply can depend on, each once. And nothing but these matters.
#![tactic(auto)]

mod asked_roots;
pub mod laws;
mod questions;
mod reply;
mod request;
mod row_list;
mod rows;

pub use questions::{MOST_ASKED, gate_questions};
pub use reply::{gate_reply, report_reply};
pub use request::GateRequest;
