//! The commands `witness` and `questions witness`: the latest tree head of each log, kept over time in a text.
//!
//! ```text
//! accepted 1
//! refused old-size 1
//!
//! log.example
//! ECDSA_P256_SHA256_ASN1
//! a2V5
//! 1
//! OVqgZKpMKfcBCs/j8l25SFu9S5GJe2rXrVR2OSUrTVY=
//! ```
//!
//! The layer above uses three facts. [`witness_reply`] makes the reply that is defined: a line for each update, and the
//! state that *Witness run* makes of the one that the request gives; `refused request` if and only if the text is not a
//! request, its state is not one, or an origin cannot be added. [`witness_questions`] lists the signatures that it can
//! rest on. And nothing but these matters.
#![tactic(auto)]

pub mod laws;
mod outcome;
mod questions;
mod reply;
pub mod request;
mod row_list;
mod rows;
pub mod start;
mod updating;

pub use questions::witness_questions;
pub use reply::witness_reply;
