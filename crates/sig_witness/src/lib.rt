//! The latest tree head of each log, kept over time: a log is known by its origin, and each new head has to grow from
//! the one that is kept.
//!
//! The layer above uses three facts. [`Witness::update`] is *Witness run*'s step: it takes a head if and only if the
//! log signed it and its proof leads from the kept head, and a call that fails changes nothing. In every witness the
//! heads of each log are chained, so that each is of the first entries of the latest list, or
//! [`Witness::witness_collision`] returns two byte strings of equal SHA-256. A witness signs nothing.
#![tactic(auto)]

mod decode;
mod encode;
mod error;
mod growth;
mod kept_log;
mod log_entries;
mod logs;
mod read_lines;
mod state_error;
mod state_lines;
mod witness;

pub use error::WitnessError;
pub use state_error::StateError;
pub use witness::Witness;
