//! The program except for its words and its standard streams: the links and the replies of each command, and
//! [`run::run`], which carries the promise of this project. sig_request reads the requests.
//!
//! Replies:
//!
//! ```text
//! logged 0 1
//! refused note-match
//! ```
//!
//! What the layer above uses: [`run::run`] over any source and sink; or, over a request in memory, the reply of a
//! [`command::Command`], and [`explain::explained_reply`]. [`demo::demo`] shows `log` at work, without a request.
#![tactic(auto)]

pub mod command;
pub mod consistency;
pub mod consistency_questions;
pub mod demo;
pub mod explain;
mod explain_consistency;
mod explain_log;
mod explain_verify;
pub mod explained;
mod explanation;
mod head;
mod head_questions;
mod invocation;
mod laws;
pub mod log;
pub mod log_questions;
mod reply;
pub mod run;
mod second_line;
pub mod verify;
pub mod verify_questions;
mod write;
