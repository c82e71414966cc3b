//! The commands `audit` and `questions audit`: heads of one log over time, and entries watched in it.
//!
//! ```text
//! audited 2 1 1
//! prefixes 2
//! ```
//!
//! The layer above uses three facts. [`audit_reply`] makes the reply of the definition: the success line if and only if
//! every link holds, else the first link that fails. [`audit_questions`] lists the signatures that it can depend on.
//! And nothing but these matters.
#![tactic(auto)]

mod audit;
mod key;
pub mod laws;
mod link;
mod questions;
pub mod read_heads;
mod reply;
mod rows;
mod second_line;

pub use audit::audit_reply;
pub use key::audit_of;
pub use link::AuditLink;
pub use questions::audit_questions;
