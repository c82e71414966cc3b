//! Heads of one log over time, and entries watched in it: whether each head's tree has that of the head before it as
//! its first leaves, and what the heads show beside the list of all entries.
//!
//! The layer above uses three facts. [`audit`] is Ok if and only if `IsAudited` holds, and else fails with the first
//! part of it that does not. [`chain_collision`] returns `None` if and only if each head's hash is the root of the
//! list's first entries, and else two byte strings of equal SHA-256. [`audit_collision`] does the same for the heads
//! and for the watched entries, and [`compare_list`] for any list: whether it is the last head's at all.
//!
//! The hashes of a head are the consistency proof from the head before it (RFC 6962 section 2.1.2), those of a watch
//! the audit path of its entry under its head (section 2.1.1).
#![tactic(auto)]

mod auditor;
mod chain;
mod error;
mod head_collision;
mod heads;
pub mod laws;
mod listing;
mod log_collision;

pub use auditor::audit;
pub use chain::{Chain, ChainHead};
pub use error::AuditError;
pub use head_collision::chain_collision;
pub use heads::{AuditHead, Heads, Watch, WatchList};
pub use listing::{Listing, compare_list};
pub use log_collision::{audit_collision, chain_of};
