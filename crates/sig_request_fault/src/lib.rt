//! What is wrong with a text that has to be a request of `log`, `verify`, `consistency` or `audit`: the first member
//! that breaks the table of the command.
//!
//! ```text
//! rootHash                      absent
//! accepted[3].scheme            beside another member: the operation is `point`
//! policy.all[0].issuer          absent: the rule has no other member, or only an identity
//! policy.any                    beside another member: `all` is there
//! heads                         beyond its range: no head, or more than 256
//! watched[7].head               beyond its range: the index of no head
//! ```
//!
//! The layer above uses two facts. Nothing is wrong with a text if and only if it is a request of the command. And of a
//! text that is not one, the fault is that it has more than 2^24 bytes; else that it is not JSON, or has a float; else
//! the first member in the order of the table, which is that of docs/REQUESTS.md, whatever the order in the text.
//!
//! The readers of requests do not keep a member's name: this is a second pass over the text, for a caller that has to
//! tell what is wrong with it. It takes linear time, and the memory of a borrowed document. `laws` says that the tables
//! are those of the requests.
#![tactic(auto)]

mod audit;
mod consistency;
mod fault;
pub mod laws;
mod log;
mod policy;
mod row;
mod verify;

pub use audit::audit_request_fault;
pub use consistency::consistency_request_fault;
pub use fault::{RequestFault, request_fault};
pub use log::log_request_fault;
pub use policy::PolicyTable;
pub use row::AcceptedTable;
pub use verify::{DigestTable, verify_request_fault};
