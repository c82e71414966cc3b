//! What is wrong with a text that has to be a request of `witness`: the first member that breaks its table.
//!
//! ```text
//! state                         of another kind: a list
//! origins[1].key                absent
//! updates                       beyond its range: more than 4,096
//! updates[7].oldSize            beyond its range: 2^64
//! ```
//!
//! The layer above uses two facts, as of sig_request_fault. Nothing is wrong with a text if and only if it is a request
//! of `witness`. The fault of a text that is not one is that it has more than 2^24 bytes; else that it is not JSON, or
//! has a float; else the first member in the order of the table, which is that of docs/REQUESTS.md. Whether the state
//! is one, and the origins can be added to it, is not checked.
#![tactic(auto)]

pub mod laws;
mod witness;

pub use witness::witness_request_fault;
