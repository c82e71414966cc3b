//! The explanation of an audit: why it is refused, or what was audited, as JSON.
//!
//! ```text
//! {"cause":["Origin"],"expected":"log.example","got":"other.example","index":"1","link":"origin"}
//! ```
//!
//! The layer above uses one fact. [`audit_explanation`] makes the tree that the definition gives for every text: what
//! is wrong with it as a request; or the first head that is not a checkpoint; or the first link that fails, with what
//! it compares; or what was audited.
#![tactic(auto)]

mod audited;
mod explanation;
mod refused;

pub use audited::MOST_SHOWN;
pub use explanation::audit_explanation;
