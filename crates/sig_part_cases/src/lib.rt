//! Arguments of cases that are values of crates above sig_base: checkpoints, keys, pools of certificates and rules.
//!
//! As with [`Arguments`], no call fails: what cannot be read is empty, and makes the line a `bad line`.
//!
//! [`Arguments`]: sig_cases::Arguments
#![tactic(auto)]

mod checkpoints;
mod keys;
mod pools;
mod rules;

pub use checkpoints::checkpoint;
pub use keys::verification_key;
pub use pools::pool;
pub use rules::rule_named;
