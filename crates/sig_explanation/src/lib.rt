//! Why a bundle is not trusted, as JSON: what a refusal is explained with.
//!
//! ```text
//! {"cause":["Bundle","NoLeaf","Extension","Missing"],"link":"leaf","part":"KeyUsage"}
//! ```
//!
//! [`refusal`] makes the object of an error of the chain of trust, a total function of the error: `link`, the name of the
//! link that fails; `cause`, the names of the error's variants, the outermost first; and what the error keeps, under
//! members that `docs/LINKS.md` lists. [`with_policy_rules`] shows the rules of a policy, each with its refusal if it does
//! not hold of a certificate. The explanations of the other commands use [`with_cause`], [`with_inner_cause`],
//! [`with_merkle`] and the names of checkpoints' and proofs' faults.
#![tactic(auto)]

mod cause;
mod kept;
mod names;
mod policy;
mod refused;
mod rules;

pub use cause::{with_cause, with_inner_cause};
pub use kept::with_merkle;
pub use names::{checkpoint_name, merkle_name};
pub use policy::MOST_REFUSALS;
pub use refused::refusal;
pub use rules::{MOST_RULES, with_policy_rules};
