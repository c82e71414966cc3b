//! A log's Merkle tree, as RFC 6962 section 2.1 defines it: its hashes, its root and paths, the checks
//! that a leaf is in it and that an older tree is its first leaves, and what a proof shows beside the
//! list of all entries.
//!
//! - `hashing`: the hash of nothing, of a leaf and of a node.
//! - `inclusion`: the root that an audit path leads to, and the check against a root. The result
//!   is the definition `inclusion_answer`; it is Ok if and only if `IsIncluded` holds.
//! - `consistency`: the check that one tree grew from another. The result is the definition
//!   `consistency_answer`; it is Ok if and only if `IsConsistent` holds.
//! - `tree`: the root of a list of entries, and the audit path of one of them: the definitions `root`
//!   and `audit_path`, which are the standard's MTH and PATH. `subproof`: the standard's PROOF.
//! - `repeats`: what a tree of many equal entries keeps, so that no hash is made twice.
//! - `front`: the roots of a list and of its first entries together, each node hashed once; `fronts`: those of its
//!   first entries at several sizes.
//! - `entry_collision`, `paths_collision`, `growth_collision`: an accepted proof of an entry that the
//!   list does not have at the index, accepted proofs of two entries at one index, and an accepted
//!   consistency proof from a root that is not that of the list's first entries, give two byte strings
//!   of equal SHA-256, `IsCollision`. `meeting`: what two texts show that are hashed beside each other.
//! - `walk`, `growth_walk`: how the checks follow a proof: from the leaf, or the last node that the
//!   older tree fills, up by bits, without a recursion. The laws `inclusion_walks` and
//!   `consistency_walks` say that the walks lead where the standard's recursions do.
//! - `recursion`: those recursions as plain programs, line by line beside the standard. No check
//!   calls them: they stay so that a test can run both and see that the faster body kept the meaning.
//! - `uncounted`: the same checks, by the same bodies, for a caller that does not count steps. There are two since a
//!   counter needs a ledger, which the crates above would have to hand down for nothing.
//! - `laws`: what the definitions mean, in the standard's own words. It has no code.
#![tactic(auto)]

mod consistency;
mod entry_collision;
mod front;
mod fronts;
mod growth_collision;
mod growth_walk;
mod hashing;
mod inclusion;
pub mod laws;
mod meeting;
mod paths_collision;
pub mod recursion;
mod repeats;
mod split;
mod subproof;
mod tree;
pub mod uncounted;
mod walk;

pub use consistency::verify_consistency;
pub use entry_collision::{inclusion_collision, inclusion_collision_in};
pub use front::front_roots;
pub use fronts::roots_of_fronts;
pub use growth_collision::{consistency_collision, consistency_collision_in};
pub use growth_walk::{Roots, chain_inner_right};
pub use hashing::{empty_root, hash_children, hash_leaf};
pub use inclusion::{root_from_inclusion_proof, verify_inclusion};
pub use paths_collision::proof_collision;
pub use subproof::proof_of;
pub use tree::{path_of, root_of};
pub use walk::{chain_border_right, chain_inner, decomp_inclusion_proof};
