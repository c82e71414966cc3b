//! What is wrong with a text that has to be a bundle, or a trusted root: the first member that breaks the table of the
//! format.
//!
//! ```text
//! verificationMaterial.tlogEntries[0].inclusionProof.rootHash    of another kind
//! tlogs[2].publicKey.validFor.start                              of another kind
//! verificationMaterial.tlogEntries[0].logIndex                   beyond its range
//! dsseEnvelope                                                   beside another content
//! ```
//!
//! The layer above uses two facts. Nothing is wrong with a text if and only if `read_bundle` (`read_trusted_root`)
//! reads it, and else the cause is the same: not JSON, a float, a member. Of a member, the fault is the first in the
//! order of the rows of the record. The members of the formats are optional, so none is ever absent.
//!
//! The readers do not keep a member's name: this is a second pass over the text, for a caller that has to tell what is
//! wrong with it. It takes linear time, and the memory of a borrowed document. `laws` says that the tables are those of
//! the records.
#![tactic(auto)]

mod bundle;
mod common;
mod content;
mod entry;
pub mod laws;
mod root;

pub use bundle::bundle_fault;
pub use root::root_fault;
