//! The texts that are written from the tree of a document: canonical JSON (RFC 8785) and compact JSON.
//!
//! What the layer above uses:
//!
//! - The canonical text of a tree is that of RFC 8785: in each object the members come in the ascending order of the
//!   UTF-16 code units of their names. It fails with `IntegerTooLarge` if and only if the tree holds an integer outside
//!   plus or minus 2^53 - 1.
//! - The compact text of a tree that nests to 127 is read back as the same tree.
//! - A text in quotation marks has the escapes of canonical JSON.
//!
//! `laws` says what the definitions mean.
#![tactic(auto)]

mod canonical_form;
mod compact_form;
mod error;
pub mod laws;
mod member_order;
mod named_member;

pub use canonical_form::{canonical, quoted};
pub use compact_form::compact;
pub use error::CanonicalError;
