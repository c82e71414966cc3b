//! Distinguished names as texts (RFC 4514).
//!
//! ```text
//! CN=sigstore-intermediate,O=sigstore.dev
//! ```
//!
//! The layer above uses one fact. [`name_text`] returns the text of a name, of its DER, if each part of the name has one
//! attribute, of a type that has a name and of a value that is a text; else none.
#![tactic(auto)]

mod name;
mod text;

pub use text::{MOST_PARTS, name_text};
