//! What a signer has at the end: the entry that a log returned for a signature, as an entry of a bundle, and the bundle
//! of what was signed (Sigstore bundle format). Nothing is signed here, and nothing is checked.
//!
//! The layer above uses two facts. A log entry of Rekor's API is converted if and only if each of its texts in
//! hexadecimal and in base64 has bytes, its tree's size is below 2^63 and its body has canonical JSON; the entry that
//! is made has the same values. The bundle of what was signed has exactly the four parts that it was made of.
#![tactic(auto)]

mod artifact;
mod conversion;
mod conversion_error;
mod decoded;

pub use artifact::SigningArtifact;
pub use conversion::try_from_log_entry;
pub use conversion_error::ConversionError;
