//! Why a bundle is not trusted, and what was verified for one that is, as JSON: the whole explanation of a
//! verification.
//!
//! ```text
//! {"accepted":["key"],"cause":["Promise"],"keySha256":"c0d2..","link":"promise","messageSha256":"5ef1..",
//!  "scheme":"ECDSA_P256_SHA256_ASN1"}
//! ```
//!
//! The layer above uses two facts. [`refused_explanation`] makes the object of an error: what sig_explanation says of
//! it, and what its link compares, as sig_evidence shows it of the inputs, which are read a second time for it.
//! [`verified_explanation`] makes the object of what was verified, as sig_verified says it. That the error, or the
//! entry, is the result of these inputs is the caller's word: both are total, and show nothing of a part that cannot be
//! read. A [`ShownRoot`] is what many bundles need of one trusted root; the calls `.._under` take it. By [`laws`] all
//! that `verify_offline` can return for the same inputs is shown as one tree.
#![tactic(auto)]

mod bundle;
mod checked;
mod entry;
mod inputs;
mod key;
pub mod laws;
mod refused;
mod root;
mod trust;
mod verified;

pub use inputs::VerifyInputs;
pub use refused::{refused_explanation, refused_explanation_under};
pub use root::ShownRoot;
pub use verified::{verified_explanation, verified_explanation_under};
