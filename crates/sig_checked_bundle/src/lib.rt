//! Sigstore bundles that are checked as far as a bundle can be checked by itself. No signature is checked here, and no
//! digest compared.
//!
//! The layer above uses three facts. A bundle passes its own checks if and only if no error has its cause, and else
//! fails with the first. A checked bundle returns its log entry if and only if the entry is about what the bundle
//! holds. `laws` says what a bundle that passes holds.
#![tactic(auto)]

mod bundle_error;
mod checked_bundle;
mod content_check;
mod dsse_body;
mod hashedrekord;
pub mod laws;
mod log_body;
mod profile_check;
mod signing_certificate;
mod version;

pub use bundle_error::{
    Bundle01ProfileErrorKind, Bundle02ProfileErrorKind, BundleErrorKind, BundleProfileErrorKind,
};
pub use checked_bundle::CheckedBundle;
pub use content_check::CheckedContent;
pub use dsse_body::is_about_envelope;
pub use version::Version;
