//! The signer that a certificate names: the subject and the claims of a certificate from which a path leads to a
//! trust anchor, and that was valid when a log took the signature.
//!
//! ```text
//! subject alternative name (RFC 5280 section 4.2.1.6), the first email or URI:  Email or Uri
//! 1.3.6.1.4.1.57264.1.1 (Fulcio):  who says so
//! 1.3.6.1.4.1.57264.1.2 to .6:     trigger, SHA, name, repository and ref of a GitHub workflow
//! ```
//!
//! The layer above uses three facts. A certificate names the first email or URI of its one subject alternative name.
//! What is returned of a certificate's bytes is its key, its subject and its claims, if and only if a pool finds its
//! issuer, it passes the checks of a certificate that signed, and its key and its claims can be read; and else the
//! first of these that fails is the error. Its claims are the texts that the policies of sig_policy compare, if there
//! is at most one extension of each identifier.
#![tactic(auto)]

mod certificate_signature;
mod claims;
pub mod laws;
mod show;
mod subject;

pub use certificate_signature::{CertificateSignature, pool_error};
pub use subject::CertificateSubject;
