//! The chain of trust of a signed bundle: which links it has, and whether each holds.
//!
//! The layer above uses one fact. [`verify_offline`] returns what the five groups of links make of the two texts, one
//! after the other: the error of the first that fails, or the entry that a log vouches for, with its proof. Each group
//! is a call with a contract of its own: the two readers, [`Verifier::new`], the bundle's own checks and
//! [`Verifier::verify_digest_with`], [`verify_log_entry`]. A [`HeldRoot`] is what many bundles need of one trusted
//! root: it is read once, and [`HeldRoot::verify`] returns for each bundle what `verify_offline` does. Signatures are
//! genuine if the given [`SignatureChecker`](sig_base::SignatureChecker) says so, and every fact here is relative to
//! it.
#![tactic(auto)]

mod artifact;
mod chain;
mod content_check;
mod error;
mod held_root;
mod issuer_check;
pub mod laws;
mod link;
mod link_inputs;
mod log_entry;
mod logged_entry;
mod offline_error;
mod verifier;
mod verify;
mod verify_artifact;

pub use artifact::InputFault;
pub use chain::verify_offline;
pub use error::{CertificateErrorKind, SignatureErrorKind, VerificationError, VerificationResult};
pub use held_root::HeldRoot;
pub use link::Link;
pub use log_entry::{verify_log_entry, vouched};
pub use logged_entry::{LoggedEntry, Offline};
pub use offline_error::{OfflineError, Part};
pub use sig_root::{ManualTrustRoot, SigstoreTrustRoot, TrustRoot};
pub use verifier::{Verifier, keyring_of};
