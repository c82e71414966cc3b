//! Trusted roots of Sigstore: which authorities and logs are trusted, and at what time.
//!
//! ```text
//! {"certificateAuthorities":[{"certChain":{"certificates":[{"rawBytes":"MIIB.."}]},
//!                             "validFor":{"start":"2023-01-01T00:00:00Z"}}],
//!  "tlogs":[{"publicKey":{"rawBytes":"MFkw..","validFor":{"start":"2023-01-01T00:00:00Z"}},
//!            "logId":{"keyId":"wNI9.."}}],
//!  "ctlogs":[]}
//! ```
//!
//! The layer above uses two facts. A text is read as the trusted root that its members are, if and only if they fit the
//! table of the format. A trusted root has at a time the certificates of the authorities that began by then, and the
//! keys of the logs whose range holds then; for equal log ids the last of these.
#![tactic(auto)]

mod client_config;
pub mod laws;
mod manual;
mod picked;
mod read;
mod record;
mod sigstore;
mod sparse;
mod trust_root;

pub use manual::ManualTrustRoot;
pub use picked::{pick_certificates, pick_keys};
pub use read::read_trusted_root;
pub use record::{
    CertificateAuthority, PublicKey, TimeRange, TransparencyLogInstance, TrustedRoot,
};
pub use sigstore::SigstoreTrustRoot;
pub use sparse::{SparseAuthority, SparseInstance};
pub use trust_root::TrustRoot;
