//! Pools of trust anchors and intermediates: which of them issued a certificate (RFC 5280 sections 4.2 and 6.1, in the
//! profile of Sigstore). The crate re-exports what the three below it have for the same callers: certificates, their
//! SCTs, and policies.
//!
//! The layer above uses one fact. A pool returns the issuer in the first certification path that leads from the
//! certificate over its intermediates to a trust anchor, or that the certificate does not have the profile of what may
//! be issued, or that there is no path. `uncounted` has the same calls for a caller that does not count questions.
#![tactic(auto)]

mod asked;
mod by_key;
mod candidates;
mod issuance;
mod issuer;
mod key_order;
pub mod laws;
mod links;
mod pool;
mod possible;
mod reach;
mod search;
mod subjects;
mod table;
mod trust_anchors;
pub mod uncounted;

pub use issuer::Issuer;
pub use pool::CertificatePool;
pub use possible::{PossiblePaths, PossibleSigners, possible_paths};
pub use sig_certificate::{
    BasicConstraints, Certificate, CertificateValidationError, ExtensionErrorKind, ExtensionRef,
    KeyUsage, Lookup, NotCAErrorKind, NotLeafErrorKind, PartName, X509ReadError, der_to_pem, is_ca,
    is_leaf, is_root_ca, is_trusted, verify_expiration, verify_has_san, verify_key_usages,
    verify_validity,
};
pub use sig_policy::{
    AllOf, AnyOf, GitHubWorkflowName, GitHubWorkflowRef, GitHubWorkflowRepository,
    GitHubWorkflowSHA, GitHubWorkflowTrigger, Identity, LeafPolicies, LeafPolicy, OIDCIssuer,
    PolicyError, PolicyErrors, PolicyResult, RequestPolicy, SingleX509ExtPolicy,
    VerificationPolicy, verify_single,
};
pub use sig_timestamp::{
    CertificateEmbeddedSCT, CertificateErrorKind, DigitallySigned, Key, Keyring, KeyringError,
    SCTError, precert_tbs_der, verify_sct,
};
pub use trust_anchors::TrustAnchors;
