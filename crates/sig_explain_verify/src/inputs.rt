//! What a bundle was verified with.

use sig_base::TableChecker;
use sig_bundle::ArtifactDigest;
use sig_policy::RequestPolicy;

/// What a bundle was verified with.
#[derive(Clone, Copy)]
pub struct VerifyInputs<'a> {
    /// The text of the trusted root.
    pub trusted_root: &'a [u8],
    /// The time, in seconds since 1970.
    pub now: i64,
    /// The digest of the artifact.
    pub digest: &'a ArtifactDigest,
    /// The text of the bundle.
    pub bundle: &'a [u8],
    /// What the certificate has to say of the signer.
    pub policy: &'a RequestPolicy,
    /// The signatures that are accepted as genuine.
    pub accepted: &'a TableChecker,
}
