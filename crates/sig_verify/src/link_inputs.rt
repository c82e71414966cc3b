//! `LinkInputs`: what every link of the chain of trust may need.

use sig_bundle::ArtifactDigest;
use std::alloc::Global;

/// What every link may need beside the document that it is about: memory, the digest of the artifact, the policy and
/// the checker of signatures.
#[derive(Drop)]
pub(crate) struct LinkInputs<'a, P, C> {
    pub(crate) alloc: Global,
    /// The digest of the artifact.
    pub(crate) digest: &'a ArtifactDigest,
    /// What has to hold of the certificate.
    pub(crate) policy: &'a P,
    /// The checker that says whether a signature is genuine.
    pub(crate) checker: &'a C,
}
