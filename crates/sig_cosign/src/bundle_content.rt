//! `BundleContent`: what a log says of a layer's signature.
ghost use Rattle.std.specs.Prelude.{◌≡◌};
ghost use Rattle.sig_cosign.specs.Layer.{time_of};

use sig_bundle::TransparencyLogEntry;
use sig_payload::Bundle;

/// What a log says of a layer's signature.
#[derive(Drop)]
pub enum BundleContent {
    /// What Rekor promised, stored as an annotation.
    RekorBundle(Bundle),
    /// The entry of a Sigstore bundle.
    SigstoreBundle(TransparencyLogEntry),
}

impl BundleContent {
    /// Returns when the log took the entry, in seconds since 1970.
    pub fn integrated_time(&self) -> i64
        ensures { result ≡ time_of self.now }
    {
        match self {
            BundleContent::RekorBundle(bundle) => bundle.payload.integrated_time,
            BundleContent::SigstoreBundle(entry) => entry.integrated_time,
        }
    }
}
