//! `ManualTrustRoot`: what is trusted, as a caller gives it.
ghost use Rattle.std.specs.Prelude.{Ok};

use crate::trust_root::TrustRoot;
use sig_base::{Entries, KeyMap, Result};
use std::alloc::Global;

/// A trust root that is the same at every time.
#[derive(Drop)]
pub struct ManualTrustRoot {
    /// The certificates of the authorities (DER).
    pub fulcio_certs: Entries,
    /// The keys of the logs of signatures (DER), by their log ids in lower-case hexadecimal.
    pub rekor_keys: KeyMap,
    /// The keys of the Certificate Transparency logs (DER), by their log ids in lower-case hexadecimal.
    pub ctfe_keys: KeyMap,
}

impl TrustRoot for ManualTrustRoot {
    ghost authorities_at = { λ root now. Ok root.fulcio_certs };

    ghost log_keys_at = { λ root now. Ok root.rekor_keys };

    ghost ct_keys_at = { λ root now. Ok root.ctfe_keys };

    fn fulcio_certs(&self, alloc: Global, _now: i64) -> Result<Entries> {
        Ok(self.fulcio_certs.copy(alloc)?)
    }

    fn rekor_keys(&self, alloc: Global, _now: i64) -> Result<KeyMap> {
        Ok(self.rekor_keys.copy(alloc)?)
    }

    fn ctfe_keys(&self, alloc: Global, _now: i64) -> Result<KeyMap> {
        Ok(self.ctfe_keys.copy(alloc)?)
    }
}
