//! `TrustRoot`: what is trusted at a time.
ghost use Rattle.std.specs.Prelude.{ℕ, ℤ, List, Result};
ghost use Rattle.sig_base.specs.Answers.{Answers};
ghost use Rattle.sig_base.specs.declared.error.SigstoreError.{SigstoreError as error_type};

use sig_base::{Entries, KeyMap, Result, SigstoreError};
use std::alloc::Global;

/// What is trusted at a time, in whole seconds since 1970. Each call returns what the root means by it at that time, a
/// list, a map or an error, unless memory runs out.
pub trait TrustRoot {
    /// The certificates of the authorities (DER), or an error.
    ghost authorities_at: { Self → ℤ → Result (List (List ℕ)) error_type };

    /// The keys of the logs of signatures by their log ids, or an error.
    ghost log_keys_at: { Self → ℤ → Result (List (List ℕ × List ℕ)) error_type };

    /// The keys of the Certificate Transparency logs by their log ids, or an error.
    ghost ct_keys_at: { Self → ℤ → Result (List (List ℕ × List ℕ)) error_type };

    /// Returns the certificates of the authorities (DER), in order.
    fn fulcio_certs(&self, alloc: Global, now: i64) -> Result<Entries>
        ensures { Answers SigstoreError.OutOfMemory (λ certs. certs) result (authorities_at self.now now) };

    /// Returns the keys (DER) of the logs of signatures, by their log ids in lower-case hexadecimal.
    fn rekor_keys(&self, alloc: Global, now: i64) -> Result<KeyMap>
        ensures { Answers SigstoreError.OutOfMemory (λ keys. keys) result (log_keys_at self.now now) };

    /// Returns the keys (DER) of the Certificate Transparency logs, by their log ids in lower-case hexadecimal.
    fn ctfe_keys(&self, alloc: Global, now: i64) -> Result<KeyMap>
        ensures { Answers SigstoreError.OutOfMemory (λ keys. keys) result (ct_keys_at self.now now) };
}
