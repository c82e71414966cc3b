//! `HeldRoot`: a trusted root that is read once for many bundles.
ghost use Rattle.std.specs.Prelude.{◌≡◌, IfOk};
ghost use Rattle.sig_base.specs.Answers.{UnlessMemory};
ghost use Rattle.sig_verify.specs.HeldRoot.{IsGivenBy, IsHeldIn, borrowed_trust, trust_answer};
ghost use Rattle.sig_verify.specs.HeldRoot.{fault_error};
ghost use Rattle.sig_verify.specs.OfflineErrors.{IsRootRefusal};
ghost use Rattle.sig_verify.specs.RootLinks.{rekor_keys};

use crate::offline_error::{OfflineError, Part, json_error};
use crate::verifier::Verifier;
use sig_base::{KeyMap, OutOfMemory, PoolError, SigstoreError, TrustPart};
use sig_root::laws::are_log_key_bytes;
use sig_root::{SigstoreTrustRoot, TrustRoot, read_trusted_root};
use std::alloc::Global;

/// What a trusted root gives at a time: what bundles and log entries are verified against, or why it gives nothing. It
/// is read and made once, by [`HeldRoot::read`] or [`HeldRoot::new`], for all bundles that [`HeldRoot::verify`] checks.
#[derive(Drop)]
pub struct HeldRoot {
    pub(crate) trust: Result<Trust, RootFault>,
}

/// What bundles and log entries are verified against.
#[derive(Drop)]
pub(crate) struct Trust {
    pub(crate) verifier: Verifier,
    /// The keys of the logs of signatures (DER), by their log ids.
    pub(crate) log_keys: KeyMap,
}

/// The first of the links `fulcio`, `anchor` and `ctfe` that does not hold.
#[derive(Clone, Copy)]
pub(crate) enum RootFault {
    /// The root has nothing of this part at the time.
    Lacks(TrustPart),
    /// The certificate at this index of its authorities is not a trust anchor.
    Anchor(usize),
}

impl HeldRoot {
    /// Returns what this text, a trusted root, gives at a time in whole seconds since 1970. Fails with `Json` of the
    /// link `root-json` if and only if the text is not a trusted root, unless memory runs out, and else only with
    /// `OutOfMemory`. The links `fulcio`, `anchor` and `ctfe` come after `bundle-json`: their error is kept, and
    /// [`HeldRoot::verify`] returns it.
    pub fn read(alloc: Global, text: &[u8], now: i64) -> Result<HeldRoot, OfflineError>
        ensures { UnlessMemory OfflineError.OutOfMemory result (IsHeldIn text.now now result) }
    {
        match read_trusted_root(alloc, text) {
            Ok(root) => {
                are_log_key_bytes(root.tlogs.as_slice());
                let root = SigstoreTrustRoot::of(root);
                let held = HeldRoot::new(alloc, &root, now)?;
                Ok(held)
            }
            Err(error) => Err(json_error(Part::Root, error)),
        }
    }

    /// Returns what a trusted root gives at a time in whole seconds since 1970. Fails only if out of memory.
    pub fn new(alloc: Global, root: &SigstoreTrustRoot, now: i64) -> Result<HeldRoot, OutOfMemory>
        ensures { IfOk result (IsGivenBy root.now now) }
    {
        match Verifier::new(alloc, root, now) {
            Ok(verifier) => {
                let log_keys = log_keys_of(alloc, root, now)?;
                Ok(HeldRoot {
                    trust: Ok(Trust { verifier, log_keys }),
                })
            }
            Err(error) => {
                let fault = fault_of(error)?;
                Ok(HeldRoot { trust: Err(fault) })
            }
        }
    }

    /// The links `fulcio`, `anchor` and `ctfe`.
    pub(crate) fn check_root(&self) -> Result<&Trust, OfflineError>
        ensures { borrowed_trust result ≡ trust_answer self.now }
    {
        match &self.trust {
            Ok(trust) => Ok(trust),
            Err(RootFault::Lacks(part)) => Err(OfflineError::TrustRoot(*part)),
            Err(RootFault::Anchor(index)) => Err(OfflineError::Anchor(*index)),
        }
    }
}

/// The keys of the logs of a trusted root. It has a map of them at each time, which may be empty.
fn log_keys_of(alloc: Global, root: &SigstoreTrustRoot, now: i64) -> Result<KeyMap, OutOfMemory>
    ensures { IfOk result (λ keys. keys ≡ rekor_keys root.now now) }
{
    match root.rekor_keys(alloc, now) {
        Ok(keys) => Ok(keys),
        Err(SigstoreError::OutOfMemory) => Err(OutOfMemory),
        Err(_) => unreachable!(),
    }
}

/// Which of `fulcio`, `anchor`, `ctfe` fails, by the error of `Verifier::new`. Fails only if out of memory.
fn fault_of(error: SigstoreError) -> Result<RootFault, OutOfMemory>
    requires { IsRootRefusal error }
    ensures { IfOk result (λ fault. error ≡ fault_error fault) }
{
    match error {
        SigstoreError::TufMetadataError(part) => Ok(RootFault::Lacks(part)),
        SigstoreError::CertificatePoolError(PoolError::Anchor(index)) => Ok(RootFault::Anchor(
            index,
        )),
        SigstoreError::OutOfMemory => Err(OutOfMemory),
        // `Verifier::new` has no other errors.
        _ => unreachable!(),
    }
}
