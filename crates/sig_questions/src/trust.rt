//! What a trusted root gives at a time: trust anchors and keys.
ghost use Rattle.std.specs.Prelude.{◌≡◌, ◌≢◌, [], IfOk};
ghost use Rattle.std.specs.List.{AllByRecursion};
ghost use Rattle.sig_certificate.specs.Certificates.{AreCertificates};
ghost use Rattle.sig_questions.specs.Front.{HasTrust};
ghost use Rattle.sig_questions.specs.Listed.{GivesTrust};
ghost use Rattle.sig_verify.specs.RootLinks.{IsSomeAnchor, authorities, ct_keys, rekor_keys};
ghost use Rattle.sig_verify.specs.Verifier.{HasKeys};

use crate::anchors::read_anchors;
use sig_base::{KeyMap, OutOfMemory, SigstoreError};
use sig_root::{SigstoreTrustRoot, TrustRoot};
use sig_timestamp::Keyring;
use sig_verify::keyring_of;
use sig_x509::TrustAnchors;
use std::alloc::Global;

/// What a root gives at a time.
#[derive(Drop)]
pub(crate) struct TrustParts {
    pub(crate) anchors: TrustAnchors,
    pub(crate) keyring: Keyring,
    pub(crate) log_keys: KeyMap,
}

/// What the root gives at the time; it has trust anchors and keys. Fails only if out of memory.
pub(crate) fn read_trust(
    alloc: Global,
    root: &SigstoreTrustRoot,
    now: i64,
) -> Result<TrustParts, OutOfMemory>
    requires { HasTrust root.now now }
    ensures { IfOk result (GivesTrust root.now now) }
{
    Ok(TrustParts {
        anchors: anchors_of(alloc, root, now)?,
        keyring: ring_of(alloc, root, now)?,
        log_keys: log_keys_of(alloc, root, now)?,
    })
}

/// The trust anchors of a root that has some.
fn anchors_of(
    alloc: Global,
    root: &SigstoreTrustRoot,
    now: i64,
) -> Result<TrustAnchors, OutOfMemory>
    requires some { authorities root.now now ≢ [] }
    requires anchors { AllByRecursion IsSomeAnchor (authorities root.now now) }
    ensures { IfOk result (AreCertificates (authorities root.now now)) }
{
    match root.fulcio_certs(alloc, now) {
        Ok(certificates) => read_anchors(alloc, &certificates),
        Err(error) => Err(memory_of(error)),
    }
}

/// The keys of the Certificate Transparency logs of a root that has some.
fn ring_of(alloc: Global, root: &SigstoreTrustRoot, now: i64) -> Result<Keyring, OutOfMemory>
    requires { ct_keys root.now now ≢ [] }
    ensures { IfOk result (HasKeys (ct_keys root.now now)) }
{
    match root.ctfe_keys(alloc, now) {
        Ok(keys) => keyring_of(alloc, &keys),
        Err(error) => Err(memory_of(error)),
    }
}

/// The keys of the logs of signatures of a root. There may be none.
fn log_keys_of(alloc: Global, root: &SigstoreTrustRoot, now: i64) -> Result<KeyMap, OutOfMemory>
    ensures { IfOk result (λ keys. keys ≡ rekor_keys root.now now) }
{
    match root.rekor_keys(alloc, now) {
        Ok(keys) => Ok(keys),
        Err(error) => Err(memory_of(error)),
    }
}

/// Out of memory, which is the only error of a root that has what is asked for.
fn memory_of(error: SigstoreError) -> OutOfMemory
    requires { error ≡ SigstoreError.OutOfMemory }
{
    match error {
        SigstoreError::OutOfMemory => OutOfMemory,
        _ => unreachable!(),
    }
}
