//! `Verifier`: what bundles are verified against.
ghost use Rattle.std.specs.Prelude.{◌≡◌, [], IfOk, IfErr};
ghost use Rattle.sig_x509.specs.Issuance.{AreAnchors};
ghost use Rattle.sig_verify.specs.Verifier.{HasKeys, IsRefusedPool, IsRefusedRoot, IsVerifierOf, key_hashes_of, values_of};

use sig_base::{Entries, Hashes, KeyMap, OutOfMemory, PoolError, SigstoreError, sha256};
use sig_root::TrustRoot;
use sig_x509::{Certificate, CertificatePool, Keyring, KeyringError};
use std::alloc::Global;
use std::marker::Model;

/// The trust anchors and the keys of Certificate Transparency logs that bundles are verified against. Contracts see
/// both. Beside them are the SHA-256 hashes of the trust anchors' SubjectPublicKeyInfos, which the SCTs of many bundles
/// are checked with.
#[derive(Drop)]
pub struct Verifier {
    pub(crate) pool: CertificatePool,
    pub(crate) key_hashes: Hashes,
    pub(crate) keyring: Keyring,
}

impl Model for Verifier {
    ghost use Rattle.sig_verify.specs.Verifier.{Trusted};

    ghost Value = { Trusted };

    ghost view = { λ v. record { anchors = v.pool.anchors; ring = v.keyring } };

    ghost use Rattle.std.specs.Prelude.{◌≡◌, []};
    ghost use Rattle.sig_verify.specs.Verifier.{key_hashes_of};

    ghost invariant = { λ v. (v.pool.intermediates ≡ []) × (v.key_hashes ≡ key_hashes_of v.pool.anchors) };
}

impl Verifier {
    /// Returns a verifier that trusts what a trust root trusts at this time, in whole seconds since 1970. Errors, the
    /// first that applies:
    ///
    /// - the error of the trust root's `fulcio_certs`;
    /// - `CertificatePoolError(Anchor)` with the index of the first of these certificates that is not a trust anchor;
    /// - the error of its `ctfe_keys`;
    /// - `OutOfMemory`.
    pub fn new<R: TrustRoot>(alloc: Global, trust_repo: &R, now: i64) -> sig_base::Result<Verifier>
        ensures made { IfOk result (IsVerifierOf
            (R.authorities_at trust_repo.now now) (R.ct_keys_at trust_repo.now now)) }
        ensures refused { IfErr result (IsRefusedRoot
            (R.authorities_at trust_repo.now now) (R.ct_keys_at trust_repo.now now)) }
    {
        let certs = trust_repo.fulcio_certs(alloc, now)?;
        let pool = pool_of(alloc, &certs)?;
        let key_hashes = key_hashes_of(alloc, pool.anchors())?;
        let keys = trust_repo.ctfe_keys(alloc, now)?;
        let keyring = keyring_of(alloc, &keys)?;
        Ok(Verifier {
            pool,
            key_hashes,
            keyring,
        })
    }
}

/// Returns the pool of these trust anchors, without intermediates.
#[tactic(auto, using(crate::proofs::AloneAnchors::alone_anchors))]
fn pool_of(alloc: Global, certs: &Entries) -> sig_base::Result<CertificatePool>
    ensures made { IfOk result (λ pool. AreAnchors certs.now pool.anchors) }
    ensures alone { IfOk result (λ pool. pool.intermediates ≡ []) }
    ensures refused { IfErr result (IsRefusedPool certs.now) }
{
    let none = Entries::new(alloc);
    match CertificatePool::from_certificates(alloc, certs, &none) {
        Ok(pool) => Ok(pool),
        Err(PoolError::OutOfMemory) => Err(SigstoreError::OutOfMemory),
        Err(error) => Err(SigstoreError::CertificatePoolError(error)),
    }
}

/// Returns the SHA-256 of the SubjectPublicKeyInfo of each trust anchor. Fails only if out of memory.
fn key_hashes_of(alloc: Global, anchors: &[Certificate]) -> Result<Hashes, OutOfMemory>
    ensures { IfOk result (λ hashes. hashes ≡ key_hashes_of anchors.now) }
{
    let mut hashes = Hashes::new(alloc);
    'anchors: for anchor in anchors {
        hashes.push(sha256(anchor.spki()))?;
    }
    Ok(hashes)
}

/// Returns the keyring of the keys of a map; of several keys with one id it has the last. Fails only if out of memory.
pub fn keyring_of(alloc: Global, keys: &KeyMap) -> Result<Keyring, OutOfMemory>
    ensures { IfOk result (HasKeys keys.now) }
{
    let values = values_of(alloc, keys)?;
    match Keyring::new(alloc, &values) {
        Ok(keyring) => Ok(keyring),
        Err(KeyringError::OutOfMemory) => Err(OutOfMemory),
        Err(_) => unreachable!(),
    }
}

/// Returns the values of a map in order. Fails only if out of memory.
fn values_of(alloc: Global, keys: &KeyMap) -> Result<Entries, OutOfMemory>
    ensures { IfOk result (λ values. values ≡ values_of keys.now) }
{
    let mut values = Entries::new(alloc);
    'entries: for (_, value) in keys.iter() {
        values.push(value)?;
    }
    Ok(values)
}
