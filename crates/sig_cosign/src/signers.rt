//! The signer of a layer, as its certificate names it.
ghost use Rattle.std.specs.Prelude.{◌≡◌, Option as option_type, IfOk, option_map};
ghost use Rattle.sig_cosign.specs.Signers.{IsNoneUnless, IsSignerAmong, IsSignerIf, IsSignerIn};
ghost use Rattle.sig_signer.specs.Signer.{Signer as signer_type, seen_signer};

use crate::bundle_content::BundleContent;
use sig_base::{Bytes, OutOfMemory, SignatureChecker, SigstoreError};
use sig_signer::CertificateSignature;
use sig_x509::CertificatePool;
use std::alloc::Global;

/// Returns the signer of a layer, as its certificate names it at the time of its log entry; `None` if one of them or a
/// pool is absent, or the certificate has an error. Fails only if out of memory.
pub(crate) fn signer_among<C: SignatureChecker>(
    alloc: Global,
    der: &Option<Bytes>,
    pool: Option<&CertificatePool>,
    bundle: &Option<BundleContent>,
    now: i64,
    checker: &C,
) -> Result<Option<CertificateSignature>, OutOfMemory>
    ensures found { IfOk result (λ s. IsSignerAmong (C.cert_accepts checker.now) (option_map (λ p. p.now) pool.entry)
        der.now bundle.now now (option_map seen_signer s)) }
    ensures only { (meant : option_type signer_type)
        → IsSignerAmong (C.cert_accepts checker.now) (option_map (λ p. p.now) pool.entry) der.now bundle.now now meant
        → IfOk result (λ s. option_map seen_signer s ≡ meant) }
{
    let Some(der) = der else {
        return Ok(None);
    };
    let Some(bundle) = bundle else {
        return Ok(None);
    };
    signer_in(
        alloc,
        der.as_slice(),
        pool,
        bundle.integrated_time(),
        now,
        checker,
    )
}

/// Returns the signer that the certificate that the bytes are names; `None` if that has an error, or there is no pool.
/// Fails only if out of memory.
pub(crate) fn signer_in<C: SignatureChecker>(
    alloc: Global,
    der: &[u8],
    pool: Option<&CertificatePool>,
    integrated_time: i64,
    now: i64,
    checker: &C,
) -> Result<Option<CertificateSignature>, OutOfMemory>
    ensures found { IfOk result (λ s. IsSignerIn (C.cert_accepts checker.now) (option_map (λ p. p.now) pool.entry)
        der.now integrated_time now (option_map seen_signer s)) }
    ensures only { (meant : option_type signer_type)
        → IsSignerIn (C.cert_accepts checker.now) (option_map (λ p. p.now) pool.entry) der.now integrated_time now meant
        → IfOk result (λ s. option_map seen_signer s ≡ meant) }
{
    match pool {
        Some(pool) => signer_if(alloc, der, pool, integrated_time, now, checker),
        None => Ok(None),
    }
}

/// Returns the signer that the certificate that the bytes are names; `None` if that has an error. Fails only if out of
/// memory.
fn signer_if<C: SignatureChecker>(
    alloc: Global,
    der: &[u8],
    pool: &CertificatePool,
    integrated_time: i64,
    now: i64,
    checker: &C,
) -> Result<Option<CertificateSignature>, OutOfMemory>
    ensures found { IfOk result (λ s. IsSignerIf (C.cert_accepts checker.now) pool.now der.now integrated_time now
        (option_map seen_signer s)) }
    ensures only { (meant : option_type signer_type)
        → IsSignerIf (C.cert_accepts checker.now) pool.now der.now integrated_time now meant
        → IfOk result (λ s. option_map seen_signer s ≡ meant) }
{
    match CertificateSignature::from_der_certificate(
        alloc,
        der,
        pool,
        integrated_time,
        now,
        checker,
    ) {
        Ok(signer) => Ok(Some(signer)),
        Err(error) => none_unless(error),
    }
}

/// Nothing, for an error. Fails if the error is that memory ran out.
pub(crate) fn none_unless<T>(error: SigstoreError) -> Result<Option<T>, OutOfMemory>
    ensures { IfOk result (IsNoneUnless error) }
{
    match error {
        SigstoreError::OutOfMemory => Err(OutOfMemory),
        _ => Ok(None),
    }
}
