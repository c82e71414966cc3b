//! What the certificates of a chain say of a certificate.

ghost use Rattle.std.specs.Prelude.{◌≡◌, Some};
ghost use Rattle.std.specs.Option.{option_copied};
ghost use Rattle.sig_base.specs.Answers.{Answers};
ghost use Rattle.sig_base.specs.declared.error.SigstoreError.TheVariants.{OutOfMemory as Memory};
ghost use Rattle.sig_x509.specs.PathSearch.{path_issuer};
ghost use Rattle.sig_signer.specs.Signer.{from_pool};
ghost use Rattle.sig_constraint.specs.Certified.{IsChainResult};

use sig_base::{Entries, Result, SignatureChecker};
use sig_certificate::laws::certificates;
use sig_signer::pool_error;
use sig_x509::{Certificate, CertificatePool, uncounted};
use std::alloc::Global;

/// Checks that the pool of a chain finds the certificate's issuer now, in seconds since 1970; without a chain it
/// passes. Errors, the first that applies:
///
/// - `CertificatePoolError(Anchor)` with the index of the first of the chain that is not a trust anchor;
/// - `CertificatePoolError` of `Malformed` or `VerificationFailed`, as [`CertificatePool::verify_cert_with_time`] says;
/// - `OutOfMemory`.
pub(crate) fn check_chain<C: SignatureChecker>(
    alloc: Global,
    certificate: &Certificate,
    chain: Option<&Entries>,
    now: i64,
    checker: &C,
) -> Result<()>
    ensures { IsChainResult (C.cert_accepts checker.now) (option_copied chain.entry) certificate.now now result }
{
    match chain {
        None => Ok(()),
        Some(ders) => check_ders(alloc, certificate, ders, now, checker),
    }
}

fn check_ders<C: SignatureChecker>(
    alloc: Global,
    certificate: &Certificate,
    ders: &Entries,
    now: i64,
    checker: &C,
) -> Result<()>
    ensures { IsChainResult (C.cert_accepts checker.now) (Some ders.now) certificate.now now result }
{
    // Bytes are at most one certificate.
    certificates();
    let none = Entries::new(alloc);
    match CertificatePool::from_certificates(alloc, ders, &none) {
        Ok(pool) => check_issued(alloc, certificate, &pool, now, checker),
        Err(error) => Err(pool_error(error)),
    }
}

/// What a pool says of the certificate now.
fn check_issued<C: SignatureChecker>(
    alloc: Global,
    certificate: &Certificate,
    pool: &CertificatePool,
    now: i64,
    checker: &C,
) -> Result<()>
    ensures { Answers Memory (λ done. done) result
        (from_pool (path_issuer (C.cert_accepts checker.now) pool.now certificate.now now)) }
{
    match uncounted::verify_cert_with_time(pool, alloc, certificate, now, checker) {
        Ok(_) => Ok(()),
        Err(error) => Err(pool_error(error)),
    }
}
