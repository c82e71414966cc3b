//! `CertificateSignature`: the signer that a certificate names.
ghost use Rattle.std.specs.Prelude.{◌≡◌, Ok, Err, IfOk, IfErr, Result as result_type};
ghost use Rattle.sig_base.specs.Answers.{Answers, OrMemory};
ghost use Rattle.sig_base.specs.declared.error.SigstoreError.{SigstoreError as refusal_type};
ghost use Rattle.sig_base.specs.declared.error.SigstoreError.TheVariants.{OutOfMemory as Memory};
ghost use Rattle.sig_key.specs.Kind.{key_parts};
ghost use Rattle.sig_signer.specs.Signer.{IsSignerOf, certified_answer, certified_key, issued_answer, of_pool};
ghost use Rattle.sig_signer.specs.Signer.{Signer as signer_type, seen_signer, signer_answer};

use crate::claims::read_claims;
use crate::subject::CertificateSubject;
use sig_base::{PoolError, Result, SignatureChecker, SigstoreError, Text};
use sig_key::CosignVerificationKey;
use sig_x509::{Certificate, CertificatePool, X509ReadError, is_trusted, uncounted};
use std::alloc::Global;

/// The signer that a certificate names, from which a path leads to a trust anchor, and which was valid when a log
/// took the signature. Whether its key signed anything is not checked.
#[derive(Drop)]
pub struct CertificateSignature {
    /// The certificate's key.
    pub verification_key: CosignVerificationKey,
    /// Whom it names.
    pub subject: CertificateSubject,
    /// The issuer of the token that the certificate was issued for.
    pub issuer: Option<Text>,
    /// What triggered the GitHub workflow (1.3.6.1.4.1.57264.1.2).
    pub github_workflow_trigger: Option<Text>,
    /// The commit that the GitHub workflow ran at (1.3.6.1.4.1.57264.1.3).
    pub github_workflow_sha: Option<Text>,
    /// The name of the GitHub workflow (1.3.6.1.4.1.57264.1.4).
    pub github_workflow_name: Option<Text>,
    /// The repository of the GitHub workflow (1.3.6.1.4.1.57264.1.5).
    pub github_workflow_repository: Option<Text>,
    /// The ref that the GitHub workflow ran at (1.3.6.1.4.1.57264.1.6).
    pub github_workflow_ref: Option<Text>,
}

impl CertificateSignature {
    /// Returns the signer that the certificate that the bytes (DER) are names. Times are seconds since 1970:
    /// `integrated_time` is when a log took the signature.
    ///
    /// Errors, the first that applies:
    /// - `X509Error`: the bytes are not a certificate (RFC 5280 section 4.1);
    /// - `CertificatePoolError` of `Malformed` or `VerificationFailed`: the pool finds no issuer of it at the first
    ///   second of its validity, as [`CertificatePool::verify_cert_with_time`] says;
    /// - those of [`is_trusted`]: key usages, one subject alternative name, validity by now and at the integrated time;
    /// - those of [`CertificateSubject::from_certificate`];
    /// - `X509Error`: its key is of a kind that no signature is checked with, or the first extension of one of Fulcio's
    ///   six object identifiers is not UTF-8;
    /// - `OutOfMemory`.
    pub fn from_der_certificate<C: SignatureChecker>(
        alloc: Global,
        cert_der: &[u8],
        fulcio_cert_pool: &CertificatePool,
        integrated_time: i64,
        now: i64,
        checker: &C,
    ) -> Result<CertificateSignature>
        // A value is the certificate's, and an error has its cause, unless memory ran out.
        ensures found { IfOk result (λ s. IsSignerOf (C.cert_accepts checker.now) fulcio_cert_pool.now cert_der.now
            integrated_time now (Ok (seen_signer s))) }
        ensures err { IfErr result (λ e. OrMemory Memory e (IsSignerOf (C.cert_accepts checker.now)
            fulcio_cert_pool.now cert_der.now integrated_time now (Err e))) }
        // The result is this one, unless memory ran out.
        ensures only { (meant : result_type signer_type refusal_type)
            → IsSignerOf (C.cert_accepts checker.now) fulcio_cert_pool.now cert_der.now integrated_time now meant
            → Answers Memory seen_signer result meant }
    {
        match Certificate::try_from_der(alloc, cert_der) {
            Ok(certificate) => {
                signer_of(
                    alloc,
                    &certificate,
                    fulcio_cert_pool,
                    integrated_time,
                    now,
                    checker,
                )
            }
            Err(X509ReadError::Der) => Err(SigstoreError::X509Error),
            Err(X509ReadError::OutOfMemory) => Err(SigstoreError::OutOfMemory),
        }
    }
}

/// Returns the signer that this certificate names.
fn signer_of<C: SignatureChecker>(
    alloc: Global,
    certificate: &Certificate,
    pool: &CertificatePool,
    integrated_time: i64,
    now: i64,
    checker: &C,
) -> Result<CertificateSignature>
    ensures { Answers Memory seen_signer result
        (signer_answer (C.cert_accepts checker.now) pool.now certificate.now integrated_time now) }
{
    check_issued(alloc, certificate, pool, checker)?;
    is_trusted(certificate, integrated_time, now)?;
    certified(alloc, certificate)
}

/// Checks that the pool finds the certificate's issuer at the first second of its validity.
fn check_issued<C: SignatureChecker>(
    alloc: Global,
    certificate: &Certificate,
    pool: &CertificatePool,
    checker: &C,
) -> Result<()>
    ensures { Answers Memory (λ done. done) result
        (issued_answer (C.cert_accepts checker.now) pool.now certificate.now) }
{
    let time = certificate.not_before();
    match uncounted::verify_cert_with_time(pool, alloc, certificate, time, checker) {
        Ok(_) => Ok(()),
        Err(error) => Err(pool_error(error)),
    }
}

/// The error of a pool as a `SigstoreError`: `OutOfMemory`, or `CertificatePoolError` of it.
pub fn pool_error(error: PoolError) -> SigstoreError
    ensures { result ≡ of_pool error }
{
    match error {
        PoolError::OutOfMemory => SigstoreError::OutOfMemory,
        error => SigstoreError::CertificatePoolError(error),
    }
}

/// Returns the key, subject and claims of a certificate.
#[tactic(auto, unfolding(crate::specs::Signer::certified_answer))]
fn certified(alloc: Global, certificate: &Certificate) -> Result<CertificateSignature>
    ensures { Answers Memory seen_signer result (certified_answer certificate.now) }
{
    let subject = CertificateSubject::from_certificate(alloc, certificate)?;
    let verification_key = certified_key(alloc, certificate.spki())?;
    let claims = read_claims(alloc, certificate)?;
    Ok(CertificateSignature {
        verification_key,
        subject,
        issuer: claims.issuer,
        github_workflow_trigger: claims.trigger,
        github_workflow_sha: claims.sha,
        github_workflow_name: claims.workflow.name,
        github_workflow_repository: claims.workflow.repository,
        github_workflow_ref: claims.workflow.reference,
    })
}

/// The key of a certificate.
fn certified_key(alloc: Global, spki: &[u8]) -> Result<CosignVerificationKey>
    ensures { Answers Memory key_parts result (certified_key spki.now) }
{
    match CosignVerificationKey::try_from_spki(alloc, spki) {
        Ok(key) => Ok(key),
        Err(SigstoreError::OutOfMemory) => Err(SigstoreError::OutOfMemory),
        Err(_) => Err(SigstoreError::X509Error),
    }
}
