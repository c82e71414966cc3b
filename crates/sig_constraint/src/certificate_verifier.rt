//! `CertificateVerifier`: the certificate whose key a layer has to be signed by.

ghost use Rattle.std.specs.Prelude.{◌≡◌, IfOk, IfErr, IsOk, IsOkUnless, Ok, Err};
ghost use Rattle.std.specs.Option.{option_copied};
ghost use Rattle.sig_base.specs.Answers.{OrMemory, UnlessMemory};
ghost use Rattle.sig_base.specs.declared.error.SigstoreError.{SigstoreError as refusal_type};
ghost use Rattle.sig_base.specs.declared.error.SigstoreError.TheVariants.{OutOfMemory as Memory};
ghost use Rattle.sig_certificate.specs.Profile.{error_of};
ghost use Rattle.sig_cosign.specs.Layer.{Layer, seen_layer};
ghost use Rattle.sig_constraint.specs.Certified.{IsCertificateVerifier, IsCertifiedKey, IsCertifiedResult};
ghost use Rattle.sig_constraint.specs.Certified.{IsKeyResult, IsReadResult, Key as key_type, is_certified, is_timely};
ghost use Rattle.sig_constraint.specs.Certified.{signer_refusal};
ghost use Rattle.sig_constraint.specs.CallResults.{IsVerdict};

use crate::certificate_chain::check_chain;
use crate::constraint::VerificationConstraint;
use sig_base::{Entries, Result, SignatureChecker, SigstoreError};
use sig_certificate::laws::certificates;
use sig_cosign::{BundleContent, SignatureLayer};
use sig_key::CosignVerificationKey;
use sig_x509::{
    Certificate, X509ReadError, verify_expiration, verify_has_san, verify_key_usages,
    verify_validity,
};
use std::alloc::Global;

/// Requires that a layer is signed by the key of a certificate, and that a log took it while the certificate was valid.
#[derive(Drop)]
pub struct CertificateVerifier<C> {
    certificate: Certificate,
    key: CosignVerificationKey,
    require_rekor_bundle: bool,
    checker: C,
}

impl<C: SignatureChecker + Drop> CertificateVerifier<C> {
    /// Returns the constraint that a layer is signed by the key of the certificate that the bytes (DER) are.
    /// `require_rekor_bundle` says whether a layer that no log has is rejected; it should be `true`, since without a
    /// log there is no proof of when the layer was signed. `cert_chain` are the trust anchors (DER) that may have
    /// issued the certificate; without it the certificate is trusted by itself, and the end of its validity is not
    /// checked. `now` is in seconds since 1970.
    ///
    /// Errors, the first that applies:
    ///
    /// - `X509Error`: the bytes are not a certificate (RFC 5280 section 4.1);
    /// - those of [`verify_key_usages`], [`verify_has_san`] and [`verify_validity`] by now;
    /// - if a chain is given, `CertificatePoolError`: of `Anchor` with the index of the first of the chain that is not
    ///   a trust anchor; of `Malformed` or `VerificationFailed` if their pool does not find an issuer now;
    /// - those of [`CosignVerificationKey::try_from_spki`], for the certificate's key;
    /// - `OutOfMemory`.
    pub fn from_der(
        alloc: Global,
        cert_bytes: &[u8],
        require_rekor_bundle: bool,
        cert_chain: Option<&Entries>,
        now: i64,
        checker: C,
    ) -> Result<CertificateVerifier<C>>
        // The certificate is the one that the bytes are, and it passes every check.
        ensures made { IfOk result (λ v. IsCertificateVerifier (C.spki_accepts checker) (C.cert_accepts checker)
            cert_bytes.now (option_copied cert_chain.entry) now require_rekor_bundle
            (⟦<CertificateVerifier<C> as VerificationConstraint>⟧.holds v)) }
        // If that holds, the verifier is made, unless memory ran out.
        ensures comes { (key : key_type) → IsCertifiedKey (C.cert_accepts checker) cert_bytes.now
            (option_copied cert_chain.entry) now (Ok key) → UnlessMemory Memory result (IsOk result) }
        // An error has its cause, unless memory ran out.
        ensures err { IfErr result (λ e. OrMemory Memory e (IsCertifiedKey (C.cert_accepts checker) cert_bytes.now
            (option_copied cert_chain.entry) now (Err e))) }
        // It comes where its cause is, unless memory ran out.
        ensures refused { (e : refusal_type) → IsCertifiedKey (C.cert_accepts checker) cert_bytes.now
            (option_copied cert_chain.entry) now (Err e) → UnlessMemory Memory result (result ≡ Err e) }
    {
        let (certificate, key) = certified(alloc, cert_bytes, cert_chain, now, &checker)?;
        Ok(CertificateVerifier {
            certificate,
            key,
            require_rekor_bundle,
            checker,
        })
    }
}

impl<C: SignatureChecker + Drop> VerificationConstraint for CertificateVerifier<C> {
    ghost holds = { λ v l. is_certified (C.spki_accepts v.checker) v.key v.certificate v.require_rekor_bundle l };

    /// Whether the layer is signed by the certificate's key, as [`SignatureLayer::is_signed_by_key`] says, and the time
    /// of its bundle is within the certificate's validity; without a bundle, whether it is not required. Fails only if
    /// out of memory.
    fn verify(&self, alloc: Global, signature_layer: &SignatureLayer) -> Result<bool>
        ensures verdict { IsVerdict (is_certified (C.spki_accepts self.now.checker) self.now.key self.now.certificate
            self.now.require_rekor_bundle (seen_layer signature_layer.now)) result }
        ensures only_memory { IsOkUnless result Memory }
    {
        if !signature_layer.is_signed_by_key(alloc, &self.key, &self.checker)? {
            return Ok(false);
        }
        Ok(is_timely(
            &self.certificate,
            self.require_rekor_bundle,
            &signature_layer.bundle,
        ))
    }
}

/// The certificate that the bytes are, and its key.
fn certified<C: SignatureChecker>(
    alloc: Global,
    der: &[u8],
    chain: Option<&Entries>,
    now: i64,
    checker: &C,
) -> Result<(Certificate, CosignVerificationKey)>
    ensures { IsCertifiedResult (C.cert_accepts checker.now) der.now (option_copied chain.entry) now result }
{
    // Bytes are at most one certificate.
    certificates();
    let certificate = read_certificate(alloc, der)?;
    let key = certified_key(alloc, &certificate, chain, now, checker)?;
    Ok((certificate, key))
}

/// The certificate that the bytes are.
fn read_certificate(alloc: Global, der: &[u8]) -> Result<Certificate>
    ensures { IsReadResult der.now result }
{
    match Certificate::try_from_der(alloc, der) {
        Ok(certificate) => Ok(certificate),
        Err(X509ReadError::Der) => Err(SigstoreError::X509Error),
        Err(X509ReadError::OutOfMemory) => Err(SigstoreError::OutOfMemory),
    }
}

/// Returns the key of a certificate that passes every check.
fn certified_key<C: SignatureChecker>(
    alloc: Global,
    certificate: &Certificate,
    chain: Option<&Entries>,
    now: i64,
    checker: &C,
) -> Result<CosignVerificationKey>
    ensures { IsKeyResult (C.cert_accepts checker.now) (option_copied chain.entry) certificate.now now result }
{
    check_signer(certificate, now)?;
    check_chain(alloc, certificate, chain, now, checker)?;
    CosignVerificationKey::try_from_spki(alloc, certificate.spki())
}

/// Returns the error of the certificate by itself, if it has one.
fn check_signer(certificate: &Certificate, now: i64) -> Result<()>
    ensures { error_of result ≡ signer_refusal certificate.now now }
{
    verify_key_usages(certificate)?;
    verify_has_san(certificate)?;
    verify_validity(certificate, now)
}

/// Whether a log took the layer within the certificate's validity; or that this is not required.
fn is_timely(certificate: &Certificate, required: bool, bundle: &Option<BundleContent>) -> bool
    ensures { result ≡ is_timely certificate.now required bundle.now }
{
    match bundle {
        Some(bundle) => verify_expiration(certificate, bundle.integrated_time()).is_ok(),
        None => !required,
    }
}
