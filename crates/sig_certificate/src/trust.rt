//! The checks of a certificate that signed what a log has recorded.

ghost use Rattle.std.specs.Prelude.{◌≡◌, ◌↔◌, ◌≤ℤ◌, Ok, IsErrOf};
ghost use Rattle.sig_base.specs.declared.error.SigstoreError.{SigstoreError};
ghost use Rattle.sig_certificate.specs.Faults.{MaySign, MaySignCode, IsNamed, IsWithinValidity, IsTrusted};
ghost use Rattle.sig_certificate.specs.Faults.{IsUsagesFault, IsNamesFault, IsValidityFault, IsExpirationFault};
ghost use Rattle.sig_certificate.specs.Faults.{IsTrustFault};
ghost use Rattle.sig_certificate.specs.Profile.{code_signing, error_of};
ghost use Rattle.sig_certificate.specs.Trust.{may_sign, may_sign_code, is_named, usages_refusal, names_refusal};
ghost use Rattle.sig_certificate.specs.Trust.{validity_refusal, expiration_refusal, trust_refusal};
ghost use Rattle.sig_der.specs.ObjectIdentifiers.{subject_alternative_name};
ghost use Rattle.sig_certificate.specs.Lookups.{with_oid};

use crate::certificate::Certificate;
use crate::lookup::Lookup;
use crate::profile::{code_signing, key_usage};
use crate::profile_error::CertificateValidationError;
use crate::values::KeyUsage;
use crate::walks::holds_names;
use sig_base::{Result, SigstoreError};
use sig_der::oid::SUBJECT_ALTERNATIVE_NAME;

/// Whether code signing is among the purposes of the certificate's extended key usage (RFC 5280 section 4.2.1.12).
pub fn may_sign_code(certificate: &Certificate) -> bool
    ensures { result ≡ may_sign_code (code_signing certificate.now) }
{
    match code_signing(certificate) {
        Ok(Some(found)) => found,
        _ => false,
    }
}

/// Whether the key may sign code (RFC 5280 sections 4.2.1.3 and 4.2.1.12).
///
/// Fails with the first of
/// - `CertificateWithoutDigitalSignatureKeyUsage` if key usage is absent, malformed, duplicate or without
///   digitalSignature;
/// - `CertificateWithoutCodeSigningKeyUsage` if extended key usage is absent, malformed, duplicate or without code
///   signing.
pub fn verify_key_usages(certificate: &Certificate) -> Result<()>
    // The key may sign, and sign code.
    ensures passes { (result ≡ Ok tt) ↔ (MaySign certificate.now × MaySignCode certificate.now) }
    // Each error: the rules before its own hold, and its own does not.
    ensures faults { (e : SigstoreError) → IsErrOf result e ↔ IsUsagesFault certificate.now e }
    // The same in one equation.
    ensures exact { error_of result ≡ usages_refusal certificate.now }
{
    check_usages(certificate)
}

fn check_usages(certificate: &Certificate) -> Result<()>
    ensures { error_of result ≡ usages_refusal certificate.now }
{
    if !may_sign(key_usage(certificate)) {
        return Err(SigstoreError::CertificateWithoutDigitalSignatureKeyUsage);
    }
    if !may_sign_code(certificate) {
        return Err(SigstoreError::CertificateWithoutCodeSigningKeyUsage);
    }
    Ok(())
}

fn may_sign(usage: std::result::Result<Option<KeyUsage>, CertificateValidationError>) -> bool
    ensures { result ≡ may_sign usage }
{
    match usage {
        Ok(Some(found)) => found.digital_signature,
        _ => false,
    }
}

/// Whether the subject has alternative names (RFC 5280 section 4.2.1.6). Fails with
/// `CertificateWithoutSubjectAlternativeName` unless there is exactly one such extension and it is well formed.
pub fn verify_has_san(certificate: &Certificate) -> Result<()>
    // Exactly one such extension is there, and it is well formed.
    ensures passes { (result ≡ Ok tt) ↔ IsNamed certificate.now }
    // Each error: the rules before its own hold, and its own does not.
    ensures faults { (e : SigstoreError) → IsErrOf result e ↔ IsNamesFault certificate.now e }
    // The same in one equation.
    ensures exact { error_of result ≡ names_refusal certificate.now }
{
    check_names(certificate)
}

fn check_names(certificate: &Certificate) -> Result<()>
    ensures { error_of result ≡ names_refusal certificate.now }
{
    if is_named(certificate) {
        Ok(())
    } else {
        Err(SigstoreError::CertificateWithoutSubjectAlternativeName)
    }
}

/// Whether exactly one well-formed extension of alternative names is there.
#[tactic(auto, using(crate::proofs::ExtensionCountLaws::named_laws))]
fn is_named(certificate: &Certificate) -> bool
    ensures { result ≡ is_named (with_oid subject_alternative_name certificate.now.extensions) }
{
    match certificate.extension(SUBJECT_ALTERNATIVE_NAME) {
        Lookup::One(extension) => holds_names(extension.value),
        Lookup::Absent => false,
        Lookup::Several => false,
    }
}

/// Whether the validity has begun by now, in seconds since 1970. Fails with `CertificateValidityError` and its first
/// second if it does not.
pub fn verify_validity(certificate: &Certificate, now: i64) -> Result<()>
    // The validity has begun.
    ensures passes { (result ≡ Ok tt) ↔ (certificate.now.not_before ≤ℤ now) }
    // Each error: the rules before its own hold, and its own does not.
    ensures faults { (e : SigstoreError) → IsErrOf result e ↔ IsValidityFault certificate.now now e }
    // The same in one equation.
    ensures exact { error_of result ≡ validity_refusal certificate.now now }
{
    check_validity(certificate, now)
}

fn check_validity(certificate: &Certificate, now: i64) -> Result<()>
    ensures { error_of result ≡ validity_refusal certificate.now now }
{
    let not_before = certificate.not_before();
    if now < not_before {
        Err(SigstoreError::CertificateValidityError(not_before))
    } else {
        Ok(())
    }
}

/// Whether the time at which the entry was logged, in seconds since 1970, is within the validity.
///
/// Fails with
/// - `CertificateExpiredBeforeSignaturesSubmittedToRekor` if it is before the first second;
/// - `CertificateIssuedAfterSignaturesSubmittedToRekor` if it is after the last.
///
/// The names are the ported crate's.
pub fn verify_expiration(certificate: &Certificate, integrated_time: i64) -> Result<()>
    // The time is within the validity.
    ensures passes { (result ≡ Ok tt) ↔ IsWithinValidity certificate.now integrated_time }
    // Each error: the rules before its own hold, and its own does not.
    ensures faults { (e : SigstoreError) → IsErrOf result e ↔ IsExpirationFault certificate.now integrated_time e }
    // The same in one equation.
    ensures exact { error_of result ≡ expiration_refusal certificate.now integrated_time }
{
    check_expiration(certificate, integrated_time)
}

fn check_expiration(certificate: &Certificate, integrated_time: i64) -> Result<()>
    ensures { error_of result ≡ expiration_refusal certificate.now integrated_time }
{
    let not_before = certificate.not_before();
    if integrated_time < not_before {
        return Err(
            SigstoreError::CertificateExpiredBeforeSignaturesSubmittedToRekor {
                integrated_time,
                not_before,
            },
        );
    }
    let not_after = certificate.not_after();
    if integrated_time > not_after {
        return Err(
            SigstoreError::CertificateIssuedAfterSignaturesSubmittedToRekor {
                integrated_time,
                not_after,
            },
        );
    }
    Ok(())
}

/// The four checks in order: key usages, alternative names, validity by now, and validity at the time of the entry.
/// Fails with the first fault. Both times are seconds since 1970.
pub fn is_trusted(certificate: &Certificate, integrated_time: i64, now: i64) -> Result<()>
    // All four pass.
    ensures passes { (result ≡ Ok tt) ↔ IsTrusted certificate.now integrated_time now }
    // Each error: the rules before its own hold, and its own does not.
    ensures faults { (e : SigstoreError) → IsErrOf result e ↔ IsTrustFault certificate.now integrated_time now e }
    // The same in one equation.
    ensures exact { error_of result ≡ trust_refusal certificate.now integrated_time now }
{
    check_trust(certificate, integrated_time, now)
}

fn check_trust(certificate: &Certificate, integrated_time: i64, now: i64) -> Result<()>
    ensures { error_of result ≡ trust_refusal certificate.now integrated_time now }
{
    check_usages(certificate)?;
    check_names(certificate)?;
    check_validity(certificate, now)?;
    check_expiration(certificate, integrated_time)
}
