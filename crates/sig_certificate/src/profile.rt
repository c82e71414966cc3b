//! What a certificate may be: a leaf, an authority, a root.

ghost use Rattle.std.specs.Prelude.{◌≡◌, ◌↔◌, Ok, IsErrOf};
ghost use Rattle.sig_certificate.specs.Faults.{IsAuthority, IsAuthorityFault, IsRoot, IsRootFault, IsLeaf};
ghost use Rattle.sig_certificate.specs.Faults.{IsLeafFault};
ghost use Rattle.sig_certificate.specs.Profile.{error_of, usage, constraints, code_signing, authority, signer};
ghost use Rattle.sig_certificate.specs.Profile.{ca_refusal, root_refusal, leaf_refusal};

use crate::certificate::Certificate;
use crate::lookup::Lookup;
use crate::profile_error::{
    CertificateValidationError, ExtensionErrorKind, NotCAErrorKind, NotLeafErrorKind, PartName,
};
use crate::values::{BasicConstraints, KeyUsage, read_basic_constraints, read_key_usage};
use crate::walks::read_purpose;
use sig_der::oid::{BASIC_CONSTRAINTS, CODE_SIGNING, EXTENDED_KEY_USAGE, KEY_USAGE};

/// Returns whether the basic constraints of the certificate are critical, and what they say, `None` if there are none.
/// Fails with `Malformed` if they are malformed or a duplicate extension. For the pools of sig_x509.
#[tactic(auto, using(crate::proofs::ExtensionCountLaws::held_laws))]
pub fn basic_constraints(
    certificate: &Certificate,
) -> Result<Option<(bool, BasicConstraints)>, CertificateValidationError>
    ensures { result ≡ constraints certificate.now }
{
    match certificate.extension(BASIC_CONSTRAINTS) {
        Lookup::Absent => Ok(None),
        Lookup::Several => Err(CertificateValidationError::Malformed),
        Lookup::One(extension) => match read_basic_constraints(extension.value) {
            None => Err(CertificateValidationError::Malformed),
            Some(constraints) => Ok(Some((extension.critical, constraints))),
        },
    }
}

/// Whether the certificate is an authority (RFC 5280 sections 4.2.1.9 and 4.2.1.3). Fails with the first of these that
/// has its cause:
/// - `VersionUnsupported`: the version is not 3;
/// - `Malformed`, `Missing`, `NotCritical`: basic constraints are malformed or duplicate, absent, or not critical;
/// - `Malformed`, `Missing`: key usage is malformed or duplicate, or absent;
/// - `NotCA`: neither cA nor keyCertSign is set; `Invalid`: only one of them is.
pub fn is_ca(certificate: &Certificate) -> Result<(), CertificateValidationError>
    ensures authority { (result ≡ Ok tt) ↔ IsAuthority certificate.now }
    // Each error: the rules before its own hold, and its own does not hold.
    ensures faults { (e : CertificateValidationError) → IsErrOf result e ↔ IsAuthorityFault certificate.now e }
    // The same in one equation.
    ensures exact { error_of result ≡ ca_refusal certificate.now }
{
    judge_ca(certificate)
}

fn judge_ca(certificate: &Certificate) -> Result<(), CertificateValidationError>
    ensures { error_of result ≡ ca_refusal certificate.now }
{
    if certificate.version() != 3 {
        return Err(CertificateValidationError::VersionUnsupported);
    }
    judge_authority(basic_constraints(certificate), key_usage(certificate))
}

/// Whether what the two extensions say makes an authority.
fn judge_authority(
    constraints: Result<Option<(bool, BasicConstraints)>, CertificateValidationError>,
    usage: Result<Option<KeyUsage>, CertificateValidationError>,
) -> Result<(), CertificateValidationError>
    ensures { error_of result ≡ authority constraints usage }
{
    let Some((critical, constraints)) = constraints? else {
        return Err(missing(PartName::BasicConstraints));
    };
    if !critical {
        return Err(ExtensionErrorKind::NotCritical(PartName::BasicConstraints).into());
    }
    let Some(usage) = usage? else {
        return Err(missing(PartName::KeyUsage));
    };
    match (constraints.ca, usage.key_cert_sign) {
        (true, true) => Ok(()),
        (false, false) => Err(NotCAErrorKind::NotCA.into()),
        (ca, key_cert_sign) => Err(NotCAErrorKind::Invalid { ca, key_cert_sign }.into()),
    }
}

fn missing(part: PartName) -> CertificateValidationError
    ensures { result ≡ CertificateValidationError.Extension (ExtensionErrorKind.Missing part) }
{
    ExtensionErrorKind::Missing(part).into()
}

/// Returns what the key usage of the certificate says, `None` if there is none. Fails with `Malformed` if it is
/// malformed or a duplicate extension.
#[tactic(auto, using(crate::proofs::ExtensionCountLaws::held_laws))]
pub(crate) fn key_usage(
    certificate: &Certificate,
) -> Result<Option<KeyUsage>, CertificateValidationError>
    ensures { result ≡ usage certificate.now }
{
    match certificate.extension(KEY_USAGE) {
        Lookup::Absent => Ok(None),
        Lookup::Several => Err(CertificateValidationError::Malformed),
        Lookup::One(extension) => match read_key_usage(extension.value) {
            None => Err(CertificateValidationError::Malformed),
            Some(usage) => Ok(Some(usage)),
        },
    }
}

/// Whether the certificate is a root. Fails as `is_ca` does, then with `NotRootCA` if issuer and subject differ.
pub fn is_root_ca(certificate: &Certificate) -> Result<(), CertificateValidationError>
    ensures root { (result ≡ Ok tt) ↔ IsRoot certificate.now }
    // Each error: the rules before its own hold, and its own does not.
    ensures faults { (e : CertificateValidationError) → IsErrOf result e ↔ IsRootFault certificate.now e }
    // The same in one equation.
    ensures exact { error_of result ≡ root_refusal certificate.now }
{
    judge_root(certificate)
}

fn judge_root(certificate: &Certificate) -> Result<(), CertificateValidationError>
    ensures { error_of result ≡ root_refusal certificate.now }
{
    judge_ca(certificate)?;
    if certificate.issuer() == certificate.subject() {
        Ok(())
    } else {
        Err(NotCAErrorKind::NotRootCA.into())
    }
}

/// Whether the certificate is a leaf that may sign code. Fails with the first of these that has its cause:
/// - `VersionUnsupported`: the version is not 3;
/// - `IsCA`: `is_ca` is `Ok`;
/// - `Malformed`, `Missing`, `BitUnset`: key usage is malformed or duplicate, absent, or without digitalSignature;
/// - `Malformed`, `Missing`, `BitUnset`: extended key usage is malformed or duplicate, absent, or without code
///   signing.
pub fn is_leaf(certificate: &Certificate) -> Result<(), CertificateValidationError>
    // It is a leaf that may sign code.
    ensures leaf { (result ≡ Ok tt) ↔ IsLeaf certificate.now }
    // Each error: the rules before its own hold, and its own does not.
    ensures faults { (e : CertificateValidationError) → IsErrOf result e ↔ IsLeafFault certificate.now e }
    // The same in one equation.
    ensures exact { error_of result ≡ leaf_refusal certificate.now }
{
    judge_leaf(certificate)
}

fn judge_leaf(certificate: &Certificate) -> Result<(), CertificateValidationError>
    ensures { error_of result ≡ leaf_refusal certificate.now }
{
    if certificate.version() != 3 {
        return Err(CertificateValidationError::VersionUnsupported);
    }
    match judge_ca(certificate) {
        Ok(()) => Err(NotLeafErrorKind::IsCA.into()),
        Err(_) => judge_signer(key_usage(certificate), code_signing(certificate)),
    }
}

/// Whether what the two extensions say lets the key sign code.
fn judge_signer(
    usage: Result<Option<KeyUsage>, CertificateValidationError>,
    code_signing: Result<Option<bool>, CertificateValidationError>,
) -> Result<(), CertificateValidationError>
    ensures { error_of result ≡ signer usage code_signing }
{
    let Some(usage) = usage? else {
        return Err(missing(PartName::KeyUsage));
    };
    if !usage.digital_signature {
        return Err(bit_unset(PartName::KeyUsageDigitalSignature));
    }
    match code_signing? {
        None => Err(missing(PartName::ExtendedKeyUsage)),
        Some(true) => Ok(()),
        Some(false) => Err(bit_unset(PartName::ExtendedKeyUsageDigitalSignature)),
    }
}

fn bit_unset(part: PartName) -> CertificateValidationError
    ensures { result ≡ CertificateValidationError.Extension (ExtensionErrorKind.BitUnset part) }
{
    ExtensionErrorKind::BitUnset(part).into()
}

/// Returns whether code signing is among the purposes of the certificate's extended key usage, `None` if there is
/// none. Fails with `Malformed` if it is malformed or a duplicate extension.
#[tactic(auto, using(crate::proofs::ExtensionCountLaws::held_laws))]
pub(crate) fn code_signing(
    certificate: &Certificate,
) -> Result<Option<bool>, CertificateValidationError>
    ensures { result ≡ code_signing certificate.now }
{
    match certificate.extension(EXTENDED_KEY_USAGE) {
        Lookup::Absent => Ok(None),
        Lookup::Several => Err(CertificateValidationError::Malformed),
        Lookup::One(extension) => match read_purpose(extension.value, CODE_SIGNING) {
            None => Err(CertificateValidationError::Malformed),
            Some(is) => Ok(Some(is)),
        },
    }
}
