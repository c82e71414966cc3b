//! Which certificates may be issued, and which may issue them: RFC 5280 sections 4.2 and 6.1, in the profile of
//! Sigstore.

ghost use Rattle.std.specs.Prelude.{◌≡◌, ◌+◌, ◌≤◌, is_none, IsFalse, IfSome};
ghost use Rattle.sig_base.specs.Checker.{AreKeysOf};
ghost use Rattle.sig_certificate.specs.Lookups.{borrowed_extension, with_oid};
ghost use Rattle.sig_certificate.specs.Profile.{ca_refusal, code_signing, constraints};
ghost use Rattle.sig_x509.specs.Issuance.{may_be_critical, is_understood, are_understood, is_unconstrained, is_fit};
ghost use Rattle.sig_x509.specs.Issuance.{is_no_authority, is_profiled, is_signed_by, is_within, signs_code_at};
ghost use Rattle.sig_x509.specs.Issuance.{IsSignedByNone, is_genuine_under};
ghost use Rattle.sig_x509.specs.PathSearch.{may_issue, may_issue_code};

use sig_base::{KeyList, SignatureChecker, Steps};
use sig_certificate::{Certificate, ExtensionRef, Lookup, basic_constraints, is_ca, may_sign_code};
use sig_der::oid::{
    BASIC_CONSTRAINTS, EXTENDED_KEY_USAGE, KEY_USAGE, NAME_CONSTRAINTS, SUBJECT_ALTERNATIVE_NAME,
};
use std::sync::ledger::Ledger;

/// Whether the certificate has the profile of what a trust anchor may issue.
pub(crate) fn is_profiled(certificate: &Certificate) -> bool
    ensures { result ≡ is_profiled certificate.now }
{
    is_fit(certificate) && is_no_authority(certificate)
}

fn is_fit(certificate: &Certificate) -> bool
    ensures { result ≡ is_fit certificate.now }
{
    certificate.version() == 3
        && certificate.inner_algorithm() == certificate.algorithm()
        && is_unconstrained(certificate)
        && are_understood(certificate)
        && certificate.are_single()
}

/// Whether the certificate has no name constraints.
#[tactic(auto, using(crate::proofs::IssuanceLaws::lookup_counts))]
pub(crate) fn is_unconstrained(certificate: &Certificate) -> bool
    ensures { result ≡ is_unconstrained certificate.now }
{
    match certificate.extension(NAME_CONSTRAINTS) {
        Lookup::Absent => true,
        Lookup::One(_) => false,
        Lookup::Several => false,
    }
}

/// Whether each critical extension is one that may be critical.
fn are_understood(certificate: &Certificate) -> bool
    ensures { result ≡ are_understood certificate.now.extensions }
{
    for extension in certificate.extensions() {
        if !is_understood(&extension) {
            return false;
        }
    }
    true
}

/// Whether a certificate with the extension may be accepted: whether it is not critical, or is one that may be
/// critical.
fn is_understood(extension: &ExtensionRef<'_>) -> bool
    ensures { result ≡ is_understood (borrowed_extension extension.now) }
{
    !extension.critical || may_be_critical(extension.oid)
}

fn may_be_critical(oid: &[u8]) -> bool
    ensures { result ≡ may_be_critical oid.now }
{
    oid == KEY_USAGE
        || oid == SUBJECT_ALTERNATIVE_NAME
        || oid == BASIC_CONSTRAINTS
        || oid == EXTENDED_KEY_USAGE
}

fn is_no_authority(certificate: &Certificate) -> bool
    ensures { result ≡ is_no_authority (constraints certificate.now) }
{
    match basic_constraints(certificate) {
        Ok(Some((_, found))) => !found.ca,
        Ok(None) => true,
        Err(_) => false,
    }
}

/// Whether the certificate may sign code at the time, in seconds since 1970.
pub(crate) fn signs_code_at(certificate: &Certificate, time: i64) -> bool
    ensures { result ≡ signs_code_at certificate.now time }
{
    certificate.not_before() <= time
        && time <= certificate.not_after()
        && may_sign_code(certificate)
}

/// Whether the signer signed the certificate. The checker is asked, which is a step, only if the signer's subject is
/// the issuer.
pub(crate) fn is_signed_by<C: SignatureChecker, L: Ledger>(
    certificate: &Certificate,
    signer: &Certificate,
    checker: &C,
    steps: &mut Steps<L>,
) -> bool
    ensures signed { result ≡ is_signed_by (C.cert_accepts checker.now) certificate.now signer.now }
    ensures steps { steps.new ≤ steps.old + 1 }
{
    if certificate.issuer() != signer.subject() {
        return false;
    }
    steps.tick();
    checker.verify_cert_signature(
        signer.spki(),
        certificate.algorithm(),
        certificate.tbs(),
        certificate.signature(),
    )
}

/// Whether anything may have signed the certificate: whether the checker lists a key, or cannot list them.
pub(crate) fn may_be_signed<C: SignatureChecker>(certificate: &Certificate, checker: &C) -> bool
    ensures { IsFalse result → IsSignedByNone (C.cert_accepts checker.now) certificate.now }
{
    match listed_keys(certificate, checker) {
        Some(keys) => !keys.is_empty(),
        None => true,
    }
}

/// Returns the keys under which the certificate's signature is genuine, if the checker can list them.
pub(crate) fn listed_keys<'a, C: SignatureChecker>(
    certificate: &Certificate,
    checker: &'a C,
) -> Option<KeyList<'a>>
    ensures { IfSome result (AreKeysOf (is_genuine_under (C.cert_accepts checker.now) certificate.now)) }
{
    checker.cert_keys(
        certificate.algorithm(),
        certificate.tbs(),
        certificate.signature(),
    )
}

/// Whether the certificate may issue others of code signing at the time, in seconds since 1970.
pub(crate) fn may_issue(certificate: &Certificate, time: i64) -> bool
    ensures { result ≡ may_issue time certificate.now }
{
    is_fit(certificate)
        && is_authority(certificate)
        && is_within(certificate, time)
        && may_issue_code(certificate)
}

/// Whether the certificate has the profile of an authority.
fn is_authority(certificate: &Certificate) -> bool
    ensures { result ≡ is_none (ca_refusal certificate.now) }
{
    match is_ca(certificate) {
        Ok(()) => true,
        Err(_) => false,
    }
}

/// Whether the certificate is valid at the time, in seconds since 1970.
fn is_within(certificate: &Certificate, time: i64) -> bool
    ensures { result ≡ is_within certificate.now time }
{
    certificate.not_before() <= time && time <= certificate.not_after()
}

/// Whether the extended key usage is absent or has code signing (RFC 5280 section 4.2.1.12).
#[tactic(auto, using(crate::proofs::IssuanceLaws::purpose_laws))]
fn may_issue_code(certificate: &Certificate) -> bool
    ensures { result ≡ may_issue_code (code_signing certificate.now) }
{
    match certificate.extension(EXTENDED_KEY_USAGE) {
        Lookup::Absent => true,
        Lookup::One(_) => may_sign_code(certificate),
        Lookup::Several => may_sign_code(certificate),
    }
}
