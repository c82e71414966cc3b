//! Policies that compare a text with the value of one extension.

ghost use Rattle.std.specs.Prelude.{◌≡◌, ◌≢◌, ℕ, List, Ok, Err, IfOk, option_map};
ghost use Rattle.sig_base.specs.Answers.{ComesWhere};
ghost use Rattle.sig_certificate.specs.Certificate.{Cert};
ghost use Rattle.sig_policy.specs.Single.{extension_text, is_asked_text, single_refusal};
ghost use Rattle.sig_policy.specs.CertificateWords.{HasText};
ghost use Rattle.sig_policy.specs.Refusals.{IsRefusal, check_failed};
ghost use Rattle.sig_policy.specs.Verdict.{IsPolicyResult};

use crate::failure::PolicyError;
use crate::policy::{PolicyResult, VerificationPolicy};
use crate::utf8::utf8_text;
use sig_base::{OutOfMemory, Text};
use sig_certificate::{Certificate, Lookup};
use std::alloc::Global;

/// A policy that compares a text with the value of one extension, which is the text itself, not DER.
pub trait SingleX509ExtPolicy {
    // The policy's name, the contents octets of the extension's object identifier, and the text asked for.
    ghost title: { List ℕ };

    ghost identifier: { List ℕ };

    ghost asked: { Self → List ℕ };

    /// Returns the policy that asks for this text. Fails only if out of memory.
    fn new(alloc: Global, val: &str) -> Result<Self, OutOfMemory>
        ensures { IfOk result (λ p. asked p ≡ val.now) };

    /// Returns the policy's name.
    fn name() -> &'static str
        ensures { result.now ≡ title };

    /// Returns the text that the policy asks for.
    fn value(&self) -> &str
        ensures { result.now ≡ asked self.now };

    /// Returns the contents octets of the extension's object identifier.
    fn oid() -> &'static [u8]
        ensures { result.now ≡ identifier };
}

/// Whether the certificate has exactly one extension of the policy's object identifier, and its value is UTF-8 and the
/// text that the policy asks for. Errors:
///
/// - `ExtensionNotFound` if and only if it does not have exactly one, or the value is not UTF-8;
/// - `ExtensionCheckFailed`, with the policy's name, the text that it asks for and the text of the extension, if and
///   only if the certificate has one, and its value is another text;
/// - `OutOfMemory`.
pub fn verify_single<T: SingleX509ExtPolicy>(
    alloc: Global,
    policy: &T,
    cert: &Certificate,
) -> PolicyResult
    // The extension has the text that is asked for.
    ensures accepted { ComesWhere PolicyError.OutOfMemory result (Ok tt) (HasText T.identifier cert.now
        (T.asked policy.now)) }
    // The extension does not have a text.
    ensures extension_not_found { ComesWhere PolicyError.OutOfMemory result (Err PolicyError.ExtensionNotFound)
        ((text : List ℕ) → ¬ HasText T.identifier cert.now text) }
    // The extension has another text.
    ensures extension_check_failed { (actual : List ℕ) → ComesWhere PolicyError.OutOfMemory result
        (Err (PolicyError.ExtensionCheckFailed T.title (T.asked policy.now) actual))
        (HasText T.identifier cert.now actual × (actual ≢ T.asked policy.now)) }
    // The same by the definition.
    ensures verdict { IsPolicyResult
        (is_asked_text (T.asked policy.now) (extension_text T.identifier cert.now))
        (single_refusal T.title (T.asked policy.now) (extension_text T.identifier cert.now))
        result }
{
    check(alloc, policy, cert)
}

fn check<T: SingleX509ExtPolicy>(alloc: Global, policy: &T, cert: &Certificate) -> PolicyResult
    ensures { IsPolicyResult
        (is_asked_text (T.asked policy.now) (extension_text T.identifier cert.now))
        (single_refusal T.title (T.asked policy.now) (extension_text T.identifier cert.now))
        result }
{
    judge_text(alloc, policy, extension_text(cert, T::oid()))
}

/// Whether the text of the policy's extension is there, and is the one that the policy asks for.
pub(crate) fn is_asked_text<T: SingleX509ExtPolicy>(policy: &T, text: Option<&str>) -> bool
    ensures { result ≡ is_asked_text (T.asked policy.now) (option_map (λ t. t.now) text.entry) }
{
    match text {
        Some(actual) => actual == policy.value(),
        None => false,
    }
}

/// Returns what the policy returns if its extension has this text.
pub(crate) fn judge_text<T: SingleX509ExtPolicy>(
    alloc: Global,
    policy: &T,
    text: Option<&str>,
) -> PolicyResult
    ensures { IsPolicyResult
        (is_asked_text (T.asked policy.now) (option_map (λ t. t.now) text.entry))
        (single_refusal T.title (T.asked policy.now) (option_map (λ t. t.now) text.entry))
        result }
{
    let Some(actual) = text else {
        return Err(PolicyError::ExtensionNotFound);
    };
    if actual == policy.value() {
        return Ok(());
    }
    Err(check_failed(alloc, T::name(), policy.value(), actual)?)
}

/// Returns the error of an extension that has another text than the one asked for. Fails only if out of memory.
pub(crate) fn check_failed(
    alloc: Global,
    extension: &str,
    expected: &str,
    actual: &str,
) -> Result<PolicyError, OutOfMemory>
    ensures { IfOk result (IsRefusal (check_failed extension.now expected.now actual.now)) }
{
    Ok(PolicyError::ExtensionCheckFailed {
        extension: Text::copy_of(alloc, extension)?,
        expected: Text::copy_of(alloc, expected)?,
        actual: Text::copy_of(alloc, actual)?,
    })
}

/// Returns the text of the only extension with this object identifier. `None` if there is none, if there are several,
/// and if its value is not UTF-8.
pub(crate) fn extension_text<'a>(cert: &'a Certificate, oid: &[u8]) -> Option<&'a str>
    ensures { option_map (λ t. t.now) result ≡ extension_text oid.now cert.now }
{
    match cert.extension(oid) {
        Lookup::One(extension) => utf8_text(extension.value),
        _ => None,
    }
}

impl<T: SingleX509ExtPolicy + Drop> VerificationPolicy for T {
    ghost holds = { λ p c. is_asked_text (T.asked p) (extension_text T.identifier c) };

    ghost refusal = { λ p c. single_refusal T.title (T.asked p) (extension_text T.identifier c) };

    fn verify(&self, alloc: Global, cert: &Certificate) -> PolicyResult {
        verify_single(alloc, self, cert)
    }
}
