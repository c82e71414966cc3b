//! What the definitions mean, and what equality is.
ghost use Rattle.std.specs.Prelude.{◌≡◌, ◌↔◌, IsTrue, ℤ, Ok};
ghost use Rattle.sig_certificate.specs.Certificate.{Cert};
ghost use Rattle.sig_policy.specs.Said.{extension_values_of};
ghost use Rattle.sig_signer.specs.Compared.{HasSingleClaims, IsAsCompared};
ghost use Rattle.sig_signer.specs.Signer.{Signer as signer_type, signer_answer};
ghost use Rattle.sig_x509.specs.Issuance.{Accepts};
ghost use Rattle.sig_x509.specs.Pool.{Pool};

use crate::subject::CertificateSubject;

/// The issuer and workflow that a signer shows are what the policies of sig_policy compare, if the certificate has at
/// most one extension of each of Fulcio's six object identifiers. If there are several, the first is shown, and a
/// policy fails.
pub fn claims_are_compared()
    ensures { (accepts : Accepts) (pool : Pool) (c : Cert) (at now : ℤ) (s : signer_type) → HasSingleClaims c
        → signer_answer accepts pool c at now ≡ Ok s → IsAsCompared s (extension_values_of c) }
{}

/// Two subjects are equal if and only if both are emails or both are URIs, and their texts are equal.
pub fn equal_subjects(one: &CertificateSubject, other: &CertificateSubject) -> bool
    ensures { IsTrue result ↔ (one.now ≡ other.now) }
{
    one == other
}
