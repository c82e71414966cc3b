//! `CertSubjectEmailVerifier`: the email that a layer's certificate has to name.

ghost use Rattle.std.specs.Prelude.{◌≡◌, IfOk, IsOkUnless, option_map, option_copied};
ghost use Rattle.sig_base.specs.declared.error.SigstoreError.TheVariants.{OutOfMemory as Memory};
ghost use Rattle.sig_cosign.specs.Layer.{seen_layer};
ghost use Rattle.sig_signer.specs.Signer.{seen_signer};
ghost use Rattle.sig_constraint.specs.CallResults.{IsVerdict};
ghost use Rattle.sig_constraint.specs.Subjects.{accepts_issuer, is_of_email, names_email};

use crate::constraint::VerificationConstraint;
use crate::string_verifier::StringVerifier;
use sig_base::{OutOfMemory, Result, Text};
use sig_cosign::{CertificateSignature, CertificateSubject, SignatureLayer};
use std::alloc::Global;

/// Requires that a layer has a certificate of an email. It does not check a signature: that the certificate's key
/// signed the layer is checked by [`CertificateVerifier`](crate::CertificateVerifier) for the same layer.
#[derive(Drop)]
pub struct CertSubjectEmailVerifier {
    /// Which emails are accepted.
    pub email: StringVerifier,
    /// Which issuers are accepted; `None` if any issuer is, also an absent one.
    pub issuer: Option<StringVerifier>,
}

impl VerificationConstraint for CertSubjectEmailVerifier {
    ghost holds = { λ v l. is_of_email v.email v.issuer l.certificate_signature };

    /// Whether the layer has a certificate signature, its subject is an email that is accepted, and no issuer is asked
    /// for, or it has one that is accepted. Fails only if out of memory.
    fn verify(&self, alloc: Global, signature_layer: &SignatureLayer) -> Result<bool>
        ensures verdict { IsVerdict (is_of_email self.now.email self.now.issuer
            (seen_layer signature_layer.now).certificate_signature) result }
        ensures only_memory { IsOkUnless result Memory }
    {
        match &signature_layer.certificate_signature {
            Some(signer) => Ok(self.accepts(alloc, signer)?),
            None => Ok(false),
        }
    }
}

impl CertSubjectEmailVerifier {
    /// Whether the signer is accepted. Fails only if out of memory.
    fn accepts(
        &self,
        alloc: Global,
        signer: &CertificateSignature,
    ) -> std::result::Result<bool, OutOfMemory>
        ensures { IfOk result (λ b. b ≡ is_of_email self.now.email self.now.issuer
            (Some (seen_signer signer.now))) }
    {
        if !names_email(alloc, &self.email, &signer.subject)? {
            return Ok(false);
        }
        accepts_issuer(alloc, &self.issuer, &signer.issuer)
    }
}

/// Whether the subject is an email that is accepted. Fails only if out of memory.
fn names_email(
    alloc: Global,
    email: &StringVerifier,
    subject: &CertificateSubject,
) -> std::result::Result<bool, OutOfMemory>
    ensures { IfOk result (λ b. b ≡ names_email email.now subject.now) }
{
    match subject {
        CertificateSubject::Email(text) => email.accepts(alloc, text.as_str()),
        CertificateSubject::Uri(_) => Ok(false),
    }
}

/// Whether no issuer is asked for, or there is one that is accepted. Fails only if out of memory.
fn accepts_issuer(
    alloc: Global,
    asked: &Option<StringVerifier>,
    issuer: &Option<Text>,
) -> std::result::Result<bool, OutOfMemory>
    ensures { IfOk result (λ b. b ≡ accepts_issuer asked.now issuer.now) }
{
    match (asked, issuer) {
        (None, _) => Ok(true),
        (Some(_), None) => Ok(false),
        (Some(asked), Some(issuer)) => asked.accepts(alloc, issuer.as_str()),
    }
}
