//! `CertSubjectUrlVerifier`: the URI that a layer's certificate has to name.

ghost use Rattle.std.specs.Prelude.{◌≡◌, IsOkUnless, Some};
ghost use Rattle.sig_base.specs.declared.error.SigstoreError.TheVariants.{OutOfMemory as Memory};
ghost use Rattle.sig_cosign.specs.Layer.{seen_layer};
ghost use Rattle.sig_signer.specs.Signer.{seen_signer};
ghost use Rattle.sig_constraint.specs.CallResults.{IsVerdict};
ghost use Rattle.sig_constraint.specs.Subjects.{is_of_url, is_text, names_url};

use crate::constraint::VerificationConstraint;
use sig_base::{Result, Text};
use sig_cosign::{CertificateSubject, SignatureLayer};
use std::alloc::Global;

/// Requires that a layer has a certificate of a URI, such as that of a workflow. It does not check a signature: that
/// the certificate's key signed the layer is checked by [`CertificateVerifier`](crate::CertificateVerifier) for the
/// same layer.
#[derive(Drop)]
pub struct CertSubjectUrlVerifier {
    /// The URI that the certificate has to name, byte for byte.
    pub url: Text,
    /// The issuer that the certificate has to name.
    pub issuer: Text,
}

impl VerificationConstraint for CertSubjectUrlVerifier {
    ghost holds = { λ v l. is_of_url v.url v.issuer l.certificate_signature };

    /// Whether the layer has a certificate signature, its subject is this URI, and its issuer is there and is this one.
    /// Never fails.
    fn verify(&self, alloc: Global, signature_layer: &SignatureLayer) -> Result<bool>
        ensures verdict { IsVerdict (is_of_url self.now.url self.now.issuer
            (seen_layer signature_layer.now).certificate_signature) result }
        ensures only_memory { IsOkUnless result Memory }
    {
        let _alloc = alloc;
        match &signature_layer.certificate_signature {
            Some(signer) => {
                Ok(names_url(&signer.subject, &self.url) && is_text(&signer.issuer, &self.issuer))
            }
            None => Ok(false),
        }
    }
}

/// Whether the subject is this URI.
fn names_url(subject: &CertificateSubject, url: &Text) -> bool
    ensures { result ≡ names_url url.now subject.now }
{
    match subject {
        CertificateSubject::Uri(text) => text.as_str() == url.as_str(),
        CertificateSubject::Email(_) => false,
    }
}

/// Whether the text is there, and is this one.
fn is_text(text: &Option<Text>, asked: &Text) -> bool
    ensures { result ≡ is_text asked.now text.now }
{
    match text {
        Some(text) => text.as_str() == asked.as_str(),
        None => false,
    }
}
