//! What Fulcio's extensions claim of a signer (https://github.com/sigstore/fulcio/blob/main/docs/oid-info.md).
ghost use Rattle.std.specs.Prelude.{◌≡◌, option_map, Ok, Err};
ghost use Rattle.sig_base.specs.Answers.{Answers};
ghost use Rattle.sig_base.specs.declared.error.SigstoreError.TheVariants.{OutOfMemory as Memory};
ghost use Rattle.sig_certificate.specs.Lookups.{borrowed_extension, with_oid};
ghost use Rattle.sig_policy.specs.Texts.{utf8_text};
ghost use Rattle.sig_signer.specs.Claims.{claim_answer, claims_answer, first_of, workflow_answer};

use sig_base::{Result, SigstoreError, Text};
use sig_certificate::{Certificate, ExtensionRef};
use sig_der::oid;
use std::alloc::Global;

/// What a certificate claims. A claim is absent if its extension is.
#[derive(Drop)]
pub(crate) struct Claims {
    pub(crate) issuer: Option<Text>,
    pub(crate) trigger: Option<Text>,
    pub(crate) sha: Option<Text>,
    pub(crate) workflow: Workflow,
}

/// The workflow that a certificate claims to be of.
#[derive(Drop)]
pub(crate) struct Workflow {
    pub(crate) name: Option<Text>,
    pub(crate) repository: Option<Text>,
    pub(crate) reference: Option<Text>,
}

/// The claims of a certificate. Fails with `X509Error` if a text is not UTF-8.
#[tactic(auto, unfolding(crate::specs::Claims::claims_answer))]
pub(crate) fn read_claims(alloc: Global, certificate: &Certificate) -> Result<Claims>
    ensures { Answers Memory (λ claims. claims) result (claims_answer certificate.now) }
{
    Ok(Claims {
        issuer: claim(alloc, certificate, oid::FULCIO_ISSUER)?,
        trigger: claim(alloc, certificate, oid::FULCIO_TRIGGER)?,
        sha: claim(alloc, certificate, oid::FULCIO_SHA)?,
        workflow: read_workflow(alloc, certificate)?,
    })
}

/// The text of the first extension of this object identifier. Fails with `X509Error` if it is not UTF-8.
fn claim(alloc: Global, certificate: &Certificate, oid: &[u8]) -> Result<Option<Text>>
    ensures { Answers Memory (λ text. text) result (claim_answer oid.now certificate.now) }
{
    match first_extension(certificate, oid) {
        None => Ok(None),
        Some(extension) => match utf8_text(extension.value) {
            Some(text) => Ok(Some(Text::copy_of(alloc, text)?)),
            None => Err(SigstoreError::X509Error),
        },
    }
}

/// The first extension of this object identifier.
fn first_extension<'a>(certificate: &'a Certificate, oid: &[u8]) -> Option<ExtensionRef<'a>>
    ensures { option_map borrowed_extension result ≡ first_of (with_oid oid.now certificate.now.extensions) }
{
    'extensions: for extension in certificate.extensions() {
        if extension.oid == oid {
            return Some(extension);
        }
    }
    None
}

/// Returns the text that the bytes are. `None` if they are not UTF-8.
#[tactic(auto, using(sig_policy::proofs::Utf8Laws::utf8_some, sig_policy::proofs::Utf8Laws::utf8_none))]
pub(crate) fn utf8_text(bytes: &[u8]) -> Option<&str>
    ensures { option_map (λ t. t.now) result ≡ utf8_text bytes.now }
{
    match std::str::from_utf8(bytes) {
        Ok(text) => Some(text),
        Err(_) => None,
    }
}

/// The workflow of a certificate. Fails with `X509Error` if a text is not UTF-8.
#[tactic(auto, unfolding(crate::specs::Claims::workflow_answer))]
fn read_workflow(alloc: Global, certificate: &Certificate) -> Result<Workflow>
    ensures { Answers Memory (λ workflow. workflow) result (workflow_answer certificate.now) }
{
    Ok(Workflow {
        name: claim(alloc, certificate, oid::FULCIO_NAME)?,
        repository: claim(alloc, certificate, oid::FULCIO_REPOSITORY)?,
        reference: claim(alloc, certificate, oid::FULCIO_REF)?,
    })
}
