//! What a link compares of a bundle that passed its own checks.
ghost use Rattle.std.specs.Prelude.{◌≡◌, IfOk, option_map};
ghost use Rattle.sig_json.specs.Writing.{members, members_into};
ghost use Rattle.sig_explain_verify.specs.Evidence.{checked_rows, ctlogs_rows, fulcio_rows, if_there, signed_bytes, signed_rows, tlogs_rows};
ghost use Rattle.sig_explain_verify.specs.Inputs.{inputs_of};
ghost use Rattle.sig_explain_verify.specs.Parts.{certificate_key};
ghost use Rattle.sig_explain_verify.specs.ShownRoot.{IsShownRoot, authorities_in};
ghost use Rattle.sig_evidence.specs.Issuer.{issuer_rows};

use crate::inputs::VerifyInputs;
use crate::key::{AskedKey, key_of};
use crate::root::ShownRoot;
use sig_base::OutOfMemory;
use sig_bundle::ArtifactDigest;
use sig_certificate::Certificate;
use sig_checked_bundle::{CheckedBundle, CheckedContent};
use sig_evidence::{
    with_accepted, with_authorities, with_body, with_issuer, with_sct, with_subjects, with_times,
};
use sig_explanation::with_policy_rules;
use sig_json::Object;
use sig_shown::with_time;
use sig_verify::Link;
use std::alloc::Global;

/// The object with what a link compares of a bundle that passed its own checks.
pub(crate) fn with_checked(
    object: Object,
    alloc: Global,
    inputs: &VerifyInputs<'_>,
    root: &ShownRoot,
    link: Link,
    checked: &CheckedBundle,
) -> Result<Object, OutOfMemory>
    requires { IsShownRoot inputs.now.trusted_root.now inputs.now.now root.now }
    ensures { IfOk result (λ made. members made ≡ members_into (members object)
        (checked_rows (inputs_of inputs.entry.now) (authorities_in root.now) link checked.now)) }
{
    match link {
        Link::Issuer => with_authorities_named(object, alloc, root, checked.certificate()),
        Link::Sct => {
            let object = with_sct(object, alloc, checked.certificate())?;
            with_ctlogs(object, alloc, inputs, root)
        }
        Link::Policy => {
            let certificate = checked.certificate();
            with_policy_rules(object, alloc, "policy", inputs.policy, certificate)
        }
        Link::Signature => with_signature(object, alloc, inputs, checked),
        Link::Subject => with_subjects(object, alloc, checked, inputs.digest),
        Link::Body => with_body(object, alloc, checked, inputs.digest),
        Link::Time => with_times(object, alloc, checked),
        _ => Ok(object),
    }
}

/// The object with the issuer that a certificate names, and the certificates of authorities of this name.
fn with_authorities_named(
    object: Object,
    alloc: Global,
    root: &ShownRoot,
    certificate: &Certificate,
) -> Result<Object, OutOfMemory>
    ensures { IfOk result (λ made. members made ≡ members_into (members object)
        (if_there (issuer_rows certificate.now) (authorities_in root.now))) }
{
    match root.authorities() {
        Some(authorities) => with_issuer(object, alloc, certificate, authorities),
        None => Ok(object),
    }
}

/// The object with the certificate authorities of the trusted root, and the time at which their ranges are looked at.
pub(crate) fn with_fulcio(
    object: Object,
    alloc: Global,
    inputs: &VerifyInputs<'_>,
    root: &ShownRoot,
) -> Result<Object, OutOfMemory>
    requires { IsShownRoot inputs.now.trusted_root.now inputs.now.now root.now }
    ensures { IfOk result (λ made. members made
        ≡ members_into (members object) (fulcio_rows (inputs_of inputs.entry.now))) }
{
    match &root.root {
        Some(root) => {
            let object = with_time(object, alloc, "now", &inputs.now)?;
            let authorities = root.certificate_authorities.as_slice();
            with_authorities(object, alloc, authorities, &inputs.now)
        }
        None => Ok(object),
    }
}

/// The object with the Certificate Transparency logs of the trusted root, and the time at which the ranges of their
/// keys are looked at.
pub(crate) fn with_ctlogs(
    object: Object,
    alloc: Global,
    inputs: &VerifyInputs<'_>,
    root: &ShownRoot,
) -> Result<Object, OutOfMemory>
    requires { IsShownRoot inputs.now.trusted_root.now inputs.now.now root.now }
    ensures { IfOk result (λ made. members made
        ≡ members_into (members object) (ctlogs_rows (inputs_of inputs.entry.now))) }
{
    match &root.trust {
        Some(parts) => {
            let object = with_time(object, alloc, "now", &inputs.now)?;
            object.with(alloc, "ctlogs", parts.ctlogs.view().copy(alloc)?)
        }
        None => Ok(object),
    }
}

/// The object with the logs of signatures of the trusted root, and likewise the time.
pub(crate) fn with_tlogs(
    object: Object,
    alloc: Global,
    inputs: &VerifyInputs<'_>,
    root: &ShownRoot,
) -> Result<Object, OutOfMemory>
    requires { IsShownRoot inputs.now.trusted_root.now inputs.now.now root.now }
    ensures { IfOk result (λ made. members made
        ≡ members_into (members object) (tlogs_rows (inputs_of inputs.entry.now))) }
{
    match &root.trust {
        Some(parts) => {
            let object = with_time(object, alloc, "now", &inputs.now)?;
            object.with(alloc, "tlogs", parts.tlogs.view().copy(alloc)?)
        }
        None => Ok(object),
    }
}

/// The same under the key of the certificate, if signatures are checked with it.
fn with_signature(
    object: Object,
    alloc: Global,
    inputs: &VerifyInputs<'_>,
    checked: &CheckedBundle,
) -> Result<Object, OutOfMemory>
    ensures { IfOk result (λ made. members made ≡ members_into (members object)
        (if_there (signed_rows (inputs_of inputs.entry.now) checked.now) (certificate_key checked.now.certificate))) }
{
    match key_of(checked.certificate().spki()) {
        Some(key) => with_signed(object, alloc, inputs, checked, key),
        None => Ok(object),
    }
}

/// The object with the signature over the content, as it was asked about under a key.
fn with_signed(
    object: Object,
    alloc: Global,
    inputs: &VerifyInputs<'_>,
    checked: &CheckedBundle,
    key: AskedKey<'_>,
) -> Result<Object, OutOfMemory>
    ensures { IfOk result (λ made. members made ≡ members_into (members object)
        (signed_rows (inputs_of inputs.entry.now) checked.now (key.entry.scheme, key.entry.spki.now))) }
{
    match signed_bytes(inputs.digest, checked.content()) {
        Some(message) => with_accepted(
            object,
            alloc,
            inputs.accepted,
            key.scheme,
            key.spki,
            message,
            checked.signature(),
        ),
        None => Ok(object),
    }
}

/// The bytes that a signature over the content has to be over.
fn signed_bytes<'a>(digest: &'a ArtifactDigest, content: &'a CheckedContent) -> Option<&'a [u8]>
    ensures { option_map (λ bytes. bytes.now) result ≡ signed_bytes digest.now content.now }
{
    match (content, digest) {
        (CheckedContent::Dsse { pae, .. }, _) => Some(pae.as_slice()),
        (CheckedContent::MessageSignature, ArtifactDigest::Sha256(bytes)) => Some(bytes.as_slice()),
        (CheckedContent::MessageSignature, ArtifactDigest::Sha512(_)) => None,
    }
}
