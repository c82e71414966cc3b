//! `CheckedBundle`: a bundle that passed its own checks.

ghost use Rattle.std.specs.Prelude.{◌≡◌, ◌≢◌, ◌↔◌, Ok, IfOk, IfSome, IsSome};
ghost use Rattle.sig_base.specs.Answers.{ComesWhere};
ghost use Rattle.sig_bundle.specs.AnswersOnly.{AnswersOnly};
ghost use Rattle.sig_checked_bundle.specs.Checked.{Checked, IsChecked};
ghost use Rattle.sig_checked_bundle.specs.LogBody.{IsLogBody, NeedsNoFetch};
ghost use Rattle.sig_checked_bundle.specs.Passed.{IsPassed};
ghost use Rattle.sig_checked_bundle.specs.Refusals.{IsCause};
ghost use Rattle.sig_checked_bundle.specs.declared.bundle_error.BundleErrorKind.{BundleErrorKind as error_type};

use crate::bundle_error::BundleErrorKind;
use crate::content_check::{CheckedContent, check_content_and_envelope};
use crate::log_body::is_body_about;
use crate::profile_check::{check_entry, check_profile};
use crate::signing_certificate::check_certificates;
use sig_base::{Bytes, OutOfMemory, OwnedList};
use sig_bundle::{Bundle, TransparencyLogEntry};
use sig_certificate::Certificate;
use std::alloc::Global;
use std::marker::Model;

/// A bundle that passed all checks that need only the bundle. No signature is checked, and no digest compared.
/// Contracts see the record of *Checked bundle*.
#[derive(Drop)]
pub struct CheckedBundle {
    certificate: Certificate,
    further: OwnedList<Certificate>,
    signature: Bytes,
    content: CheckedContent,
    entry: TransparencyLogEntry,
}

impl Model for CheckedBundle {
    ghost use Rattle.sig_checked_bundle.specs.Checked.{Checked};

    ghost Value = { Checked };

    ghost view = { λ b. record {
      certificate = b.certificate;
      further = b.further;
      signature = b.signature;
      content = b.content;
      entry = b.entry;
    } };
}

impl CheckedBundle {
    /// Checks what needs only the bundle, and keeps what the checks after it need. Fails with the first of these that
    /// has its cause:
    ///
    /// 1. `VerificationMaterialMissing`: there is no verification material.
    /// 2. `VerificationMaterialContentUnsupported`: the material has no content, or a hint at a key.
    /// 3. `TooManyCertificates`: the chain has this number of certificates, above 17. None of them is read.
    /// 4. `CertificateMalformed` with the index of the first that is not a certificate (RFC 5280 section 4.1); a
    ///    certificate alone has index 0.
    /// 5. `CertificatesMissing`: the chain is empty.
    /// 6. `NoLeaf`: the first certificate may not sign, with the error of [`sig_certificate::is_leaf`].
    /// 7. `RootInChain`: a further certificate of the chain is a root, as [`sig_certificate::is_root_ca`] says.
    /// 8. `SignatureMissing`: there is no content.
    /// 9. `DsseInvalidSignatureCount`: an envelope does not have exactly one signature.
    /// 10. `DssePayloadDecode`: its payload is not a statement.
    /// 11. `DsseTooManySubjects` above 1024, `DsseTooManySubjectDigests` above 32, `DsseSubjectDigestMalformed`, and
    ///     `DsseNoRecognizedSubjectDigest`, as [`sig_dsse::recognized_digests`].
    /// 12. `TlogEntry`: there is not one log entry.
    /// 13. `BundleProfile`: `Unknown` for a media type that does not name a version; under 0.1
    ///     `InclusionPromiseMissing`; under 0.2 and 0.3 `InclusionProofMissing`, then `CheckpointMissing`.
    pub fn try_from_bundle(alloc: Global, input: &Bundle) -> Result<CheckedBundle, BundleErrorKind>
        ensures passed { (checked : Checked) → ComesWhere BundleErrorKind.OutOfMemory result (Ok checked)
            (IsPassed input.now checked) }
        ensures refused { (kind : error_type) → kind ≢ BundleErrorKind.OutOfMemory
            → ComesWhere BundleErrorKind.OutOfMemory result (Err kind) (IsCause kind input.now) }
        // What is returned is the result of the checks, of which there is one, unless memory ran out.
        ensures answer { AnswersOnly BundleErrorKind.OutOfMemory (IsChecked input.now) result }
    {
        check_bundle(alloc, input)
    }

    /// The signing certificate, the first of the bundle's.
    pub fn certificate(&self) -> &Certificate
        ensures { result.now ≡ self.now.certificate }
    {
        &self.certificate
    }

    /// The certificates after the signing one, in order: at most 16, none of which is a root.
    pub fn further(&self) -> &[Certificate]
        ensures { result.now ≡ self.now.further }
    {
        self.further.as_slice()
    }

    /// The signature over [`CheckedBundle::content`]. It is not checked.
    pub fn signature(&self) -> &[u8]
        ensures { result.now ≡ self.now.signature }
    {
        self.signature.as_slice()
    }

    /// What the signature is over.
    pub fn content(&self) -> &CheckedContent
        ensures { result.now ≡ self.now.content }
    {
        &self.content
    }

    /// The bundle's one log entry. Its promise and its proof are not checked.
    pub fn entry(&self) -> &TransparencyLogEntry
        ensures { result.now ≡ self.now.entry }
    {
        &self.entry
    }

    /// Returns the log entry if its body is about what the bundle holds, and nothing has to be fetched to check it:
    /// with `offline`, or with an inclusion proof. Returns `None` if and only if one of the two does not hold. Fails
    /// only if out of memory.
    ///
    /// The body of an entry about a signature over an artifact is the document of kind `hashedrekord`, version 0.0.1
    /// (Rekor), that has `input_digest`, the artifact's SHA-256, in lower-case hexadecimal, the signature, and the PEM
    /// of the signing certificate (RFC 7468 section 5.1), and no other member. The body of an envelope's entry is one
    /// of kind `dsse`, version 0.0.1: its hashes are the SHA-256 of the envelope's text and of the payload, its first
    /// signature is the envelope's, and the verifier of that is that PEM; `input_digest` is not checked.
    pub fn tlog_entry(
        &self,
        alloc: Global,
        offline: bool,
        input_digest: &[u8],
    ) -> Result<Option<&TransparencyLogEntry>, OutOfMemory>
        ensures entry { IfOk result (λ found. IfSome found (λ entry. entry.now ≡ self.now.entry)) }
        ensures exact { IfOk result (λ found. IsSome found
            ↔ (IsLogBody self.now input_digest.now × NeedsNoFetch offline self.now.entry)) }
    {
        if !offline && self.entry.inclusion_proof.is_none() {
            return Ok(None);
        }
        let is_about = is_body_about(
            alloc,
            &self.content,
            input_digest,
            self.signature.as_slice(),
            self.certificate.der(),
            self.entry.canonicalized_body.as_slice(),
        )?;
        Ok(if is_about { Some(&self.entry) } else { None })
    }
}

/// The links `material` to `profile`, in order.
fn check_bundle(alloc: Global, input: &Bundle) -> Result<CheckedBundle, BundleErrorKind>
    ensures { AnswersOnly BundleErrorKind.OutOfMemory (IsChecked input.now) result }
{
    let Some(material) = &input.verification_material else {
        return Err(BundleErrorKind::VerificationMaterialMissing);
    };
    // The links `material`, of what it holds, `certificate`, `leaf` and `root-in-chain`.
    let chain = check_certificates(alloc, &material.content)?;
    let content = check_content_and_envelope(alloc, &input.content)?;
    let entry = check_entry(&material.tlog_entries)?;
    check_profile(alloc, &input.media_type, entry)?;
    let entry = entry.copy(alloc)?;
    Ok(CheckedBundle {
        certificate: chain.certificate,
        further: chain.further,
        signature: content.signature,
        content: content.content,
        entry,
    })
}
