//! Whether the body of a log's entry is about what a bundle holds.
ghost use Rattle.std.specs.Prelude.{◌↔◌, IsTrue, IfOk};
ghost use Rattle.sig_checked_bundle.specs.LogBody.{IsBodyAbout};

use crate::content_check::CheckedContent;
use crate::dsse_body::is_about_envelope;
use crate::hashedrekord::is_about_artifact;
use sig_base::OutOfMemory;
use std::alloc::Global;

/// Whether the body of a log's entry is about the content, with this signature, which the certificate of this DER
/// verifies: a signature over an artifact of this SHA-256 digest, or an envelope. Fails only if out of memory.
pub(crate) fn is_body_about(
    alloc: Global,
    content: &CheckedContent,
    digest: &[u8],
    signature: &[u8],
    certificate: &[u8],
    body: &[u8],
) -> Result<bool, OutOfMemory>
    ensures { IfOk result (λ about. IsTrue about
        ↔ IsBodyAbout content.now digest.now signature.now certificate.now body.now) }
{
    match content {
        CheckedContent::MessageSignature => {
            is_about_artifact(alloc, digest, signature, certificate, body)
        }
        CheckedContent::Dsse {
            envelope_json,
            payload_bytes,
            ..
        } => is_about_envelope(
            alloc,
            envelope_json.as_str().as_bytes(),
            payload_bytes.as_slice(),
            signature,
            certificate,
            body,
        ),
    }
}
