//! The signature over the content, under the certificate's key.
ghost use Rattle.sig_questions.specs.Lists.{content_questions, content_questions_under};
ghost use Rattle.sig_questions.specs.Written.{AddsRows};

use crate::listing::NoQuestions;
use crate::rows::{RowParts, Rows};
use sig_base::{Operation, VerifyScheme};
use sig_bundle::ArtifactDigest;
use sig_checked_bundle::{CheckedBundle, CheckedContent};
use sig_key::{KeyKind, key_kind};
use std::alloc::Global;

/// The row of the signature, if the certificate's key is of a scheme.
pub(crate) fn push_content(
    rows: &mut Rows,
    alloc: Global,
    bundle: &CheckedBundle,
    digest: &ArtifactDigest,
) -> Result<(), NoQuestions>
    ensures { AddsRows rows.old (content_questions digest.now bundle.now) result rows.new }
{
    match key_kind(bundle.certificate().spki()) {
        KeyKind::Scheme(scheme) => push_under(rows, alloc, bundle, digest, scheme),
        KeyKind::Unsupported => Ok(()),
        KeyKind::NoKeyInfo => Ok(()),
    }
}

/// The row of the signature under a scheme: over the encoding of an envelope, or over the SHA-256 digest of the
/// artifact.
fn push_under(
    rows: &mut Rows,
    alloc: Global,
    bundle: &CheckedBundle,
    digest: &ArtifactDigest,
    scheme: VerifyScheme,
) -> Result<(), NoQuestions>
    ensures { AddsRows rows.old (content_questions_under scheme bundle.now.certificate.spki digest.now
        bundle.now.content bundle.now.signature) result rows.new }
{
    let (operation, message) = match (bundle.content(), digest) {
        (CheckedContent::Dsse { pae, .. }, _) => (Operation::Message, pae.as_slice()),
        (CheckedContent::MessageSignature, ArtifactDigest::Sha256(bytes)) => (
            Operation::Prehash,
            bytes.as_slice(),
        ),
        (CheckedContent::MessageSignature, ArtifactDigest::Sha512(_)) => return Ok(()),
    };
    rows.push(
        alloc,
        &RowParts {
            operation,
            scheme: scheme.name().as_bytes(),
            key: bundle.certificate().spki(),
            message,
            signature: bundle.signature(),
        },
    )
}
