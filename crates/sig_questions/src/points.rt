//! The certificate's SCT under each issuer of a path that would hold (RFC 6962 section 3.2).
ghost use Rattle.sig_timestamp.specs.RingKey.{point_at};
ghost use Rattle.sig_questions.specs.Lists.{signed_questions};
ghost use Rattle.sig_questions.specs.Written.{AddsRows, point_questions, rows_of_points};

use crate::listing::NoQuestions;
use crate::rows::{RowParts, Rows};
use sig_base::Operation;
use sig_certificate::Certificate;
use sig_timestamp::{
    CT_EXTENSIONS_MAX, CertificateEmbeddedSCT, DigitallySigned, Keyring, SCTError,
    TBS_CERTIFICATE_MAX, signed_bytes,
};
use sig_x509::PossibleSigners;
use std::alloc::Global;

/// The rows under the keys of all that may have signed the leaf, in order.
pub(crate) fn push_points(
    rows: &mut Rows,
    alloc: Global,
    leaf: &PossibleSigners<'_>,
    keyring: &Keyring,
) -> Result<(), NoQuestions>
    ensures { AddsRows rows.old (rows_of_points (point_at keyring.now) leaf.now) result rows.new }
{
    'signers: for signer in &leaf.signers {
        push_point(rows, alloc, leaf.certificate, signer, keyring)?;
    }
    Ok(())
}

/// The row under a key, if the leaf has one SCT.
fn push_point(
    rows: &mut Rows,
    alloc: Global,
    leaf: &Certificate,
    signer: &Certificate,
    keyring: &Keyring,
) -> Result<(), NoQuestions>
    ensures { AddsRows rows.old (point_questions (point_at keyring.now) leaf.now signer.now) result rows.new }
{
    match CertificateEmbeddedSCT::new_with_verified_path(alloc, leaf, signer.spki()) {
        Ok(embedded) => {
            let signed = DigitallySigned::from_embedded(alloc, &embedded)?;
            push_signed(rows, alloc, &signed, keyring)
        }
        Err(SCTError::OutOfMemory) => Err(NoQuestions::OutOfMemory),
        Err(_) => Ok(()),
    }
}

/// The row of what the SCT signs, if it has bytes and the log of the SCT has a point.
fn push_signed(
    rows: &mut Rows,
    alloc: Global,
    signed: &DigitallySigned,
    keyring: &Keyring,
) -> Result<(), NoQuestions>
    ensures { AddsRows rows.old (signed_questions (point_at keyring.now) signed.now) result rows.new }
{
    if signed.tbs_certificate.as_slice().len() > TBS_CERTIFICATE_MAX {
        return Ok(());
    }
    if signed.extensions.as_slice().len() > CT_EXTENSIONS_MAX {
        return Ok(());
    }
    let Some(point) = keyring.point(&signed.log_id) else {
        return Ok(());
    };
    let message = signed_bytes(alloc, signed)?;
    rows.push(
        alloc,
        &RowParts {
            operation: Operation::Point,
            scheme: &[],
            key: point,
            message: message.as_slice(),
            signature: signed.signature.as_slice(),
        },
    )
}
