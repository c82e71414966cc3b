//! The signatures of certificates that lie on a path which would hold if every signature were genuine (RFC 5280 section
//! 6.1).
ghost use Rattle.std.specs.Prelude.{[], ◌∷◌, flat_map};
ghost use Rattle.sig_questions.specs.Asked.{signature_row};
ghost use Rattle.sig_questions.specs.Written.{AddsRows, rows_of_paths, rows_of_signed};

use crate::listing::NoQuestions;
use crate::rows::{RowParts, Rows};
use sig_base::Operation;
use sig_certificate::Certificate;
use sig_x509::{PossiblePaths, PossibleSigners};
use std::alloc::Global;

/// The rows of the leaf's signature, and then of those of the intermediates in order, each under the keys of all that
/// may have signed.
pub(crate) fn push_certificates(
    rows: &mut Rows,
    alloc: Global,
    paths: &PossiblePaths<'_>,
) -> Result<(), NoQuestions>
    ensures { AddsRows rows.old (rows_of_paths paths.now) result rows.new }
{
    push_signed(rows, alloc, &paths.leaf)?;
    push_further(rows, alloc, &paths.further)
}

/// The rows of a signature under the keys of all that may have signed, in order.
fn push_signed(
    rows: &mut Rows,
    alloc: Global,
    signed: &PossibleSigners<'_>,
) -> Result<(), NoQuestions>
    ensures { AddsRows rows.old (rows_of_signed signed.now) result rows.new }
{
    'signers: for signer in &signed.signers {
        push_signature(rows, alloc, signed.certificate, signer)?;
    }
    Ok(())
}

/// The row of a signature under a key.
fn push_signature(
    rows: &mut Rows,
    alloc: Global,
    signed: &Certificate,
    signer: &Certificate,
) -> Result<(), NoQuestions>
    ensures { AddsRows rows.old (signature_row signed.now signer.now ∷ []) result rows.new }
{
    rows.push(
        alloc,
        &RowParts {
            operation: Operation::Certificate,
            scheme: signed.algorithm(),
            key: signer.spki(),
            message: signed.tbs(),
            signature: signed.signature(),
        },
    )
}

/// The rows of the signatures of intermediates, in order.
fn push_further(
    rows: &mut Rows,
    alloc: Global,
    further: &[PossibleSigners<'_>],
) -> Result<(), NoQuestions>
    ensures { AddsRows rows.old (flat_map rows_of_signed further.now) result rows.new }
{
    'further: for signed in further {
        push_signed(rows, alloc, signed)?;
    }
    Ok(())
}
