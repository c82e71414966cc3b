//! The row of a signature over a note.
ghost use Rattle.std.specs.Prelude.{◌≡◌, IfOk};
ghost use Rattle.sig_reply.specs.NoteRow.{note_row};

use sig_base::{AcceptedRow, Bytes, Operation, OutOfMemory, VerifyScheme};
use std::alloc::Global;

/// The row of a signature over the note of this text, under a scheme and the key `key` (SubjectPublicKeyInfo, DER).
/// Fails only if out of memory.
pub fn note_row(
    alloc: Global,
    scheme: VerifyScheme,
    key: &[u8],
    note: &str,
    signature: &[u8],
) -> Result<AcceptedRow, OutOfMemory>
    ensures { IfOk result (λ row. row ≡ note_row scheme key.now note.now signature.now) }
{
    Ok(AcceptedRow {
        operation: Operation::Message,
        scheme: Bytes::copy_of(alloc, scheme.name().as_bytes())?,
        key: Bytes::copy_of(alloc, key)?,
        message: Bytes::copy_of(alloc, note.as_bytes())?,
        signature: Bytes::copy_of(alloc, signature)?,
    })
}
