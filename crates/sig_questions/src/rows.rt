//! Rows in order, whose bytes together are bounded.
ghost use Rattle.std.specs.Prelude.{◌≡◌, [], ◌∷◌, length, IfOk};
ghost use Rattle.sig_questions.specs.Rows.{row_bytes};
ghost use Rattle.sig_questions.specs.Written.{IsSpent, AddsRows, row_of_parts};

use crate::listing::NoQuestions;
use sig_base::{AcceptedRow, Bytes, Operation, OutOfMemory, OwnedList};
use std::alloc::Global;

/// Rows in order, and how many more bytes the rows after them may have.
#[derive(Drop)]
pub(crate) struct Rows {
    pub(crate) rows: OwnedList<AcceptedRow>,
    pub(crate) room: usize,
}

/// A row before it is copied.
#[derive(Clone, Copy)]
pub(crate) struct RowParts<'a> {
    pub(crate) operation: Operation,
    pub(crate) scheme: &'a [u8],
    pub(crate) key: &'a [u8],
    pub(crate) message: &'a [u8],
    pub(crate) signature: &'a [u8],
}

impl Rows {
    /// Adds a row at the end. Errors: `TooLong` if and only if there is no room for its bytes, before any is copied;
    /// `OutOfMemory`.
    pub(crate) fn push(&mut self, alloc: Global, parts: &RowParts<'_>) -> Result<(), NoQuestions>
        ensures { AddsRows self.old (row_of_parts parts.now ∷ []) result self.new }
    {
        let room = room_after(self.room, parts)?;
        let row = copy_of(alloc, parts)?;
        self.rows.push(row)?;
        self.room = room;
        Ok(())
    }
}

/// What room is left after a row.
fn room_after(room: usize, parts: &RowParts<'_>) -> Result<usize, NoQuestions>
    ensures { IsSpent room (row_bytes (row_of_parts parts.now)) result }
{
    let room = room_left(room, parts.scheme)?;
    let room = room_left(room, parts.key)?;
    let room = room_left(room, parts.message)?;
    room_left(room, parts.signature)
}

/// What room is left after these bytes.
fn room_left(room: usize, bytes: &[u8]) -> Result<usize, NoQuestions>
    ensures { IsSpent room (length bytes.now) result }
{
    if room < bytes.len() {
        return Err(NoQuestions::TooLong);
    }
    Ok(room - bytes.len())
}

/// The row in memory of its own.
fn copy_of(alloc: Global, parts: &RowParts<'_>) -> Result<AcceptedRow, OutOfMemory>
    ensures { IfOk result (λ row. row ≡ row_of_parts parts.now) }
{
    Ok(AcceptedRow {
        operation: parts.operation,
        scheme: Bytes::copy_of(alloc, parts.scheme)?,
        key: Bytes::copy_of(alloc, parts.key)?,
        message: Bytes::copy_of(alloc, parts.message)?,
        signature: Bytes::copy_of(alloc, parts.signature)?,
    })
}
