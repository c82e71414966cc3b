//! `InRange`: the table of a member whose kind an earlier row has, and which has to be in a range too.
ghost use Rattle.sig_manifest_fault.specs.Range.{range_table};

use sig_json::{ElementReader, Json, MemberError};
use sig_table::{Cause, MemberTable, TableError, fault_here};
use std::alloc::Global;
use std::marker::PhantomData;

/// The table of what the reader `R` reads, after a row that rejects other kinds: a value that it does not read is
/// outside its range. What is read is dropped.
pub(crate) struct InRange<R: ElementReader> {
    reader: PhantomData<R>,
}

impl<R: ElementReader> MemberTable for InRange<R> {
    ghost table = { range_table R.meaning };

    fn check(alloc: Global, json: Json<'_, '_>) -> Result<(), TableError> {
        match R::read(alloc, json) {
            Ok(_) => Ok(()),
            Err(MemberError::Member) => Err(fault_here(alloc, Cause::BeyondRange)),
            Err(MemberError::OutOfMemory) => Err(TableError::OutOfMemory),
        }
    }
}
