//! Tables of single values: what a reader reads, and objects of any members.
ghost use Rattle.std.specs.Prelude.{◌≡◌};
ghost use Rattle.sig_table.specs.Chosen.{nothing_table};
ghost use Rattle.sig_table.specs.Kinds.{object_table, other_kind};
ghost use Rattle.sig_table.specs.Table.{leaf};

use crate::fault::{Cause, TableError};
use crate::rows::object;
use crate::table::{MemberTable, fault_here};
use sig_json::{BytesReader, ElementReader, HashReader, Json, MemberError, TextReader};
use std::alloc::Global;
use std::marker::PhantomData;

/// The table of what the reader `R` reads: a value that it does not read is of another kind. What is read is dropped.
pub struct ReadBy<R: ElementReader> {
    reader: PhantomData<R>,
}

/// The table of texts: every JSON string is one.
pub type TextTable = ReadBy<TextReader>;

/// The table of bytes written as padded standard base64 (RFC 4648 section 4).
pub type BytesTable = ReadBy<BytesReader>;

/// The table of hashes: 64 hexadecimal digits in either case (RFC 4648 section 8).
pub type HashTable = ReadBy<HashReader>;

/// The table of what may not be there beside another member. No value keeps to it.
pub enum Nothing {}

/// The table of objects, whatever members they have.
pub enum AnyObject {}

impl<R: ElementReader> MemberTable for ReadBy<R> {
    ghost table = { leaf (other_kind R.meaning) };

    fn check(alloc: Global, json: Json<'_, '_>) -> Result<(), TableError> {
        match R::read(alloc, json) {
            Ok(_) => Ok(()),
            Err(MemberError::Member) => Err(fault_here(alloc, Cause::OtherKind)),
            Err(MemberError::OutOfMemory) => Err(TableError::OutOfMemory),
        }
    }
}

impl MemberTable for AnyObject {
    ghost table = { object_table };

    fn check(alloc: Global, json: Json<'_, '_>) -> Result<(), TableError> {
        object(alloc, json)
    }
}

impl MemberTable for Nothing {
    ghost table = { nothing_table };

    fn check(alloc: Global, _json: Json<'_, '_>) -> Result<(), TableError> {
        Err(fault_here(alloc, Cause::NotAlone))
    }
}
