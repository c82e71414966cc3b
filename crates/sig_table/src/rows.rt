//! Rows of a table: members of an object that are there, or may be absent, or of which at most one is there. Null is the
//! same as absent.
ghost use Rattle.std.specs.Prelude.{◌≡◌, option_map};
ghost use Rattle.sig_base.specs.Answers.{Answers};
ghost use Rattle.sig_json.specs.Only.{names_of};
ghost use Rattle.sig_json.specs.Tree.{tree};
ghost use Rattle.sig_table.specs.Fault.{object_fault, or_fault, row_fault};
ghost use Rattle.sig_table.specs.Table.{member_in, oneof_row, optional_row, required_row};

use crate::fault::{Cause, TableError};
use crate::table::{MemberTable, after_name, fault_here};
use sig_json::Json;
use std::alloc::Global;

/// The member of an object, unless it is absent or null.
pub fn member<'a, 't>(json: Json<'a, 't>, name: &str) -> Option<Json<'a, 't>>
    ensures { option_map tree result ≡ member_in name.now (tree json.entry) }
{
    match json.get(name) {
        Some(value) if !value.is_null() => Some(value),
        _ => None,
    }
}

/// Fails with `Fault` if the value is not an object. The check of a table of rows begins with this one.
pub fn object(alloc: Global, json: Json<'_, '_>) -> Result<(), TableError>
    ensures { Answers TableError.OutOfMemory (λ x. x) result (or_fault (object_fault (tree json.entry))) }
{
    match json.members() {
        Some(_) => Ok(()),
        None => Err(fault_here(alloc, Cause::OtherKind)),
    }
}

/// A required member of an object. Fails with `Fault` if the member is absent, null, or breaks its table.
pub fn required<T: MemberTable>(
    alloc: Global,
    json: Json<'_, '_>,
    name: &str,
) -> Result<(), TableError>
    ensures { Answers TableError.OutOfMemory (λ x. x) result
        (or_fault (row_fault (required_row name.now T.table) (tree json.entry))) }
{
    match member(json, name) {
        Some(value) => match T::check(alloc, value) {
            Ok(()) => Ok(()),
            Err(error) => Err(after_name(alloc, name, error)),
        },
        None => Err(after_name(alloc, name, fault_here(alloc, Cause::Absent))),
    }
}

/// An optional member of an object. Fails with `Fault` if the member is there and breaks its table.
pub fn optional<T: MemberTable>(
    alloc: Global,
    json: Json<'_, '_>,
    name: &str,
) -> Result<(), TableError>
    ensures { Answers TableError.OutOfMemory (λ x. x) result
        (or_fault (row_fault (optional_row name.now T.table) (tree json.entry))) }
{
    match member(json, name) {
        Some(value) => match T::check(alloc, value) {
            Ok(()) => Ok(()),
            Err(error) => Err(after_name(alloc, name, error)),
        },
        None => Ok(()),
    }
}

/// Members of an object of which at most one is there. Fails with `Fault` at the second that is there.
pub fn at_most_one(alloc: Global, json: Json<'_, '_>, names: &[&str]) -> Result<(), TableError>
    ensures { Answers TableError.OutOfMemory (λ x. x) result
        (or_fault (row_fault (oneof_row (names_of names.now)) (tree json.entry))) }
{
    let mut found = false;
    'names: for name in names {
        if member(json, name).is_some() {
            if found {
                return Err(after_name(alloc, name, fault_here(alloc, Cause::NotAlone)));
            }
            found = true;
        }
    }
    Ok(())
}
