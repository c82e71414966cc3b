//! `ListOf`: lists whose elements keep to one table; and how many elements a list has.
ghost use Rattle.std.specs.Prelude.{◌≡◌, nat_lt, option_map};
ghost use Rattle.sig_base.specs.Answers.{Answers};
ghost use Rattle.sig_json.specs.Tree.{tree};
ghost use Rattle.sig_table.specs.Chosen.{is_between, other_length};
ghost use Rattle.sig_table.specs.Fault.{fault_of, here, or_fault};
ghost use Rattle.sig_table.specs.Table.{elements};

use crate::fault::{Cause, TableError};
use crate::table::{MemberTable, after_index, fault_here};
use sig_json::Json;
use std::alloc::Global;
use std::marker::PhantomData;

/// The table of lists whose elements keep to the table `T`. A null in the list is an element as any other.
pub struct ListOf<T: MemberTable> {
    of: PhantomData<T>,
}

impl<T: MemberTable> MemberTable for ListOf<T> {
    ghost table = { elements T.table };

    #[tactic(auto, using(crate::proofs::Elements::elements))]
    fn check(alloc: Global, json: Json<'_, '_>) -> Result<(), TableError> {
        let Some(count) = json.list_len() else {
            return Err(fault_here(alloc, Cause::OtherKind));
        };
        'elements: for index in 0..count {
            let Some(element) = json.item(index) else {
                // The index is below the length.
                unreachable!()
            };
            if let Err(error) = T::check(alloc, element) {
                return Err(after_index(index, error));
            }
        }
        Ok(())
    }
}

/// Fails with `Fault` if the value is a list of fewer or more elements than these. The check of a list of a given
/// length begins with this one.
pub fn length_between(
    alloc: Global,
    json: Json<'_, '_>,
    least: usize,
    most: usize,
) -> Result<(), TableError>
    ensures { Answers TableError.OutOfMemory (λ x. x) result
        (or_fault (option_map here (other_length (is_between least most) (tree json.entry)))) }
{
    match json.list_len() {
        Some(len) if len < least || most < len => Err(fault_here(alloc, Cause::BeyondRange)),
        _ => Ok(()),
    }
}

/// Fails with `Fault` if the value is a list without elements. The check of a list of at least one begins with this
/// one.
pub fn not_empty(alloc: Global, json: Json<'_, '_>) -> Result<(), TableError>
    ensures { Answers TableError.OutOfMemory (λ x. x) result
        (or_fault (option_map here (other_length (nat_lt 0) (tree json.entry)))) }
{
    match json.list_len() {
        Some(0) => Err(fault_here(alloc, Cause::BeyondRange)),
        _ => Ok(()),
    }
}
