//! `ValuesOf`: objects of free names, whose every member keeps to one table.
ghost use Rattle.sig_manifest_fault.specs.Values.{values_table};

use sig_json::Json;
use sig_table::{Cause, MemberTable, TableError, fault_here, object, required};
use std::alloc::Global;
use std::marker::PhantomData;

/// The table of objects whose every member keeps to the table `T`, whatever its name. A member that is null is absent.
pub(crate) struct ValuesOf<T: MemberTable> {
    of: PhantomData<T>,
}

impl<T: MemberTable> MemberTable for ValuesOf<T> {
    ghost table = { values_table T.table };

    #[tactic(auto, using(crate::proofs::ValueRows::walks))]
    fn check(alloc: Global, json: Json<'_, '_>) -> Result<(), TableError> {
        let Some(members) = json.members() else {
            return Err(fault_here(alloc, Cause::OtherKind));
        };
        'members: for (name, _) in members {
            required::<T>(alloc, json, name)?;
        }
        Ok(())
    }
}
