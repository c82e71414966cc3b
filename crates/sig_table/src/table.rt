//! `MemberTable`: what a value has to be, and the first fault of one that is not.
ghost use Rattle.std.specs.Prelude.{◌≡◌, Option};
ghost use Rattle.sig_base.specs.Answers.{Answers, OrMemory};
ghost use Rattle.sig_json.specs.Tree.{tree};
ghost use Rattle.sig_table.specs.Fault.{at_name, error_under, fault_of, here, or_fault, object_fault, under};
ghost use Rattle.sig_table.specs.Table.{Table};
ghost use Rattle.sig_table.specs.declared.fault.MemberFault.{MemberFault};
ghost use Rattle.sig_table.specs.declared.path.Step.TheVariants.{Index, Name};

use crate::fault::{Cause, MemberFault, TableError};
use crate::path::{MemberPath, Step};
use sig_base::Text;
use sig_json::Json;
use std::alloc::Global;

/// A table: what a value has to be.
pub trait MemberTable {
    // The table as data.
    ghost table: { Table };

    /// Checks a value. Fails with `Fault` if and only if it breaks the table: the first member that does, in the order
    /// of the table.
    fn check(alloc: Global, json: Json<'_, '_>) -> Result<(), TableError>
        ensures { Answers TableError.OutOfMemory (λ x. x) result (or_fault (fault_of table (tree json.entry))) };
}

/// Returns the error of a check where the value itself is wrong, and nothing inside it. It takes no memory.
pub fn fault_here(alloc: Global, cause: Cause) -> TableError
    ensures { result ≡ TableError.Fault (here cause) }
{
    TableError::Fault(MemberFault {
        path: MemberPath::new(alloc),
        cause,
    })
}

/// Returns the error of an object's check from that of the check of its member of this name.
pub fn after_name(alloc: Global, name: &str, error: TableError) -> TableError
    ensures { OrMemory TableError.OutOfMemory result (result ≡ error_under (Name name.now) error) }
{
    match Text::copy_of(alloc, name) {
        Ok(name) => after(error, Step::Name(name)),
        Err(_) => TableError::OutOfMemory,
    }
}

/// The same error, with this step put before its path.
fn after(error: TableError, step: Step) -> TableError
    ensures { OrMemory TableError.OutOfMemory result (result ≡ error_under step error) }
{
    let TableError::Fault(mut fault) = error else {
        return TableError::OutOfMemory;
    };
    match fault.path.put_in_front(step) {
        Ok(()) => TableError::Fault(fault),
        Err(_) => TableError::OutOfMemory,
    }
}

/// Returns the error of a list's check from that of the check of its element at this index.
pub fn after_index(index: usize, error: TableError) -> TableError
    ensures { OrMemory TableError.OutOfMemory result (result ≡ error_under (Index index) error) }
{
    after(error, Step::Index(index))
}
