//! The tables of accepted signatures, of names of signature schemes, and of a log's entries.
ghost use Rattle.std.specs.Prelude.{◌≡◌};
ghost use Rattle.sig_base.specs.Answers.{Answers};
ghost use Rattle.sig_json.specs.Tree.{tree};
ghost use Rattle.sig_request.specs.Row.{operation_kind};
ghost use Rattle.sig_request_fault.specs.RowTable.{accepted_table, entries_table, operation_in, operation_table};
ghost use Rattle.sig_request_fault.specs.RowTable.{row_table, scheme_row, scheme_table};
ghost use Rattle.sig_table.specs.Fault.{or_fault, row_fault};

use sig_base::{Operation, SigningScheme};
use sig_json::Json;
use sig_table::{
    BytesTable, Cause, ListOf, MemberTable, Nothing, TableError, fault_here, member, object,
    optional, required,
};
use std::alloc::Global;

/// The table of names of signature schemes.
pub(crate) enum SchemeTable {}

impl MemberTable for SchemeTable {
    ghost table = { scheme_table };

    #[tactic(auto, unfolding(crate::specs::RowTable::scheme_table, sig_request::specs::Row::scheme_kind, sig_json::specs::Kinds::text_of))]
    fn check(alloc: Global, json: Json<'_, '_>) -> Result<(), TableError> {
        match json.text() {
            Some(name) if SigningScheme::try_from(name).is_ok() => Ok(()),
            _ => Err(fault_here(alloc, Cause::OtherKind)),
        }
    }
}

/// The table of names of operations.
enum OperationTable {}

impl MemberTable for OperationTable {
    ghost table = { operation_table };

    #[tactic(auto, unfolding(crate::specs::RowTable::operation_table))]
    fn check(alloc: Global, json: Json<'_, '_>) -> Result<(), TableError> {
        match operation_named(json) {
            Some(_) => Ok(()),
            None => Err(fault_here(alloc, Cause::OtherKind)),
        }
    }
}

/// The operation that a value names.
#[tactic(auto, unfolding(sig_request::specs::Row::operation_kind, sig_json::specs::Kinds::text_of))]
fn operation_named(json: Json<'_, '_>) -> Option<Operation>
    ensures { result ≡ operation_kind (tree json.entry) }
{
    match json.text() {
        Some("message") => Some(Operation::Message),
        Some("prehash") => Some(Operation::Prehash),
        Some("point") => Some(Operation::Point),
        Some("certificate") => Some(Operation::Certificate),
        _ => None,
    }
}

/// The table of accepted signatures, one by one.
enum RowTable {}

impl MemberTable for RowTable {
    ghost table = { row_table };

    #[tactic(auto, using(sig_table::proofs::Steps::steps), unfolding(crate::specs::RowTable::row_table))]
    fn check(alloc: Global, json: Json<'_, '_>) -> Result<(), TableError> {
        object(alloc, json)?;
        required::<OperationTable>(alloc, json, "operation")?;
        scheme(alloc, json, operation_in(json))?;
        required::<BytesTable>(alloc, json, "key")?;
        required::<BytesTable>(alloc, json, "message")?;
        required::<BytesTable>(alloc, json, "signature")
    }
}

/// The row of the scheme of an accepted signature.
fn scheme(alloc: Global, json: Json<'_, '_>, operation: Option<Operation>) -> Result<(), TableError>
    ensures { Answers TableError.OutOfMemory (λ x. x) result
        (or_fault (row_fault (scheme_row operation) (tree json.entry))) }
{
    match operation {
        Some(Operation::Message | Operation::Prehash) => {
            required::<SchemeTable>(alloc, json, "scheme")
        }
        Some(Operation::Certificate) => required::<BytesTable>(alloc, json, "scheme"),
        Some(Operation::Point) | None => optional::<Nothing>(alloc, json, "scheme"),
    }
}

/// The operation of an accepted signature.
fn operation_in(json: Json<'_, '_>) -> Option<Operation>
    ensures { result ≡ operation_in (tree json.entry) }
{
    match member(json, "operation") {
        Some(value) => operation_named(value),
        None => None,
    }
}

/// The table of accepted signatures: lists of them.
pub enum AcceptedTable {}

impl MemberTable for AcceptedTable {
    ghost table = { accepted_table };

    #[tactic(auto, unfolding(crate::specs::RowTable::accepted_table))]
    fn check(alloc: Global, json: Json<'_, '_>) -> Result<(), TableError> {
        ListOf::<RowTable>::check(alloc, json)
    }
}

/// The table of a log's entries.
pub(crate) enum EntriesTable {}

impl MemberTable for EntriesTable {
    ghost table = { entries_table };

    #[tactic(auto, unfolding(crate::specs::RowTable::entries_table))]
    fn check(alloc: Global, json: Json<'_, '_>) -> Result<(), TableError> {
        ListOf::<BytesTable>::check(alloc, json)
    }
}
