//! Readers of the values that only requests of this program have: schemes, operations, accepted signatures, a log's
//! entries, and members that have to be absent.
ghost use Rattle.std.specs.Prelude.{Option};
ghost use Rattle.sig_json.specs.Data.{Data};
ghost use Rattle.sig_base.specs.Answers.{Answers};
ghost use Rattle.sig_json.specs.OrMember.{or_member};
ghost use Rattle.sig_json.specs.Tree.{tree};
ghost use Rattle.sig_request.specs.Row.{accepted_of, entries_of, no_kind, operation_kind, row_of, scheme_for};
ghost use Rattle.sig_request.specs.Row.{scheme_kind};

use sig_base::{AcceptedRow, Bytes, Entries, Operation, SigningScheme, TableChecker};
use sig_json::{
    BytesReader, ElementReader, Json, MemberError, optional, read_list, required, required_bytes,
};
use std::alloc::Global;

/// Reads names of signature schemes.
pub enum SchemeReader {}

impl ElementReader for SchemeReader {
    type Item = SigningScheme;

    ghost meaning = { scheme_kind };

    #[tactic(auto, unfolding(crate::specs::Row::scheme_kind, sig_json::specs::Kinds::text_of))]
    fn read(_alloc: Global, json: Json<'_, '_>) -> Result<SigningScheme, MemberError> {
        let Some(name) = json.text() else {
            return Err(MemberError::Member);
        };
        match SigningScheme::try_from(name) {
            Ok(scheme) => Ok(scheme),
            Err(_) => Err(MemberError::Member),
        }
    }
}

/// Reads names of operations: `message`, `prehash`, `point`, `certificate`.
enum OperationReader {}

impl ElementReader for OperationReader {
    type Item = Operation;

    ghost meaning = { operation_kind };

    #[tactic(auto, unfolding(crate::specs::Row::operation_kind, sig_json::specs::Kinds::text_of))]
    fn read(_alloc: Global, json: Json<'_, '_>) -> Result<Operation, MemberError> {
        match json.text() {
            Some("message") => Ok(Operation::Message),
            Some("prehash") => Ok(Operation::Prehash),
            Some("point") => Ok(Operation::Point),
            Some("certificate") => Ok(Operation::Certificate),
            _ => Err(MemberError::Member),
        }
    }
}

/// Reads a log's entries: a list of base64 texts.
pub enum EntriesReader {}

impl ElementReader for EntriesReader {
    type Item = Entries;

    ghost meaning = { entries_of };

    fn read(alloc: Global, json: Json<'_, '_>) -> Result<Entries, MemberError> {
        Ok(Entries::of(alloc, read_list::<BytesReader>(alloc, json)?))
    }
}

/// Reads no value: a member that has to be absent or null is an optional one of this kind.
pub enum AbsentReader {}

impl ElementReader for AbsentReader {
    type Item = ();

    ghost meaning = { no_kind };

    fn read(_alloc: Global, _json: Json<'_, '_>) -> Result<(), MemberError> {
        Err(MemberError::Member)
    }
}

/// Reads accepted signatures: `operation`, `scheme`, `key`, `message` and `signature`, of which the last three are
/// base64 and required.
pub enum RowReader {}

impl ElementReader for RowReader {
    type Item = AcceptedRow;

    ghost meaning = { row_of };

    #[tactic(auto, unfolding(crate::specs::Row::row_of))]
    fn read(alloc: Global, json: Json<'_, '_>) -> Result<AcceptedRow, MemberError> {
        let operation = required::<OperationReader>(alloc, json, "operation")?;
        Ok(AcceptedRow {
            operation,
            scheme: read_scheme(alloc, json, operation)?,
            key: required_bytes(alloc, json, "key")?,
            message: required_bytes(alloc, json, "message")?,
            signature: required_bytes(alloc, json, "signature")?,
        })
    }
}

/// Reads accepted signatures: a list of rows. Fails with `Member` if and only if the value is not a list, or a row is
/// not as it has to be: an object with `operation` (`message`, `prehash`, `point`, `certificate`), `scheme`, `key`,
/// `message` and `signature`, of which the last three are base64 and required. `scheme` is a scheme's name for the
/// first two operations, absent for `point`, and base64 of the AlgorithmIdentifier for `certificate`.
pub fn read_accepted(alloc: Global, json: Json<'_, '_>) -> Result<TableChecker, MemberError>
    ensures { Answers MemberError.OutOfMemory (λ checker. checker) result
        (or_member (accepted_of (tree json.entry))) }
{
    let rows = read_list::<RowReader>(alloc, json)?;
    Ok(TableChecker::from_rows(alloc, rows)?)
}

/// Reads the scheme of an accepted signature: a scheme's name for a message and for a digest, absent for a point, and
/// base64 of the AlgorithmIdentifier for a certificate.
fn read_scheme(
    alloc: Global,
    json: Json<'_, '_>,
    operation: Operation,
) -> Result<Bytes, MemberError>
    ensures { Answers MemberError.OutOfMemory (λ x. x) result (or_member (scheme_for operation (tree json.entry))) }
{
    match operation {
        Operation::Message | Operation::Prehash => {
            let scheme = required::<SchemeReader>(alloc, json, "scheme")?;
            Ok(Bytes::copy_of(alloc, scheme.scheme().name().as_bytes())?)
        }
        Operation::Point => {
            let _ = optional::<AbsentReader>(alloc, json, "scheme")?;
            Ok(Bytes::copy_of(alloc, &[])?)
        }
        Operation::Certificate => required_bytes(alloc, json, "scheme"),
    }
}
