//! The text of a request, read by the table of its members, and of `accepted` row by row.
ghost use Rattle.std.specs.Prelude.{IfOk, List, Option};
ghost use Rattle.std.specs.Option.{ok_or};
ghost use Rattle.sig_base.specs.Answers.{Answers};
ghost use Rattle.sig_base.specs.declared.checker.AcceptedRow.{AcceptedRow as row_type};
ghost use Rattle.sig_json.specs.Data.{Data};
ghost use Rattle.sig_json.specs.Only.{names_of};
ghost use Rattle.sig_json.specs.OrMember.{or_member};
ghost use Rattle.sig_json.specs.Record.{record_in};
ghost use Rattle.sig_json.specs.Tree.{tree};
ghost use Rattle.sig_request.specs.Accepted.{AsksOnly, with_rows};
ghost use Rattle.sig_request.specs.ReadFrom.{IsReadFrom};

use crate::read::MOST_BYTES;
use crate::row::RowReader;
use sig_base::{AcceptedRow, OutOfMemory, OwnedList, TableChecker};
use sig_json::{BorrowedDocument, Json, JsonError, MemberError, Scratch};
use std::alloc::Global;

/// A reader of the requests of a command.
pub trait RequestReader {
    /// What a request is read as.
    type Item: Drop;

    // What contracts see of the request with these rows of `accepted`; `None` if another member is not as it has to
    // be.
    ghost meaning: { List row_type → Data → Option Self.Item };

    /// Reads the members of a request beside `accepted`, whose rows are given. Fails with `Member` if and only if they
    /// are not those of a request.
    fn read(
        alloc: Global,
        json: Json<'_, '_>,
        accepted: TableChecker,
    ) -> Result<Self::Item, MemberError>
        ensures { Answers MemberError.OutOfMemory (λ request. request) result
            (or_member (meaning accepted (tree json.entry))) };
}

/// The request that a text is, by `accepted` and a table of these names; `None` if and only if the text has more than
/// 2^24 bytes, is not a JSON document without floats, or does not have the members of a request. No tree is made of a
/// member of another name. Fails only if out of memory.
#[tactic(auto, using(crate::proofs::RequestTexts::texts))]
pub fn request_from_text<T: RequestReader>(
    alloc: Global,
    text: &[u8],
    names: &[&str],
) -> Result<Option<T::Item>, OutOfMemory>
    requires { AsksOnly (names_of names.now) T.meaning }
    ensures { IfOk result (IsReadFrom (with_rows T.meaning) text.now) }
{
    if text.len() > MOST_BYTES {
        return Ok(None);
    }
    match read_parts::<T>(alloc, text, names) {
        Ok(request) => Ok(Some(request)),
        Err(JsonError::NotJson | JsonError::Float | JsonError::Member) => Ok(None),
        Err(JsonError::OutOfMemory) => Err(OutOfMemory),
    }
}

/// The request of a text: the rows of `accepted`, and the members of these names.
fn read_parts<T: RequestReader>(
    alloc: Global,
    text: &[u8],
    names: &[&str],
) -> Result<T::Item, JsonError>
    requires { AsksOnly (names_of names.now) T.meaning }
    ensures { Answers JsonError.OutOfMemory (λ request. request) result (record_in (with_rows T.meaning) text.now) }
{
    let mut scratch = Scratch::new(alloc);
    let mut spare = Scratch::new(alloc);
    let (members, rows) = BorrowedDocument::read_members_and_list::<RowReader>(
        alloc,
        text,
        names,
        "accepted",
        &mut scratch,
        &mut spare,
    )?;
    let request = request_of_parts::<T>(alloc, members.view(), rows);
    drop(members);
    request
}

/// The request of its members and the rows of `accepted`.
fn request_of_parts<T: RequestReader>(
    alloc: Global,
    members: Json<'_, '_>,
    rows: OwnedList<AcceptedRow>,
) -> Result<T::Item, JsonError>
    ensures { Answers JsonError.OutOfMemory (λ request. request) result
        (ok_or (T.meaning rows (tree members.entry)) JsonError.Member) }
{
    let Ok(accepted) = TableChecker::from_rows(alloc, rows) else {
        return Err(JsonError::OutOfMemory);
    };
    Ok(T::read(alloc, members, accepted)?)
}
