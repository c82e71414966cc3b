//! `ElementReader`: readers of one kind of value, and the one reader of lists over them.
ghost use Rattle.std.specs.Prelude.{Option};
ghost use Rattle.serde_json.specs.Data.{Data};
ghost use Rattle.sig_json.specs.Member.{list_each, required, optional, optional_list, required_list};
ghost use Rattle.sig_base.specs.Answers.{Answers};
ghost use Rattle.sig_json.specs.OrMember.{or_member};
ghost use Rattle.sig_json.specs.SeenAs.{SeenAs, itself};
ghost use Rattle.sig_json.specs.Tree.{tree};

use crate::error::MemberError;
use crate::member::{find_member, require_member};
use crate::view::Json;
use sig_base::OwnedList;
use std::alloc::Global;

/// A reader of one kind of value: of the elements of a list, and of a member.
pub trait ElementReader {
    /// What a value of the kind is read as.
    type Item: Drop;

    // How contracts see an item: as itself, unless the reader says otherwise.
    ghost seen_as: { SeenAs Self.Item } = { itself };

    // What contracts see of the item that a value is read as; none where the value is not of the kind.
    ghost meaning: { Data → Option seen_as.Value };

    /// Reads a value. Fails with `Member` if and only if it is not of the kind.
    fn read(alloc: Global, json: Json<'_, '_>) -> Result<Self::Item, MemberError>
        ensures { Answers MemberError.OutOfMemory seen_as.item result (or_member (meaning (tree json.entry))) };
}

/// Reads every element of a list. Fails with `Member` if the value is not a list or an element is not of the kind.
#[tactic(auto, using(crate::proofs::Elements::elements))]
pub fn read_list<T: ElementReader>(
    alloc: Global,
    list: Json<'_, '_>,
) -> Result<OwnedList<T::Item>, MemberError>
    ensures { Answers MemberError.OutOfMemory T.seen_as.list result
        (or_member (list_each T.meaning (tree list.entry))) }
{
    let Some(elements) = list.value.as_array() else {
        return Err(MemberError::Member);
    };
    let mut found = OwnedList::new(alloc);
    'elements: for element in elements {
        found.push(T::read(alloc, Json { value: element })?)?;
    }
    Ok(found)
}

/// A required member of one kind. Fails with `Member` if the value is not an object, or the member is absent, null or
/// not of the kind.
#[tactic(auto, using(crate::proofs::RequiredMembers::required_members))]
pub fn required<T: ElementReader>(
    alloc: Global,
    json: Json<'_, '_>,
    name: &str,
) -> Result<T::Item, MemberError>
    ensures { Answers MemberError.OutOfMemory T.seen_as.item result
        (or_member (required T.meaning name.now (tree json.entry))) }
{
    T::read(alloc, require_member(json, name)?)
}

/// An optional member of one kind; `None` if it is absent or null. Fails with `Member` if the value is not an object or
/// the member is not of the kind.
#[tactic(auto, unfolding(crate::specs::Member::optional_or))]
pub fn optional<T: ElementReader>(
    alloc: Global,
    json: Json<'_, '_>,
    name: &str,
) -> Result<Option<T::Item>, MemberError>
    ensures { Answers MemberError.OutOfMemory T.seen_as.option result
        (or_member (optional T.meaning name.now (tree json.entry))) }
{
    match find_member(json, name)? {
        Some(value) => Ok(Some(T::read(alloc, value)?)),
        None => Ok(None),
    }
}

/// A required list of one kind. Fails with `Member` if the value is not an object, the member is absent, null or not a
/// list, or an element is not of the kind; a null in the list is an element as any other.
#[tactic(auto, using(crate::proofs::RequiredMembers::required_members))]
pub fn required_list<T: ElementReader>(
    alloc: Global,
    json: Json<'_, '_>,
    name: &str,
) -> Result<OwnedList<T::Item>, MemberError>
    ensures { Answers MemberError.OutOfMemory T.seen_as.list result
        (or_member (required_list T.meaning name.now (tree json.entry))) }
{
    read_list::<T>(alloc, require_member(json, name)?)
}

/// An optional list of one kind; empty if it is absent or null. Fails with `Member` if the value is not an object, the
/// member is not a list, or an element is not of the kind; a null in the list is an element as any other.
#[tactic(auto, unfolding(crate::specs::Member::optional_or))]
pub fn optional_list<T: ElementReader>(
    alloc: Global,
    json: Json<'_, '_>,
    name: &str,
) -> Result<OwnedList<T::Item>, MemberError>
    ensures { Answers MemberError.OutOfMemory T.seen_as.list result
        (or_member (optional_list T.meaning name.now (tree json.entry))) }
{
    match find_member(json, name)? {
        Some(value) => read_list::<T>(alloc, value),
        None => Ok(OwnedList::new(alloc)),
    }
}
