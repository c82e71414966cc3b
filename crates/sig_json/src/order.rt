//! Members in the byte order of their names: found, set at their place, and put in order as they are read.
ghost use Rattle.std.specs.Prelude.{◌≡◌, ◌<◌, length, false, Err, OnOk, OnErr, IfOk, IsTrue, option_map};
ghost use Rattle.std.specs.Cow.{cow_str_bytes};
ghost use Rattle.std.specs.Cmp.Lexicographic.{slice_cmp};
ghost use Rattle.std.specs.Ordering.{nat_cmp, is_lt};
ghost use Rattle.serde_json.specs.Data.{put as with_member};
ghost use Rattle.serde_json.specs.Find.{get_member};
ghost use Rattle.sig_json.specs.Gathered.{gathered, IsPlaceOf, InOrder, AreInOrderIfFew, few};
ghost use Rattle.sig_json.specs.View.{view, members_view};

use crate::room::make_room;
use crate::sort::sorted;
use crate::tree::{Entry, Tree};
use crate::words::{Words, is_same_name};
use sig_base::OutOfMemory;
use std::alloc::Global;
use std::cmp::Ordering;

/// So few members are put in order as they are read, and a name is found among them by a look at each.
const FEW: usize = 8;

/// Up to so many members are put in order by insertion, and more by a sort.
const BY_INSERTION: usize = 32;

/// The value of a name.
#[tactic(auto, using(crate::proofs::OrderedMembers::found))]
pub(crate) fn find<'a, 't>(members: &'a Vec<Entry<'t>>, name: &str) -> Option<&'a Tree<'t>>
    requires { InOrder members.now.items }
    ensures { option_map (λ t. view t.now) result ≡ get_member name.now (members_view members.now.items) }
{
    if members.len() <= FEW {
        return first_of_name(members.as_slice(), name);
    }
    match search(members, name) {
        Ok(place) => Some(&members[place].1),
        Err(_) => None,
    }
}

/// The value of a name, moved out of the members.
#[tactic(auto, using(crate::proofs::OrderedMembers::found))]
pub(crate) fn take_member<'t>(mut members: Vec<Entry<'t>>, name: &str) -> Option<Tree<'t>>
    requires { InOrder members.items }
    ensures { option_map view result ≡ get_member name.now (members_view members.entry.items) }
{
    match search(&members, name) {
        Ok(place) => Some(members.swap_remove(place).1),
        Err(_) => None,
    }
}

/// The value of the first member of a name.
#[tactic(auto, using(crate::proofs::MemberScans::scanned))]
fn first_of_name<'a, 't>(members: &'a [Entry<'t>], name: &str) -> Option<&'a Tree<'t>>
    ensures { option_map (λ t. view t.now) result ≡ get_member name.now (members_view members.now) }
{
    'members: for member in members {
        if is_same_name(member.0.as_str(), name) {
            return Some(&member.1);
        }
    }
    None
}

/// Where the member of a name is, or else where it would go.
fn search(members: &Vec<Entry<'_>>, name: &str) -> Result<usize, usize>
    requires { InOrder members.now.items }
    ensures { IsPlaceOf name.now members.now.items result }
{
    members.binary_search_by(
        |member: &Entry<'_>| -> Ordering
            ensures { result ≡ slice_cmp nat_cmp (cow_str_bytes member.now.0) name.entry.now }
        { member.0.as_str().cmp(name) },
    )
}

/// The same where the name is mostly the last one, or goes after it.
#[tactic(auto, using(crate::proofs::OrderedMembers::placed))]
pub(crate) fn put_from_last<'t>(
    members: &mut Vec<Entry<'t>>,
    name: Words<'t>,
    value: Tree<'t>,
) -> Result<(), OutOfMemory>
    requires { InOrder members.old.items }
    ensures ok { OnOk result (members_view members.new.items
        ≡ with_member (cow_str_bytes name.entry) (view value.entry) (members_view members.old.items)) }
{
    let place = place_from_last(members, name.as_str());
    put_at(members, place, name, value)
}

/// Where the member of a name is, or else where it would go: the last one is looked at first.
#[tactic(auto, using(crate::proofs::AddedMembers::from_last))]
fn place_from_last(members: &Vec<Entry<'_>>, name: &str) -> Result<usize, usize>
    requires { InOrder members.now.items }
    ensures { IsPlaceOf name.now members.now.items result }
{
    let count = members.len();
    if count == 0 {
        return Err(0);
    }
    match members[count - 1].0.as_str().cmp(name) {
        Ordering::Less => Err(count),
        Ordering::Equal => Ok(count - 1),
        Ordering::Greater => search(members, name),
    }
}

/// Sets the member of a name at its place.
#[tactic(auto, using(crate::proofs::OrderedMembers::placed))]
#[inline(always)]
fn put_at<'t>(
    members: &mut Vec<Entry<'t>>,
    place: Result<usize, usize>,
    name: Words<'t>,
    value: Tree<'t>,
) -> Result<(), OutOfMemory>
    requires in_order { InOrder members.old.items }
    requires place { IsPlaceOf (cow_str_bytes name) members.old.items place }
    ensures ok { OnOk result (members_view members.new.items
        ≡ with_member (cow_str_bytes name.entry) (view value.entry) (members_view members.old.items)) }
    ensures err { OnErr result (members.new.items ≡ members.old.items) }
{
    match place {
        Ok(place) => {
            members[place].1 = value;
            Ok(())
        }
        Err(place) => Ok(members.insert(place, (name, value))?),
    }
}

/// Adds a member as it was read: to its place while the members are few, and later after them, for `all_in_order`.
#[tactic(auto, using(crate::proofs::AddedMembers::added))]
pub(crate) fn add_member<'t>(
    members: &mut Vec<Entry<'t>>,
    name: Words<'t>,
    value: Tree<'t>,
) -> Result<(), OutOfMemory>
    requires { AreInOrderIfFew members.old.items }
    ensures added { OnOk result (gathered members.new.items
        ≡ with_member (cow_str_bytes name.entry) (view value.entry) (gathered members.old.items)) }
    ensures in_order { OnOk result (AreInOrderIfFew members.new.items) }
{
    make_room(members)?;
    if goes_among(members, name.as_str()) {
        return put(members, name, value);
    }
    members.push((name, value))?;
    Ok(())
}

/// Whether the members are few and the name does not go after them all, as it does where names ascend.
#[tactic(auto, using(crate::proofs::AddedMembers::behind))]
fn goes_among(members: &Vec<Entry<'_>>, name: &str) -> bool
    ensures among { IsTrue result → length members.now.items < few }
    ensures behind { result ≡ false → length members.now.items < few → InOrder members.now.items
        → IsPlaceOf name.now members.now.items (Err (length members.now.items)) }
{
    let count = members.len();
    if count == 0 || count >= FEW {
        return false;
    }
    !is_below(members[count - 1].0.as_str(), name)
}

/// Sets the member of a name, in place of the old one or at its place among the others. Fails only if out of memory,
/// and the members are then unchanged.
#[tactic(auto, using(crate::proofs::OrderedMembers::placed))]
pub(crate) fn put<'t>(
    members: &mut Vec<Entry<'t>>,
    name: Words<'t>,
    value: Tree<'t>,
) -> Result<(), OutOfMemory>
    requires { InOrder members.old.items }
    ensures ok { OnOk result (members_view members.new.items
        ≡ with_member (cow_str_bytes name.entry) (view value.entry) (members_view members.old.items)) }
    ensures err { OnErr result (members.new.items ≡ members.old.items) }
{
    let place = search(members, name.as_str());
    put_at(members, place, name, value)
}

/// The members that `add_member` was given, in the byte order of their names: of equal names the last value counts.
#[tactic(auto, using(crate::proofs::OrderedMembers::ordered))]
pub(crate) fn all_in_order<'t>(
    alloc: Global,
    members: Vec<Entry<'t>>,
) -> Result<Vec<Entry<'t>>, OutOfMemory>
    requires { AreInOrderIfFew members.items }
    ensures { IfOk result (λ ordered. members_view ordered.items ≡ gathered members.entry.items) }
{
    if members.len() <= FEW {
        return Ok(members);
    }
    in_order(alloc, members)
}

/// Members as they were read, in the byte order of their names: of equal names the last value counts. Names that
/// ascend already, as they mostly do, stay where they are.
#[tactic(auto, using(crate::proofs::OrderedMembers::ordered))]
pub(crate) fn in_order<'t>(
    alloc: Global,
    members: Vec<Entry<'t>>,
) -> Result<Vec<Entry<'t>>, OutOfMemory>
    ensures { IfOk result (λ ordered. members_view ordered.items ≡ gathered members.entry.items) }
{
    if ascends(members.as_slice()) {
        return Ok(members);
    }
    if members.len() <= BY_INSERTION {
        inserted(alloc, members)
    } else {
        sorted(alloc, members)
    }
}

fn is_below(name: &str, other: &str) -> bool
    ensures { result ≡ is_lt (slice_cmp nat_cmp name.now other.now) }
{
    name.cmp(other).is_lt()
}

/// Whether each name is below the next.
fn ascends(members: &[Entry<'_>]) -> bool
    ensures { IsTrue result → InOrder members.now }
{
    members.is_sorted_by(
        |member: &Entry<'_>, next: &Entry<'_>| -> bool
            ensures { result ≡ is_lt (slice_cmp nat_cmp (cow_str_bytes member.now.0) (cow_str_bytes next.now.0)) }
        { is_below(member.0.as_str(), next.0.as_str()) },
    )
}

/// The same by insertion: each member goes to its place among those before it.
#[tactic(auto, using(crate::proofs::OrderedMembers::ordered))]
fn inserted<'t>(alloc: Global, members: Vec<Entry<'t>>) -> Result<Vec<Entry<'t>>, OutOfMemory>
    ensures { IfOk result (λ ordered. members_view ordered.items ≡ gathered members.entry.items) }
{
    let mut ordered = Vec::with_capacity(alloc, members.len())?;
    'members: for (name, value) in members {
        put(&mut ordered, name, value)?;
    }
    Ok(ordered)
}
