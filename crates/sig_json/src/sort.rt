//! Many members in the byte order of their names, by a sort of their indices.
ghost use Rattle.std.specs.Prelude.{◌≡◌, IfOk, OnOk, slice_get};
ghost use Rattle.std.specs.Cmp.Lexicographic.{slice_cmp};
ghost use Rattle.std.specs.List.Sorted.{IsPermutation, IsStableBy, IsStableByKey};
ghost use Rattle.std.specs.Option.{option_cmp};
ghost use Rattle.std.specs.Ordering.{nat_cmp};
ghost use Rattle.sig_json.specs.Gathered.{gathered};
ghost use Rattle.sig_json.specs.Only.{names_of};
ghost use Rattle.sig_json.specs.Sorting.{ranked, entry_names, key_order, comes_first, IsOrderOf};
ghost use Rattle.sig_json.specs.View.{members_view};

use crate::order::put_from_last;
use crate::tree::{Entry, Tree};
use crate::words::borrow;
use sig_base::{OutOfMemory, rank_from, shared};
use std::alloc::Global;
use std::cmp::Ordering;
use std::mem;

/// The index of a member, and the rank of its name, which tells most names apart without a look at the member.
#[derive(Drop)]
pub(crate) struct Key {
    pub(crate) rank: u64,
    pub(crate) index: usize,
}

/// The members in the byte order of their names: of equal names the last value counts.
pub(crate) fn sorted<'t>(
    alloc: Global,
    mut members: Vec<Entry<'t>>,
) -> Result<Vec<Entry<'t>>, OutOfMemory>
    ensures { IfOk result (λ ordered. members_view ordered.items ≡ gathered members.entry.items) }
{
    let order = order_of(alloc, members.as_slice())?;
    let mut ordered = Vec::new(alloc);
    'keys: for key in order.as_slice() {
        let (name, value) = mem::replace(&mut members[key.index], (borrow(""), Tree::Null));
        put_from_last(&mut ordered, name, value)?;
    }
    Ok(ordered)
}

/// The keys of all members in the order of their names; members of the same name stay in their order.
fn order_of(alloc: Global, members: &[Entry<'_>]) -> Result<Vec<Key>, OutOfMemory>
    ensures { IfOk result (λ keys. IsOrderOf members.now keys.items) }
{
    let names = names_of(alloc, members)?;
    let from = shared(names.as_slice());
    let mut keys = keys_of(alloc, names.as_slice(), from)?;
    put_in_order(names.as_slice(), &mut keys)?;
    Ok(keys)
}

fn names_of<'a>(alloc: Global, members: &'a [Entry<'_>]) -> Result<Vec<&'a [u8]>, OutOfMemory>
    ensures { IfOk result (λ names. names_of names.items ≡ entry_names members.now) }
{
    let mut names = Vec::with_capacity(alloc, members.len())?;
    'members: for member in members {
        names.push(member.0.as_str().as_bytes())?;
    }
    Ok(names)
}

/// The key of each name, in the order of the names, with the rank of its bytes from this one on.
fn keys_of(alloc: Global, names: &[&[u8]], from: usize) -> Result<Vec<Key>, OutOfMemory>
    ensures { IfOk result (λ keys. keys.items ≡ ranked from 0 (names_of names.now)) }
{
    let mut keys = Vec::with_capacity(alloc, names.len())?;
    'names: for name in names {
        let index = keys.len();
        keys.push(Key {
            rank: rank_from(name, from),
            index,
        })?;
    }
    Ok(keys)
}

/// Puts keys in the order of their names; keys of the same name stay in their order. The ranks alone leave little to
/// the names, even if many are the same.
fn put_in_order(names: &[&[u8]], keys: &mut Vec<Key>) -> Result<(), OutOfMemory>
    ensures moved { OnOk result (IsPermutation keys.old.items keys.new.items) }
    ensures stable { OnOk result (IsStableBy (comes_first (names_of names.now)) keys.old.items keys.new.items) }
{
    put_in_rank_order(keys)?;
    keys.sort_by(move |one, other| order_between(names, one, other))?;
    Ok(())
}

/// Puts keys in the order of their ranks; keys of the same rank stay in their order.
fn put_in_rank_order(keys: &mut Vec<Key>) -> Result<(), OutOfMemory>
    ensures moved { IsPermutation keys.old.items keys.new.items }
    ensures stable { IsStableByKey (λ key. key.rank) nat_cmp keys.old.items keys.new.items }
{
    keys.sort_by_key(|key| key.rank)?;
    Ok(())
}

/// Compares two keys: by rank, and the names are read only where these are equal.
#[tactic(auto, using(sig_base::proofs::Orderings::steps), unfolding(crate::specs::Sorting::key_order))]
#[inline(always)]
fn order_between(names: &[&[u8]], one: &Key, other: &Key) -> Ordering
    ensures { result ≡ key_order (names_of names.now) one.now other.now }
{
    match one.rank.cmp(&other.rank) {
        Ordering::Equal => names_between(names, one.index, other.index),
        unequal => unequal,
    }
}

/// Compares the names at two indices. An index that no name has comes first.
fn names_between(names: &[&[u8]], one: usize, other: usize) -> Ordering
    ensures { result ≡ option_cmp (slice_cmp nat_cmp)
        (slice_get (names_of names.now) one) (slice_get (names_of names.now) other) }
{
    match (names.get(one), names.get(other)) {
        (Some(one), Some(other)) => one.cmp(other),
        (Some(_), None) => Ordering::Greater,
        (None, Some(_)) => Ordering::Less,
        (None, None) => Ordering::Equal,
    }
}
