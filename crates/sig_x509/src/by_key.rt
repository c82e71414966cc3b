//! Trust anchors by subject and key: a list of accepted keys is looked up among them, and not compared with every trust
//! anchor.

ghost use Rattle.std.specs.Prelude.{◌≡◌, ◌<◌, ◌≤◌, position};
ghost use Rattle.sig_x509.specs.KeyOrder.{HoldsKeys, IsWanted, has_key, has_some_key, lesser};

use crate::key_order::{KeyOrder, Wanted};
use sig_base::KeyList;
use sig_certificate::Certificate;
use std::cmp::Ordering;

/// How far from the last key a search for the next one looks first: there may be several thousand keys, of which each
/// certificate of a bundle has a few.
const FIRST_STEP: usize = 8;

/// Returns the index of the first trust anchor with this subject and one of these SPKIs. Each key is looked for from
/// where the one before it is or would be: keys that come in the order of the trust anchors are found near each other.
pub(crate) fn first_of_keys(
    anchors: &[Certificate],
    order: &KeyOrder,
    subject: &[u8],
    keys: &KeyList<'_>,
) -> Option<usize>
    requires { HoldsKeys anchors.now order.now }
    ensures { result ≡ position (has_some_key subject.now keys.now) anchors.now }
{
    let mut first = None;
    let mut near = 0;
    'keys: for index in 0..keys.len() {
        if let Some(spki) = keys.get(index) {
            let wanted = order.wanted(subject, spki);
            let found = first_of_key(anchors, order, near, &wanted);
            first = lesser(first, found.first);
            near = found.place;
        }
    }
    first
}

/// What a search for a key found.
#[derive(Clone, Copy)]
struct Found {
    /// The index of the first trust anchor that has it.
    first: Option<usize>,
    /// The place in the order where it is or would be.
    place: usize,
}

/// Returns the index of the first trust anchor that is wanted, and the place near which the next key may
/// be. Looks at `near`, then further away in steps that double, until the signer is between two places, and then in the
/// middle of these.
fn first_of_key(
    anchors: &[Certificate],
    order: &KeyOrder,
    near: usize,
    wanted: &Wanted<'_>,
) -> Found
    requires holds { HoldsKeys anchors.now order.now }
    requires ranked { IsWanted order.now.from wanted.now }
    ensures { result.first ≡ position (has_key wanted.now.subject.now wanted.now.spki.now) anchors.now }
{
    let (mut low, mut high) = (0, order.len());
    let mut next = near;
    let mut step = FIRST_STEP;
    'places: while low < high {
        let place = place_in(low, high, next);
        match order.compare(place, anchors, wanted) {
            Ordering::Less => {
                low = place + 1;
                next = place.saturating_add(step);
            }
            Ordering::Greater => {
                high = place;
                next = place.saturating_sub(step);
            }
            Ordering::Equal => {
                let first = Some(order.index_at(place));
                return Found { first, place };
            }
        }
        step = step.saturating_mul(2);
    }
    Found {
        first: None,
        place: low,
    }
}

/// Returns the next place if it is from `low` to before `high`, else the place in the middle.
fn place_in(low: usize, high: usize, next: usize) -> usize
    requires { low < high }
    ensures from { low ≤ result }
    ensures before { result < high }
{
    if low <= next && next < high {
        next
    } else {
        low + (high - low) / 2
    }
}

/// Returns the lesser of two indices, if there is one.
fn lesser(one: Option<usize>, other: Option<usize>) -> Option<usize>
    ensures { result ≡ lesser one other }
{
    match (one, other) {
        (Some(one), Some(other)) => { if one <= other { Some(one) } else { Some(other) } }
        (Some(one), None) => Some(one),
        (None, other) => other,
    }
}
