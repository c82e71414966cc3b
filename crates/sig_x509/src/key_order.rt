//! `KeyOrder`: the trust anchors that a checker is asked about, in an order in which one is found by its name and key.
//! The ranks of their SPKIs are side by side in that order, and so are copies of these, since a search that goes to each
//! certificate mostly waits for memory: a rank takes a twelfth of what a key does, and decides most comparisons.

ghost use Rattle.std.specs.Prelude.{◌≡◌, ◌<◌, length, map, IfOk, IsPermutation, slice_get, slice_index};
ghost use Rattle.std.specs.Option.{option_cmp};
ghost use Rattle.std.specs.Ordering.{nat_cmp, ordering_then};
ghost use Rattle.sig_x509.specs.AskedAnchors.{AreAsked};
ghost use Rattle.sig_base.specs.Rank.{shared};
ghost use Rattle.sig_x509.specs.KeyOrder.{AreCopies, Ascends, HoldsKeys, IsKeyOrder, IsWanted, compared_at, indices_of};
ghost use Rattle.sig_x509.specs.KeyOrder.{key_order, signer_at, signer_of, signer_order, spki_in, subject_in};
ghost use Rattle.sig_x509.specs.KeyOrder.{wanted_signer};

use sig_base::{OutOfMemory, rank_from, shared};
use sig_certificate::Certificate;
use std::alloc::Global;
use std::cmp::Ordering;

/// A place in the order.
#[derive(Clone, Copy)]
pub(crate) struct KeyPlace {
    /// The rank of the SPKI.
    rank: u64,
    /// The index of the trust anchor.
    index: usize,
    /// The offset in the buffer of the first byte of its SPKI.
    start: usize,
    /// The offset after the last byte.
    end: usize,
}

/// Trust anchors in the order of the rank of the SPKI, SPKI and subject.
#[derive(Drop)]
pub(crate) struct KeyOrder {
    /// The first byte of an SPKI that counts for its rank; all are alike before it.
    from: usize,
    buffer: Vec<u8>,
    places: Vec<KeyPlace>,
}

/// A subject and an SPKI that are looked for, with the rank of the SPKI in an order.
#[derive(Clone, Copy)]
pub(crate) struct Wanted<'a> {
    subject: &'a [u8],
    spki: &'a [u8],
    rank: u64,
}

impl KeyOrder {
    /// Returns the order of the trust anchors at these indices, which are those that are asked about. Fails only if out
    /// of memory.
    pub(crate) fn new(
        alloc: Global,
        anchors: &[Certificate],
        asked: &[usize],
    ) -> Result<KeyOrder, OutOfMemory>
        requires { AreAsked anchors.now asked.now }
        ensures { IfOk result (HoldsKeys anchors.now) }
    {
        let from = shared_start(alloc, anchors, asked)?;
        let order = key_order_of(alloc, from, anchors, asked)?;
        copy_keys(alloc, from, anchors, &order)
    }

    /// Returns how many places there are.
    pub(crate) fn len(&self) -> usize
        ensures { result ≡ length (indices_of self.now) }
    {
        self.places.len()
    }

    /// Returns the index of the trust anchor at a place.
    pub(crate) fn index_at(&self, place: usize) -> usize
        requires { place < length (indices_of self.now) }
        ensures { result ≡ slice_index (indices_of self.now) place }
    {
        self.places[place].index
    }

    /// Returns what `compare` is told to look for.
    pub(crate) fn wanted<'a>(&self, subject: &'a [u8], spki: &'a [u8]) -> Wanted<'a>
        ensures subject { result.subject.now ≡ subject.now }
        ensures spki { result.spki.now ≡ spki.now }
        ensures ranked { IsWanted self.now.from result }
    {
        let rank = rank_from(spki, self.from);
        Wanted {
            subject,
            spki,
            rank,
        }
    }

    /// Compares the trust anchor at a place with the one that is wanted: by the rank of the SPKI, where these are equal
    /// by the SPKI, and then by the subject: thousands of trust anchors may have one name.
    pub(crate) fn compare(
        &self,
        place: usize,
        anchors: &[Certificate],
        wanted: &Wanted<'_>,
    ) -> Ordering
        requires holds { HoldsKeys anchors.now self.now }
        requires within { place < length (indices_of self.now) }
        requires ranked { IsWanted self.now.from wanted.now }
        ensures { result ≡ compared_at self.now.from anchors.now (wanted_signer wanted.now)
            (slice_index (indices_of self.now) place) }
    {
        let held = self.places[place];
        let copy = &self.buffer[held.start..held.end];
        compare_place(anchors, held, copy, wanted)
    }
}

/// Returns with how many bytes the SPKIs of the trust anchors at these indices begin alike. Fails only if out of memory.
fn shared_start(
    alloc: Global,
    anchors: &[Certificate],
    asked: &[usize],
) -> Result<usize, OutOfMemory>
    ensures { IfOk result (λ from. from ≡ shared (map (λ index. spki_in (slice_get anchors.now index)) asked.now)) }
{
    let mut spkis = Vec::with_capacity(alloc, asked.len())?;
    'asked: for index in asked {
        spkis.push(spki_at(anchors, *index))?;
    }
    Ok(shared(&spkis))
}

/// Returns the indices of the trust anchors that are asked about, in that order. Fails only if out of memory.
fn key_order_of(
    alloc: Global,
    from: usize,
    anchors: &[Certificate],
    asked: &[usize],
) -> Result<Vec<usize>, OutOfMemory>
    requires { AreAsked anchors.now asked.now }
    ensures { IfOk result (λ order. IsKeyOrder from anchors.now order.items) }
{
    let mut order = Vec::from_slice(alloc, asked)?;
    put_in_order(from, anchors, &mut order);
    Ok(order)
}

/// Sorts indices by rank of the SPKI, SPKI and subject of their trust anchors.
fn put_in_order(from: usize, anchors: &[Certificate], order: &mut Vec<usize>)
    ensures moved { IsPermutation order.old.items order.new.items }
    ensures ascends { Ascends from anchors.now order.new.items }
{
    order.sort_unstable_by(move |one, other| order_between(from, anchors, *one, *other));
}

/// Compares the trust anchors at two indices. An index that no anchor has comes first.
#[inline(always)]
fn order_between(from: usize, anchors: &[Certificate], one: usize, other: usize) -> Ordering
    ensures { result ≡ option_cmp (signer_order from) (signer_at anchors.now one) (signer_at anchors.now other) }
{
    match (anchors.get(one), anchors.get(other)) {
        (Some(one), Some(other)) => signers_between(from, one, other),
        (Some(_), None) => Ordering::Greater,
        (None, Some(_)) => Ordering::Less,
        (None, None) => Ordering::Equal,
    }
}

/// Compares two trust anchors by the rank of the SPKI, SPKI and subject.
#[tactic(auto, using(sig_base::proofs::Orderings::steps), unfolding(crate::specs::KeyOrder::signer_order))]
#[inline(always)]
fn signers_between(from: usize, one: &Certificate, other: &Certificate) -> Ordering
    ensures { result ≡ signer_order from (signer_of one.now) (signer_of other.now) }
{
    match rank_from(one.spki(), from).cmp(&rank_from(other.spki(), from)) {
        Ordering::Equal => keys_between(one, other),
        unequal => unequal,
    }
}

/// Compares two trust anchors by SPKI and subject.
#[tactic(auto, using(sig_base::proofs::Orderings::steps), unfolding(crate::specs::KeyOrder::key_order))]
#[inline(always)]
fn keys_between(one: &Certificate, other: &Certificate) -> Ordering
    ensures { result ≡ key_order (signer_of one.now) (signer_of other.now) }
{
    match one.spki().cmp(other.spki()) {
        Ordering::Equal => one.subject().cmp(other.subject()),
        unequal => unequal,
    }
}

/// Returns these indices as places, with copies and ranks of the SPKIs of their trust anchors. Fails only if out of
/// memory.
fn copy_keys(
    alloc: Global,
    from: usize,
    anchors: &[Certificate],
    order: &[usize],
) -> Result<KeyOrder, OutOfMemory>
    ensures indices { IfOk result (λ keys. indices_of keys ≡ order.now) }
    ensures from { IfOk result (λ keys. keys.from ≡ from) }
    ensures copies { IfOk result (λ keys. AreCopies from anchors.now keys.buffer.items keys.places.items) }
{
    let mut buffer = Vec::new(alloc);
    let mut places = Vec::new(alloc);
    'order: for index in order {
        let spki = spki_at(anchors, *index);
        let start = buffer.len();
        buffer.extend_from_slice(spki)?;
        let end = buffer.len();
        places.push(KeyPlace {
            rank: rank_from(spki, from),
            index: *index,
            start,
            end,
        })?;
    }
    Ok(KeyOrder {
        from,
        buffer,
        places,
    })
}

/// Returns the SPKI of the trust anchor at an index, or an empty one if there is no such anchor.
fn spki_at(anchors: &[Certificate], index: usize) -> &[u8]
    ensures { result.now ≡ spki_in (slice_get anchors.now index) }
{
    match anchors.get(index) {
        Some(anchor) => anchor.spki(),
        None => &[],
    }
}

/// Compares a place, with the copy of the SPKI there, with the one that is wanted.
#[tactic(auto, using(sig_base::proofs::Orderings::steps))]
#[inline(always)]
fn compare_place(
    anchors: &[Certificate],
    held: KeyPlace,
    copy: &[u8],
    wanted: &Wanted<'_>,
) -> Ordering
    ensures { result ≡ ordering_then (nat_cmp held.rank wanted.now.rank)
        (key_order (subject_in (slice_get anchors.now held.index), copy.now) (wanted_signer wanted.now)) }
{
    match held.rank.cmp(&wanted.rank) {
        Ordering::Equal => compare_copy(anchors, held.index, copy, wanted),
        unequal => unequal,
    }
}

/// Compares a copy of the SPKI of the trust anchor at an index with the wanted one, and where they are equal the
/// subject.
#[tactic(auto, using(sig_base::proofs::Orderings::steps), unfolding(crate::specs::KeyOrder::key_order))]
#[inline(always)]
fn compare_copy(anchors: &[Certificate], index: usize, copy: &[u8], wanted: &Wanted<'_>) -> Ordering
    ensures { result ≡ key_order (subject_in (slice_get anchors.now index), copy.now) (wanted_signer wanted.now) }
{
    match copy.cmp(wanted.spki) {
        Ordering::Equal => subject_at(anchors, index).cmp(wanted.subject),
        unequal => unequal,
    }
}

/// Returns the subject of the trust anchor at an index, or an empty one if there is no such anchor.
fn subject_at(anchors: &[Certificate], index: usize) -> &[u8]
    ensures { result.now ≡ subject_in (slice_get anchors.now index) }
{
    match anchors.get(index) {
        Some(anchor) => anchor.subject(),
        None => &[],
    }
}
