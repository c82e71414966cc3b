//! `TrustAnchors`: trust anchors that are found by their subjects, so that a name is looked up and not compared with every
//! trust anchor.

ghost use Rattle.std.specs.Prelude.{◌≡◌, ℕ, List, length, map, false, IfOk, OnOk};
ghost use Rattle.std.specs.List.{list_any};
ghost use Rattle.std.specs.Str.{bytes_eq};
ghost use Rattle.sig_x509.specs.NamedAnchors.{AddsPlace, IsNameIndex, at_places, has_name, named, places_in};
ghost use Rattle.sig_x509.specs.NamedAnchors.{places_named};

use sig_base::{OutOfMemory, OwnedList};
use sig_certificate::Certificate;
use std::alloc::Global;
use std::collections::BTreeMap;
use std::marker::Model;

/// For each subject the indices, ascending, of the trust anchors that have it.
type ByName = BTreeMap<Vec<u8>, Vec<usize>>;

/// Trust anchors, in order, with an index over their subjects. Contracts see the list.
#[derive(Drop)]
pub struct TrustAnchors {
    anchors: OwnedList<Certificate>,
    by_name: ByName,
}

impl Model for TrustAnchors {
    ghost use Rattle.std.specs.Prelude.{List, length};
    ghost use Rattle.sig_certificate.specs.Certificate.{Cert};
    ghost use Rattle.sig_x509.specs.NamedAnchors.{IsNameIndex};

    ghost Value = { List Cert };

    ghost view = { λ t. t.anchors };

    ghost invariant = { λ t. IsNameIndex t.anchors (length t.anchors) t.by_name };
}

impl TrustAnchors {
    /// Returns these certificates as trust anchors. Fails only if out of memory.
    pub fn new(alloc: Global, anchors: OwnedList<Certificate>) -> Result<TrustAnchors, OutOfMemory>
        ensures { IfOk result (λ t. t ≡ anchors) }
    {
        let by_name = index_of(alloc, anchors.as_slice())?;
        Ok(TrustAnchors { anchors, by_name })
    }

    /// Whether one of them has this subject.
    #[tactic(auto, using(crate::proofs::NamedAnchors::some_named))]
    pub(crate) fn has_named(&self, subject: &[u8]) -> bool
        ensures { result ≡ list_any (has_name subject.now) self.now }
    {
        self.places_of(subject).len() > 0
    }

    /// Returns those that have this subject, in order. Fails only if out of memory.
    #[tactic(auto, using(crate::proofs::NamedAnchors::all_gathered))]
    pub(crate) fn named<'a>(
        &'a self,
        alloc: Global,
        subject: &[u8],
    ) -> Result<Vec<&'a Certificate>, OutOfMemory>
        ensures { IfOk result (λ v. map (λ x. x.now) v.items ≡ named subject.now self.now) }
    {
        at_places(alloc, &self.anchors, self.places_of(subject))
    }

    /// The indices of those that have this subject.
    fn places_of(&self, subject: &[u8]) -> &[usize]
        ensures { result.now ≡ places_named self.now (length self.now) subject.now }
    {
        match self.by_name.get(subject) {
            Some(places) => places.as_slice(),
            None => &[],
        }
    }
}

/// Returns the index over these trust anchors. Fails only if out of memory.
fn index_of(alloc: Global, anchors: &[Certificate]) -> Result<ByName, OutOfMemory>
    ensures { IfOk result (λ index. IsNameIndex anchors.now (length anchors.now) index) }
{
    let mut by_name = BTreeMap::new(alloc);
    'anchors: for (place, anchor) in anchors.iter().enumerate() {
        add_place(alloc, &mut by_name, anchor.subject(), place)?;
    }
    Ok(by_name)
}

/// Adds an index to those of a subject. Fails only if out of memory.
fn add_place(
    alloc: Global,
    by_name: &mut ByName,
    subject: &[u8],
    place: usize,
) -> Result<(), OutOfMemory>
    ensures { OnOk result (AddsPlace subject.now place by_name.old by_name.new) }
{
    let mut places = take_places(alloc, by_name, subject);
    places.push(place)?;
    let name = Vec::from_slice(alloc, subject)?;
    by_name.insert(name, places)?;
    Ok(())
}

/// Takes the indices of a subject out.
fn take_places(alloc: Global, by_name: &mut ByName, subject: &[u8]) -> Vec<usize>
    ensures taken { result.items ≡ places_in by_name.old subject.now }
    ensures kept { (name : List ℕ) → bytes_eq subject.now name ≡ false → places_in by_name.new name ≡ places_in by_name.old name }
{
    match by_name.remove(subject) {
        Some(places) => places,
        None => Vec::new(alloc),
    }
}

/// Returns the trust anchors at these indices. Fails only if out of memory.
fn at_places<'a>(
    alloc: Global,
    anchors: &'a OwnedList<Certificate>,
    places: &[usize],
) -> Result<Vec<&'a Certificate>, OutOfMemory>
    ensures { IfOk result (λ v. map (λ x. x.now) v.items ≡ at_places anchors.now places.now) }
{
    let mut found = Vec::new(alloc);
    'places: for place in places {
        if let Some(anchor) = anchors.get(*place) {
            found.push(anchor)?;
        }
    }
    Ok(found)
}
