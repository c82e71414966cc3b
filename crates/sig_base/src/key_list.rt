//! `KeyList`: the keys under which a table accepts the signature of one certificate.
ghost use Rattle.std.specs.Prelude.{◌≡◌, ◌==◌, length, map, slice_get};
ghost use Rattle.std.specs.Option.{option_map};
ghost use Rattle.sig_base.specs.Checker.{key_at};

use crate::checker::AcceptedRow;
use std::marker::Model;

/// The keys (SPKI, DER) of some rows of a table, which are borrowed. Contracts see the list of the keys.
#[derive(Drop)]
pub struct KeyList<'a> {
    rows: &'a [AcceptedRow],
    places: &'a [usize],
}

impl<'a> Model for KeyList<'a> {
    ghost use Rattle.std.specs.Prelude.{List, ℕ, map};
    ghost use Rattle.sig_base.specs.Checker.{key_at};

    ghost Value = { List (List ℕ) };

    ghost view = { λ l. map (key_at l.rows.now) l.places.now };
}

impl<'a> KeyList<'a> {
    /// Returns the list of the keys of the rows at these indices. An index that no row has gives an empty key.
    pub fn new(rows: &'a [AcceptedRow], places: &'a [usize]) -> KeyList<'a>
        ensures { result ≡ map (key_at rows.now) places.now }
    {
        KeyList { rows, places }
    }

    /// Returns how many keys there are.
    pub fn len(&self) -> usize
        ensures { result ≡ length self.now }
    {
        self.places.len()
    }

    /// Whether there are no keys.
    pub fn is_empty(&self) -> bool
        ensures { result ≡ (length self.now == 0) }
    {
        self.places.is_empty()
    }

    /// Returns the key at an index, `None` if and only if there are no more.
    pub fn get(&self, index: usize) -> Option<&'a [u8]>
        ensures { option_map (λ key. key.now) result ≡ slice_get self.now index }
    {
        match self.places.get(index) {
            Some(place) => Some(key_at(self.rows, *place)),
            None => None,
        }
    }
}

/// Returns the key of the row at an index, or an empty one if there is no such row.
fn key_at(rows: &[AcceptedRow], place: usize) -> &[u8]
    ensures { result.now ≡ key_at rows.now place }
{
    match rows.get(place) {
        Some(row) => row.key.as_slice(),
        None => &[],
    }
}
