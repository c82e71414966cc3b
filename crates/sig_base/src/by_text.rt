//! `ByText`: a map from texts to values that own their memory, as a log's keys by their ids.
ghost use Rattle.std.specs.Prelude.{◌≡◌, [], length, OnOk, OnErr, slice_get, option_map};
ghost use Rattle.std.specs.Option.{option_copied};
ghost use Rattle.std.specs.Map.Iter.{deref_pair};
ghost use Rattle.sig_base.specs.ByText.{text_lookup, text_put, KeysAscend};

use crate::by_text_entries::ByTextEntries;
use crate::memory::OutOfMemory;
use std::alloc::Global;
use std::collections::BTreeMap;
use std::marker::Model;

/// A map from texts to values. Contracts see the list of its entries, each text once, in byte order of the texts.
#[derive(Drop)]
pub struct ByText<V> {
    alloc: Global,
    entries: BTreeMap<String, V>,
}

impl<V> Model for ByText<V> {
    ghost use Rattle.std.specs.Prelude.{ℕ, List};
    ghost use Rattle.std.specs.Coded.{coded_list, coded×, coded_ℕ};
    ghost use Rattle.sig_base.specs.ByText.{text_entries, KeysAscend};

    ghost Value = { List (List ℕ × V) };

    ghost coded = { coded_list (coded× (coded_list coded_ℕ) V.code) };

    ghost view = { λ m. text_entries m.entries.entries };

    ghost invariant = { λ m. KeysAscend (text_entries m.entries.entries) };
}

impl<V> ByText<V> {
    /// Returns a map without entries. It takes no memory.
    pub fn new(alloc: Global) -> ByText<V>
        ensures { result ≡ [] }
    {
        ByText {
            alloc,
            entries: BTreeMap::new(alloc),
        }
    }

    /// Returns the number of entries.
    #[tactic(auto, using(crate::proofs::Texts::text_maps))]
    pub fn len(&self) -> usize
        ensures { result ≡ length self.now }
    {
        self.entries.len()
    }

    /// Returns the value of a text, or `None` if the text has none.
    #[tactic(auto, using(crate::proofs::Texts::text_maps))]
    pub fn get(&self, key: &str) -> Option<&V>
        ensures value { option_copied result ≡ text_lookup key.now self.now }
        ensures ordered { KeysAscend self.now }
    {
        self.entries.get(key)
    }

    /// Returns the entry at an index of the byte order, or `None` if the index is not below the length. It walks to
    /// the index, so go over a whole map by `iter`.
    pub fn at(&self, place: usize) -> Option<(&str, &V)>
        ensures entry { option_map deref_pair result ≡ slice_get self.now place }
        ensures ordered { KeysAscend self.now }
    {
        self.iter().nth(place)
    }

    /// Returns the entries in byte order of the texts. It takes no memory.
    #[tactic(auto, using(crate::proofs::Texts::text_maps))]
    pub fn iter(&self) -> ByTextEntries<'_, V>
        ensures rest { result ≡ self.now }
        ensures ordered { KeysAscend self.now }
    {
        ByTextEntries {
            inner: self.entries.iter(),
        }
    }
}

impl<V: Drop> ByText<V> {
    /// Gives a text this value, in place of the one that it may have. Fails only if out of memory; the map is then
    /// unchanged.
    #[tactic(auto, using(crate::proofs::Texts::text_maps))]
    pub fn insert(&mut self, key: &str, value: V) -> Result<(), OutOfMemory>
        ensures ok { OnOk result (self.new ≡ text_put key.now value self.old) }
        ensures err { OnErr result (self.new ≡ self.old) }
    {
        let key = String::from_str(self.alloc, key)?;
        self.entries.insert(key, value)?;
        Ok(())
    }
}
