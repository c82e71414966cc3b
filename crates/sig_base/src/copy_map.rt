//! `CopyMap`: a map from texts that owns a copy of each value: [`KeyMap`] with bytes, [`TextMap`] with texts.
ghost use Rattle.std.specs.Prelude.{◌≡◌, [], length, IfOk, OnOk, OnErr, slice_get, option_map};
ghost use Rattle.sig_base.specs.ByText.{text_lookup, text_put, KeysAscend};

use crate::by_text::ByText;
use crate::bytes::Bytes;
use crate::copy_map_entries::CopyMapEntries;
use crate::memory::OutOfMemory;
use crate::owned::Owned;
use crate::text::Text;
use std::alloc::Global;
use std::marker::Model;

/// A map from texts to bytes, as a log's keys by their ids. It is filled from `&[u8]` and returns `&[u8]`.
pub type KeyMap = CopyMap<Bytes>;

/// A map from texts to texts, as digests by their algorithms. It is filled from `&str` and returns `&str`.
pub type TextMap = CopyMap<Text>;

/// A map from texts to values that own a copy of what was borrowed. Contracts see the list of its entries, each text
/// once, in byte order of the texts.
#[derive(Drop)]
pub struct CopyMap<V> {
    alloc: Global,
    entries: ByText<V>,
}

impl<V> Model for CopyMap<V> {
    ghost use Rattle.std.specs.Prelude.{ℕ, List};
    ghost use Rattle.std.specs.Coded.{coded_list, coded×, coded_ℕ};

    ghost Value = { List (List ℕ × V) };

    ghost coded = { coded_list (coded× (coded_list coded_ℕ) V.code) };

    ghost view = { λ m. m.entries };
}

impl<V> CopyMap<V> {
    /// Returns a map without entries. It takes no memory.
    pub fn new(alloc: Global) -> CopyMap<V>
        ensures { result ≡ [] }
    {
        CopyMap {
            alloc,
            entries: ByText::new(alloc),
        }
    }

    /// Returns the number of entries.
    pub fn len(&self) -> usize
        ensures { result ≡ length self.now }
    {
        self.entries.len()
    }

    /// Gives a text a copy of this value, in place of the one that it may have. Fails only if out of memory; the map
    /// is then unchanged.
    pub fn insert<'v>(&mut self, key: &str, value: V::Borrowed) -> Result<(), OutOfMemory>
    where
        V: Owned<'v>,
        ensures ok { OnOk result (self.new ≡ text_put key.now (V.owned value) self.old) }
        ensures err { OnErr result (self.new ≡ self.old) }
    {
        let copied = V::own(self.alloc, value)?;
        self.entries.insert(key, copied)
    }

    /// Returns the value of a text, or `None` if the text has none.
    pub fn get<'a>(&'a self, key: &str) -> Option<V::Borrowed>
    where
        V: Owned<'a>,
        ensures value { option_map V.owned result ≡ text_lookup key.now self.now }
        ensures ordered { KeysAscend self.now }
    {
        match self.entries.get(key) {
            Some(value) => Some(value.lend()),
            None => None,
        }
    }

    /// Returns the entry at an index of the byte order, or `None` if the index is not below the length. It walks to
    /// that index: go over a whole map by `iter`.
    pub fn at<'a>(&'a self, place: usize) -> Option<(&'a str, V::Borrowed)>
    where
        V: Owned<'a>,
        ensures entry { option_map (λ e. (e.0.now, V.owned e.1)) result ≡ slice_get self.now place }
        ensures ordered { KeysAscend self.now }
    {
        match self.entries.at(place) {
            Some((key, value)) => Some((key, value.lend())),
            None => None,
        }
    }

    /// Returns the entries in byte order of the texts. It takes no memory.
    pub fn iter(&self) -> CopyMapEntries<'_, V>
        ensures rest { result ≡ self.now }
        ensures ordered { KeysAscend self.now }
    {
        CopyMapEntries {
            inner: self.entries.iter(),
        }
    }

    /// Returns the same map in memory of its own. Fails only if out of memory.
    pub fn copy<'a>(&'a self, alloc: Global) -> Result<CopyMap<V>, OutOfMemory>
    where
        V: Owned<'a>,
        ensures { IfOk result (λ m. m ≡ self.now) }
    {
        let mut copied = CopyMap::new(alloc);
        'entry: for (key, value) in self.iter() {
            copied.insert(key, value)?;
        }
        Ok(copied)
    }
}
