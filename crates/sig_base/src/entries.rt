//! `Entries`: a list of byte strings that own their memory, as the entries of a log.
ghost use Rattle.std.specs.Prelude.{◌≡◌, ◌++◌, [], ◌∷◌, length, IfOk, OnOk, OnErr, slice_get, option_map};

use crate::bytes::Bytes;
use crate::memory::OutOfMemory;
use crate::owned_list::OwnedList;
use std::alloc::Global;
use std::marker::Model;

/// Byte strings in order. Contracts see the list of their bytes.
#[derive(Drop)]
pub struct Entries {
    alloc: Global,
    items: OwnedList<Bytes>,
}

impl Model for Entries {
    ghost use Rattle.std.specs.Prelude.{ℕ, List};

    ghost Value = { List (List ℕ) };

    ghost view = { λ e. e.items };
}

impl Entries {
    /// Returns a list without entries. It takes no memory.
    pub fn new(alloc: Global) -> Entries
        ensures { result ≡ [] }
    {
        Entries {
            alloc,
            items: OwnedList::new(alloc),
        }
    }

    /// Returns the list of these byte strings, which are not copied. It takes no memory.
    pub fn of(alloc: Global, items: OwnedList<Bytes>) -> Entries
        ensures { result ≡ items }
    {
        Entries { alloc, items }
    }

    /// Adds a copy of an entry at the end. Fails only if out of memory; the list is then unchanged.
    pub fn push(&mut self, entry: &[u8]) -> Result<(), OutOfMemory>
        ensures ok { OnOk result (self.new ≡ self.old ++ entry.now ∷ []) }
        ensures err { OnErr result (self.new ≡ self.old) }
    {
        let copied = Bytes::copy_of(self.alloc, entry)?;
        self.items.push(copied)
    }

    /// Returns the number of entries.
    pub fn len(&self) -> usize
        ensures { result ≡ length self.now }
    {
        self.items.len()
    }

    /// Returns the entry at an index, or `None` if the index is not below the length.
    pub fn get(&self, place: usize) -> Option<&[u8]>
        ensures { option_map (λ e. e.now) result ≡ slice_get self.now place }
    {
        match self.items.get(place) {
            Some(entry) => Some(entry.as_slice()),
            None => None,
        }
    }

    /// The entries in order.
    pub fn as_slice(&self) -> &[Bytes]
        ensures { result.now ≡ self.now }
    {
        self.items.as_slice()
    }

    /// Returns the same list in memory of its own. Fails only if out of memory.
    pub fn copy(&self, alloc: Global) -> Result<Entries, OutOfMemory>
        ensures { IfOk result (λ e. e ≡ self.now) }
    {
        let mut copied = Entries::new(alloc);
        for entry in self.items.as_slice() {
            copied.push(entry.as_slice())?;
        }
        Ok(copied)
    }
}

impl PartialEq for Entries {
    ghost use Rattle.std.specs.Prelude.{nat_eq};
    ghost use Rattle.std.specs.Cmp.{partial_equiv_from_equiv};
    ghost use Rattle.std.specs.Cmp.Lexicographic.{nat_list_eq_equiv, lists_per, pointwise};

    ghost eq = { λ a b. pointwise (pointwise nat_eq) a b };

    ghost laws = { lists_per (partial_equiv_from_equiv nat_list_eq_equiv) };

    fn eq(&self, other: &Entries) -> bool {
        self.items == other.items
    }
}

impl Eq for Entries {
    ghost use Rattle.std.specs.Cmp.Lexicographic.{nat_list_eq_equiv, lists_equiv};

    ghost laws = { lists_equiv nat_list_eq_equiv };
}
