//! `OwnedList`: a list of values that own their memory, as hashes, numbers, signatures.
ghost use Rattle.std.specs.Prelude.{◌≡◌, ◌++◌, [], ◌∷◌, length, IfOk, OnOk, OnErr, slice_get};
ghost use Rattle.std.specs.Option.{option_copied};

use crate::memory::OutOfMemory;
use std::alloc::Global;
use std::marker::Model;

/// A list that grows at its end. Contracts see the list of what was pushed.
#[derive(Drop)]
pub struct OwnedList<T> {
    items: Vec<T>,
}

/// SHA-256 hashes in order.
pub type Hashes = OwnedList<[u8; 32]>;

/// Indices and counts in order.
pub type Numbers = OwnedList<usize>;

impl<T> Model for OwnedList<T> {
    ghost use Rattle.std.specs.Prelude.{List};
    ghost use Rattle.std.specs.Coded.{coded_list};

    ghost Value = { List T };

    ghost coded = { coded_list T.code };

    ghost view = { λ r. r.items.items };
}

impl<T> OwnedList<T> {
    /// Returns a list without elements. It takes no memory.
    pub fn new(alloc: Global) -> OwnedList<T>
        ensures { result ≡ [] }
    {
        OwnedList {
            items: Vec::new(alloc),
        }
    }

    /// Returns the number of elements.
    pub fn len(&self) -> usize
        ensures { result ≡ length self.now }
    {
        self.items.len()
    }

    /// The elements in order.
    pub fn as_slice(&self) -> &[T]
        ensures { result.now ≡ self.now }
    {
        self.items.as_slice()
    }

    /// Returns the element at an index, or `None` if the index is not below the length.
    pub fn get(&self, place: usize) -> Option<&T>
        ensures { option_copied result ≡ slice_get self.now place }
    {
        self.items.as_slice().get(place)
    }
}

impl<T: Drop> OwnedList<T> {
    /// Adds an element at the end. Fails only if out of memory; the list is then unchanged.
    pub fn push(&mut self, item: T) -> Result<(), OutOfMemory>
        ensures ok { OnOk result (self.new ≡ self.old ++ item ∷ []) }
        ensures err { OnErr result (self.new ≡ self.old) }
    {
        self.items.push(item)?;
        Ok(())
    }
}

impl<T: Copy> OwnedList<T> {
    /// Returns the same list in memory of its own. Fails only if out of memory.
    pub fn copy(&self, alloc: Global) -> Result<OwnedList<T>, OutOfMemory>
        ensures { IfOk result (λ r. r ≡ self.now) }
    {
        let items = Vec::from_slice(alloc, self.items.as_slice())?;
        Ok(OwnedList { items })
    }
}
