//! `LogEntries`: the log entries of a bundle. A bundle of 2^24 bytes can have millions of entries without a member, or
//! with only an empty log id, each of which takes the room of two pointers here.
ghost use Rattle.std.specs.Prelude.{◌≡◌, ◌++◌, [], ◌∷◌, IfOk, IfSome, OnOk, OnErr, IsTrue, length, option_map};
ghost use Rattle.std.specs.Prelude.{slice_get};
ghost use Rattle.std.specs.Option.{option_copied};
ghost use Rattle.sig_bundle.specs.LogEntries.{of_id, only_entry, whole};

use crate::material::TransparencyLogEntry;
use sig_base::{Bytes, OutOfMemory, OwnedList};
use std::alloc::Global;
use std::marker::Model;

/// What is held for an entry.
#[derive(Drop)]
enum Held {
    /// Nothing: every member is absent.
    WithoutMembers,
    /// Nothing: it has a log id without a byte, and every other member is absent.
    EmptyId,
    /// All of it.
    Whole(BoxedEntry),
}

/// An entry that takes memory of its own only if it has a member other than an empty log id. Contracts see the entry.
#[derive(Drop)]
pub(crate) struct SparseEntry {
    alloc: Global,
    held: Held,
}

impl Model for SparseEntry {
    ghost use Rattle.sig_bundle.specs.LogEntries.{whole};
    ghost use Rattle.sig_bundle.specs.declared.material.TransparencyLogEntry.{TransparencyLogEntry};

    ghost Value = { TransparencyLogEntry };

    ghost view = { λ s. whole s.held };
}

impl SparseEntry {
    /// Returns the same entry. Fails only if out of memory.
    pub(crate) fn new(
        alloc: Global,
        entry: TransparencyLogEntry,
    ) -> Result<SparseEntry, OutOfMemory>
        ensures { IfOk result (λ sparse. sparse ≡ entry) }
    {
        if let Some(held) = held_small(alloc, &entry) {
            drop(entry);
            return Ok(SparseEntry { alloc, held });
        }
        let held = BoxedEntry {
            held: Box::new(alloc, entry)?,
        };
        Ok(SparseEntry {
            alloc,
            held: Held::Whole(held),
        })
    }

    /// Returns the entry; `small` has those for which nothing is held.
    pub(crate) fn get<'a>(&'a self, small: &'a SmallEntries) -> &'a TransparencyLogEntry
        ensures { result.now ≡ self.now }
    {
        match &self.held {
            Held::WithoutMembers => &small.absent,
            Held::EmptyId => &small.unnamed,
            Held::Whole(entry) => entry.get(),
        }
    }
}

/// Returns what is held for an entry that takes no memory; `None` for every other entry.
fn held_small(alloc: Global, entry: &TransparencyLogEntry) -> Option<Held>
    ensures { IfSome result (λ held. whole held ≡ entry.now) }
{
    let small = SmallEntries::new(alloc);
    let held = small.held_of(entry);
    drop(small);
    held
}

/// The entries for which no memory is held.
#[derive(Drop)]
pub(crate) struct SmallEntries {
    absent: TransparencyLogEntry,
    unnamed: TransparencyLogEntry,
}

impl Model for SmallEntries {
    ghost use Rattle.std.specs.Prelude.{◌≡◌, ⊤};
    ghost use Rattle.sig_bundle.specs.LogEntries.{empty_id, no_members};

    ghost Value = { ⊤ };

    ghost view = { λ _. tt };

    ghost invariant = { λ small. (small.absent ≡ no_members) × (small.unnamed ≡ empty_id) };
}

impl SmallEntries {
    /// They take no memory.
    pub(crate) fn new(alloc: Global) -> SmallEntries {
        SmallEntries {
            absent: with_id(alloc, None),
            unnamed: with_id(alloc, Some(Bytes::from(Vec::new(alloc)))),
        }
    }

    /// Returns what is held for an entry that is one of them.
    fn held_of(&self, entry: &TransparencyLogEntry) -> Option<Held>
        ensures { IfSome result (λ held. whole held ≡ entry.now) }
    {
        if is_same(entry, &self.absent) {
            Some(Held::WithoutMembers)
        } else if is_same(entry, &self.unnamed) {
            Some(Held::EmptyId)
        } else {
            None
        }
    }
}

/// Returns the entry of this log id whose every other member is absent. It takes no memory.
fn with_id(alloc: Global, log_id: Option<Bytes>) -> TransparencyLogEntry
    ensures { result ≡ of_id log_id }
{
    TransparencyLogEntry {
        log_index: 0,
        log_id,
        kind_version: None,
        integrated_time: 0,
        inclusion_promise: None,
        inclusion_proof: None,
        canonicalized_body: Bytes::from(Vec::new(alloc)),
    }
}

/// Whether an entry is the other.
#[tactic(auto, using(crate::proofs::Equality::entry_same))]
fn is_same(entry: &TransparencyLogEntry, other: &TransparencyLogEntry) -> bool
    ensures { IsTrue result → entry.now ≡ other.now }
{
    *entry == *other
}

/// An entry in memory of its own. Contracts see the entry.
#[derive(Drop)]
struct BoxedEntry {
    held: Box<TransparencyLogEntry>,
}

impl Model for BoxedEntry {
    ghost use Rattle.sig_bundle.specs.declared.material.TransparencyLogEntry.{TransparencyLogEntry};

    ghost Value = { TransparencyLogEntry };

    ghost view = { λ b. b.held.value };
}

impl BoxedEntry {
    fn get(&self) -> &TransparencyLogEntry
        ensures { result.now ≡ self.now }
    {
        &self.held
    }
}

impl PartialEq for SparseEntry {
    ghost use Rattle.std.specs.Cmp.{partial_equiv_from_equiv};
    ghost use Rattle.sig_bundle.specs.EntryEqualityProofs.{entries_equiv};
    ghost use Rattle.sig_bundle.specs.contracts.material.TransparencyLogEntryPartialEq.TheImpl as entry_eq;

    ghost eq = { (entry_eq.ghosts).eq };

    ghost laws = { partial_equiv_from_equiv entries_equiv };

    fn eq(&self, other: &SparseEntry) -> bool {
        let small = SmallEntries::new(self.alloc);
        let is_same = *self.get(&small) == *other.get(&small);
        drop(small);
        is_same
    }
}

impl Eq for SparseEntry {
    ghost use Rattle.sig_bundle.specs.EntryEqualityProofs.{entries_equiv};

    ghost laws = { entries_equiv };
}

/// Entries of logs in order. Contracts see the list of them.
#[derive(Drop)]
pub struct LogEntries {
    alloc: Global,
    small: SmallEntries,
    items: OwnedList<SparseEntry>,
}

impl Model for LogEntries {
    ghost use Rattle.std.specs.Prelude.{List};
    ghost use Rattle.sig_bundle.specs.declared.material.TransparencyLogEntry.{TransparencyLogEntry};

    ghost Value = { List TransparencyLogEntry };

    ghost view = { λ entries. entries.items };
}

impl LogEntries {
    /// Returns the list of these entries. It takes no memory.
    pub(crate) fn of(alloc: Global, items: OwnedList<SparseEntry>) -> LogEntries
        ensures { result ≡ items }
    {
        LogEntries {
            alloc,
            small: SmallEntries::new(alloc),
            items,
        }
    }

    /// Returns a list without entries. It takes no memory.
    pub fn new(alloc: Global) -> LogEntries
        ensures { result ≡ [] }
    {
        LogEntries::of(alloc, OwnedList::new(alloc))
    }

    /// Adds an entry at the end. Fails only if out of memory; the list is then unchanged.
    pub fn push(&mut self, entry: TransparencyLogEntry) -> Result<(), OutOfMemory>
        ensures ok { OnOk result (self.new ≡ self.old ++ entry ∷ []) }
        ensures err { OnErr result (self.new ≡ self.old) }
    {
        let held = SparseEntry::new(self.alloc, entry)?;
        self.items.push(held)
    }

    /// Returns the number of entries.
    pub fn len(&self) -> usize
        ensures { result ≡ length self.now }
    {
        self.items.len()
    }

    /// Returns the entry at an index, or `None` if the index is not below the length.
    pub fn get(&self, index: usize) -> Option<&TransparencyLogEntry>
        ensures { option_copied result ≡ slice_get self.now index }
    {
        match self.items.get(index) {
            Some(entry) => Some(entry.get(&self.small)),
            None => None,
        }
    }

    /// Returns the entry of a list of one, or `None` if there is not one.
    pub fn only(&self) -> Option<&TransparencyLogEntry>
        ensures { option_map (λ entry. entry.now) result ≡ only_entry self.now }
    {
        match self.items.as_slice() {
            [entry] => Some(entry.get(&self.small)),
            _ => None,
        }
    }

    /// The entries in order, as they are held.
    pub(crate) fn as_slice(&self) -> &[SparseEntry]
        ensures { result.now ≡ self.now }
    {
        self.items.as_slice()
    }
}

impl PartialEq for LogEntries {
    ghost use Rattle.std.specs.Cmp.Lexicographic.{lists_per, pointwise};
    ghost use Rattle.std.specs.Cmp.{partial_equiv_from_equiv};
    ghost use Rattle.sig_bundle.specs.EntryEqualityProofs.{entries_equiv};
    ghost use Rattle.sig_bundle.specs.contracts.material.TransparencyLogEntryPartialEq.TheImpl as entry_eq;

    ghost eq = { λ a b. pointwise (entry_eq.ghosts).eq a b };

    ghost laws = { lists_per (partial_equiv_from_equiv entries_equiv) };

    fn eq(&self, other: &LogEntries) -> bool {
        self.items == other.items
    }
}

impl Eq for LogEntries {
    ghost use Rattle.std.specs.Cmp.Lexicographic.{lists_equiv};
    ghost use Rattle.sig_bundle.specs.EntryEqualityProofs.{entries_equiv};

    ghost laws = { lists_equiv entries_equiv };
}
