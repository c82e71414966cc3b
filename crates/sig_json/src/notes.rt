//! Which of the members that are passed over in one object hold a float now: a later member of the same name takes the
//! place of an earlier one.
ghost use Rattle.std.specs.Prelude.{◌≡◌, ◌&&◌, [], IfOk, OnOk};
ghost use Rattle.std.specs.List.{list_any};
ghost use Rattle.sig_json.specs.Gathered.{AreInOrderIfFew};
ghost use Rattle.sig_json.specs.Noted.{NotesOneMore, Tells, says};
ghost use Rattle.sig_json.specs.View.{view};

use crate::order::{add_member, all_in_order};
use crate::tree::{Entry, Tree};
use crate::words::borrow;
use sig_base::OutOfMemory;
use std::alloc::Global;

/// Of each name, whether its member holds a float: a truth value in the place of the member. Members before the first
/// float are not noted, since a name without a note has no float.
#[derive(Drop)]
pub(crate) struct Notes<'r> {
    pub(crate) noted: Vec<Entry<'r>>,
}

impl<'r> Notes<'r> {
    /// No notes. They take no memory.
    pub(crate) fn new(alloc: Global) -> Notes<'r>
        ensures { result.noted.items ≡ [] }
    {
        Notes {
            noted: Vec::new(alloc),
        }
    }

    /// Notes a member that was passed over, and whether it holds a float.
    #[tactic(auto, using(crate::proofs::NotedMembers::one_more))]
    #[inline(always)]
    pub(crate) fn add(&mut self, name: &'r str, float: bool) -> Result<(), OutOfMemory>
        requires { AreInOrderIfFew self.old.noted.items }
        ensures { OnOk result (NotesOneMore name.now float self.old self.new) }
    {
        if !float && self.noted.is_empty() {
            return Ok(());
        }
        self.put(name, float)
    }

    #[inline(never)]
    fn put(&mut self, name: &'r str, float: bool) -> Result<(), OutOfMemory>
        requires { AreInOrderIfFew self.old.noted.items }
        ensures { OnOk result (NotesOneMore name.now float self.old self.new) }
    {
        add_member(&mut self.noted, borrow(name), Tree::Bool(float))
    }

    /// Whether a member holds a float, of all that were passed over.
    #[tactic(auto, using(crate::proofs::NotedMembers::told))]
    #[inline(always)]
    pub(crate) fn tell(self, alloc: Global) -> Result<bool, OutOfMemory>
        requires { AreInOrderIfFew self.noted.items }
        ensures { IfOk result (λ float. Tells float self.entry) }
    {
        if self.noted.is_empty() {
            return Ok(false);
        }
        self.tell_some(alloc)
    }

    #[tactic(auto, using(crate::proofs::NotedMembers::told))]
    #[inline(never)]
    fn tell_some(self, alloc: Global) -> Result<bool, OutOfMemory>
        requires { AreInOrderIfFew self.noted.items }
        ensures { IfOk result (λ float. Tells float self.entry) }
    {
        let ordered = all_in_order(alloc, self.noted)?;
        Ok(is_one_true(ordered.as_slice()))
    }
}

/// Whether one of the notes says that its member holds a float.
fn is_one_true(notes: &[Entry<'_>]) -> bool
    ensures { result ≡ list_any (λ note. says (view note.1)) notes.now }
{
    notes.iter().any(|note| is_true(&note.1))
}

#[tactic(auto, using(crate::proofs::Trees::trees))]
fn is_true(note: &Tree<'_>) -> bool
    ensures { result ≡ says (view note.now) }
{
    matches!(note, Tree::Bool(true))
}
