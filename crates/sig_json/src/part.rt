//! Parts of a borrowed document: moved out of it, where they take no memory, and into memory of their own.
ghost use Rattle.std.specs.Prelude.{◌≡◌, not, option_map};
ghost use Rattle.std.specs.Cow.{cow_str_bytes};
ghost use Rattle.std.specs.List.{filter};
ghost use Rattle.serde_json.specs.Find.{get as member_in};
ghost use Rattle.sig_json.specs.NamedTree.{IsNamedTree};
ghost use Rattle.sig_json.specs.Only.{is_among, names_of, without};
ghost use Rattle.sig_json.specs.View.{view};

use crate::borrowed_document::BorrowedDocument;
use crate::document::Document;
use crate::kept::is_among;
use crate::order::take_member;
use crate::owned::own_tree;
use crate::tree::{Entry, Tree};
use sig_base::OutOfMemory;
use std::alloc::Global;

impl<'t> BorrowedDocument<'t> {
    ghost use Rattle.std.specs.Prelude.{IfOk};
    ghost use Rattle.sig_json.specs.Tree.{borrowed_tree, document_tree};

    /// The member of this name of an object; the rest is dropped. `None` if the value is not an object or has no such
    /// member. It takes no memory.
    #[tactic(auto, using(crate::proofs::FloatlessTrees::floatless, crate::proofs::NamedTrees::named))]
    pub fn into_member(self, name: &str) -> Option<BorrowedDocument<'t>>
        ensures { option_map borrowed_tree result ≡ member_in name.now (borrowed_tree self.entry) }
    {
        match take_from(self.value, name) {
            Some(value) => Some(BorrowedDocument { value }),
            None => None,
        }
    }

    /// An object without its members of these names; any other value as it is. It takes no memory.
    #[tactic(auto, using(crate::proofs::KeptReading::dropped))]
    pub fn without(self, names: &[&str]) -> BorrowedDocument<'t>
        ensures { borrowed_tree result ≡ without (names_of names.now) (borrowed_tree self.entry) }
    {
        BorrowedDocument {
            value: drop_from(self.value, names),
        }
    }

    /// The document in memory of its own. What was copied of this one is dropped at once, so that both take little more
    /// memory than the greater of them. Fails only if out of memory.
    #[tactic(auto, using(crate::proofs::NamedTrees::named_parts))]
    pub fn into_owned(self, alloc: Global) -> Result<Document, OutOfMemory>
        ensures { IfOk result (λ document. document_tree document ≡ borrowed_tree self.entry) }
    {
        let value = own_tree(alloc, self.value)?;
        Ok(Document { value })
    }
}

/// The member of a name of an object.
#[tactic(auto, using(crate::proofs::Trees::trees, crate::proofs::OrderedMembers::in_trees))]
fn take_from<'t>(tree: Tree<'t>, name: &str) -> Option<Tree<'t>>
    requires { IsNamedTree (view tree) }
    ensures { option_map view result ≡ member_in name.now (view tree.entry) }
{
    match tree {
        Tree::Object(members) => take_member(members, name),
        _ => None,
    }
}

/// Drops the members of these names of an object.
#[tactic(auto, using(crate::proofs::KeptReading::dropped_from))]
fn drop_from<'t>(tree: Tree<'t>, names: &[&str]) -> Tree<'t>
    ensures { view result ≡ without (names_of names.now) (view tree.entry) }
{
    match tree {
        Tree::Object(mut members) => {
            drop_members(&mut members, names);
            Tree::Object(members)
        }
        Tree::Array(items) => Tree::Array(items),
        Tree::Text(text) => Tree::Text(text),
        Tree::Number(number) => Tree::Number(number),
        Tree::Bool(truth) => Tree::Bool(truth),
        Tree::Null => Tree::Null,
    }
}

fn drop_members(members: &mut Vec<Entry<'_>>, names: &[&str])
    ensures { members.new.items
        ≡ filter (λ m. not (is_among (names_of names.now) (cow_str_bytes m.0))) members.old.items }
{
    members.retain(move |member| !is_among(names, member.0.as_str()));
}
