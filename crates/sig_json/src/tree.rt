//! `Tree`: a value of a document as the crate holds it. Each list and each object is a vector of its own size, so that
//! a value takes a few words, whatever it is and however deep it nests.
ghost use Rattle.std.specs.Prelude.{◌≡◌, is_some, option_map};
ghost use Rattle.serde_json.specs.Find.{as_null, as_bool, as_number, as_str, as_array, as_object, get as member_in};
ghost use Rattle.serde_json.specs.Find.{get_item, at};
ghost use Rattle.serde_json.specs.View.{number_view};
ghost use Rattle.sig_json.specs.NamedTree.{IsNamedTree};
ghost use Rattle.sig_json.specs.View.{view, items_view, members_view};

use crate::order::find;
use crate::words::Words;
use serde_json::Number;

/// A member of an object: its name and its value.
pub type Entry<'t> = (Words<'t>, Tree<'t>);

/// A value. The members of an object are in the byte order of their names, each name once: `IsNamedTree`, which each
/// document and each view of one carries. Outside the crate trees are looked at alone (`Json::as_tree`): no document is
/// made of one.
#[derive(Drop)]
pub enum Tree<'t> {
    Null,
    Bool(bool),
    Number(Number),
    Text(Words<'t>),
    Array(Vec<Tree<'t>>),
    Object(Vec<Entry<'t>>),
}

#[tactic(auto, using(crate::proofs::Trees::trees, crate::proofs::OrderedMembers::in_trees))]
impl<'t> Tree<'t> {
    pub(crate) fn is_null(&self) -> bool
        ensures { result ≡ is_some (as_null (view self.now)) }
    {
        matches!(self, Tree::Null)
    }

    pub(crate) fn as_bool(&self) -> Option<bool>
        ensures { result ≡ as_bool (view self.now) }
    {
        match self {
            Tree::Bool(truth) => Some(*truth),
            _ => None,
        }
    }

    pub(crate) fn as_number(&self) -> Option<&Number>
        ensures { option_map (λ n. number_view n.now) result ≡ as_number (view self.now) }
    {
        match self {
            Tree::Number(number) => Some(number),
            _ => None,
        }
    }

    pub(crate) fn as_str(&self) -> Option<&str>
        ensures { option_map (λ s. s.now) result ≡ as_str (view self.now) }
    {
        match self {
            Tree::Text(text) => Some(text.as_str()),
            _ => None,
        }
    }

    pub(crate) fn as_array(&self) -> Option<&Vec<Tree<'t>>>
        ensures { option_map (λ v. items_view v.now.items) result ≡ as_array (view self.now) }
    {
        match self {
            Tree::Array(items) => Some(items),
            _ => None,
        }
    }

    pub(crate) fn as_object(&self) -> Option<&Vec<Entry<'t>>>
        ensures { option_map (λ v. members_view v.now.items) result ≡ as_object (view self.now) }
    {
        match self {
            Tree::Object(members) => Some(members),
            _ => None,
        }
    }

    /// The member of this name of an object.
    pub(crate) fn get(&self, name: &str) -> Option<&Tree<'t>>
        requires { IsNamedTree (view self.now) }
        ensures { option_map (λ t. view t.now) result ≡ member_in name.now (view self.now) }
    {
        match self {
            Tree::Object(members) => find(members, name),
            _ => None,
        }
    }

    /// The element of a list at an index, counted from 0.
    pub(crate) fn item(&self, place: usize) -> Option<&Tree<'t>>
        ensures { option_map (λ t. view t.now) result ≡ at place (view self.now) }
    {
        match self {
            Tree::Array(items) => element(items, place),
            _ => None,
        }
    }
}

#[tactic(auto, using(crate::proofs::Lists::elements))]
fn element<'a, 't>(items: &'a Vec<Tree<'t>>, place: usize) -> Option<&'a Tree<'t>>
    ensures { option_map (λ t. view t.now) result ≡ get_item place (items_view items.now.items) }
{
    if place < items.len() {
        Some(&items[place])
    } else {
        None
    }
}
