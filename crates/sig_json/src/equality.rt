//! Whether two trees are equal: a recursion over kinds, elements and members. Documents are equal if and only if their
//! trees are.
ghost use Rattle.std.specs.Prelude.{◌≡◌, ◌↔◌, IsTrue, false};
ghost use Rattle.serde_json.specs.View.{number_view};
ghost use Rattle.sig_json.specs.View.{view, items_view, members_view};
ghost use Rattle.serde_json.specs.Find.{is_float};
ghost use Rattle.serde_json.specs.Written.{has_float, items_have_float, members_have_float};

use crate::document::Document;
use crate::tree::{Entry, Tree};
use crate::view::Json;
use serde_json::Number;

impl Json<'_, '_> {
    ghost use Rattle.sig_json.specs.Tree.{tree};

    /// Whether the two trees are equal. It takes no memory.
    pub fn equals(self, other: Json<'_, '_>) -> bool
        ensures { IsTrue result ↔ (tree self.entry ≡ tree other.entry) }
    {
        is_same(self.value, other.value)
    }
}

impl PartialEq for Document {
    ghost use Rattle.std.specs.Cmp.{partial_equiv_from_equiv};
    ghost use Rattle.sig_json.specs.SameTreeProofs.{documents_equiv};
    ghost use Rattle.sig_json.specs.SameTree.{same_tree};
    ghost use Rattle.sig_json.specs.Tree.{document_tree};

    ghost eq = { λ one other. same_tree (document_tree one) (document_tree other) };

    ghost laws = { partial_equiv_from_equiv documents_equiv };

    fn eq(&self, other: &Document) -> bool
        ensures value { result ≡ same_tree (document_tree self.now) (document_tree other.now) }
        ensures exact { IsTrue result ↔ (document_tree self.now ≡ document_tree other.now) }
    {
        self.view().equals(other.view())
    }
}

impl Eq for Document {
    ghost use Rattle.sig_json.specs.SameTreeProofs.{documents_equiv};

    ghost laws = { documents_equiv };
}

#[cycle(same)]
#[tactic(auto, using(crate::proofs::SameTrees::same_trees))]
fn is_same(a: &Tree<'_>, b: &Tree<'_>) -> bool
    requires a_whole { has_float (view a.now) ≡ false }
    requires b_whole { has_float (view b.now) ≡ false }
    ensures { IsTrue result ↔ (view a.now ≡ view b.now) }
{
    match a {
        Tree::Null => b.is_null(),
        Tree::Bool(truth) => match b.as_bool() {
            Some(other) => *truth == other,
            None => false,
        },
        Tree::Number(number) => match b.as_number() {
            Some(other) => is_same_number(number, other),
            None => false,
        },
        Tree::Text(text) => match b.as_str() {
            Some(other) => text.as_str() == other,
            None => false,
        },
        Tree::Array(items) => match b.as_array() {
            Some(others) => are_same_items(items, others),
            None => false,
        },
        Tree::Object(members) => match b.as_object() {
            Some(others) => are_same_members(members, others),
            None => false,
        },
    }
}

#[tactic(auto, using(crate::proofs::SameTrees::same_numbers))]
fn is_same_number(a: &Number, b: &Number) -> bool
    requires a_whole { is_float (number_view a.now) ≡ false }
    requires b_whole { is_float (number_view b.now) ≡ false }
    ensures { IsTrue result ↔ (number_view a.now ≡ number_view b.now) }
{
    match (a.as_u64(), b.as_u64()) {
        (Some(x), Some(y)) => x == y,
        (None, None) => a.as_i64() == b.as_i64(),
        _ => false,
    }
}

#[cycle(same)]
#[tactic(auto, using(crate::proofs::SameTrees::same_trees))]
fn are_same_items(a: &Vec<Tree<'_>>, b: &Vec<Tree<'_>>) -> bool
    requires a_whole { items_have_float (items_view a.now.items) ≡ false }
    requires b_whole { items_have_float (items_view b.now.items) ≡ false }
    ensures { IsTrue result ↔ (items_view a.now.items ≡ items_view b.now.items) }
{
    if a.len() != b.len() {
        return false;
    }
    'items: for (place, item) in a.iter().enumerate() {
        if !is_same(item, &b[place]) {
            return false;
        }
    }
    true
}

#[cycle(same)]
#[tactic(auto, using(crate::proofs::SameTrees::same_members))]
fn are_same_members(a: &Vec<Entry<'_>>, b: &Vec<Entry<'_>>) -> bool
    requires a_whole { members_have_float (members_view a.now.items) ≡ false }
    requires b_whole { members_have_float (members_view b.now.items) ≡ false }
    ensures { IsTrue result ↔ (members_view a.now.items ≡ members_view b.now.items) }
{
    if a.len() != b.len() {
        return false;
    }
    'members: for (place, member) in a.iter().enumerate() {
        let other = &b[place];
        if member.0.as_str() != other.0.as_str() || !is_same(&member.1, &other.1) {
            return false;
        }
    }
    true
}
