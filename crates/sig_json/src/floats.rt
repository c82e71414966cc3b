//! Whether a tree holds a float.
ghost use Rattle.std.specs.Prelude.{◌≡◌};
ghost use Rattle.serde_json.specs.Written.{has_float, items_have_float, members_have_float};
ghost use Rattle.sig_json.specs.View.{view, items_view, members_view};

use crate::tree::{Entry, Tree};

/// Whether a number of the tree is held as a float.
#[cycle(floats)]
#[tactic(auto, using(crate::proofs::Trees::trees, crate::proofs::Lists::parts))]
pub(crate) fn is_float_in(tree: &Tree<'_>) -> bool
    ensures { result ≡ has_float (view tree.now) }
{
    match tree {
        Tree::Number(number) => number.is_f64(),
        Tree::Array(items) => is_float_among(items),
        Tree::Object(members) => is_float_in_members(members),
        _ => false,
    }
}

#[cycle(floats)]
#[tactic(auto, using(crate::proofs::Lists::parts))]
fn is_float_among(items: &Vec<Tree<'_>>) -> bool
    ensures { result ≡ items_have_float (items_view items.now.items) }
{
    for item in items {
        if is_float_in(item) {
            return true;
        }
    }
    false
}

#[cycle(floats)]
#[tactic(auto, using(crate::proofs::Lists::parts))]
fn is_float_in_members(members: &Vec<Entry<'_>>) -> bool
    ensures { result ≡ members_have_float (members_view members.now.items) }
{
    for member in members {
        if is_float_in(&member.1) {
            return true;
        }
    }
    false
}
