//! A tree in memory of its own, made of one that is taken apart: what was copied of that one is dropped at once, so
//! that both take little more memory than the greater of them.
ghost use Rattle.std.specs.Prelude.{◌≡◌, IfOk};
ghost use Rattle.sig_json.specs.Gathered.{seen};
ghost use Rattle.sig_json.specs.View.{view, items_view, members_view};

use crate::room::give_up_room;
use crate::tree::{Entry, Tree};
use crate::words::own;
use sig_base::OutOfMemory;
use std::alloc::Global;

/// Moves a tree to memory of its own, each list and each object to a vector of its own size. Fails only if out of
/// memory.
#[cycle(owned)]
#[tactic(auto, using(crate::proofs::Copies::copies))]
pub(crate) fn own_tree(alloc: Global, tree: Tree<'_>) -> Result<Tree<'static>, OutOfMemory>
    ensures { IfOk result (λ t. view t ≡ view tree.entry) }
{
    match tree {
        Tree::Null => Ok(Tree::Null),
        Tree::Bool(truth) => Ok(Tree::Bool(truth)),
        Tree::Number(number) => Ok(Tree::Number(number)),
        Tree::Text(text) => Ok(Tree::Text(own(alloc, text.as_str())?)),
        Tree::Array(items) => Ok(Tree::Array(own_items(alloc, items)?)),
        Tree::Object(members) => Ok(Tree::Object(own_members(alloc, members)?)),
    }
}

#[cycle(owned)]
#[tactic(auto, using(crate::proofs::MovedParts::moved_items))]
fn own_items(alloc: Global, mut items: Vec<Tree<'_>>) -> Result<Vec<Tree<'static>>, OutOfMemory>
    ensures { IfOk result (λ v. items_view v.items ≡ items_view items.entry.items) }
{
    let mut owned = Vec::with_capacity(alloc, items.len())?;
    items.reverse();
    'items: while let Some(item) = items.pop() {
        give_up_room(&mut items);
        owned.push(own_tree(alloc, item)?)?;
    }
    Ok(owned)
}

#[cycle(owned)]
#[tactic(auto, using(crate::proofs::MovedParts::moved_members))]
fn own_members(
    alloc: Global,
    mut members: Vec<Entry<'_>>,
) -> Result<Vec<Entry<'static>>, OutOfMemory>
    ensures { IfOk result (λ v. members_view v.items ≡ members_view members.entry.items) }
{
    let mut owned = Vec::with_capacity(alloc, members.len())?;
    members.reverse();
    'members: while let Some(member) = members.pop() {
        give_up_room(&mut members);
        owned.push(own_member(alloc, member)?)?;
    }
    Ok(owned)
}

#[cycle(owned)]
fn own_member(alloc: Global, member: Entry<'_>) -> Result<Entry<'static>, OutOfMemory>
    ensures { IfOk result (λ m. seen m ≡ seen member.entry) }
{
    let (name, value) = member;
    let name = own(alloc, name.as_str())?;
    Ok((name, own_tree(alloc, value)?))
}
