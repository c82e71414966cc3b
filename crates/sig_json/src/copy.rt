//! A tree in memory of its own.
ghost use Rattle.std.specs.Prelude.{◌≡◌, IfOk};
ghost use Rattle.sig_json.specs.View.{view, items_view, members_view};

use crate::tree::{Entry, Tree};
use crate::words::own;
use sig_base::OutOfMemory;
use std::alloc::Global;

/// Copies a tree, each list and each object into a vector of its own size. Fails only if out of memory.
#[cycle(copy)]
#[tactic(auto, using(crate::proofs::Copies::copies))]
pub(crate) fn copy(alloc: Global, tree: &Tree<'_>) -> Result<Tree<'static>, OutOfMemory>
    ensures { IfOk result (λ t. view t ≡ view tree.now) }
{
    match tree {
        Tree::Null => Ok(Tree::Null),
        Tree::Bool(truth) => Ok(Tree::Bool(*truth)),
        Tree::Number(number) => Ok(Tree::Number(*number)),
        Tree::Text(text) => Ok(Tree::Text(own(alloc, text.as_str())?)),
        Tree::Array(items) => Ok(Tree::Array(copy_items(alloc, items)?)),
        Tree::Object(members) => Ok(Tree::Object(copy_members(alloc, members)?)),
    }
}

#[cycle(copy)]
#[tactic(auto, using(crate::proofs::Copies::copies))]
fn copy_items(alloc: Global, items: &Vec<Tree<'_>>) -> Result<Vec<Tree<'static>>, OutOfMemory>
    ensures { IfOk result (λ v. items_view v.items ≡ items_view items.now.items) }
{
    let mut copies = Vec::with_capacity(alloc, items.len())?;
    for item in items {
        copies.push(copy(alloc, item)?)?;
    }
    Ok(copies)
}

#[cycle(copy)]
#[tactic(auto, using(crate::proofs::Copies::copies))]
fn copy_members(alloc: Global, members: &Vec<Entry<'_>>) -> Result<Vec<Entry<'static>>, OutOfMemory>
    ensures { IfOk result (λ v. members_view v.items ≡ members_view members.now.items) }
{
    let mut copies = Vec::with_capacity(alloc, members.len())?;
    for member in members {
        let name = own(alloc, member.0.as_str())?;
        copies.push((name, copy(alloc, &member.1)?))?;
    }
    Ok(copies)
}
