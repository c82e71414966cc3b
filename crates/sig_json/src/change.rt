//! The changes that builders make to a tree.
ghost use Rattle.std.specs.Prelude.{◌≡◌, OnOk, OnErr};
ghost use Rattle.sig_json.specs.Builders.{with_member, with_last};
ghost use Rattle.sig_json.specs.NamedTree.{IsNamedTree};
ghost use Rattle.sig_json.specs.View.{view};

use crate::order::put;
use crate::tree::Tree;
use crate::words::own;
use sig_base::OutOfMemory;
use std::alloc::Global;

/// Sets a member of an object; any other value stays.
#[tactic(auto, using(crate::proofs::BuilderSteps::members_set, crate::proofs::OrderedMembers::in_trees))]
pub(crate) fn put_member<'t>(
    alloc: Global,
    tree: &mut Tree<'t>,
    name: &str,
    member: Tree<'t>,
) -> Result<(), OutOfMemory>
    requires { IsNamedTree (view tree.old) }
    ensures ok { OnOk result (view tree.new ≡ with_member name.now (view member.entry) (view tree.old)) }
    ensures err { OnErr result (view tree.new ≡ view tree.old) }
{
    match tree {
        Tree::Object(members) => {
            let name = own(alloc, name)?;
            put(members, name, member)
        }
        _ => Ok(()),
    }
}

/// Adds an element to a list; any other value stays.
#[tactic(auto, using(crate::proofs::BuilderSteps::elements_added))]
pub(crate) fn push_last<'t>(tree: &mut Tree<'t>, element: Tree<'t>) -> Result<(), OutOfMemory>
    ensures ok { OnOk result (view tree.new ≡ with_last (view element.entry) (view tree.old)) }
    ensures err { OnErr result (view tree.new ≡ view tree.old) }
{
    match tree {
        Tree::Array(elements) => Ok(elements.push(element)?),
        _ => Ok(()),
    }
}
