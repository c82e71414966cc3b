//! `Member`: a member of an object, borrowed, while an object is sorted.
ghost use Rattle.sig_json.specs.NamedTree.{IsNamedTree};
ghost use Rattle.sig_json.specs.NamedTreeProofs.{IsNamedTree-prop};
ghost use Rattle.sig_json.specs.View.{view};

use sig_json::Tree;

/// A name and its value.
#[derive(Clone, Copy)]
pub(crate) struct Member<'a, 't> {
    pub(crate) name: &'a str,
    pub(crate) value: &'a Tree<'t>,
    ghost named: { IsNamedTree (view value.now) } by { IsNamedTree-prop (view value.now) },
}
