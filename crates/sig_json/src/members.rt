//! `Members`: the members of an object in the byte order of their names.
ghost use Rattle.std.specs.Prelude.{◌≡◌, false};
ghost use Rattle.sig_json.specs.View.{members_view};
ghost use Rattle.serde_json.specs.Written.{members_have_float};
ghost use Rattle.sig_json.specs.NamedTree.{HasNamedValues};
ghost use Rattle.sig_json.specs.NamedTreeProofs.{HasNamedValues-prop};

use crate::tree::Entry;
use crate::view::Json;

/// A walk over the members of an object, in the byte order of their names.
#[derive(Drop)]
pub struct Members<'a, 't> {
    left: &'a [Entry<'t>],
    ghost without_float: { members_have_float (members_view left.now) ≡ false },
    ghost named: { HasNamedValues (members_view left.now) } by { HasNamedValues-prop (members_view left.now) },
}

impl<'a, 't> Iterator for Members<'a, 't> {
    ghost use Rattle.std.specs.Iterator.{YieldsFirstBy, item_count};
    ghost use Rattle.sig_json.specs.Walk.{shown, members_left};

    type Item = (&'a str, Json<'a, 't>);

    ghost next_gives = { YieldsFirstBy shown members_left };

    ghost remaining = { item_count members_left };

    #[tactic(auto, using(crate::proofs::FloatlessTrees::floatless, crate::proofs::NamedTrees::named))]
    fn next(&mut self) -> Option<(&'a str, Json<'a, 't>)> {
        let (first, rest) = self.left.split_first()?;
        *self = Members { left: rest };
        Some((first.0.as_str(), Json { value: &first.1 }))
    }
}

#[tactic(auto, using(crate::proofs::FloatlessTrees::floatless, crate::proofs::NamedTrees::named))]
impl<'a, 't> Json<'a, 't> {
    ghost use Rattle.std.specs.Prelude.{IfSome, option_map};
    ghost use Rattle.sig_base.specs.ByText.{KeysAscend};
    ghost use Rattle.sig_json.specs.Members.{members_of};
    ghost use Rattle.sig_json.specs.Tree.{tree};
    ghost use Rattle.sig_json.specs.Walk.{members_left};

    /// The members of an object, in the byte order of their names, each name once; `None` if the value is not an
    /// object. It takes no memory.
    pub fn members(self) -> Option<Members<'a, 't>>
        ensures value { option_map members_left result ≡ members_of (tree self.entry) }
        ensures ordered { IfSome result (λ members. KeysAscend (members_left members)) }
    {
        match self.value.as_object() {
            Some(members) => Some(Members { left: members }),
            None => None,
        }
    }
}
