//! Objects whose table admits the members of some names alone.
ghost use Rattle.std.specs.Prelude.{◌≡◌};
ghost use Rattle.sig_json.specs.Closed.{are_among, has_only};
ghost use Rattle.sig_json.specs.Only.{names_of};
ghost use Rattle.sig_json.specs.Tree.{tree};
ghost use Rattle.sig_json.specs.View.{members_view};

use crate::kept::is_among;
use crate::tree::Entry;
use crate::view::Json;

impl Json<'_, '_> {
    /// Whether the value is an object without members of other names than these. It takes no memory.
    #[tactic(auto, unfolding(crate::specs::Closed::has_only))]
    pub fn has_only(self, names: &[&str]) -> bool
        ensures { result ≡ has_only (names_of names.now) (tree self.entry) }
    {
        match self.value.as_object() {
            Some(members) => are_among(members, names),
            None => false,
        }
    }
}

/// Whether every member has one of these names.
#[tactic(auto, using(crate::proofs::ClosedObjects::objects))]
fn are_among(members: &Vec<Entry<'_>>, names: &[&str]) -> bool
    ensures { result ≡ are_among (names_of names.now) (members_view members.now.items) }
{
    for member in members {
        if !is_among(names, member.0.as_str()) {
            return false;
        }
    }
    true
}
