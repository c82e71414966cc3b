//! `Policies`: the policies of a manifest by their names.
ghost use Rattle.sig_base.specs.Answers.{Answers};
ghost use Rattle.sig_json.specs.OrMember.{or_member};
ghost use Rattle.sig_json.specs.Tree.{tree};
ghost use Rattle.sig_manifest.specs.Policies.{policies_of};

use sig_base::ByText;
use sig_json::{ElementReader, Json, MemberError};
use sig_policy::RequestPolicy;
use sig_request::read_policy;
use std::alloc::Global;

/// A map from texts to policies.
pub type Policies = ByText<RequestPolicy>;

/// Reads objects whose every member is a policy.
pub(crate) enum PoliciesReader {}

impl ElementReader for PoliciesReader {
    type Item = Policies;

    ghost meaning = { policies_of };

    fn read(alloc: Global, json: Json<'_, '_>) -> Result<Policies, MemberError> {
        policies_of(alloc, json)
    }
}

/// The policies that the members of an object are. Fails with `Member` if the value is not an object, or a member is
/// not a policy.
#[tactic(auto, using(crate::proofs::PolicyMaps::putting))]
fn policies_of(alloc: Global, json: Json<'_, '_>) -> Result<Policies, MemberError>
    ensures { Answers MemberError.OutOfMemory (λ policies. policies) result
        (or_member (policies_of (tree json.entry))) }
{
    let Some(members) = json.members() else {
        return Err(MemberError::Member);
    };
    let mut policies = Policies::new(alloc);
    'members: for (name, value) in members {
        policies.insert(name, read_policy(alloc, value)?)?;
    }
    Ok(policies)
}
