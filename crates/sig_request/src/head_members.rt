//! The tree head that a request gives: the checkpoint that is to vouch for the size and root of its tree.
ghost use Rattle.sig_base.specs.Answers.{Answers};
ghost use Rattle.sig_json.specs.OrMember.{or_member};
ghost use Rattle.sig_json.specs.Tree.{tree};
ghost use Rattle.sig_request.specs.HeadMembers.{head_of};

use crate::row::SchemeReader;
use sig_base::{Bytes, SigningScheme, TableChecker, Text};
use sig_json::{Json, MemberError, required, required_bytes, required_text};
use std::alloc::Global;

/// The tree head that a request claims: its checkpoint, and what its signatures are checked by.
#[derive(Drop)]
pub struct ClaimedHead {
    /// A signed note with the log's size and root.
    pub checkpoint: Text,
    /// The scheme of the log's key.
    pub scheme: SigningScheme,
    /// The log's key (DER).
    pub key: Bytes,
    /// The signatures that are accepted as genuine.
    pub accepted: TableChecker,
}

/// The tree head of a request's log: its members `checkpoint`, `scheme` and `key`, and the rows of `accepted`.
#[tactic(auto, unfolding(crate::specs::HeadMembers::head_of))]
pub fn read_head(
    alloc: Global,
    json: Json<'_, '_>,
    accepted: TableChecker,
) -> Result<ClaimedHead, MemberError>
    ensures { Answers MemberError.OutOfMemory (λ head. head) result
        (or_member (head_of accepted (tree json.entry))) }
{
    Ok(ClaimedHead {
        checkpoint: required_text(alloc, json, "checkpoint")?,
        scheme: required::<SchemeReader>(alloc, json, "scheme")?,
        key: required_bytes(alloc, json, "key")?,
        accepted,
    })
}
