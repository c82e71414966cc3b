//! The command `witness`: which of these heads have grown from those that are kept?
ghost use Rattle.std.specs.Prelude.{◌≡◌, IfOk};
ghost use Rattle.sig_witness_command.specs.Reply.{IsReplyTo, IsWitnessReply, IsWitnessedReply, witnessed};

use crate::outcome::{Outcome, all_accepted, outcome_lines};
use crate::request::WitnessRequest;
use crate::start::start_of;
use crate::updating::update_each;
use sig_base::{OutOfMemory, Text};
use sig_reply::Reply;
use sig_witness::Witness;
use std::alloc::Global;

/// Returns the reply to a request's text: a line for each update in order, an empty line, and the state after them all,
/// the text of [`Witness::encode`]. The line is `accepted SIZE`, the size of the new head, or the first that applies of
///
/// - `refused checkpoint`: the text is not a checkpoint;
/// - `refused origin`: its origin is not kept;
/// - `refused note-key`: none of its signatures is accepted under the origin's key;
/// - `refused old-size KEPT`: the old size is not KEPT, that of the kept head;
/// - `refused consistency`: the hashes are not a consistency proof from the kept head (RFC 6962 section 2.1.2);
/// - `refused full`: 4,096 heads are kept of the origin.
///
/// A refused update changes nothing. The status is 0 if all were accepted, else 1; and it is 2, with `refused request`,
/// if the text is not a request of `witness`, its state is not one that [`Witness::decode`] reads, or one of its origins is
/// empty, holds a newline or is there already. Fails only if out of memory; then no update counts.
pub fn witness_reply(alloc: Global, request: &[u8]) -> Result<Reply, OutOfMemory>
    ensures { IfOk result (IsWitnessReply request.now) }
{
    let Some(request) = WitnessRequest::read(alloc, request)? else {
        return Reply::refused(alloc, 2, "request");
    };
    let reply = reply_to(alloc, &request);
    drop(request);
    reply
}

fn reply_to(alloc: Global, request: &WitnessRequest) -> Result<Reply, OutOfMemory>
    ensures { IfOk result (IsReplyTo request.now) }
{
    let Some(mut witness) = start_of(alloc, request)? else {
        return Reply::refused(alloc, 2, "request");
    };
    let reply = reply_from(alloc, &mut witness, request);
    drop(witness);
    reply
}

/// The reply to a request that starts from this witness.
fn reply_from(
    alloc: Global,
    witness: &mut Witness,
    request: &WitnessRequest,
) -> Result<Reply, OutOfMemory>
    ensures { IfOk result (IsWitnessedReply request.now witness.old) }
{
    let outcomes = update_each(
        alloc,
        witness,
        request.updates.as_slice(),
        &request.accepted,
    )?;
    let state = witness.encode(alloc)?;
    witnessed(alloc, outcomes.as_slice(), &state)
}

/// The reply of these outcomes and this state.
fn witnessed(alloc: Global, outcomes: &[Outcome], state: &Text) -> Result<Reply, OutOfMemory>
    ensures { IfOk result (λ reply. reply ≡ witnessed outcomes.now state.now) }
{
    let lines = outcome_lines(alloc, outcomes)?;
    let text = Text::from(format!(in alloc; "{}\n{}", lines.as_str(), state.as_str())?);
    let status = if all_accepted(outcomes) { 0 } else { 1 };
    Ok(Reply { status, text })
}
