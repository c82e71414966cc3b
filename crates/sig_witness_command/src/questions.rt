//! The command `questions witness`: which signatures can the reply of `witness` depend on?
ghost use Rattle.std.specs.Prelude.{IfOk};
ghost use Rattle.sig_request.specs.ReadFrom.{IsRequestOf};
ghost use Rattle.sig_witness_command.specs.Questions.{IsNotesReply, IsWitnessQuestionsReply};
ghost use Rattle.sig_witness_command.specs.Request.{witness_request};
ghost use Rattle.sig_witness_command.specs.Start.{HaveLines};
ghost use Rattle.sig_witness_command.specs.Suffice.{WitnessListsAreGivenBack, WitnessQuestionsSuffice};

use crate::laws::witness_lists;
use crate::request::WitnessRequest;
use crate::rows::notes_document;
use crate::start::start_of;
use sig_base::OutOfMemory;
use sig_reply::{Reply, room_beside};
use sig_witness::Witness;
use std::alloc::Global;

/// Returns the reply to a request's text: the list of the signatures that `witness` asks for, for each update whose
/// text is a checkpoint each signature over its note under the key of its origin, where that is kept, and each
/// signature once, in the order in which they come first, with status 0; else `refused request`, if the text is not a
/// request that `witness` replies to, or text, list and `,"accepted":` would have more than 2^24 bytes together. Which
/// signatures the request itself accepts does not matter. Fails only if out of memory.
///
/// For two requests that differ only in accepted signatures that are not asked for, `witness` has the same reply, also
/// where no list is written. And a list that is written fits one request with the request that it is for.
pub fn witness_questions(alloc: Global, request: &[u8]) -> Result<Reply, OutOfMemory>
    ensures reply { IfOk result (IsWitnessQuestionsReply request.now) }
    ensures suffice { WitnessQuestionsSuffice }
    ensures given_back { WitnessListsAreGivenBack }
{
    // Why the list suffices, and fits one request with the request.
    witness_lists();
    reply_to_text(alloc, request)
}

/// The reply to a request's text.
fn reply_to_text(alloc: Global, request: &[u8]) -> Result<Reply, OutOfMemory>
    ensures { IfOk result (IsWitnessQuestionsReply request.now) }
{
    let Some(read) = WitnessRequest::read(alloc, request)? else {
        return Reply::refused(alloc, 2, "request");
    };
    let reply = reply_to(alloc, request, &read);
    drop(read);
    reply
}

/// The reply to a request, whose text this is.
fn reply_to(alloc: Global, text: &[u8], request: &WitnessRequest) -> Result<Reply, OutOfMemory>
    requires { IsRequestOf witness_request text.now request.now }
    ensures { IfOk result (IsWitnessQuestionsReply text.now) }
{
    let Some(witness) = start_of(alloc, request)? else {
        return Reply::refused(alloc, 2, "request");
    };
    let reply = listing_reply(alloc, text, request, &witness);
    drop(witness);
    reply
}

/// The reply to a request of this text that starts from this witness.
fn listing_reply(
    alloc: Global,
    text: &[u8],
    request: &WitnessRequest,
    witness: &Witness,
) -> Result<Reply, OutOfMemory>
    requires { HaveLines witness.now }
    ensures { IfOk result (IsNotesReply text.now request.now witness.now) }
{
    match notes_document(
        alloc,
        witness,
        request.updates.as_slice(),
        room_beside(text),
    )? {
        Some(document) => Reply::listed(alloc, &document),
        None => Reply::refused(alloc, 2, "request"),
    }
}
