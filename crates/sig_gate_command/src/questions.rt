//! The command `questions gate`: which signatures can the reply of `gate` depend on?
ghost use Rattle.std.specs.Prelude.{IfOk};
ghost use Rattle.sig_gate_command.specs.Questions.{IsGateQuestionsReply};
ghost use Rattle.sig_gate_command.specs.Request.{IsGateText, parts_of};
ghost use Rattle.sig_gate_command.specs.Suffice.{GateListsAreGivenBack, GateQuestionsSuffice, GateRowsAreEachOnce};

use crate::laws::gate_lists;
use crate::request::GateRequest;
use crate::rows::questions_document;
use sig_base::OutOfMemory;
use sig_questions::laws::one_list;
use sig_reply::{Reply, room_beside};
use std::alloc::Global;

/// The greatest number of bytes of all signatures that a manifest's bundles ask for, each counted as often as it is
/// asked for. It is 2^26, four times what a request may have.
pub const MOST_ASKED: usize = 67_108_864;

/// Returns the reply to a request's text: the list of the signatures that `gate` asks for, with status 0. They are
/// those that [`questions`](sig_questions::questions) lists for each bundle of each artifact in order, under the
/// artifact's trusted root, the time of the manifest and the artifact's digest, each signature once, in the order in
/// which they come first. A bundle does not ask for any if a link up to `issuer` fails whatever is accepted.
///
/// Else it is `refused request`, with status 2: if the text has more than 2^24 bytes or is not a manifest; if the
/// signatures have more than 2^26 bytes, each counted as often as a bundle asks for it; or if text, list and
/// `,"accepted":` would have more than 2^24 bytes together. Which signatures the manifest itself accepts does not
/// matter. Fails only if out of memory.
///
/// For two manifests that differ only in accepted signatures that are not asked for, `gate` has the same reply, also
/// where no list is written. And a list that is written fits one request with the manifest that it is for.
pub fn gate_questions(alloc: Global, request: &[u8]) -> Result<Reply, OutOfMemory>
    ensures reply { IfOk result (IsGateQuestionsReply request.now) }
    ensures suffice { GateQuestionsSuffice }
    ensures once { GateRowsAreEachOnce }
    ensures given_back { GateListsAreGivenBack }
{
    // Why the list suffices, and fits one request with the manifest.
    gate_lists();
    reply_to_text(alloc, request)
}

/// The reply to a request's text.
fn reply_to_text(alloc: Global, request: &[u8]) -> Result<Reply, OutOfMemory>
    ensures { IfOk result (IsGateQuestionsReply request.now) }
{
    let Some(read) = GateRequest::read(alloc, request)? else {
        return Reply::refused(alloc, 2, "request");
    };
    let reply = listing_reply(alloc, request, &read);
    drop(read);
    reply
}

/// The reply to a request, whose text this is.
fn listing_reply(alloc: Global, text: &[u8], request: &GateRequest) -> Result<Reply, OutOfMemory>
    requires { IsGateText text.now (parts_of request.now) }
    ensures { IfOk result (IsGateQuestionsReply text.now) }
{
    // Why there is no other list.
    one_list();
    match questions_document(alloc, &request.manifest, room_beside(text))? {
        Some(document) => Reply::listed(alloc, &document),
        None => Reply::refused(alloc, 2, "request"),
    }
}
