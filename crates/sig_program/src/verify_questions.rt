//! The command `questions verify`: which signatures can the reply of `verify` depend on?
ghost use Rattle.std.specs.Prelude.{◌≡◌, ◌↔◌, ℕ, All, Contains, IfOk, List};
ghost use Rattle.sig_base.specs.declared.checker.AcceptedRow.{AcceptedRow as row_type};
ghost use Rattle.sig_questions.specs.Asked.{IsAskedBy};
ghost use Rattle.sig_questions.specs.Questions.{IsDecided};
ghost use Rattle.sig_questions.specs.Rows.{HasScheme};
ghost use Rattle.sig_program.specs.Reply.{IsReply};
ghost use Rattle.sig_reply.specs.Reply.{IsListingOf};
ghost use Rattle.sig_program.specs.Suffice.{VerifyQuestionsSuffice};
ghost use Rattle.sig_program.specs.VerifyLink.{inputs};
ghost use Rattle.sig_program.specs.VerifyQuestions.{RefusesForAll};
ghost use Rattle.sig_program.specs.declared.command.Command.TheVariants.{VerifyQuestions};
ghost use Rattle.sig_request.specs.ReadFrom.{IsRequestOf};
ghost use Rattle.sig_request.specs.VerifyRequest.{verify_request};

use crate::laws::lists;
use crate::reply::refused;
use sig_base::{AcceptedRow, OutOfMemory, OwnedList};
use sig_questions::laws::{few, one_list, schemes};
use sig_questions::{NoQuestions, questions};
use sig_reply::{Reply, room_beside, rows_document};
use sig_request::VerifyRequest;
use sig_verify::Link;
use std::alloc::Global;

/// Returns the reply to a request's text: the list of the signatures that the links of `verify` ask for, in their
/// order, with status 0: those of the certificate and of the bundle's further ones under the keys of their issuers in
/// each path to a trust anchor that would hold if every signature were genuine, the SCT as issued by each such issuer
/// of the certificate, the signature over the content, the log's promise, and each signature of the checkpoint's note.
/// Else `refused NAME`, for the first link of `verify` that fails whatever is accepted: one before `issuer`, or
/// `issuer` if there is no such path; and `refused request` if the text is not a request of `verify`, or text, list and
/// `,"accepted":` would have more than 2^24 bytes together. Which signatures the request itself accepts does not
/// matter. Fails only if out of memory.
///
/// For two requests that differ only in accepted signatures that no link asks for, `verify` has the same reply, also
/// where no list is written.
pub fn verify_questions(alloc: Global, request: &[u8]) -> Result<Reply, OutOfMemory>
    ensures reply { IfOk result (IsReply VerifyQuestions request.now) }
    ensures suffice { VerifyQuestionsSuffice }
    ensures refusals { RefusesForAll }
{
    // Why the list suffices, and what its refusals say of `verify`.
    lists();
    reply_to_text(alloc, request)
}

/// The reply to a request's text.
fn reply_to_text(alloc: Global, request: &[u8]) -> Result<Reply, OutOfMemory>
    ensures { IfOk result (IsReply VerifyQuestions request.now) }
{
    let Some(read) = VerifyRequest::read(alloc, request)? else {
        return refused(alloc, Link::Request);
    };
    let reply = reply_to(alloc, request, &read);
    drop(read);
    reply
}

/// The reply to a request, whose text this is.
fn reply_to(alloc: Global, text: &[u8], request: &VerifyRequest) -> Result<Reply, OutOfMemory>
    requires { IsRequestOf verify_request text.now request.now }
    ensures { IfOk result (IsReply VerifyQuestions text.now) }
{
    // There is one list. Its questions are so few that its bytes can be counted, and each has a scheme with a name.
    one_list();
    few();
    schemes();
    match questions_of(alloc, request, room_beside(text)) {
        Ok(rows) => {
            let reply = listing_reply(alloc, text, &rows);
            drop(rows);
            reply
        }
        Err(NoQuestions::Link(link)) => refused(alloc, link),
        // A row has more bytes in the list than by itself.
        Err(NoQuestions::TooLong) => refused(alloc, Link::Request),
        Err(NoQuestions::OutOfMemory) => Err(OutOfMemory),
    }
}

/// The signatures that the links of a request ask for, unless they have more than `most` bytes.
fn questions_of(
    alloc: Global,
    request: &VerifyRequest,
    most: usize,
) -> Result<OwnedList<AcceptedRow>, NoQuestions>
    ensures decided { IsDecided (inputs request.entry.now) most result }
    ensures asked { IfOk result (λ rows.
        (row : row_type) → Contains rows row ↔ IsAskedBy (inputs request.entry.now) row) }
{
    let now = request.now();
    questions(
        alloc,
        request.trusted_root(),
        now,
        &request.digest,
        request.bundle(),
        most,
    )
}

/// The reply to a request of this text that lists these signatures.
fn listing_reply(
    alloc: Global,
    text: &[u8],
    rows: &OwnedList<AcceptedRow>,
) -> Result<Reply, OutOfMemory>
    requires { All HasScheme rows.now }
    ensures { IfOk result (IsListingOf text.now rows.now) }
{
    match rows_document(alloc, rows.as_slice(), room_beside(text))? {
        Some(document) => Reply::listed(alloc, &document),
        None => refused(alloc, Link::Request),
    }
}
