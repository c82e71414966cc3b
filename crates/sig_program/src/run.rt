//! The program except for its words and streams: it reads a request, and makes and writes the reply.
ghost use Rattle.std.specs.Prelude.{◌≡◌, ℕ, ◌⊎◌, ◌+◌, ◌<◌, ◌≤◌, IfOk, IsErrOf};
ghost use Rattle.std.specs.Io.KnownBytes.{Appends};
ghost use Rattle.sig_audit_command.specs.Suffice.{AuditQuestionsSuffice};
ghost use Rattle.sig_base.specs.Stream.{Rose, TookAtMost};
ghost use Rattle.sig_gate_command.specs.Suffice.{GateQuestionsSuffice};
ghost use Rattle.sig_program.specs.Demo.{demo_text};
ghost use Rattle.sig_program.specs.Invocation.{HasCount, IsDemo, IsInvocation};
ghost use Rattle.sig_request.specs.Limit.{most_bytes};
ghost use Rattle.sig_program.specs.GivenBack.{ListsAreGivenBack};
ghost use Rattle.sig_program.specs.Reply.{IsReply};
ghost use Rattle.sig_program.specs.Run.{IsReplyOf, Answered, ReadFaulted, WriteFaulted, HandsRests, WritesRests};
ghost use Rattle.sig_program.specs.Run.{AppendsFront, usage_line};
ghost use Rattle.sig_program.specs.Status.{usage_status, memory_status, fault_status};
ghost use Rattle.sig_program.specs.Suffice.{ConsistencyQuestionsSuffice, LogQuestionsSuffice, VerifyQuestionsSuffice};
ghost use Rattle.sig_program.specs.VerifyQuestions.{RefusesForAll};
ghost use Rattle.sig_program.specs.declared.command.Command.TheVariants.{AuditQuestions, ConsistencyQuestions, GateQuestions, LogQuestions, VerifyQuestions, WitnessQuestions};
ghost use Rattle.sig_program.specs.declared.invocation.Invocation.TheVariants.{Demo};
ghost use Rattle.sig_witness_command.specs.Suffice.{WitnessQuestionsSuffice};

use crate::command::Command;
use crate::consistency::consistency_reply;
use crate::consistency_questions::consistency_questions;
use crate::demo::demo;
use crate::explain::{explained_reply, long_reply};
use crate::explained::Explained;
use crate::invocation::Invocation;
use crate::laws::lists;
use crate::log::log_reply;
use crate::log_questions::log_questions;
use crate::reply::{USAGE_LINE, refused};
use crate::verify::verify_reply;
use crate::verify_questions::verify_questions;
use crate::write::write_reply;
use sig_audit_command::{audit_questions, audit_reply};
use sig_base::{OutOfMemory, Sink, Source, Text};
use sig_gate_command::{gate_questions, gate_reply};
use sig_reply::Reply;
use sig_request::{ReadFault, read_request};
use sig_verify::Link;
use sig_witness_command::{witness_questions, witness_reply};
use std::alloc::Global;

/// The status for words that do not ask for anything (EX_USAGE of sysexits.h).
pub const USAGE: u8 = 64;

/// The status for out of memory (EX_OSERR).
pub const NO_MEMORY: u8 = 71;

/// The status for a fault of the source or of the sink (EX_IOERR).
pub const FAULT: u8 = 74;

/// Why there is no reply to write.
#[derive(Clone, Copy)]
enum NoReply {
    Failed,
    OutOfMemory,
}

impl From<OutOfMemory> for NoReply {
    ghost use Rattle.std.specs.Prelude.{◌≡◌};
    ghost use Rattle.sig_program.specs.declared.run.NoReply.TheVariants.{OutOfMemory};

    ghost from_gives = { λ _ e. e ≡ OutOfMemory };

    fn from(_error: OutOfMemory) -> NoReply {
        NoReply::OutOfMemory
    }
}

/// Does what the words ask for, and returns the program's status.
///
/// A command reads a request, at most 2^24 + 1 bytes of what the source has left, and writes one line: `logged I N` for
/// `log`, `verified I N` for `verify`, `consistent M N` for `consistency` and `audited K W N` for `audit`, with status
/// 0, if every link of the command holds, else `refused NAME` for the first that fails, with status 1, or 2 for the
/// link `request`; for `audit` a link other than `request` has the index of its head or watched entry after its name.
/// With status 0 a second line follows if the request gives the log's entries: if they have the size and the RFC 6962
/// root that the links are about, `entry I` for `log` and `verify`, and the logged body is the entry at the index I, or
/// `prefix M` for `consistency`, and the old root is that of the first M entries, M being the old size, or `prefixes K`
/// for `audit`, and each of the K heads is that of the list's first entries, each watched entry that at its index; or
/// `collision HEX HEX`, two different byte strings of equal SHA-256; else `other list`.
///
/// `witness` writes a line for each update, an empty line, and the state of all kept heads after them, with status 0 if
/// all updates were accepted, else 1; or `refused request` with status 2.
///
/// `gate` reads a manifest, and writes for each artifact whether it is admitted, for each bundle whether it is
/// verified, and how many artifacts are admitted, with status 0 if all are, else 1; or `refused request` with status 2.
///
/// `questions log`, `questions verify`, `questions consistency`, `questions audit`, `questions witness` and `questions
/// gate` read a request of the command, and list the signatures that its reply can depend on, as a JSON list in the
/// form of `accepted`, with status 0; else `refused NAME` for the first link that fails whatever signatures are
/// accepted, and `refused request` if the bytes of the request, of the list and of `,"accepted":` would be more than
/// 2^24 together, and for `gate` also if the signatures, each counted as often as a bundle asks for it, have more than
/// 2^26 bytes.
///
/// `explain` before one of the first six commands reads the same request, and writes the lines of the command's reply,
/// with its status; then, as the last line, what the links were about: for the first that fails, its name, why it fails
/// and what it compares; if all hold, what was verified; for `witness` this for each update, for `gate` for each
/// bundle. The line is one JSON object without white space, whose members come in byte order.
///
/// `demo N`, N from 1 to 4096 in decimal without leading zeros, reads nothing, and writes three lines with status 0:
/// `entries N`, `root HEX` and `logged I N`, as [`demo`] says.
///
/// The reply is complete before its first byte is written, and each write is given all that is left of it. Other
/// statuses:
///
/// - 64: the words are none of these. Nothing is read, no memory is taken (no call on the way has the allocator), and
///   `usage` is written.
/// - 71: out of memory; nothing is written.
/// - 74, only if the count of faults of the source or of the sink rose: nothing is written after a fault of the
///   source, and after one of the sink a prefix of the reply was.
#[tactic(auto, using(crate::proofs::Runs::runs))]
pub fn run<S: Source, K: Sink>(alloc: Global, words: &[Text], source: &mut S, sink: &mut K) -> u8
    ensures status { (result < 3) ⊎ (result ≡ usage_status) ⊎ (result ≡ memory_status) ⊎ (result ≡ fault_status) }

    // The headline: what `Answered` says of the reply is that every link holds if the status is 0, and that else it
    // shows the first that fails; and of the log's entries, where they are given, what `IsSecondLine` says, for
    // `consistency` what `IsFrontLine` does, and for `audit` what `IsListLine` does. For `witness` it is that the state
    // which is written is *Witness run*'s, and the lines say what became of each update; for `gate`, that an artifact
    // is admitted if and only if one of its bundles is verified and its rule holds of those that are.
    ensures answered { result < 3 →
        Answered words.now (S.left source.old) (S.left source.new) (K.taken sink.old) (K.taken sink.new) result }
    ensures usage { result ≡ usage_status → ¬ IsInvocation words.now
        × Appends (K.taken sink.old) (K.taken sink.new) usage_line }
    ensures unread { ¬ IsInvocation words.now → source.new ≡ source.old }

    // `demo N` reads nothing, and what it writes is a function of N.
    ensures demo { (count : ℕ) → IsDemo words.now count → (source.new ≡ source.old)
        × (result < 3 → (result ≡ 0) × Appends (K.taken sink.old) (K.taken sink.new) (demo_text count)) }
    ensures most { TookAtMost (most_bytes + 1) (S.left source.old) (S.left source.new) }
    ensures memory { result ≡ memory_status → IsInvocation words.now × (sink.new ≡ sink.old) }
    ensures fault { result ≡ fault_status →
        ReadFaulted words.now (S.faults source.old) (S.faults source.new) sink.old sink.new
        ⊎ WriteFaulted words.now (S.left source.old) (S.left source.new)
        (K.faults sink.old) (K.faults sink.new) (K.taken sink.old) (K.taken sink.new) }
    ensures pieces { WritesRests words.now (S.left source.old) (S.left source.new) (K.handed sink.old)
        (K.handed sink.new) }
    ensures later { (S.faults source.old ≤ S.faults source.new) × (K.faults sink.old ≤ K.faults sink.new) }

    // Nothing else matters: for the accepted signatures of a request of `log`, `consistency`, `audit` or `witness`, its
    // reply depends only on those that are a signature of one of its checkpoints, over the note, under the log's
    // scheme and key; and of a request of `verify` or `gate` only on those that a link asks for. `questions` lists
    // them; where it writes no list, as that is too long or a link fails whatever is accepted, the same holds.
    ensures suffice { LogQuestionsSuffice × VerifyQuestionsSuffice × ConsistencyQuestionsSuffice
        × AuditQuestionsSuffice × WitnessQuestionsSuffice × GateQuestionsSuffice }

    // A link other than `request` is the first that fails in `questions verify` if and only if it is the first that
    // fails in `verify`, whatever signatures are accepted and whatever the policy says.
    ensures refusals { RefusesForAll }

    // A list that is written can be given back: the request with the list put in as `accepted`, before its last brace
    // or wherever else, has at most 2^24 bytes.
    ensures given_back { ListsAreGivenBack LogQuestions × ListsAreGivenBack VerifyQuestions
        × ListsAreGivenBack ConsistencyQuestions × ListsAreGivenBack AuditQuestions
        × ListsAreGivenBack WitnessQuestions × ListsAreGivenBack GateQuestions }
{
    // Why the lists of `questions` suffice, and can be given back.
    lists();
    let Some(invocation) = Invocation::asked(words) else {
        return finish(sink, USAGE, USAGE_LINE.as_bytes());
    };
    match reply_for(alloc, invocation, source) {
        Ok(reply) => finish(sink, reply.status, reply.text.as_str().as_bytes()),
        Err(NoReply::Failed) => FAULT,
        Err(NoReply::OutOfMemory) => NO_MEMORY,
    }
}

impl Command {
    /// Returns the reply to a request's text. Fails only if out of memory.
    pub fn reply(self, alloc: Global, request: &[u8]) -> Result<Reply, OutOfMemory>
        ensures { IfOk result (IsReply self request.now) }
    {
        match self {
            Command::Log => log_reply(alloc, request),
            Command::Verify => verify_reply(alloc, request),
            Command::Consistency => consistency_reply(alloc, request),
            Command::Audit => audit_reply(alloc, request),
            Command::Witness => witness_reply(alloc, request),
            Command::Gate => gate_reply(alloc, request),
            Command::LogQuestions => log_questions(alloc, request),
            Command::VerifyQuestions => verify_questions(alloc, request),
            Command::ConsistencyQuestions => consistency_questions(alloc, request),
            Command::AuditQuestions => audit_questions(alloc, request),
            Command::WitnessQuestions => witness_questions(alloc, request),
            Command::GateQuestions => gate_questions(alloc, request),
        }
    }
}

/// Writes the text, and returns the status, or that of a fault where a write failed. It takes no memory.
fn finish<K: Sink>(sink: &mut K, status: u8, text: &[u8]) -> u8
    requires { status < memory_status }
    ensures written { result < memory_status → (result ≡ status)
        × Appends (K.taken sink.old) (K.taken sink.new) text.now }
    ensures fault { memory_status ≤ result → (result ≡ fault_status) × Rose (K.faults sink.old) (K.faults sink.new)
        × AppendsFront (K.taken sink.old) (K.taken sink.new) text.now }
    ensures pieces { HandsRests (K.handed sink.old) (K.handed sink.new) text.now }
    ensures later { K.faults sink.old ≤ K.faults sink.new }
{
    match write_reply(sink, text) {
        Ok(()) => status,
        Err(_) => FAULT,
    }
}

/// Returns the reply to what is asked for: a command's to the request that the source has left. For `demo` nothing is
/// read.
#[tactic(auto, using(crate::proofs::Runs::runs))]
fn reply_for<S: Source>(
    alloc: Global,
    invocation: Invocation,
    source: &mut S,
) -> Result<Reply, NoReply>
    requires { HasCount invocation }
    ensures ok { IfOk result (IsReplyOf invocation (S.left source.old) (S.left source.new)) }
    ensures failed { IsErrOf result NoReply.Failed → Rose (S.faults source.old) (S.faults source.new) }
    ensures unread { (count : ℕ) → invocation ≡ Demo count → source.new ≡ source.old }
    ensures most { TookAtMost (most_bytes + 1) (S.left source.old) (S.left source.new) }
    ensures later { S.faults source.old ≤ S.faults source.new }
{
    match invocation {
        Invocation::Reply(command) => match read_request(alloc, source) {
            Ok(text) => Ok(command.reply(alloc, text.as_slice())?),
            Err(ReadFault::TooLong) => Ok(refused(alloc, Link::Request)?),
            Err(ReadFault::Failed) => Err(NoReply::Failed),
            Err(ReadFault::OutOfMemory) => Err(NoReply::OutOfMemory),
        },
        Invocation::Explanation(what) => match read_request(alloc, source) {
            Ok(text) => Ok(explained_reply(alloc, what, text.as_slice())?),
            Err(ReadFault::TooLong) => Ok(long_reply(alloc)?),
            Err(ReadFault::Failed) => Err(NoReply::Failed),
            Err(ReadFault::OutOfMemory) => Err(NoReply::OutOfMemory),
        },
        Invocation::Demo(count) => Ok(demo(alloc, count)?),
    }
}
