//! The commands and their explanations by their numbers.
ghost use Rattle.std.specs.Prelude.{◌≡◌, IfOk, MatchOption};
ghost use Rattle.sigverify_c.specs.Answer.{IsReplyOf};
ghost use Rattle.sigverify_c.specs.Number.{HasNumber, IsNumber};

use sig_base::OutOfMemory;
use sig_program::command::Command;
use sig_program::explain::explained_reply;
use sig_program::explained::Explained;
use sig_reply::Reply;
use std::alloc::Global;

/// What has a number: a command, or the explanation of one.
#[derive(Clone, Copy)]
pub enum Numbered {
    Command(Command),
    Explanation(Explained),
}

impl Numbered {
    /// Returns what has the number; `None` if and only if no command has it. It takes no memory.
    #[tactic(auto, using(crate::proofs::Numbers::numbers))]
    pub fn of(number: u32) -> Option<Numbered>
        ensures { MatchOption result (¬ IsNumber number) (HasNumber number) }
    {
        match number {
            1 => Some(Numbered::Command(Command::Log)),
            2 => Some(Numbered::Command(Command::Verify)),
            3 => Some(Numbered::Command(Command::Consistency)),
            4 => Some(Numbered::Command(Command::Audit)),
            5 => Some(Numbered::Command(Command::Witness)),
            6 => Some(Numbered::Command(Command::Gate)),
            257 => Some(Numbered::Command(Command::LogQuestions)),
            258 => Some(Numbered::Command(Command::VerifyQuestions)),
            259 => Some(Numbered::Command(Command::ConsistencyQuestions)),
            260 => Some(Numbered::Command(Command::AuditQuestions)),
            261 => Some(Numbered::Command(Command::WitnessQuestions)),
            262 => Some(Numbered::Command(Command::GateQuestions)),
            513 => Some(Numbered::Explanation(Explained::Log)),
            514 => Some(Numbered::Explanation(Explained::Verify)),
            515 => Some(Numbered::Explanation(Explained::Consistency)),
            516 => Some(Numbered::Explanation(Explained::Audit)),
            517 => Some(Numbered::Explanation(Explained::Witness)),
            518 => Some(Numbered::Explanation(Explained::Gate)),
            _ => None,
        }
    }

    /// Returns its reply to a request. Fails only if out of memory.
    pub fn reply(self, alloc: Global, request: &[u8]) -> Result<Reply, OutOfMemory>
        ensures { IfOk result (IsReplyOf self request.now) }
    {
        match self {
            Numbered::Command(command) => command.reply(alloc, request),
            Numbered::Explanation(what) => explained_reply(alloc, what, request),
        }
    }
}
