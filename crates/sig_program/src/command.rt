//! The commands of the program.
ghost use Rattle.std.specs.Prelude.{MatchOption};
ghost use Rattle.sig_program.specs.Command.{IsCommand, Names};

use sig_base::Text;

/// A command: what the program does with a request.
#[derive(Clone, Copy, PartialEq, Eq)]
pub enum Command {
    /// `log`: is this entry in the log, and does the log vouch for it?
    Log,
    /// `verify`: may this artifact be trusted, by this bundle?
    Verify,
    /// `consistency`: does the log still have the entries that it had?
    Consistency,
    /// `audit`: are these heads of one log over time, and are these entries in it?
    Audit,
    /// `witness`: which of these heads have grown from those that are kept?
    Witness,
    /// `gate`: which of these artifacts are to be admitted?
    Gate,
    /// `questions log`: which signatures can the reply of `log` depend on?
    LogQuestions,
    /// `questions verify`: which signatures can the reply of `verify` depend on?
    VerifyQuestions,
    /// `questions consistency`: which signatures can the reply of `consistency` depend on?
    ConsistencyQuestions,
    /// `questions audit`: which signatures can the reply of `audit` depend on?
    AuditQuestions,
    /// `questions witness`: which signatures can the reply of `witness` depend on?
    WitnessQuestions,
    /// `questions gate`: which signatures can the reply of `gate` depend on?
    GateQuestions,
}

impl Command {
    /// Returns the command that the words name; `None` if and only if they do not name one. It takes no memory.
    #[tactic(auto, using(crate::proofs::CommandNames::naming))]
    pub fn named(words: &[Text]) -> Option<Command>
        ensures { MatchOption result (¬ IsCommand words.now) (Names words.now) }
    {
        match words {
            [word] => match word.as_str() {
                "log" => Some(Command::Log),
                "verify" => Some(Command::Verify),
                "consistency" => Some(Command::Consistency),
                "audit" => Some(Command::Audit),
                "witness" => Some(Command::Witness),
                "gate" => Some(Command::Gate),
                _ => None,
            },
            [first, second] => match (first.as_str(), second.as_str()) {
                ("questions", "log") => Some(Command::LogQuestions),
                ("questions", "verify") => Some(Command::VerifyQuestions),
                ("questions", "consistency") => Some(Command::ConsistencyQuestions),
                ("questions", "audit") => Some(Command::AuditQuestions),
                ("questions", "witness") => Some(Command::WitnessQuestions),
                ("questions", "gate") => Some(Command::GateQuestions),
                _ => None,
            },
            _ => None,
        }
    }
}
