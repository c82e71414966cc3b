//! The commands whose replies `explain` explains.
ghost use Rattle.std.specs.Prelude.{MatchOption};
ghost use Rattle.sig_program.specs.ExplainWords.{IsExplain, NamesExplained};

use sig_base::Text;

/// A command whose reply is explained.
#[derive(Clone, Copy)]
pub enum Explained {
    /// `explain log`.
    Log,
    /// `explain verify`.
    Verify,
    /// `explain consistency`.
    Consistency,
    /// `explain audit`.
    Audit,
    /// `explain witness`.
    Witness,
    /// `explain gate`.
    Gate,
}

impl Explained {
    /// Returns the command after the word `explain`; `None` if and only if the words are not `explain` and a command
    /// that is explained. It takes no memory.
    #[tactic(auto, using(crate::proofs::CommandNames::naming, crate::proofs::Invocations::explaining))]
    pub fn named(words: &[Text]) -> Option<Explained>
        ensures { MatchOption result (¬ IsExplain words.now) (NamesExplained words.now) }
    {
        match words {
            [first, second] => match (first.as_str(), second.as_str()) {
                ("explain", "log") => Some(Explained::Log),
                ("explain", "verify") => Some(Explained::Verify),
                ("explain", "consistency") => Some(Explained::Consistency),
                ("explain", "audit") => Some(Explained::Audit),
                ("explain", "witness") => Some(Explained::Witness),
                ("explain", "gate") => Some(Explained::Gate),
                _ => None,
            },
            _ => None,
        }
    }
}
