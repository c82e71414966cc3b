//! What the words of the command line ask for.
ghost use Rattle.std.specs.Prelude.{◌≡◌, ℕ, MatchOption};
ghost use Rattle.sig_program.specs.Invocation.{IsCountWord, IsDemo, IsInvocation, IsNeither, Invokes};

use crate::command::Command;
use crate::explained::Explained;
use itoa::Buffer;
use sig_base::Text;
use sig_demo::MOST_ENTRIES;

/// What the words ask the program to do.
#[derive(Clone, Copy)]
pub enum Invocation {
    /// The reply to a request.
    Reply(Command),
    /// The reply to a request, and why.
    Explanation(Explained),
    /// `demo N`: `log` on a generated log of N entries.
    Demo(u64),
}

impl Invocation {
    /// Returns what the words ask for; `None` if and only if they do not ask for anything. It takes no memory.
    #[tactic(auto, using(crate::proofs::Invocations::invocations))]
    pub fn asked(words: &[Text]) -> Option<Invocation>
        ensures { MatchOption result (¬ IsInvocation words.now) (Invokes words.now) }
    {
        match Command::named(words) {
            Some(command) => Some(Invocation::Reply(command)),
            None => explanation_or_demo(words),
        }
    }
}

/// Returns what words that do not name a command ask for; `None` if and only if that is neither an explanation nor
/// `demo`. It takes no memory.
#[tactic(auto, using(crate::proofs::Invocations::invocations))]
fn explanation_or_demo(words: &[Text]) -> Option<Invocation>
    ensures { MatchOption result (IsNeither words.now) (Invokes words.now) }
{
    match Explained::named(words) {
        Some(what) => Some(Invocation::Explanation(what)),
        None => match demo_count(words) {
            Some(count) => Some(Invocation::Demo(count)),
            None => None,
        },
    }
}

/// Returns the number of entries for `demo`; `None` if and only if the words are not `demo` and a number from 1 to
/// 4096. It takes no memory.
#[tactic(auto, using(crate::proofs::Invocations::invocations, crate::proofs::CommandNames::naming))]
fn demo_count(words: &[Text]) -> Option<u64>
    ensures { MatchOption result ((count : ℕ) → ¬ IsDemo words.now count) (IsDemo words.now) }
{
    match words {
        [first, second] => match first.as_str() {
            "demo" => count_in(second.as_str()),
            _ => None,
        },
        _ => None,
    }
}

/// The number from 1 to 4096 that a word is in decimal digits, without a sign and without leading zeros. It takes no
/// memory.
fn count_in(word: &str) -> Option<u64>
    ensures { MatchOption result ((count : ℕ) → ¬ IsCountWord word.now count) (IsCountWord word.now) }
{
    let Ok(count) = word.parse::<u64>() else {
        return None;
    };
    if count == 0 {
        return None;
    }
    if count > MOST_ENTRIES {
        return None;
    }
    if Buffer::new().format(count) != word {
        return None;
    }
    Some(count)
}
