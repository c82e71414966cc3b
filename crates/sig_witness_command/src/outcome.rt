//! `Outcome`: the outcome of an update, and its line.
//!
//! ```text
//! accepted 2
//! refused old-size 1
//! ```
ghost use Rattle.std.specs.Prelude.{◌≡◌, ◌++◌, IfOk, OnOk, Some, codes, decimal, string_bytes};
ghost use Rattle.std.specs.List.{list_all};
ghost use Rattle.sig_witness_command.specs.Outcome.{IsUpdateError, error_outcome, is_accepted, outcome_line, outcome_lines};

use sig_base::{OutOfMemory, OwnedList, Text};
use sig_witness::WitnessError;
use std::alloc::Global;

/// What became of an update.
#[derive(Clone, Copy)]
pub enum Outcome {
    /// It was taken, and the new head has this size.
    Accepted(u64),
    /// Its text is not a checkpoint.
    Checkpoint,
    /// The checkpoint's origin is not kept.
    Origin,
    /// No signature of the checkpoint is the log's.
    NoteKey,
    /// The old size is not this, the size of the kept head.
    OldSize(u64),
    /// The hashes do not lead from the kept head to the new one.
    Consistency,
    /// The log has as many kept heads as there may be.
    Full,
}

/// Outcomes in order.
pub type Outcomes = OwnedList<Outcome>;

/// What an error of an update makes of it. Fails only if out of memory, where the update was.
pub fn refused(error: WitnessError) -> Result<Outcome, OutOfMemory>
    requires { IsUpdateError error }
    ensures { IfOk result (λ outcome. error_outcome error ≡ Some outcome) }
{
    match error {
        WitnessError::UnknownOrigin => Ok(Outcome::Origin),
        WitnessError::NoteKey => Ok(Outcome::NoteKey),
        WitnessError::OldSize(kept) => Ok(Outcome::OldSize(kept)),
        WitnessError::Consistency(_) => Ok(Outcome::Consistency),
        WitnessError::Full => Ok(Outcome::Full),
        WitnessError::OutOfMemory => Err(OutOfMemory),
        // These two are errors of adding an origin.
        WitnessError::OriginText | WitnessError::OriginKnown => unreachable!(),
    }
}

/// Whether all were taken.
pub fn all_accepted(outcomes: &[Outcome]) -> bool
    ensures { result ≡ list_all is_accepted outcomes.now }
{
    outcomes.iter().all(|outcome| is_accepted(*outcome))
}

/// Whether it was taken.
fn is_accepted(outcome: Outcome) -> bool
    ensures { result ≡ is_accepted outcome }
{
    match outcome {
        Outcome::Accepted(_) => true,
        _ => false,
    }
}

/// Returns the lines of all, in order. Fails only if out of memory.
#[tactic(auto, using(crate::proofs::Outcomes::lines_written))]
pub fn outcome_lines(alloc: Global, outcomes: &[Outcome]) -> Result<Text, OutOfMemory>
    ensures { IfOk result (λ text. text ≡ outcome_lines outcomes.now) }
{
    let mut lines = String::new(alloc);
    'outcomes: for outcome in outcomes {
        push_line(alloc, &mut lines, *outcome)?;
    }
    Ok(Text::from(lines))
}

/// Writes the line of an update after a text. Fails only if out of memory.
fn push_line(alloc: Global, lines: &mut String, outcome: Outcome) -> Result<(), OutOfMemory>
    ensures { OnOk result (string_bytes lines.new ≡ string_bytes lines.old ++ outcome_line outcome) }
{
    match outcome {
        Outcome::Accepted(size) => {
            push_number(alloc, lines, "accepted", size)?;
        }
        Outcome::Checkpoint => lines.push_str("refused checkpoint\n")?,
        Outcome::Origin => lines.push_str("refused origin\n")?,
        Outcome::NoteKey => lines.push_str("refused note-key\n")?,
        Outcome::OldSize(kept) => {
            push_number(alloc, lines, "refused old-size", kept)?;
        }
        Outcome::Consistency => lines.push_str("refused consistency\n")?,
        Outcome::Full => lines.push_str("refused full\n")?,
    }
    Ok(())
}

/// Writes a word and a number as a line after a text. Fails only if out of memory.
fn push_number(
    alloc: Global,
    lines: &mut String,
    word: &str,
    number: u64,
) -> Result<(), OutOfMemory>
    ensures { OnOk result (string_bytes lines.new ≡ string_bytes lines.old
        ++ (word.now ++ (codes " " ++ (decimal number ++ codes "\n")))) }
{
    let line = format!(in alloc; "{word} {number}\n")?;
    lines.push_str(line.as_str())?;
    Ok(())
}
