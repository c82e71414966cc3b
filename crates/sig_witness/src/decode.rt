//! A witness read from its text.
ghost use Rattle.std.specs.Prelude.{IfOk, IfErr, Result, List, [], ℕ};
ghost use Rattle.sig_base.specs.Answers.{Answers, OrMemory, UnlessMemory};
ghost use Rattle.sig_witness.specs.StateCauses.{IsFirstFault, IsStateAnswer};
ghost use Rattle.sig_witness.specs.StateRead.{AreLogsOf};
ghost use Rattle.sig_witness.specs.declared.kept_log.KeptLog.{KeptLog as Log};
ghost use Rattle.sig_witness.specs.declared.state_error.StateError.{StateError as state_error};

use crate::logs::Logs;
use crate::read_lines::read_log;
use crate::state_error::StateError;
use crate::state_lines::{StateLines, split_lines};
use crate::witness::Witness;
use std::alloc::Global;

impl Witness {
    /// Reads a witness from its text ([`Witness::encode`]). Each origin has one head, without hashes.
    ///
    /// Errors: `Lines`, if the text is not lines in fives, each ended by a newline; else of the first origin with a
    /// fault, and of it the first that applies:
    /// - `Origin`: it is empty, or not above the one before it in byte order;
    /// - `Scheme`: the second line is not the name of a scheme;
    /// - `Key`: the third is not base64;
    /// - `Size`: the fourth is not a number below 2^64 in decimal without leading zeros;
    /// - `Hash`: the fifth is not 32 bytes in base64;
    /// - `Root`: the size is 0, and the hash is not the root of no entries;
    ///
    /// or `OutOfMemory`. The key of an RSA scheme is of any size: it is not in the text.
    pub fn decode(alloc: Global, text: &str) -> Result<Witness, StateError>
        ensures found { UnlessMemory StateError.OutOfMemory result (IsStateAnswer text.now result) }
        ensures only { (answer : Result (List (List ℕ × Log)) state_error) → IsStateAnswer text.now answer
            → Answers StateError.OutOfMemory (λ w. w) result answer }
    {
        let all = split_lines(alloc, text)?;
        let logs = read_logs(alloc, all.as_slice())?;
        Ok(Witness { logs })
    }
}

/// Returns the logs that all lines say. Fails with the first fault, or with `OutOfMemory`.
#[tactic(auto, using(crate::proofs::StateReads::reading))]
fn read_logs(alloc: Global, all: &[StateLines<'_>]) -> Result<Logs, StateError>
    ensures ok { IfOk result (λ logs. AreLogsOf all.now logs) }
    ensures err { IfErr result (λ e. OrMemory StateError.OutOfMemory e (IsFirstFault [] all.now e)) }
{
    let mut logs = Logs::new(alloc);
    let mut before = "".as_bytes();
    'logs: for lines in all {
        let log = read_log(alloc, before, lines)?;
        logs.insert(lines.origin, log)?;
        before = lines.origin.as_bytes();
    }
    Ok(logs)
}
