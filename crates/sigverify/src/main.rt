//! `sigverify`: decides without a network whether a signed artifact may be trusted.
//!
//! [`run`] of sig_program is the program, and its contract the promise of this project; `main` gives it the words and
//! the standard streams, and answers `--help` and `--version` itself.
#![tactic(auto)]

mod calls;
mod help;
mod std_stream;
mod words;

use help::answer_of;
use sig_program::run::{FAULT, NO_MEMORY, USAGE, run};
use std::process::ExitCode;
use std_stream::{StdSink, StdSource};
use words::{WordsFault, words_of};

/// Where a word that names no command may look further.
const HINT: &str = "try 'sigverify --help'";

fn main(rt: HostRuntime) -> ExitCode {
    let words = match words_of(&rt) {
        Ok(words) => words,
        // Words that are not a text are not a command.
        Err(WordsFault::NotText) => Vec::new(rt.alloc()),
        Err(WordsFault::OutOfMemory) => return ExitCode::from(NO_MEMORY),
    };
    if let Some(text) = answer_of(words.as_slice()) {
        return ExitCode::from(match rt.print(text) {
            Ok(()) => 0,
            Err(_) => FAULT,
        });
    }
    let status = run(
        rt.alloc(),
        words.as_slice(),
        &mut StdSource::new(rt.stdin()),
        &mut StdSink::new(rt.stdout()),
    );
    if status == USAGE {
        // The status is the same where the hint could not be written.
        let _ = rt.eprintln(HINT);
    }
    ExitCode::from(status)
}
