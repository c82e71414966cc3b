//! The loop over the lines.
use crate::answer::Answer;
use crate::arguments::Arguments;
use crate::error::CaseError;
use anyhow::Result;
use std::alloc::Global;
use std::io::{self, BufRead, BufReader, BufWriter, Write};

/// A program of cases: what it returns for a line.
pub trait Cases {
    /// Calls what `call` names on the arguments, and writes what it returns. The line is a `bad line` if there is no
    /// such call.
    fn answer(call: &str, arguments: &mut Arguments<'_>, answer: &mut Answer);
}

/// Writes a line for each line of standard input, to its end. Fails if out of memory, or if a stream fails.
pub fn run<C: Cases>(rt: &HostRuntime) -> Result<()> {
    let alloc = rt.alloc();
    let mut written = BufWriter::new(alloc, io::writer(rt))?;
    for line in BufReader::new(alloc, rt.reader())?.lines(alloc) {
        let line = line?;
        let answer = answer_to::<C>(alloc, line.as_str());
        writeln!(written, "{}", text_of(&answer)?)?;
    }
    written.flush()?;
    Ok(())
}

/// Returns the output line for an input line.
fn answer_to<C: Cases>(alloc: Global, line: &str) -> Answer {
    let mut answer = Answer::new(alloc);
    if is_comment(line) {
        answer.value(&line);
        return answer;
    }
    let (call, mut arguments) = Arguments::of_line(alloc, line);
    C::answer(call, &mut arguments, &mut answer);
    match arguments.fault() {
        Some(CaseError::BadLine) => answer.refuse(),
        Some(CaseError::OutOfMemory) => answer.out_of_memory(),
        None => {}
    }
    answer
}

/// Whether a line is not a case: an empty one, or one that begins with `#`.
fn is_comment(line: &str) -> bool {
    line.is_empty() || line.starts_with('#')
}

/// The line. Fails if out of memory.
fn text_of(answer: &Answer) -> Result<&str, CaseError> {
    answer.line().ok_or(CaseError::OutOfMemory)
}
