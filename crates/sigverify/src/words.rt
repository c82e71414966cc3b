//! The words that the program was called with.
use sig_base::Text;
use std::alloc::AllocFailed;
use std::rt::Env;
use std::{env, io};

/// Why there are no words.
#[derive(Clone, Copy)]
pub enum WordsFault {
    /// A word is not UTF-8.
    NotText,
    /// Out of memory.
    OutOfMemory,
}

impl From<io::Error> for WordsFault {
    fn from(error: io::Error) -> WordsFault {
        match error.kind() {
            io::ErrorKind::OutOfMemory => WordsFault::OutOfMemory,
            _ => WordsFault::NotText,
        }
    }
}

impl From<AllocFailed<Text>> for WordsFault {
    fn from(_error: AllocFailed<Text>) -> WordsFault {
        WordsFault::OutOfMemory
    }
}

/// The words without the program's name.
pub fn words_of<R: Env + AllocGlobal>(rt: &R) -> Result<Vec<Text>, WordsFault> {
    let mut words = Vec::new(rt.alloc());
    for word in env::args(rt)?.skip(1) {
        words.push(Text::from(word))?;
    }
    Ok(words)
}
