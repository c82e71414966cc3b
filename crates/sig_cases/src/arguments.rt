//! The arguments of a line.
use crate::decode::{base64_bytes, hex_bytes, hex_lists, percent_text};
use crate::error::CaseError;
use std::alloc::Global;

/// The arguments of a line that are not read yet.
///
/// No call of it fails: an argument that cannot be read is empty or 0, and makes the whole line a `bad line`, whatever
/// the case answers. So a case needs no `?`, which would have to be proved together with all that the case owns there.
#[derive(Drop)]
pub struct Arguments<'a> {
    alloc: Global,
    rest: Option<&'a str>,
    fault: Option<CaseError>,
}

impl<'a> Arguments<'a> {
    /// Cuts a line at its first space: returns what is before it, the name of the call, and the arguments after it.
    pub(crate) fn of_line(alloc: Global, line: &'a str) -> (&'a str, Arguments<'a>) {
        let (call, rest) = match line.split_once(' ') {
            Some((call, rest)) => (call, Some(rest)),
            None => (line, None),
        };
        let fault = None;
        (call, Arguments { alloc, rest, fault })
    }

    /// The allocator, for the calls of a case.
    pub fn alloc(&self) -> Global {
        self.alloc
    }

    /// Whether every argument was read, or one could not be read.
    pub fn is_empty(&self) -> bool {
        self.rest.is_none() || self.fault.is_some()
    }

    /// Makes the output line `bad line`.
    pub fn refuse(&mut self) {
        self.fail(CaseError::BadLine);
    }

    /// Keeps the first fault.
    pub(crate) fn fail(&mut self, fault: CaseError) {
        if self.fault.is_none() {
            self.fault = Some(fault);
        }
    }

    /// Why the line has no answer: the first fault, or arguments that were not read.
    pub(crate) fn fault(&self) -> Option<CaseError> {
        match self.fault {
            Some(fault) => Some(fault),
            None if self.rest.is_some() => Some(CaseError::BadLine),
            None => None,
        }
    }

    /// The rest of the line, which may have spaces, as a JSON text.
    pub fn rest(&mut self) -> &'a str {
        match self.rest.take() {
            Some(rest) => rest,
            None => {
                self.refuse();
                ""
            }
        }
    }

    /// The next argument as it is, up to the next space.
    pub fn word(&mut self) -> &'a str {
        let rest = self.rest();
        match rest.split_once(' ') {
            Some((word, rest)) => {
                self.rest = Some(rest);
                word
            }
            None => rest,
        }
    }

    /// The next argument as bytes in hexadecimal, in either case; `-` is the empty byte string, and `3082+00*65535+ff`
    /// joins parts, where `XX*N` is `N` times the same bytes.
    pub fn hex(&mut self) -> Vec<u8> {
        let read = hex_bytes(self.alloc, shown(self.word()));
        self.or_fail(read, Vec::new(self.alloc))
    }

    /// The value, or an empty one, which makes the output line `bad line`.
    fn or_fail<T>(&mut self, read: Result<T, CaseError>, empty: T) -> T
    where
        T: Drop,
    {
        match read {
            Ok(value) => value,
            Err(fault) => {
                self.fail(fault);
                empty
            }
        }
    }

    /// The next argument as a list of bytes in hexadecimal, separated by commas, each as [`Arguments::hex`] reads it;
    /// `-` is the empty list.
    pub fn hex_list(&mut self) -> Vec<Vec<u8>> {
        let read = hex_lists(self.alloc, self.word());
        self.or_fail(read, Vec::new(self.alloc))
    }

    /// The next argument as bytes in base64, padded; `-` is the empty byte string.
    pub fn base64(&mut self) -> Vec<u8> {
        let read = base64_bytes(self.alloc, shown(self.word()));
        self.or_fail(read, Vec::new(self.alloc))
    }

    /// The next argument as a text in percent-encoding, as `a%20b`; `-` is the empty text.
    pub fn text(&mut self) -> String {
        let read = percent_text(self.alloc, shown(self.word()));
        self.or_fail(read, String::new(self.alloc))
    }

    /// The next argument as an integer in decimal.
    pub fn integer(&mut self) -> i64 {
        match self.word().parse::<i64>() {
            Ok(number) => number,
            Err(_) => {
                self.refuse();
                0
            }
        }
    }

    /// The next argument as a natural number in decimal.
    pub fn natural(&mut self) -> u64 {
        match self.word().parse::<u64>() {
            Ok(number) => number,
            Err(_) => {
                self.refuse();
                0
            }
        }
    }
}

/// Returns the word, or an empty one for `-`.
fn shown(word: &str) -> &str {
    if word == "-" { "" } else { word }
}
