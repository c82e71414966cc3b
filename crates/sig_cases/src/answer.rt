//! The line that is written for a case.
use base64::engine::general_purpose::STANDARD;
use sig_base::{Collision, OutOfMemory};
use std::alloc::Global;
use std::fmt::{Debug, Display, Write};

/// The line that is written for a case: items, one space between two of them.
///
/// No call of it fails: it records that memory ran out, and ends the program after the case. So a case needs no `?`,
/// which would have to be proved together with all that the case owns there.
#[derive(Drop)]
pub struct Answer {
    alloc: Global,
    text: String,
    is_out_of_memory: bool,
}

impl Answer {
    /// A line without items.
    pub fn new(alloc: Global) -> Answer {
        Answer {
            alloc,
            text: String::new(alloc),
            is_out_of_memory: false,
        }
    }

    /// Adds `ok`, to which the values of the result are added.
    pub fn ok(&mut self) {
        self.value(&"ok");
    }

    /// Adds a value as it prints.
    pub fn value<T: Display>(&mut self, value: &T) {
        let between = if self.text.is_empty() { "" } else { " " };
        if write!(self.text, "{between}{value}").is_err() {
            self.is_out_of_memory = true;
        }
    }

    /// Adds a value by its Debug text: of a `str` or a `String` in quotation marks and with escapes.
    pub fn debug<T: Debug>(&mut self, value: &T) {
        let between = if self.text.is_empty() { "" } else { " " };
        if write!(self.text, "{between}{value:?}").is_err() {
            self.is_out_of_memory = true;
        }
    }

    /// Adds bytes in lower-case hexadecimal; `-` for no bytes.
    pub fn hex(&mut self, bytes: &[u8]) {
        if bytes.is_empty() {
            return self.value(&"-");
        }
        match hex::encode(self.alloc, bytes) {
            Ok(written) => self.value(&written),
            Err(_) => self.is_out_of_memory = true,
        }
    }

    /// Adds bytes in base64; `-` for no bytes.
    pub fn base64(&mut self, bytes: &[u8]) {
        if bytes.is_empty() {
            return self.value(&"-");
        }
        match STANDARD.encode(self.alloc, bytes) {
            Ok(written) => self.value(&written),
            Err(_) => self.is_out_of_memory = true,
        }
    }

    /// Adds what an extractor of collisions returned: `none`, or the two byte strings in hexadecimal.
    pub fn collision(&mut self, found: Result<Option<Collision>, OutOfMemory>) {
        match found {
            Ok(None) => self.value(&"none"),
            Ok(Some(found)) => {
                self.hex(found.left.as_slice());
                self.hex(found.right.as_slice());
                drop(found);
            }
            Err(_) => self.out_of_memory(),
        }
    }

    /// Adds the error that a call returned, as [`Answer::shown`] does. `OutOfMemory` ends the program. The error is
    /// taken by value, so that no case has to prove how it is dropped.
    pub fn error<E: Debug + Display + Drop>(&mut self, error: E) {
        self.shown(&error);
        if self.text.as_str().ends_with("OutOfMemory") {
            self.is_out_of_memory = true;
        }
    }

    /// Adds an error, by its Debug text. Its Display text has to be the name of its variant, with which the Debug text
    /// begins; a different one follows in brackets.
    pub fn shown<E: Debug + Display>(&mut self, error: &E) {
        let before = self.text.len();
        self.debug(error);
        self.name(error, before);
    }

    /// Adds each of these errors, as [`Answer::shown`] does.
    pub fn each_shown<E: Debug + Display>(&mut self, errors: &[E]) {
        for error in errors {
            self.shown(error);
        }
    }

    /// Adds the Display text of an error in brackets, unless the text after `before` begins with this name.
    fn name<E: Display>(&mut self, error: &E, before: usize) {
        match format!(in self.alloc; "{error}") {
            Ok(name) => {
                if !begins_with_name(self.text.as_str(), before, name.as_str()) {
                    self.value(&"[");
                    self.value(&name);
                    self.value(&"]");
                }
            }
            Err(_) => self.is_out_of_memory = true,
        }
    }

    /// Makes the output line `bad line`.
    pub(crate) fn refuse(&mut self) {
        self.text.clear();
        self.value(&"bad line");
    }

    /// Ends the program after the case. For a call that fails only if out of memory.
    pub fn out_of_memory(&mut self) {
        self.is_out_of_memory = true;
    }

    /// The line. `None` if memory ran out.
    pub fn line(&self) -> Option<&str> {
        if self.is_out_of_memory {
            None
        } else {
            Some(self.text.as_str())
        }
    }
}

/// Whether the Debug text of a variant, after `before`, begins with this name.
fn begins_with_name(text: &str, before: usize, name: &str) -> bool {
    let debug = match text.get(before..) {
        Some(debug) => debug.trim_start(),
        None => "",
    };
    match debug.strip_prefix(name) {
        Some(rest) => rest.is_empty() || rest.starts_with('(') || rest.starts_with(' '),
        None => false,
    }
}
