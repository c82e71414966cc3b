//! `StringVerifier`: which texts are accepted.

ghost use Rattle.std.specs.Prelude.{◌≡◌, IfOk};
ghost use Rattle.sig_constraint.specs.Texts.{accepts};

use regex::Regex;
use sig_base::{OutOfMemory, Text};
use std::alloc::Global;
use std::fmt;

/// Which texts are accepted: one text, or those in which a pattern has a match.
#[derive(Drop)]
pub enum StringVerifier {
    /// Only this text.
    ExactMatch(Text),
    /// The texts in which the pattern has a match, anywhere: `^` and `$` tie it to the ends. What the pattern means is
    /// that of `regex`.
    Regex(Regex),
}

impl StringVerifier {
    /// Whether the text is accepted. Fails only if out of memory.
    pub(crate) fn accepts(&self, alloc: Global, text: &str) -> Result<bool, OutOfMemory>
        ensures { IfOk result (λ b. b ≡ accepts self.now text.now) }
    {
        match self {
            StringVerifier::ExactMatch(exact) => Ok(text == exact.as_str()),
            StringVerifier::Regex(pattern) => {
                let mut matcher = pattern.matcher(alloc)?;
                Ok(matcher.is_match(text))
            }
        }
    }
}

impl fmt::Display for StringVerifier {
    fn fmt<W: fmt::Write>(&self, f: &mut fmt::Formatter<W>) -> fmt::Result {
        match self {
            StringVerifier::ExactMatch(text) => {
                f.write_str("is exactly ")?;
                f.write_str(text.as_str())
            }
            StringVerifier::Regex(pattern) => {
                f.write_str("matches regular expression ")?;
                f.write_str(pattern.as_str())
            }
        }
    }
}
