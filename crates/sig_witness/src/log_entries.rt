//! `LogEntries`: a walk over the origins of a witness and what is kept of their logs.
ghost use Rattle.std.specs.Prelude.{length};
ghost use Rattle.std.specs.Iterator.{at_most};
ghost use Rattle.std.specs.Map.Iter.{TakesFirst, deref_pair};

use crate::kept_log::KeptLog;
use std::collections::btree_map::Iter;
use std::marker::Model;

/// The entries of a map in byte order of their origins. Contracts see the list of those that are left.
#[derive(Drop)]
pub struct LogEntries<'a> {
    pub(crate) inner: Iter<'a, String, KeptLog>,
}

impl<'a> Model for LogEntries<'a> {
    ghost use Rattle.std.specs.Prelude.{ℕ, List};
    ghost use Rattle.sig_base.specs.ByText.{text_entries};
    ghost use Rattle.sig_witness.specs.declared.kept_log.KeptLog.{KeptLog};

    ghost Value = { List (List ℕ × KeptLog) };

    ghost view = { λ e. text_entries e.inner };
}

impl<'a> Iterator for LogEntries<'a> {
    type Item = (&'a str, &'a KeptLog);

    ghost next_gives = { TakesFirst deref_pair };

    ghost remaining = { λ s. at_most (length s) };

    fn next(&mut self) -> Option<(&'a str, &'a KeptLog)> {
        match self.inner.next() {
            Some((key, value)) => Some((key.as_str(), value)),
            None => None,
        }
    }
}
