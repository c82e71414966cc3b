//! `ByTextEntries`: a walk over the entries of a map from texts.
ghost use Rattle.std.specs.Prelude.{length};
ghost use Rattle.std.specs.Iterator.{at_most};
ghost use Rattle.std.specs.Map.Iter.{TakesFirst, deref_pair};

use std::collections::btree_map::Iter;
use std::marker::Model;

/// The entries of a map in byte order of their texts. Contracts see the list of those that are left.
#[derive(Drop)]
pub struct ByTextEntries<'a, V> {
    pub(crate) inner: Iter<'a, String, V>,
}

impl<'a, V> Model for ByTextEntries<'a, V> {
    ghost use Rattle.std.specs.Prelude.{ℕ, List};
    ghost use Rattle.std.specs.Coded.{coded_list, coded×, coded_ℕ};
    ghost use Rattle.sig_base.specs.ByText.{text_entries};

    ghost Value = { List (List ℕ × V) };

    ghost coded = { coded_list (coded× (coded_list coded_ℕ) V.code) };

    ghost view = { λ e. text_entries e.inner };
}

impl<'a, V> Iterator for ByTextEntries<'a, V> {
    type Item = (&'a str, &'a V);

    ghost next_gives = { TakesFirst deref_pair };

    ghost remaining = { λ s. at_most (length s) };

    fn next(&mut self) -> Option<(&'a str, &'a V)> {
        match self.inner.next() {
            Some((key, value)) => Some((key.as_str(), value)),
            None => None,
        }
    }
}
