//! `CopyMapEntries`: a walk over the entries of a `CopyMap`.
ghost use Rattle.std.specs.Prelude.{length};
ghost use Rattle.std.specs.Iterator.{at_most};
ghost use Rattle.std.specs.Map.Iter.{TakesFirst};

use crate::by_text_entries::ByTextEntries;
use crate::owned::Owned;
use std::marker::Model;

/// The entries of a `CopyMap` in byte order of their texts. Contracts see the list of those that are left.
#[derive(Drop)]
pub struct CopyMapEntries<'a, V> {
    pub(crate) inner: ByTextEntries<'a, V>,
}

impl<'a, V> Model for CopyMapEntries<'a, V> {
    ghost use Rattle.std.specs.Prelude.{ℕ, List};
    ghost use Rattle.std.specs.Coded.{coded_list, coded×, coded_ℕ};

    ghost Value = { List (List ℕ × V) };

    ghost coded = { coded_list (coded× (coded_list coded_ℕ) V.code) };

    ghost view = { λ e. e.inner };
}

impl<'a, V: Owned<'a>> Iterator for CopyMapEntries<'a, V> {
    type Item = (&'a str, V::Borrowed);

    ghost next_gives = { TakesFirst (λ e. (e.0.now, V.owned e.1)) };

    ghost remaining = { λ s. at_most (length s) };

    fn next(&mut self) -> Option<(&'a str, V::Borrowed)> {
        match self.inner.next() {
            Some((key, value)) => Some((key, value.lend())),
            None => None,
        }
    }
}
