//! `SubjectDigests`: a walk over the digests of subjects.
ghost use Rattle.std.specs.Prelude.{◌≡◌, length};
ghost use Rattle.std.specs.Iterator.{at_most};
ghost use Rattle.std.specs.Map.Iter.{TakesFirst};

use crate::statement::Subject;
use sig_base::TextMap;
use std::marker::Model;

/// The digests of each subject, in the order of the subjects. Contracts see the list of those that are left.
#[derive(Drop)]
pub struct SubjectDigests<'a> {
    pub(crate) left: Left<'a>,
}

/// What a walk has left.
#[derive(Drop)]
pub(crate) enum Left<'a> {
    /// Subjects, each with its digests.
    Subjects(&'a [Subject]),
    /// Only the digests of each subject.
    Maps(&'a [TextMap]),
}

impl<'a> Model for SubjectDigests<'a> {
    ghost use Rattle.std.specs.Prelude.{List, ℕ};
    ghost use Rattle.sig_dsse.specs.DigestsAlone.{maps_left};

    ghost Value = { List (List (List ℕ × List ℕ)) };

    ghost view = { λ s. maps_left s.left };
}

impl SubjectDigests<'_> {
    /// How many subjects are left.
    pub(crate) fn len(&self) -> usize
        ensures { result ≡ length self.now }
    {
        match self.left {
            Left::Subjects(subjects) => subjects.len(),
            Left::Maps(maps) => maps.len(),
        }
    }
}

impl<'a> Iterator for SubjectDigests<'a> {
    type Item = &'a TextMap;

    ghost next_gives = { TakesFirst (λ digest. digest.now) };

    ghost remaining = { λ s. at_most (length s) };

    fn next(&mut self) -> Option<&'a TextMap> {
        match self.left {
            Left::Subjects(subjects) => {
                let (first, rest) = subjects.split_first()?;
                self.left = Left::Subjects(rest);
                Some(&first.digest)
            }
            Left::Maps(maps) => {
                let (first, rest) = maps.split_first()?;
                self.left = Left::Maps(rest);
                Some(first)
            }
        }
    }
}
