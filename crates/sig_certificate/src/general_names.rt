//! The names of a subject alternative name, one after another: RFC 5280 section 4.2.1.6, where
//! `SubjectAltName ::= SEQUENCE OF GeneralName`.

use crate::general_name::{GeneralName, name_at};
use sig_der::{tag, take_whole};

/// The names of a subject alternative name in order, borrowed from its value.
#[derive(Clone, Copy, Debug)]
pub struct AlternativeNames<'a> {
    rest: &'a [u8],
}

impl<'a> Iterator for AlternativeNames<'a> {
    ghost use Rattle.std.specs.Iterator.{YieldsFirstBy, item_count};
    ghost use Rattle.sig_certificate.specs.BorrowedNames.{borrowed_name, names_left};

    type Item = GeneralName<'a>;

    ghost next_gives = { YieldsFirstBy borrowed_name names_left };

    ghost remaining = { item_count names_left };

    fn next(&mut self) -> Option<GeneralName<'a>> {
        let (name, rest) = step(self.rest)?;
        self.rest = rest;
        Some(name)
    }
}

ghost use Rattle.std.specs.Prelude.{◌≡◌, [], ◌∷◌, MatchOption, is_some, option_map};
ghost use Rattle.sig_der.specs.FrontReaders.{many_at};
ghost use Rattle.sig_certificate.specs.BorrowedNames.{borrowed_name, front_names, names_left};
ghost use Rattle.sig_certificate.specs.Names.{name_at, general_names_of};

/// The first name, and what follows it.
fn step(rest: &[u8]) -> Option<(GeneralName<'_>, &[u8])>
    ensures { MatchOption result
        (front_names rest.now ≡ [])
        (λ x. front_names rest.now ≡ borrowed_name x.0 ∷ front_names x.1.now) }
{
    // The law of the names at the front differs in each arm.
    match name_at(rest) {
        None => None,
        Some((name, after)) => Some((name, after)),
    }
}

/// Returns the names of the subject alternative name of this value. `None` if the value is not a SEQUENCE of names and
/// nothing else.
#[tactic(auto, unfolding(crate::specs::Names::general_names_of), using(crate::proofs::FrontNames::are_names))]
pub fn alternative_names(value: &[u8]) -> Option<AlternativeNames<'_>>
    ensures { general_names_of value.now ≡ option_map names_left result }
{
    let sequence = take_whole(value, tag::SEQUENCE)?;
    if are_names(sequence.content) {
        Some(AlternativeNames {
            rest: sequence.content,
        })
    } else {
        None
    }
}

/// Whether the bytes are names one after another, and nothing else.
fn are_names(bytes: &[u8]) -> bool
    ensures { is_some (many_at name_at bytes.now) ≡ result }
{
    let mut rest = bytes;
    while !rest.is_empty() {
        match name_at(rest) {
            None => return false,
            Some((_, after)) => rest = after,
        }
    }
    true
}
