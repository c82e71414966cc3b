//! The iterator over the elements of a content.

use crate::element::{Element, read_element};
use sig_base::DerError;

/// The elements of a content in order, each by `read_element`. It ends where the rest is empty, and after its first
/// error.
#[derive(Clone, Copy, Debug)]
pub struct Children<'a> {
    pub(crate) rest: &'a [u8],
}

impl<'a> Iterator for Children<'a> {
    ghost use Rattle.std.specs.Iterator.{YieldsFirstBy, item_count};
    ghost use Rattle.sig_der.specs.Walks.{item_of, left_of};

    type Item = Result<Element<'a>, DerError>;

    ghost next_gives = { YieldsFirstBy item_of left_of };

    ghost remaining = { item_count left_of };

    fn next(&mut self) -> Option<Result<Element<'a>, DerError>> {
        let (item, rest) = step(self.rest)?;
        self.rest = rest;
        Some(item)
    }
}

ghost use Rattle.std.specs.Prelude.{◌≡◌, [], ◌∷◌, MatchOption};
ghost use Rattle.sig_der.specs.Walks.{item_of};
ghost use Rattle.sig_der.specs.Children.{children_of};

/// Returns the first item and what is left after it: nothing after an error.
fn step(rest: &[u8]) -> Option<(Result<Element<'_>, DerError>, &[u8])>
    ensures { MatchOption result
        (children_of rest.now ≡ [])
        (λ x. children_of rest.now ≡ item_of x.0 ∷ children_of x.1.now) }
{
    if rest.is_empty() {
        return None;
    }
    match read_element(rest) {
        Ok((element, after)) => Some((Ok(element), after)),
        Err(e) => Some((Err(e), &[])),
    }
}
