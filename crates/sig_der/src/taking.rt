//! Elements from the front of bytes, for readers that do not say why one is missing.

ghost use Rattle.std.specs.Prelude.{◌≡◌, option_map};
ghost use Rattle.sig_der.specs.BorrowedElements.{piece_of, front_of};
ghost use Rattle.sig_der.specs.FrontReaders.{take_any, take_tag, take_whole};

use crate::element::{Element, read_element};

/// Returns the element at the front of the bytes, and what follows it. `None` if the bytes do not begin with an
/// element.
#[tactic(auto, using(crate::proofs::Takings::take_any_ok, crate::proofs::Takings::take_any_err))]
pub fn take_any(bytes: &[u8]) -> Option<(Element<'_>, &[u8])>
    ensures { take_any bytes.now ≡ option_map front_of result }
{
    match read_element(bytes) {
        Ok(front) => Some(front),
        Err(_) => None,
    }
}

/// Returns the element of this tag at the front of the bytes, and what follows it. `None` if the bytes do not begin
/// with one.
#[tactic(auto, unfolding(crate::specs::FrontReaders::take_tag))]
pub fn take_tag(bytes: &[u8], tag: u8) -> Option<(Element<'_>, &[u8])>
    ensures { take_tag tag bytes.now ≡ option_map front_of result }
{
    let (element, rest) = take_any(bytes)?;
    if element.tag == tag {
        Some((element, rest))
    } else {
        None
    }
}

/// Returns the element of this tag that the bytes are. `None` if they are not one, or bytes follow it.
#[tactic(auto, unfolding(crate::specs::FrontReaders::take_whole))]
pub fn take_whole(bytes: &[u8], tag: u8) -> Option<Element<'_>>
    ensures { take_whole tag bytes.now ≡ option_map piece_of result }
{
    let (element, rest) = take_tag(bytes, tag)?;
    if rest.is_empty() { Some(element) } else { None }
}
