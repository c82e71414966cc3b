//! One element: X.690 section 8.1.1.

ghost use Rattle.std.specs.Prelude.{◌≡◌, ◌↔◌, ℕ, List, Ok, IfOk, IfErr, IsErrOf};
ghost use Rattle.sig_der.specs.Element.{IsElement, StandsFirst, IsFollowed, IsOfAnother};
ghost use Rattle.sig_der.specs.Faults.{HasLongTag, HasBadLength, IsCutElement};
ghost use Rattle.sig_der.specs.Reading.{Gives, Piece, element_at, all_at, fault_of};
ghost use Rattle.sig_der.specs.BorrowedElements.{piece_of, front_of};

use crate::length::read_length;
use sig_base::DerError;

/// An element, borrowed from the bytes that it was read from.
#[derive(Clone, Copy, Debug)]
pub struct Element<'a> {
    /// The identifier octet.
    pub tag: u8,
    /// The whole element: identifier, length and contents.
    pub whole: &'a [u8],
    /// The contents octets.
    pub content: &'a [u8],
}

/// Reads the element at the front of the bytes, and returns it with what follows it.
///
/// Fails with the first of
/// - `LongTag` if the low five bits of the tag are all ones;
/// - `Length` if the length is indefinite, has more than four bytes after the first, or is not in the fewest bytes;
/// - `Truncated` if bytes are missing.
pub fn read_element(bytes: &[u8]) -> Result<(Element<'_>, &[u8]), DerError>
    // What is returned is at the front.
    ensures found { IfOk result (λ x. StandsFirst x.0.whole.now x.0.tag x.0.content.now x.1.now bytes.now) }
    // What is at the front is returned.
    ensures only { (whole content rest : List ℕ) (tag : ℕ) → StandsFirst whole tag content rest bytes.now
        → Gives front_of result (Ok (record { tag = tag; whole = whole; content = content }, rest)) }
    // Which fault it is.
    ensures fault { IfErr result (λ e. e ≡ fault_of bytes.now) }
    ensures long_tag { IsErrOf result DerError.LongTag ↔ HasLongTag bytes.now }
    ensures bad_length { IsErrOf result DerError.Length ↔ HasBadLength bytes.now }
    ensures truncated { IsErrOf result DerError.Truncated ↔ IsCutElement bytes.now }
    // The result is that of the plain reader.
    ensures exact { Gives front_of result (element_at bytes.now) }
{
    cut(bytes)
}

#[tactic(auto, unfolding(crate::specs::Reading::element_at))]
fn cut(bytes: &[u8]) -> Result<(Element<'_>, &[u8]), DerError>
    ensures { Gives front_of result (element_at bytes.now) }
{
    let (tag, after) = match bytes {
        [] => return Err(DerError::Truncated),
        [tag, after @ ..] => (*tag, after),
    };
    if tag % 32 == 31 {
        return Err(DerError::LongTag);
    }
    let (len, rest) = read_length(after)?;
    if rest.len() < len {
        return Err(DerError::Truncated);
    }
    let (content, rest) = rest.split_at(len);
    let (whole, _) = bytes.split_at(bytes.len() - rest.len());
    Ok((
        Element {
            tag,
            whole,
            content,
        },
        rest,
    ))
}

/// Reads the one element of this tag that the bytes are.
///
/// Fails as `read_element` does; then with `Trailing` if bytes follow the element; then with `WrongTag` if it has
/// another tag.
pub fn read_all(bytes: &[u8], tag: u8) -> Result<Element<'_>, DerError>
    // What is returned is all of the bytes.
    ensures found { IfOk result
        (λ e. IsElement bytes.now tag e.content.now × (e.whole.now ≡ bytes.now) × (e.tag ≡ tag)) }
    // An element of the tag is returned.
    ensures only { (content : List ℕ) → IsElement bytes.now tag content
        → Gives piece_of result (Ok (record { tag = tag; whole = bytes.now; content = content })) }
    ensures long_tag { IsErrOf result DerError.LongTag ↔ HasLongTag bytes.now }
    ensures bad_length { IsErrOf result DerError.Length ↔ HasBadLength bytes.now }
    ensures truncated { IsErrOf result DerError.Truncated ↔ IsCutElement bytes.now }
    ensures trailing { IsErrOf result DerError.Trailing ↔ IsFollowed bytes.now }
    ensures wrong_tag { IsErrOf result DerError.WrongTag ↔ IsOfAnother tag bytes.now }
    // The result is that of the plain reader.
    ensures exact { Gives piece_of result (all_at tag bytes.now) }
{
    cut_all(bytes, tag)
}

#[tactic(auto, unfolding(crate::specs::Reading::all_at))]
fn cut_all(bytes: &[u8], tag: u8) -> Result<Element<'_>, DerError>
    ensures { Gives piece_of result (all_at tag bytes.now) }
{
    let (element, rest) = read_element(bytes)?;
    if !rest.is_empty() {
        return Err(DerError::Trailing);
    }
    if element.tag != tag {
        return Err(DerError::WrongTag);
    }
    Ok(element)
}
