//! A reader of the elements in a range of one buffer. It keeps offsets and no slices of slices, so that a part of a
//! part is known by its offsets in the buffer, however deep it is.
//!
//! ```text
//! let (whole, rest) = reader.tagged(tag::SEQUENCE)?;                           // whole ::= SEQUENCE {
//! let (oid, inner) = reader.inside(whole).tagged(tag::OBJECT_IDENTIFIER)?;     //      oid    OBJECT IDENTIFIER,
//! let value = inner.whole(tag::OCTET_STRING)?;                                 //      value  OCTET STRING }
//! ```

ghost use Rattle.std.specs.Prelude.{◌≡◌, ◌≤◌, length};

use crate::element::read_element;
use crate::place::Place;

/// What is left to read: a range of a buffer. A call that reads an element returns it with the reader of what follows
/// it.
#[derive(Clone, Copy, Debug)]
pub struct Reader<'a> {
    /// The buffer.
    pub bytes: &'a [u8],
    /// The offset of the first byte that is left.
    pub at: usize,
    /// The offset after the last byte that is left.
    pub end: usize,
    pub ghost ordered: { at ≤ end },
    pub ghost below: { end ≤ length bytes.now },
}

impl<'a> Reader<'a> {
    ghost use Rattle.std.specs.Prelude.{◌==◌, slice_range, option_map, IfSome};
    ghost use Rattle.sig_der.specs.FrontReaders.{take_any, take_tag, take_whole, take_optional, begins_with};
    ghost use Rattle.sig_der.specs.Places.{piece_at, IsWithin, IsInside};
    ghost use Rattle.sig_der.specs.Readers.{left, piece_read, option_read, IsRead, IsReadIf};

    /// The reader of the whole buffer.
    #[tactic(auto, using(crate::proofs::Ranges::part_whole))]
    pub fn new(bytes: &'a [u8]) -> Reader<'a>
        ensures all { left result ≡ bytes.now }
        ensures buffer { result.bytes.now ≡ bytes.now }
        ensures starts { result.at ≡ 0 }
        ensures ends { result.end ≡ length bytes.now }
    {
        Reader {
            bytes,
            at: 0,
            end: bytes.len(),
        }
    }

    /// The bytes that are left.
    pub fn rest(self) -> &'a [u8]
        ensures { result.now ≡ left self.entry }
    {
        &self.bytes[self.at..self.end]
    }

    /// Whether nothing is left.
    pub fn is_done(self) -> bool
        ensures { result ≡ (length (left self.entry) == 0) }
    {
        self.rest().is_empty()
    }

    /// The contents octets of an element that was read from this buffer.
    pub fn content(self, place: Place) -> &'a [u8]
        requires { IsInside self.bytes.now place }
        ensures { result.now ≡ slice_range self.entry.bytes.now place.content place.end }
    {
        &self.bytes[place.content..place.end]
    }

    /// The reader of the contents octets of an element that was read from this buffer.
    pub fn inside(self, place: Place) -> Reader<'a>
        requires { IsInside self.bytes.now place }
        ensures buffer { result.bytes.now ≡ self.entry.bytes.now }
        ensures starts { result.at ≡ place.content }
        ensures ends { result.end ≡ place.end }
    {
        Reader {
            bytes: self.bytes,
            at: place.content,
            end: place.end,
        }
    }

    /// Reads the element that is next. `None` if what is left does not begin with an element.
    pub fn any(self) -> Option<(Place, Reader<'a>)>
        ensures cut { take_any (left self.entry) ≡ option_map (piece_read self.entry.bytes.now) result }
        ensures within { IfSome result (IsRead self.entry) }
    {
        match read_element(self.rest()) {
            Err(_) => None,
            Ok((element, rest)) => {
                let end = self.end - rest.len();
                let place = Place {
                    tag: element.tag,
                    start: self.at,
                    content: end - element.content.len(),
                    end,
                };
                let rest = Reader {
                    bytes: self.bytes,
                    at: end,
                    end: self.end,
                };
                Some((place, rest))
            }
        }
    }

    /// Reads the element of this tag that is next. `None` if what is left does not begin with one.
    #[tactic(auto, unfolding(crate::specs::FrontReaders::take_tag))]
    pub fn tagged(self, tag: u8) -> Option<(Place, Reader<'a>)>
        ensures cut { take_tag tag (left self.entry) ≡ option_map (piece_read self.entry.bytes.now) result }
        ensures within { IfSome result (IsRead self.entry) }
    {
        let (place, rest) = self.any()?;
        if place.tag == tag {
            Some((place, rest))
        } else {
            None
        }
    }

    /// Reads the element of this tag if the next byte is the tag. If it is another byte, or nothing is left, no
    /// element is taken. `None` if the tag is there but does not begin an element.
    #[tactic(auto, unfolding(crate::specs::FrontReaders::take_optional))]
    pub fn optional(self, tag: u8) -> Option<(Option<Place>, Reader<'a>)>
        ensures cut { take_optional tag (left self.entry) ≡ option_map (option_read self.entry.bytes.now) result }
        ensures within { IfSome result (IsReadIf self.entry) }
    {
        if !begins(self.rest(), tag) {
            return Some((None, self));
        }
        let (place, rest) = self.tagged(tag)?;
        Some((Some(place), rest))
    }

    /// Reads the element of this tag that is all that is left. `None` if there is none, or bytes follow it.
    #[tactic(auto, unfolding(crate::specs::FrontReaders::take_whole))]
    pub fn whole(self, tag: u8) -> Option<Place>
        ensures cut { take_whole tag (left self.entry) ≡ option_map (piece_at self.entry.bytes.now) result }
        ensures within { IfSome result (IsWithin self.entry.at self.entry.end) }
        ensures all { IfSome result (λ p. p.end ≡ self.entry.end) }
    {
        let (place, rest) = self.tagged(tag)?;
        if rest.is_done() { Some(place) } else { None }
    }
}

ghost use Rattle.sig_der.specs.FrontReaders.{begins_with};

fn begins(bytes: &[u8], tag: u8) -> bool
    ensures { result ≡ begins_with tag bytes.now }
{
    match bytes {
        [] => false,
        [first, ..] => *first == tag,
    }
}
