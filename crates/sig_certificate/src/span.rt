//! A range of a buffer.

ghost use Rattle.std.specs.Prelude.{◌≡◌, ◌≤◌, length};
ghost use Rattle.sig_certificate.specs.Places.{part};

use sig_der::Place;

/// A range of a buffer, in bytes.
#[derive(Clone, Copy, Debug)]
pub(crate) struct Span {
    /// The offset of its first byte.
    pub(crate) start: usize,
    /// The offset after its last byte.
    pub(crate) end: usize,
}

/// The range of the whole element.
pub(crate) fn whole_of(place: Place) -> Span
    ensures { result ≡ record { start = place.start; end = place.end } }
{
    Span {
        start: place.start,
        end: place.end,
    }
}

/// The range of its contents octets.
pub(crate) fn content_of(place: Place) -> Span
    ensures { result ≡ record { start = place.content; end = place.end } }
{
    Span {
        start: place.content,
        end: place.end,
    }
}

/// Returns the part of the buffer.
pub(crate) fn part(bytes: &[u8], span: Span) -> &[u8]
    requires ordered { span.start ≤ span.end }
    requires below { span.end ≤ length bytes.now }
    ensures { result.now ≡ part bytes.now span }
{
    &bytes[span.start..span.end]
}

/// Returns the part of the buffer, as far as the buffer goes: `part` of a range that may be anywhere.
pub(crate) fn clipped(bytes: &[u8], span: Span) -> &[u8]
    ensures { result.now ≡ part bytes.now span }
{
    let end = span.end.min(bytes.len());
    &bytes[span.start.min(end)..end]
}
