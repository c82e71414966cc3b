//! One extension by the offsets of its parts in one buffer: RFC 5280 section 4.1.
//!
//! ```text
//! Extension ::= SEQUENCE {
//!      extnID      OBJECT IDENTIFIER,
//!      critical    BOOLEAN DEFAULT FALSE,
//!      extnValue   OCTET STRING }
//! ```

ghost use Rattle.std.specs.Prelude.{◌≡◌, ◌<◌, option_map, IfSome};
ghost use Rattle.sig_certificate.specs.Cutting.{boolean_of, flag_at, extension_at};
ghost use Rattle.sig_certificate.specs.Places.{value_read, extension_read, AreSpans, GoesTo};
ghost use Rattle.sig_der.specs.Readers.{left, GoesOn};

use crate::span::{Span, content_of, whole_of};
use sig_der::{Reader, tag};

/// Where an extension and its parts are in a buffer.
#[derive(Clone, Copy, Debug)]
pub(crate) struct ExtensionPlaces {
    pub(crate) oid: Span,
    pub(crate) critical: bool,
    pub(crate) value: Span,
    pub(crate) whole: Span,
}

/// Reads the extension that is next. `None` if what is left does not begin with one.
#[tactic(auto, unfolding(crate::specs::Cutting::extension_at))]
pub(crate) fn read_extension(reader: Reader<'_>) -> Option<(ExtensionPlaces, Reader<'_>)>
    ensures cut { extension_at (left reader.entry) ≡ option_map (extension_read reader.entry.bytes.now) result }
    ensures within { IfSome result (λ x. AreSpans reader.entry.end x.0) }
    ensures starts { IfSome result (λ x. x.0.whole.start ≡ reader.entry.at) }
    ensures after { IfSome result (λ x. reader.entry.at < x.0.whole.end) }
    ensures next { IfSome result (λ x. GoesOn reader.entry x.0.whole.end x.1) }
{
    let (whole, rest) = reader.tagged(tag::SEQUENCE)?;
    let (oid, inner) = reader.inside(whole).tagged(tag::OBJECT_IDENTIFIER)?;
    let (critical, inner) = read_flag(inner)?;
    let value = inner.whole(tag::OCTET_STRING)?;
    if reader.content(oid).is_empty() {
        return None;
    }
    let places = ExtensionPlaces {
        oid: content_of(oid),
        critical,
        value: content_of(value),
        whole: whole_of(whole),
    };
    Some((places, rest))
}

/// Reads a BOOLEAN DEFAULT FALSE. `None` if a BOOLEAN with another value than 00 or FF is next.
#[tactic(auto, unfolding(crate::specs::Cutting::flag_at))]
pub(crate) fn read_flag(reader: Reader<'_>) -> Option<(bool, Reader<'_>)>
    ensures cut { flag_at (left reader.entry) ≡ option_map value_read result }
    ensures within { IfSome result (λ x. GoesTo reader.entry x.1) }
{
    let (place, rest) = reader.optional(tag::BOOLEAN)?;
    match place {
        None => Some((false, rest)),
        Some(place) => {
            let flag = boolean(reader.content(place))?;
            Some((flag, rest))
        }
    }
}

/// The value of a BOOLEAN of this content: 00 is false, FF is true.
#[tactic(auto, unfolding(crate::specs::Cutting::boolean_of))]
fn boolean(content: &[u8]) -> Option<bool>
    ensures { result ≡ boolean_of content.now }
{
    match content {
        [0] => Some(false),
        [255] => Some(true),
        _ => None,
    }
}
