//! A certificate's extensions, borrowed, and the look-up of an object identifier.

ghost use Rattle.std.specs.Prelude.{◌≡◌, ◌↔◌, ◌≤◌, length, map, None, option_map, slice_get};
ghost use Rattle.std.specs.List.{All};
ghost use Rattle.sig_certificate.specs.Lookups.{borrowed_extension, with_oid, Finds};
ghost use Rattle.sig_certificate.specs.Places.{extension_of, AreSpans};

use crate::extensions::ExtensionPlaces;
use crate::span::part;

/// An extension of a certificate: RFC 5280 section 4.1. Its parts are borrowed from the certificate.
#[derive(Clone, Copy, Debug)]
pub struct ExtensionRef<'a> {
    /// The contents octets of the object identifier.
    pub oid: &'a [u8],
    /// Whether a reader that does not know the extension has to reject the certificate.
    pub critical: bool,
    /// The contents octets of the OCTET STRING.
    pub value: &'a [u8],
    /// The whole SEQUENCE.
    pub whole: &'a [u8],
}

/// The extensions of one object identifier.
#[derive(Clone, Copy, Debug)]
pub enum Lookup<'a> {
    /// There is no such extension.
    Absent,
    /// This is the only one.
    One(ExtensionRef<'a>),
    /// There are two or more.
    Several,
}

/// Returns the extension at this index, or `None` if the index is not below the length.
pub(crate) fn lend_at<'a>(
    bytes: &'a [u8],
    extensions: &[ExtensionPlaces],
    index: usize,
) -> Option<ExtensionRef<'a>>
    requires { All (AreSpans (length bytes.now)) extensions.now }
    ensures found { option_map borrowed_extension result
        ≡ slice_get (map (extension_of bytes.now) extensions.now) index }
    ensures none { (result ≡ None) ↔ (length (map (extension_of bytes.now) extensions.now) ≤ index) }
{
    let places = extensions.get(index)?;
    Some(lend(bytes, places))
}

/// Returns the extension at the offsets.
pub(crate) fn lend<'a>(bytes: &'a [u8], places: &ExtensionPlaces) -> ExtensionRef<'a>
    requires { AreSpans (length bytes.now) places.now }
    ensures { borrowed_extension result ≡ extension_of bytes.now places.now }
{
    ExtensionRef {
        oid: part(bytes, places.oid),
        critical: places.critical,
        value: part(bytes, places.value),
        whole: part(bytes, places.whole),
    }
}

/// Looks up the extensions of this object identifier.
pub(crate) fn look_up<'a>(bytes: &'a [u8], extensions: &[ExtensionPlaces], oid: &[u8]) -> Lookup<'a>
    requires { All (AreSpans (length bytes.now)) extensions.now }
    ensures { Finds (with_oid oid.now (map (extension_of bytes.now) extensions.now)) result }
{
    let mut found = Lookup::Absent;
    for places in extensions {
        if part(bytes, places.oid) == oid {
            found = match found {
                Lookup::Absent => Lookup::One(lend(bytes, places)),
                _ => Lookup::Several,
            };
        }
    }
    found
}
