//! The times of a validity: RFC 5280 section 4.1.2.5.

ghost use Rattle.std.specs.Prelude.{◌≡◌, ◌≤◌, ℤ, length, slice_range, Some, IfSome};
ghost use Rattle.sig_der.specs.DerTime.{IsTimeOf};
ghost use Rattle.sig_certificate.specs.Places.{IsPlace};

use sig_der::{Element, Place, time_of};

/// Returns the second since 1970 of the time that this element is. `None` if it is not a time.
pub(crate) fn second_at(bytes: &[u8], place: Place) -> Option<i64>
    requires { IsPlace (length bytes.now) place }
    ensures found { IfSome result (IsTimeOf place.tag (slice_range bytes.now place.content place.end)) }
    ensures only { (s : ℤ) → IsTimeOf place.tag (slice_range bytes.now place.content place.end) s → result ≡ Some s }
{
    let element = Element {
        tag: place.tag,
        whole: &bytes[place.start..place.end],
        content: &bytes[place.content..place.end],
    };
    match time_of(&element) {
        Ok(second) => Some(second),
        Err(_) => None,
    }
}
