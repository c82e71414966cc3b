//! Walks over the lists in extension values, which do not keep a list.

ghost use Rattle.std.specs.Prelude.{◌≡◌, ◌||◌, option_map, is_some};
ghost use Rattle.sig_der.specs.FrontReaders.{many_at};
ghost use Rattle.sig_certificate.specs.Names.{general_names_of};
ghost use Rattle.sig_certificate.specs.Values.{oid_at, has_purpose, purposes_of};

use crate::general_names::alternative_names;
use crate::values::take_oid;
use sig_der::{tag, take_whole};

/// Returns whether this purpose is in an extended key usage of this value. `None` if it is malformed. For
/// sig_timestamp, whose issuers may only sign precertificates.
#[tactic(auto, unfolding(crate::specs::Values::purposes_of))]
pub fn read_purpose(value: &[u8], purpose: &[u8]) -> Option<bool>
    ensures { option_map (has_purpose purpose.now) (purposes_of value.now) ≡ result }
{
    let sequence = take_whole(value, tag::SEQUENCE)?;
    purpose_among(sequence.content, purpose)
}

/// Returns whether this object identifier is among those that the bytes are. `None` if they are anything else.
fn purpose_among(bytes: &[u8], purpose: &[u8]) -> Option<bool>
    ensures { option_map (has_purpose purpose.now) (many_at oid_at bytes.now) ≡ result }
{
    let mut found = false;
    let mut rest = bytes;
    while !rest.is_empty() {
        match take_oid(rest) {
            None => return None,
            Some((oid, after)) => {
                found = either(found, oid == purpose);
                rest = after;
            }
        }
    }
    Some(found)
}

fn either(left: bool, right: bool) -> bool
    ensures { result ≡ (left || right) }
{
    left || right
}

/// Whether alternative names of this value are well formed.
pub(crate) fn holds_names(value: &[u8]) -> bool
    ensures { is_some (general_names_of value.now) ≡ result }
{
    match alternative_names(value) {
        None => false,
        Some(_) => true,
    }
}
