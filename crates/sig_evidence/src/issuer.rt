//! The issuer that a certificate names, and the trust anchors of that name.
ghost use Rattle.std.specs.Prelude.{◌≡◌, ◌++◌, IfOk, OnOk, codes};
ghost use Rattle.hex.specs.Hex.{encode_lower};
ghost use Rattle.sig_json.specs.Writing.{members, members_into};
ghost use Rattle.sig_evidence.specs.Issuer.{issuer_rows, place_if, places_from, places_rows};
ghost use Rattle.sig_name.specs.NameText.{name_text};
ghost use Rattle.sig_shown.specs.ShownValues.{shown_rows, some_rows};

use sig_base::{Numbers, OutOfMemory};
use sig_certificate::Certificate;
use sig_json::Object;
use sig_name::name_text;
use sig_shown::{ShownCount, first, with_count, with_list, with_shown};
use std::alloc::Global;

/// The greatest number of indices of trust anchors that are shown.
pub const MOST_ANCHORS: usize = 64;

/// The object with what the link `issuer` begins with: `issuerName`, the DER of the issuer's name in a certificate, in
/// hexadecimal; `issuerText`, the same as a text (RFC 4514), as far as [`name_text`] has one; `anchors`, the indices of
/// the first [`MOST_ANCHORS`] trust anchors whose subject has this name; and `anchorCount`, how many there are. Fails
/// only if out of memory.
pub fn with_issuer(
    object: Object,
    alloc: Global,
    certificate: &Certificate,
    anchors: &[Certificate],
) -> Result<Object, OutOfMemory>
    ensures { IfOk result (λ made. members made
        ≡ members_into (members object) (issuer_rows certificate.now anchors.now)) }
{
    let name = certificate.issuer();
    let places = places_of(alloc, name, anchors)?;
    let object = with_issuer_name(object, alloc, name)?;
    let object = with_issuer_text(object, alloc, name)?;
    with_places(object, alloc, places.as_slice())
}

/// The indices of the certificates whose subject has this name.
fn places_of(alloc: Global, name: &[u8], anchors: &[Certificate]) -> Result<Numbers, OutOfMemory>
    ensures { IfOk result (λ places. places ≡ places_from 0 name.now anchors.now) }
{
    let mut places = Numbers::new(alloc);
    'anchors: for (place, anchor) in anchors.iter().enumerate() {
        push_if(&mut places, place, name, anchor)?;
    }
    Ok(places)
}

/// Adds an index, if the certificate's subject has this name.
fn push_if(
    places: &mut Numbers,
    place: usize,
    name: &[u8],
    anchor: &Certificate,
) -> Result<(), OutOfMemory>
    ensures { OnOk result (places.new ≡ places.old ++ place_if place name.now anchor.now) }
{
    if anchor.subject() == name {
        places.push(place)?;
    }
    Ok(())
}

/// The object with an issuer's name, in hexadecimal.
#[tactic(auto, unfolding(hex::specs::Hex::encode_with))]
fn with_issuer_name(object: Object, alloc: Global, name: &[u8]) -> Result<Object, OutOfMemory>
    ensures { IfOk result (λ made. members made ≡ members_into (members object)
        (shown_rows (codes "issuerName") (codes "issuerNameLength") (encode_lower name.now))) }
{
    let digits = hex::encode(alloc, name)?;
    with_shown(
        object,
        alloc,
        "issuerName",
        "issuerNameLength",
        digits.as_str(),
    )
}

/// The object with an issuer's name as a text, if it has one.
fn with_issuer_text(object: Object, alloc: Global, name: &[u8]) -> Result<Object, OutOfMemory>
    ensures { IfOk result (λ made. members made ≡ members_into (members object)
        (some_rows (codes "issuerText") (codes "issuerTextLength") (name_text name.now))) }
{
    match name_text(alloc, name)? {
        Some(text) => with_shown(
            object,
            alloc,
            "issuerText",
            "issuerTextLength",
            text.as_str(),
        ),
        None => Ok(object),
    }
}

/// The object with the first of these indices, and how many there are.
fn with_places(object: Object, alloc: Global, places: &[usize]) -> Result<Object, OutOfMemory>
    ensures { IfOk result (λ made. members made ≡ members_into (members object) (places_rows places.now)) }
{
    let shown = first(places, MOST_ANCHORS);
    let object = with_list::<ShownCount>(object, alloc, "anchors", shown)?;
    with_count(object, alloc, "anchorCount", places.len() as u64)
}
