//! The parts of a distinguished name (RFC 5280 section 4.1.2.4), borrowed from its DER.
ghost use Rattle.std.specs.Prelude.{◌≡◌, IfOk, option_map};
ghost use Rattle.sig_der.specs.FrontReaders.{many_at};
ghost use Rattle.sig_name.specs.Name.{attribute_in, is_text_tag, part_at, parts_in, type_name};
ghost use Rattle.sig_name.specs.Seen.{all_seen, seen};

use sig_base::OutOfMemory;
use sig_der::{tag, take_any, take_tag, take_whole};
use std::alloc::Global;

/// commonName, 2.5.4.3.
const COMMON_NAME: &[u8] = &[0x55, 0x04, 0x03];
/// countryName, 2.5.4.6.
const COUNTRY_NAME: &[u8] = &[0x55, 0x04, 0x06];
/// localityName, 2.5.4.7.
const LOCALITY_NAME: &[u8] = &[0x55, 0x04, 0x07];
/// stateOrProvinceName, 2.5.4.8.
const STATE_NAME: &[u8] = &[0x55, 0x04, 0x08];
/// streetAddress, 2.5.4.9.
const STREET_ADDRESS: &[u8] = &[0x55, 0x04, 0x09];
/// organizationName, 2.5.4.10.
const ORGANIZATION_NAME: &[u8] = &[0x55, 0x04, 0x0a];
/// organizationalUnitName, 2.5.4.11.
const UNIT_NAME: &[u8] = &[0x55, 0x04, 0x0b];
/// domainComponent, 0.9.2342.19200300.100.1.25.
const DOMAIN_COMPONENT: &[u8] = &[0x09, 0x92, 0x26, 0x89, 0x93, 0xf2, 0x2c, 0x64, 0x01, 0x19];
/// userId, 0.9.2342.19200300.100.1.1.
const USER_ID: &[u8] = &[0x09, 0x92, 0x26, 0x89, 0x93, 0xf2, 0x2c, 0x64, 0x01, 0x01];

/// PrintableString, universal 19.
const PRINTABLE_STRING: u8 = 0x13;
/// IA5String, universal 22.
const IA5_STRING: u8 = 0x16;

/// An attribute: the name of its type, and its value.
#[derive(Clone, Copy)]
pub(crate) struct NamePart<'a> {
    pub(crate) name: &'static str,
    pub(crate) value: &'a [u8],
}

/// The parts of the name that the bytes are (DER), in order. `None` if they are not a name of parts with an attribute
/// each, of a type that has a name and of a value that is a text. Fails only if out of memory.
#[tactic(auto, unfolding(crate::specs::Name::parts_in))]
pub(crate) fn parts_in(alloc: Global, der: &[u8]) -> Result<Option<Vec<NamePart<'_>>>, OutOfMemory>
    ensures { IfOk result (λ found. option_map (λ parts. all_seen parts.items) found ≡ parts_in der.now) }
{
    match take_whole(der, tag::SEQUENCE) {
        Some(name) => parts_of(alloc, name.content),
        None => Ok(None),
    }
}

/// The parts that the bytes are, one after another. `None` if they are not parts.
fn parts_of(alloc: Global, bytes: &[u8]) -> Result<Option<Vec<NamePart<'_>>>, OutOfMemory>
    ensures { IfOk result (λ found. option_map (λ parts. all_seen parts.items) found ≡ many_at part_at bytes.now) }
{
    let mut found = Vec::new(alloc);
    let mut rest = bytes;
    'parts: while !rest.is_empty() {
        let Some((part, after)) = part_at(rest) else {
            drop(found);
            return Ok(None);
        };
        found.push(part)?;
        rest = after;
    }
    Ok(Some(found))
}

/// The part at the front of the bytes, and what follows it.
#[tactic(auto, unfolding(crate::specs::Name::part_at))]
fn part_at(bytes: &[u8]) -> Option<(NamePart<'_>, &[u8])>
    ensures { option_map (λ x. (seen x.0, x.1.now)) result ≡ part_at bytes.now }
{
    let (set, rest) = take_tag(bytes, tag::SET)?;
    let attribute = attribute_in(set.content)?;
    Some((attribute, rest))
}

/// The attribute that the bytes are.
#[tactic(auto, unfolding(crate::specs::Name::attribute_in))]
fn attribute_in(bytes: &[u8]) -> Option<NamePart<'_>>
    ensures { option_map seen result ≡ attribute_in bytes.now }
{
    let pair = take_whole(bytes, tag::SEQUENCE)?;
    let (kind, rest) = take_tag(pair.content, tag::OBJECT_IDENTIFIER)?;
    let (value, rest) = take_any(rest)?;
    let name = type_name(kind.content)?;
    if is_text_tag(value.tag) && rest.is_empty() {
        Some(NamePart {
            name,
            value: value.content,
        })
    } else {
        None
    }
}

/// The name of an attribute's type, by the contents octets of its object identifier (RFC 4514 section 3).
fn type_name(oid: &[u8]) -> Option<&'static str>
    ensures { option_map (λ name. name.now) result ≡ type_name oid.now }
{
    if oid == COMMON_NAME {
        Some("CN")
    } else if oid == COUNTRY_NAME {
        Some("C")
    } else if oid == LOCALITY_NAME {
        Some("L")
    } else if oid == STATE_NAME {
        Some("ST")
    } else if oid == STREET_ADDRESS {
        Some("STREET")
    } else if oid == ORGANIZATION_NAME {
        Some("O")
    } else if oid == UNIT_NAME {
        Some("OU")
    } else if oid == DOMAIN_COMPONENT {
        Some("DC")
    } else if oid == USER_ID {
        Some("UID")
    } else {
        None
    }
}

/// Whether an element of this tag is a text.
fn is_text_tag(tag: u8) -> bool
    ensures { result ≡ is_text_tag tag }
{
    tag == tag::UTF8_STRING || tag == PRINTABLE_STRING || tag == IA5_STRING
}
