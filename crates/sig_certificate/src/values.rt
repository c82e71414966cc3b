//! What the values of extensions say.
//!
//! ```text
//! KeyUsage ::= BIT STRING { digitalSignature (0), .., keyCertSign (5), .. }    -- RFC 5280 section 4.2.1.3
//! ExtKeyUsageSyntax ::= SEQUENCE OF OBJECT IDENTIFIER                          -- section 4.2.1.12
//! BasicConstraints ::= SEQUENCE {                                              -- section 4.2.1.9
//!      cA                  BOOLEAN DEFAULT FALSE,
//!      pathLenConstraint   INTEGER (0..MAX) OPTIONAL }
//! ```

ghost use Rattle.std.specs.Prelude.{◌≡◌, option_map};
ghost use Rattle.sig_der.specs.Readers.{left};
ghost use Rattle.sig_certificate.specs.Values.{usage_of, key_usage_of, oid_at, natural_of, constraints_in};
ghost use Rattle.sig_certificate.specs.Values.{basic_constraints_of};

use crate::extensions::read_flag;
use sig_der::{Reader, tag, take_tag, take_whole};

/// The bits of a key usage that decide here: RFC 5280 section 4.2.1.3.
#[derive(Clone, Copy, Debug)]
pub struct KeyUsage {
    /// digitalSignature: the key may sign anything except certificates and revocation lists.
    pub digital_signature: bool,
    /// The key may sign certificates.
    pub key_cert_sign: bool,
}

/// Basic constraints: RFC 5280 section 4.2.1.9.
#[derive(Clone, Copy, Debug)]
pub struct BasicConstraints {
    /// Whether the subject is an authority.
    pub ca: bool,
    /// How many intermediates may follow, if that is limited.
    pub path_len: Option<u32>,
}

/// Returns what a key usage of this value says. `None` if it is malformed.
#[tactic(auto, unfolding(crate::specs::Values::key_usage_of))]
pub(crate) fn read_key_usage(value: &[u8]) -> Option<KeyUsage>
    ensures { result ≡ key_usage_of value.now }
{
    let string = take_whole(value, tag::BIT_STRING)?;
    usage(string.content)
}

#[tactic(auto, unfolding(crate::specs::Values::usage_of))]
fn usage(content: &[u8]) -> Option<KeyUsage>
    ensures { result ≡ usage_of content.now }
{
    match content {
        [0] => Some(KeyUsage {
            digital_signature: false,
            key_cert_sign: false,
        }),
        [0..=7, first, ..] => Some(KeyUsage {
            digital_signature: *first & 0x80 != 0,
            key_cert_sign: *first & 0x04 != 0,
        }),
        _ => None,
    }
}

/// Returns the contents octets of the object identifier at the front of the bytes, and what follows it. `None` if
/// there is none, or an empty one.
#[tactic(auto, unfolding(crate::specs::Values::oid_at))]
pub(crate) fn take_oid(bytes: &[u8]) -> Option<(&[u8], &[u8])>
    ensures { oid_at bytes.now ≡ option_map (λ x. (x.0.now, x.1.now)) result }
{
    let (oid, rest) = take_tag(bytes, tag::OBJECT_IDENTIFIER)?;
    if oid.content.is_empty() {
        return None;
    }
    Some((oid.content, rest))
}

/// Returns what basic constraints of this value say. `None` if they are malformed.
#[tactic(auto, unfolding(crate::specs::Values::basic_constraints_of))]
pub(crate) fn read_basic_constraints(value: &[u8]) -> Option<BasicConstraints>
    ensures { result ≡ basic_constraints_of value.now }
{
    let sequence = take_whole(value, tag::SEQUENCE)?;
    read_constraints(Reader::new(sequence.content))
}

#[tactic(auto, unfolding(crate::specs::Values::constraints_in))]
fn read_constraints(reader: Reader<'_>) -> Option<BasicConstraints>
    ensures { constraints_in (left reader.entry) ≡ result }
{
    let (ca, rest) = read_flag(reader)?;
    let (place, rest) = rest.optional(tag::INTEGER)?;
    let path_len = match place {
        None => None,
        Some(place) => Some(number(reader.content(place))?),
    };
    if rest.is_done() {
        Some(BasicConstraints { ca, path_len })
    } else {
        None
    }
}

/// The INTEGER of this content, which is minimal, not negative and has at most four bytes.
#[tactic(auto, unfolding(crate::specs::Values::natural_of))]
fn number(content: &[u8]) -> Option<u32>
    ensures { result ≡ natural_of content.now }
{
    match content {
        [a @ 0..=127] => Some(*a as u32),
        [0, 0..=127, ..] => None,
        [a @ 0..=127, b] => Some(*a as u32 * 256 + *b as u32),
        [a @ 0..=127, b, c] => Some(*a as u32 * 65536 + *b as u32 * 256 + *c as u32),
        [a @ 0..=127, b, c, d] => {
            Some(*a as u32 * 16777216 + *b as u32 * 65536 + *c as u32 * 256 + *d as u32)
        }
        _ => None,
    }
}
