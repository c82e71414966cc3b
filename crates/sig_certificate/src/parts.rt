//! A certificate read from its DER, field after field: RFC 5280 section 4.1, without the list of its extensions. What
//! is kept are the ranges of its parts. Beside each field is the function that reads it; those of the TBSCertificate
//! have at most five steps each.
//!
//! ```text
//! Certificate ::= SEQUENCE {                                      -- read_certificate
//!      tbsCertificate       TBSCertificate,                       -- read_outer
//!      signatureAlgorithm   AlgorithmIdentifier,
//!      signatureValue       BIT STRING }
//! TBSCertificate ::= SEQUENCE {
//!      version         [0]  EXPLICIT Version DEFAULT v1,          -- read_preamble, read_version
//!      serialNumber         CertificateSerialNumber,
//!      signature            AlgorithmIdentifier,
//!      issuer               Name,
//!      validity             Validity,                             -- read_binding, read_validity
//!      subject              Name,
//!      subjectPublicKeyInfo SubjectPublicKeyInfo,
//!      issuerUniqueID  [1]  IMPLICIT UniqueIdentifier OPTIONAL,   -- skip_ids
//!      subjectUniqueID [2]  IMPLICIT UniqueIdentifier OPTIONAL,
//!      extensions      [3]  EXPLICIT Extensions OPTIONAL }        -- read_list
//! Version ::= INTEGER { v1(0), v2(1), v3(2) }                     -- version_number
//! Validity ::= SEQUENCE { notBefore Time, notAfter Time }
//! Extensions ::= SEQUENCE SIZE (1..MAX) OF Extension              -- extensions.rt; may be empty here
//! ```

ghost use Rattle.std.specs.Prelude.{◌≡◌, length, option_map, IfSome};
ghost use Rattle.sig_certificate.specs.Cutting.{version_number, explicit_version, version_at, preamble_at, validity_at};
ghost use Rattle.sig_certificate.specs.Cutting.{binding_at, after_ids, list_at, outer_at, parts_at};
ghost use Rattle.sig_certificate.specs.Places.{value_read, preamble_read, IsPreambleWithin, validity_read, IsValidityRead};
ghost use Rattle.sig_certificate.specs.Places.{binding_read, IsBindingWithin, placed_outer, IsOuterWithin, listed_of};
ghost use Rattle.sig_certificate.specs.Places.{IsListedWithin, parts_of, ArePlaces, GoesTo};
ghost use Rattle.sig_der.specs.Readers.{left};

use crate::span::{Span, content_of, whole_of};
use sig_der::{Place, Reader, read_algorithm, read_bits, read_key_info, tag};

/// The fields of the TBSCertificate up to the issuer.
#[derive(Clone, Copy, Debug)]
pub(crate) struct Preamble {
    pub(crate) version: u8,
    pub(crate) algorithm: Span,
    pub(crate) issuer: Span,
}

/// What the TBSCertificate binds (RFC 5280 section 3.1): the fields from the validity to the SubjectPublicKeyInfo.
#[derive(Clone, Copy, Debug)]
pub(crate) struct Binding {
    pub(crate) not_before: Place,
    pub(crate) not_after: Place,
    pub(crate) subject: Span,
    pub(crate) spki: Span,
}

/// The three parts of a certificate.
#[derive(Clone, Copy, Debug)]
pub(crate) struct Outer {
    pub(crate) tbs: Place,
    pub(crate) algorithm: Span,
    pub(crate) signature: Span,
}

/// Where the parts of a certificate are in its DER.
#[derive(Clone, Copy, Debug)]
pub(crate) struct Places {
    pub(crate) outer: Outer,
    /// The elements of the TBSCertificate before its extensions.
    pub(crate) front: Span,
    pub(crate) preamble: Preamble,
    pub(crate) binding: Binding,
    /// Whether the extensions are there.
    pub(crate) listed: bool,
    /// The content of their SEQUENCE.
    pub(crate) list: Span,
}

/// Reads the parts of the certificate that the bytes are, except for what its extensions are. `None` if they are not
/// one.
pub(crate) fn parts_of(der: &[u8]) -> Option<Places>
    ensures cut { parts_at der.now ≡ option_map (parts_of der.now) result }
    ensures within { IfSome result (ArePlaces (length der.now)) }
{
    read_certificate(Reader::new(der))
}

/// Reads the parts of the certificate that is all that is left, except its list of extensions. `None` if it is not one.
#[tactic(auto, unfolding(crate::specs::Cutting::parts_at), using(crate::proofs::Fronts::front_is))]
fn read_certificate(reader: Reader<'_>) -> Option<Places>
    ensures cut { parts_at (left reader.entry) ≡ option_map (parts_of reader.entry.bytes.now) result }
    ensures within { IfSome result (ArePlaces reader.entry.end) }
{
    let outer = read_outer(reader)?;
    let tbs = reader.inside(outer.tbs);
    let (preamble, rest) = read_preamble(tbs)?;
    let (binding, rest) = read_binding(rest)?;
    let rest = skip_ids(rest)?;
    let (listed, list) = read_list(rest)?;
    let front = Span {
        start: tbs.at,
        end: rest.at,
    };
    Some(Places {
        outer,
        front,
        preamble,
        binding,
        listed,
        list,
    })
}

/// Reads the three parts of the certificate that is all that is left. `None` if it is not one.
#[tactic(auto, unfolding(crate::specs::Cutting::outer_at))]
fn read_outer(reader: Reader<'_>) -> Option<Outer>
    ensures cut { outer_at (left reader.entry) ≡ option_map (placed_outer reader.entry.bytes.now) result }
    ensures within { IfSome result (IsOuterWithin reader.entry.at reader.entry.end) }
{
    let whole = reader.whole(tag::SEQUENCE)?;
    let (tbs, rest) = reader.inside(whole).tagged(tag::SEQUENCE)?;
    let (algorithm, rest) = read_algorithm(rest)?;
    let bits = read_bits(rest)?;
    Some(Outer {
        tbs,
        algorithm: whole_of(algorithm.whole),
        signature: Span {
            start: bits,
            end: whole.end,
        },
    })
}

/// Reads the fields of the TBSCertificate up to the issuer. `None` if they are malformed.
#[tactic(auto, unfolding(crate::specs::Cutting::preamble_at))]
fn read_preamble(reader: Reader<'_>) -> Option<(Preamble, Reader<'_>)>
    ensures cut { preamble_at (left reader.entry) ≡ option_map (preamble_read reader.entry.bytes.now) result }
    ensures within { IfSome result (λ x. IsPreambleWithin reader.entry.end x.0 × GoesTo reader.entry x.1) }
{
    let (version, rest) = read_version(reader)?;
    let (serial, rest) = rest.tagged(tag::INTEGER)?;
    let (algorithm, rest) = read_algorithm(rest)?;
    let (issuer, rest) = rest.tagged(tag::SEQUENCE)?;
    if reader.content(serial).is_empty() {
        return None;
    }
    let preamble = Preamble {
        version,
        algorithm: whole_of(algorithm.whole),
        issuer: whole_of(issuer),
    };
    Some((preamble, rest))
}

/// Reads the version, which is 1 if the field is absent. `None` if it is malformed or not a known version.
#[tactic(auto, unfolding(crate::specs::Cutting::version_at))]
fn read_version(reader: Reader<'_>) -> Option<(u8, Reader<'_>)>
    ensures cut { version_at (left reader.entry) ≡ option_map value_read result }
    ensures within { IfSome result (λ x. GoesTo reader.entry x.1) }
{
    let (place, rest) = reader.optional(tag::VERSION)?;
    match place {
        None => Some((1, rest)),
        Some(place) => {
            let version = explicit_version(reader.inside(place))?;
            Some((version, rest))
        }
    }
}

/// Reads the INTEGER that an explicit version is. `None` if it is anything else.
#[tactic(auto, unfolding(crate::specs::Cutting::explicit_version))]
fn explicit_version(reader: Reader<'_>) -> Option<u8>
    ensures { explicit_version (left reader.entry) ≡ result }
{
    let number = reader.whole(tag::INTEGER)?;
    version_number(reader.content(number))
}

/// Returns the version, 1 to 3, that an INTEGER of these contents octets says. `None` if it is another number.
#[tactic(auto, unfolding(crate::specs::Cutting::version_number))]
fn version_number(content: &[u8]) -> Option<u8>
    ensures { result ≡ version_number content.now }
{
    match content {
        [number @ 0..=2] => Some(*number + 1),
        _ => None,
    }
}

/// Reads the fields of the TBSCertificate from the validity to the SubjectPublicKeyInfo. `None` if they are malformed.
#[tactic(auto, unfolding(crate::specs::Cutting::binding_at))]
fn read_binding(reader: Reader<'_>) -> Option<(Binding, Reader<'_>)>
    ensures cut { binding_at (left reader.entry) ≡ option_map (binding_read reader.entry.bytes.now) result }
    ensures within { IfSome result (λ x. IsBindingWithin reader.entry.end x.0 × GoesTo reader.entry x.1) }
{
    let ((not_before, not_after), rest) = read_validity(reader)?;
    let (subject, rest) = rest.tagged(tag::SEQUENCE)?;
    let (spki, rest) = read_key_info(rest)?;
    let binding = Binding {
        not_before,
        not_after,
        subject: whole_of(subject),
        spki: whole_of(spki.whole),
    };
    Some((binding, rest))
}

/// Reads the two elements of the validity, which are not read as times yet. `None` if it is not a SEQUENCE of two.
#[tactic(auto, unfolding(crate::specs::Cutting::validity_at))]
fn read_validity(reader: Reader<'_>) -> Option<((Place, Place), Reader<'_>)>
    ensures cut { validity_at (left reader.entry) ≡ option_map (validity_read reader.entry.bytes.now) result }
    ensures within { IfSome result (IsValidityRead reader.entry) }
{
    let (whole, rest) = reader.tagged(tag::SEQUENCE)?;
    let (not_before, inner) = reader.inside(whole).any()?;
    let (not_after, inner) = inner.any()?;
    if inner.is_done() {
        Some(((not_before, not_after), rest))
    } else {
        None
    }
}

/// Reads past the two unique identifiers, which are optional.
#[tactic(auto, unfolding(crate::specs::Cutting::after_ids))]
fn skip_ids(reader: Reader<'_>) -> Option<Reader<'_>>
    ensures cut { after_ids (left reader.entry) ≡ option_map left result }
    ensures within { IfSome result (GoesTo reader.entry) }
{
    let (_, rest) = reader.optional(tag::ISSUER_UNIQUE_ID)?;
    let (_, rest) = rest.optional(tag::SUBJECT_UNIQUE_ID)?;
    Some(rest)
}

/// Reads the extensions, which are all that is left: whether they are there, and the content of their SEQUENCE. `None`
/// if anything else is left.
#[tactic(auto, unfolding(crate::specs::Cutting::list_at))]
fn read_list(reader: Reader<'_>) -> Option<(bool, Span)>
    ensures cut { list_at (left reader.entry) ≡ option_map (listed_of reader.entry.bytes.now) result }
    ensures within { IfSome result (IsListedWithin reader.entry.end) }
{
    let (place, rest) = reader.optional(tag::EXTENSIONS)?;
    if !rest.is_done() {
        return None;
    }
    match place {
        None => {
            let end = reader.end;
            Some((false, Span { start: end, end }))
        }
        Some(place) => {
            let sequence = reader.inside(place).whole(tag::SEQUENCE)?;
            Some((true, content_of(sequence)))
        }
    }
}
