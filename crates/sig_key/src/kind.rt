//! What kind of key a SubjectPublicKeyInfo (SPKI) has.
ghost use Rattle.std.specs.Prelude.{◌≡◌, length, option_map};
ghost use Rattle.sig_der.specs.BorrowedElements.{piece_of};
ghost use Rattle.sig_der.specs.KeyInfoPlaces.{algorithm_of, IsKeyInfoWithin};
ghost use Rattle.sig_key.specs.declared.kind.KeyKind.{KeyKind as Kind};
ghost use Rattle.sig_key.specs.Kind.{curve_scheme, parameters_scheme, scheme_by, algorithm_scheme, key_kind, IsKind};

use sig_base::VerifyScheme;
use sig_der::tag::OBJECT_IDENTIFIER;
use sig_der::{Element, KeyInfoPlaces, oid, whole_key_info};

/// What kind of key some bytes are.
#[derive(Clone, Copy, PartialEq, Eq)]
pub enum KeyKind {
    /// The bytes are not an SPKI.
    NoKeyInfo,
    /// An SPKI of another algorithm or curve.
    Unsupported,
    /// A key that signatures are checked with under this scheme.
    Scheme(VerifyScheme),
}

/// Returns the kind of key that the bytes are: a SubjectPublicKeyInfo with an elliptic curve key on P-256, P-384 or
/// P-521, with an RSA key or with an Ed25519 key, the last two with or without parameters; another
/// SubjectPublicKeyInfo; or not an SPKI at all. Takes no memory.
pub fn key_kind(spki: &[u8]) -> KeyKind
    // The kind is that of the definition.
    ensures is { IsKind spki.now result }
    ensures only { (kind : Kind) → IsKind spki.now kind → kind ≡ result }
    // What the plain reader returns.
    ensures exact { result ≡ key_kind spki.now }
{
    kind_of(spki)
}

#[tactic(auto, unfolding(crate::specs::Kind::key_kind))]
fn kind_of(spki: &[u8]) -> KeyKind
    ensures { result ≡ key_kind spki.now }
{
    let Some(info) = whole_key_info(spki) else {
        return KeyKind::NoKeyInfo;
    };
    match scheme_at(spki, info) {
        None => KeyKind::Unsupported,
        Some(scheme) => KeyKind::Scheme(scheme),
    }
}

/// Returns the scheme of the SPKI at these indices.
fn scheme_at(spki: &[u8], info: KeyInfoPlaces) -> Option<VerifyScheme>
    requires { IsKeyInfoWithin 0 (length spki.now) info }
    ensures { result ≡ algorithm_scheme (algorithm_of spki.now info.algorithm) }
{
    let oid = info.algorithm.oid;
    let algorithm = &spki[oid.content..oid.end];
    match info.algorithm.parameters {
        None => scheme_of(algorithm, None),
        Some(place) => {
            let parameters = Element {
                tag: place.tag,
                whole: &spki[place.start..place.end],
                content: &spki[place.content..place.end],
            };
            scheme_of(algorithm, Some(parameters))
        }
    }
}

/// Returns the scheme of an algorithm by its object identifier and parameters.
fn scheme_of(algorithm: &[u8], parameters: Option<Element<'_>>) -> Option<VerifyScheme>
    ensures { result ≡ scheme_by algorithm.now (option_map piece_of parameters.entry) }
{
    if algorithm == oid::EC_PUBLIC_KEY {
        curve_of_parameters(parameters)
    } else if algorithm == oid::RSA {
        Some(VerifyScheme::RSA_PKCS1_SHA256)
    } else if algorithm == oid::ED25519 {
        Some(VerifyScheme::ED25519)
    } else {
        None
    }
}

/// Returns the scheme of the curve that the parameters name.
fn curve_of_parameters(parameters: Option<Element<'_>>) -> Option<VerifyScheme>
    ensures { result ≡ parameters_scheme (option_map piece_of parameters.entry) }
{
    match parameters {
        Some(
            Element {
                tag: OBJECT_IDENTIFIER,
                content,
                ..
            },
        ) => curve_of(content),
        _ => None,
    }
}

/// Returns the scheme of a curve by its object identifier.
fn curve_of(curve: &[u8]) -> Option<VerifyScheme>
    ensures { result ≡ curve_scheme curve.now }
{
    if curve == oid::P256 {
        Some(VerifyScheme::ECDSA_P256_SHA256_ASN1)
    } else if curve == oid::P384 {
        Some(VerifyScheme::ECDSA_P384_SHA384_ASN1)
    } else if curve == oid::P521 {
        Some(VerifyScheme::ECDSA_P521_SHA512_ASN1)
    } else {
        None
    }
}
