//! `Key`: the key of a Certificate Transparency log.

ghost use Rattle.std.specs.Prelude.{◌≡◌, ◌≢◌, length, Result, Err, IfOk};
ghost use Rattle.sig_base.specs.Answers.{Answers, ComesWhere};
ghost use Rattle.sig_base.specs.Sha256.{sha256};
ghost use Rattle.sig_der.specs.KeyInfo.{KeyInfo, IsKeyInfo};
ghost use Rattle.sig_der.specs.KeyInfoPlaces.{placed_option};
ghost use Rattle.sig_timestamp.specs.Keyring.{IsRingKey, IsMalformedKey, IsOtherKey, IsParametersWithin};
ghost use Rattle.sig_timestamp.specs.Keyring.{point_in, point_of, point_under, borrowed_point};

use crate::keyring_error::KeyringError;
use sig_base::{Bytes, SignatureChecker, sha256};
use sig_der::oid::{EC_PUBLIC_KEY, P256, RSA};
use sig_der::tag::{NULL, OBJECT_IDENTIFIER};
use sig_der::{Place, whole_key_info};
use std::alloc::Global;
use std::marker::Model;

/// The key of a Certificate Transparency log: a point of P-256, and its id, the SHA-256 of its SPKI (RFC 6962 section
/// 3.2).
#[derive(Drop)]
pub struct Key {
    pub(crate) id: [u8; 32],
    point: Bytes,
}

impl Model for Key {
    ghost use Rattle.sig_timestamp.specs.RingKey.{RingKey};

    ghost Value = { RingKey };

    ghost view = { λ k. record { id = k.id; point = k.point } };
}

impl Key {
    /// Returns the key of this SubjectPublicKeyInfo (DER, RFC 5280 section 4.1.2.7). Errors:
    ///
    /// - `KeyMalformed` if and only if the bytes are not an SPKI, or the parameters of its algorithm are there and are
    ///   neither an object identifier nor the NULL of an RSA key;
    /// - `AlgoUnsupported` if and only if it is another SPKI that is not a point of P-256, including one without
    ///   parameters;
    /// - `OutOfMemory`.
    pub fn new(alloc: Global, spki_bytes: &[u8]) -> Result<Key, KeyringError>
        ensures found { IfOk result (λ k. IsRingKey spki_bytes.now k.point) }
        ensures id { IfOk result (λ k. k.id ≡ sha256 spki_bytes.now) }
        ensures info { (k : KeyInfo) → IsKeyInfo k → k.whole ≡ spki_bytes.now
            → Answers KeyringError.OutOfMemory (λ r. r.point) result (point_in k) }
        ensures none { ((k : KeyInfo) → IsKeyInfo k → k.whole ≢ spki_bytes.now)
            → Answers KeyringError.OutOfMemory (λ r. r.point) result (Err KeyringError.KeyMalformed) }
        ensures key_malformed { ComesWhere KeyringError.OutOfMemory result
            (Err KeyringError.KeyMalformed) (IsMalformedKey spki_bytes.now) }
        ensures algo_unsupported { ComesWhere KeyringError.OutOfMemory result
            (Err KeyringError.AlgoUnsupported) (IsOtherKey spki_bytes.now) }
        ensures exact { Answers KeyringError.OutOfMemory (λ r. r.point) result (point_of spki_bytes.now) }
    {
        read_key(alloc, spki_bytes)
    }

    pub(crate) fn point(&self) -> &[u8]
        ensures { result.now ≡ self.now.point }
    {
        self.point.as_slice()
    }

    /// Whether the checker accepts the signature over the message under this key.
    pub(crate) fn verify<C: SignatureChecker>(
        &self,
        message: &[u8],
        signature: &[u8],
        checker: &C,
    ) -> bool
        ensures { result ≡ C.point_accepts checker.now self.now.point message.now signature.now }
    {
        checker.verify_p256_point(self.point.as_slice(), message, signature)
    }
}

fn read_key(alloc: Global, spki: &[u8]) -> Result<Key, KeyringError>
    ensures id { IfOk result (λ k. k.id ≡ sha256 spki.now) }
    ensures exact { Answers KeyringError.OutOfMemory (λ r. r.point) result (point_of spki.now) }
{
    let point = point_of(spki)?;
    let copied = Bytes::copy_of(alloc, point)?;
    Ok(Key {
        id: sha256(spki),
        point: copied,
    })
}

#[tactic(auto, unfolding(crate::specs::Keyring::point_of))]
fn point_of(spki: &[u8]) -> Result<&[u8], KeyringError>
    ensures { borrowed_point result ≡ point_of spki.now }
{
    match whole_key_info(spki) {
        None => Err(KeyringError::KeyMalformed),
        Some(key) => {
            let oid = &spki[key.algorithm.oid.content..key.algorithm.oid.end];
            point_under(
                spki,
                &spki[key.bits..key.whole.end],
                oid,
                key.algorithm.parameters,
            )
        }
    }
}

/// Returns the bits, if the algorithm and its parameters, an element of the SPKI, say that they are a point of P-256.
fn point_under<'a>(
    spki: &[u8],
    bits: &'a [u8],
    oid: &[u8],
    parameters: Option<Place>,
) -> Result<&'a [u8], KeyringError>
    requires { IsParametersWithin (length spki.now) parameters }
    ensures { borrowed_point result ≡ point_under bits.now oid.now (placed_option spki.now parameters) }
{
    let Some(place) = parameters else {
        return Err(KeyringError::AlgoUnsupported);
    };
    let content = &spki[place.content..place.end];
    if place.tag == OBJECT_IDENTIFIER && !content.is_empty() {
        if oid == EC_PUBLIC_KEY && content == P256 {
            Ok(bits)
        } else {
            Err(KeyringError::AlgoUnsupported)
        }
    } else if place.tag == NULL && content.is_empty() && oid == RSA {
        Err(KeyringError::AlgoUnsupported)
    } else {
        Err(KeyringError::KeyMalformed)
    }
}
