//! What the definitions of this crate mean, in the words of RFC 6962. No function here does anything: each states laws,
//! and its proof is that they hold.

ghost use Rattle.std.specs.Prelude.{◌≡◌, ◌↔◌, ◌^◌, ◌<◌, ℕ, List, length};
ghost use Rattle.sig_timestamp.specs.KeptExtensions.{IsPrecertificate};
ghost use Rattle.sig_timestamp.specs.Precert.{precertificate};
ghost use Rattle.sig_timestamp.specs.SctBytes.{signed_bytes};
ghost use Rattle.sig_timestamp.specs.SignedStruct.{IsSignedStruct};
ghost use Rattle.sig_timestamp.specs.Vouched.{HasBytes};

use crate::signed::DigitallySigned;
use sig_certificate::Certificate;

/// Bytes are what the SCT signs if and only if they are the digitally-signed struct of its fields (RFC 6962 section
/// 3.2), if that has bytes.
pub fn signed_structs(sct: &DigitallySigned)
    ensures { HasBytes sct.now → (bytes : List ℕ) → IsSignedStruct sct.now bytes ↔ (bytes ≡ signed_bytes sct.now) }
{
    fits_uint64(sct.timestamp);
    is_hash(&sct.issuer_key_hash);
}

/// A `u64` has eight octets.
fn fits_uint64(number: u64)
    ensures { number < 2 ^ 64 }
{
    let _number = number;
}

/// A SHA-256 hash has 32 octets.
fn is_hash(hash: &[u8; 32])
    ensures { length hash.now ≡ 32 }
{
    let _hash = hash;
}

/// Bytes are the TBSCertificate of the precertificate if and only if they are a TBSCertificate of the same parts, whose
/// extensions are those of the certificate except the lists of SCTs, in order, each with its bytes (RFC 6962 section
/// 3.2).
pub fn precertificates(leaf: &Certificate)
    ensures { (tbs : List ℕ) → IsPrecertificate leaf.now tbs ↔ (tbs ≡ precertificate leaf.now) }
{
    leaf.is_certificate();
}
