//! Lists of signed certificate timestamps in certificates: RFC 6962 sections 3.3 and 3.2.
//!
//! ```text
//! SignedCertificateTimestampList ::= OCTET STRING
//! opaque SerializedSCT<1..2^16-1>;
//! struct { SerializedSCT sct_list <1..2^16-1>; } SignedCertificateTimestampList;
//! struct {
//!     Version sct_version;                       // v1(0)
//!     LogID id;                                  // opaque key_id[32]
//!     uint64 timestamp;                          // milliseconds since 1970
//!     CtExtensions extensions;                   // opaque <0..2^16-1>
//!     digitally-signed struct { .. };            // two bytes of its algorithm, and opaque signature<0..2^16-1>
//! } SignedCertificateTimestamp;
//! ```

ghost use Rattle.std.specs.Prelude.{◌≡◌, option_map, is_some, length};
ghost use Rattle.sig_der.specs.FrontReaders.{many_at};
ghost use Rattle.sig_timestamp.specs.Vectors.{vector_at};
ghost use Rattle.sig_timestamp.specs.SctList.{signed_at, after_version, sct_at, list_in};
ghost use Rattle.sig_timestamp.specs.Timestamps.{only_one};
ghost use Rattle.sig_timestamp.specs.BorrowedScts.{both_now, sct_now, part_now};

use crate::opaque::{bytes_at, vector_at, whole_vector};
use crate::sct_error::CertificateErrorKind;
use sig_der::tag::OCTET_STRING;
use sig_der::take_whole;

/// The version of SCTs (RFC 6962 section 3.2).
pub(crate) const SCT_V1: u8 = 0;

/// A signed certificate timestamp, borrowed from its bytes.
#[derive(Clone, Copy)]
pub(crate) struct BorrowedSct<'a> {
    /// The SHA-256 of the log's SPKI.
    pub(crate) log_id: &'a [u8; 32],
    /// Milliseconds since 1970.
    pub(crate) timestamp: u64,
    pub(crate) extensions: &'a [u8],
    pub(crate) signature: &'a [u8],
}

/// Returns the SCT that the bytes are. `None` if they are not one.
#[tactic(auto, unfolding(crate::specs::SctList::sct_at, crate::specs::Vectors::bytes_at))]
pub(crate) fn sct_at(bytes: &[u8]) -> Option<BorrowedSct<'_>>
    ensures { sct_at bytes.now ≡ option_map sct_now result }
{
    let rest = after_version(bytes)?;
    let (log_id, rest) = rest.split_first_chunk::<32>()?;
    let (timestamp, rest) = rest.split_first_chunk::<8>()?;
    let (extensions, signature) = signed_at(rest)?;
    Some(BorrowedSct {
        log_id,
        timestamp: u64::from_be_bytes(*timestamp),
        extensions,
        signature,
    })
}

/// Returns what follows version v1.
#[tactic(auto, unfolding(crate::specs::SctList::after_version))]
fn after_version(bytes: &[u8]) -> Option<&[u8]>
    ensures { after_version bytes.now ≡ option_map (λ r. r.now) result }
{
    match bytes {
        [version, rest @ ..] if *version == SCT_V1 => Some(rest),
        _ => None,
    }
}

/// Returns the extensions and the signature, if they are all of the bytes.
#[tactic(auto, unfolding(crate::specs::SctList::signed_at))]
fn signed_at(bytes: &[u8]) -> Option<(&[u8], &[u8])>
    ensures { signed_at bytes.now ≡ option_map both_now result }
{
    let (extensions, rest) = vector_at(bytes)?;
    let (_algorithm, rest) = bytes_at(rest, 2)?;
    let signature = whole_vector(rest)?;
    Some((extensions, signature))
}

/// Returns the bytes of the list that is the value of an extension, without its lengths.
#[tactic(auto, unfolding(crate::specs::SctList::list_in))]
pub(crate) fn list_in(value: &[u8]) -> Option<&[u8]>
    ensures { list_in value.now ≡ option_map (λ l. l.now) result }
{
    let string = take_whole(value, OCTET_STRING)?;
    whole_vector(string.content)
}

/// Returns the only vector of a list of vectors. Fails with `LeafSCTMalformed` if the bytes are not such a list, with
/// `LeafSCTMissing` if it does not have exactly one.
pub(crate) fn only_one(list: &[u8]) -> Result<&[u8], CertificateErrorKind>
    ensures { part_now result ≡ only_one (many_at vector_at list.now) }
{
    if !are_vectors(list) {
        return Err(CertificateErrorKind::LeafSCTMalformed);
    }
    match vector_at(list) {
        None => Err(CertificateErrorKind::LeafSCTMissing),
        Some((sct, rest)) => {
            if rest.is_empty() {
                Ok(sct)
            } else {
                Err(CertificateErrorKind::LeafSCTMissing)
            }
        }
    }
}

/// Whether the bytes are vectors, one after another.
fn are_vectors(list: &[u8]) -> bool
    ensures { result ≡ is_some (many_at vector_at list.now) }
{
    let mut rest = list;
    while !rest.is_empty() {
        match vector_at(rest) {
            None => return false,
            Some((_, after)) => rest = after,
        }
    }
    true
}
