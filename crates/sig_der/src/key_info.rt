//! AlgorithmIdentifier and SubjectPublicKeyInfo, by the offsets of their parts in one buffer.
//!
//! ```text
//! AlgorithmIdentifier  ::= SEQUENCE {                     -- RFC 5280 section 4.1.1.2
//!      algorithm            OBJECT IDENTIFIER,
//!      parameters           ANY DEFINED BY algorithm OPTIONAL }
//! SubjectPublicKeyInfo ::= SEQUENCE {                     -- RFC 5280 section 4.1.2.7
//!      algorithm            AlgorithmIdentifier,
//!      subjectPublicKey     BIT STRING }                  -- of whole octets here
//! ```

ghost use Rattle.std.specs.Prelude.{◌≡◌, ◌<◌, ◌≤◌, ◌↔◌, ℕ, List, length, get_or, option_map, Some};
ghost use Rattle.std.specs.Prelude.{None, IfSome};
ghost use Rattle.sig_der.specs.KeyInfo.{at_most_one, algorithm_at, bits_of, key_info_at, whole_key_info};
ghost use Rattle.sig_der.specs.KeyInfo.{Algorithm, KeyInfo, IsFirstAlgorithm, IsFirstKeyInfo, IsWholeKeyInfo};
ghost use Rattle.sig_der.specs.KeyInfoPlaces.{placed_option, algorithm_of, algorithm_read, key_info_read};
ghost use Rattle.sig_der.specs.KeyInfoPlaces.{key_info_of, part_from};
ghost use Rattle.sig_der.specs.KeyInfoPlaces.{IsOneWithin, IsAlgorithmRead, IsKeyInfoRead, IsKeyInfoWithin};
ghost use Rattle.sig_der.specs.Readers.{left};

use crate::place::Place;
use crate::reader::Reader;
use crate::tag;

/// Where an AlgorithmIdentifier and its parts are in a buffer.
#[derive(Clone, Copy, Debug)]
pub struct AlgorithmPlaces {
    /// The whole SEQUENCE.
    pub whole: Place,
    /// The object identifier, which names the algorithm.
    pub oid: Place,
    /// The parameters, if there are any.
    pub parameters: Option<Place>,
}

/// Where a SubjectPublicKeyInfo and its parts are in a buffer.
#[derive(Clone, Copy, Debug)]
pub struct KeyInfoPlaces {
    /// The whole SEQUENCE.
    pub whole: Place,
    /// The AlgorithmIdentifier of the key (RFC 5280 section 4.1.2.7).
    pub algorithm: AlgorithmPlaces,
    /// Where the bits of the key begin, after the count of unused bits. They end with the whole.
    pub bits: usize,
}

/// Reads the AlgorithmIdentifier that is next. `None` if what is left does not begin with one.
pub fn read_algorithm(reader: Reader<'_>) -> Option<(AlgorithmPlaces, Reader<'_>)>
    // What is returned is an algorithm at the front.
    ensures found { IfSome result (λ x. IsFirstAlgorithm
        (algorithm_of reader.entry.bytes.now x.0) (left x.1) (left reader.entry)) }
    // An algorithm at the front is returned.
    ensures only { (a : Algorithm) (rest : List ℕ) → IsFirstAlgorithm a rest (left reader.entry)
        → option_map (algorithm_read reader.entry.bytes.now) result ≡ Some (a, rest) }
    // No algorithm is at the front.
    ensures none { (result ≡ None) ↔ ((a : Algorithm) (rest : List ℕ)
        → ¬ IsFirstAlgorithm a rest (left reader.entry)) }
    // The result is that of the plain reader.
    ensures cut { algorithm_at (left reader.entry) ≡ option_map (algorithm_read reader.entry.bytes.now) result }
    ensures within { IfSome result (IsAlgorithmRead reader.entry) }
{
    // What is left to read is bytes.
    are_bytes(reader.rest());
    cut_algorithm(reader)
}

/// What is left to read is bytes: a law that the clauses of both calls use. It does nothing.
fn are_bytes(left: &[u8])
    ensures { (i : ℕ) → get_or left.now i 0 < 256 }
{
    let _left = left;
}

#[tactic(auto, unfolding(crate::specs::KeyInfo::algorithm_at))]
fn cut_algorithm(reader: Reader<'_>) -> Option<(AlgorithmPlaces, Reader<'_>)>
    ensures cut { algorithm_at (left reader.entry) ≡ option_map (algorithm_read reader.entry.bytes.now) result }
    ensures within { IfSome result (IsAlgorithmRead reader.entry) }
{
    let (whole, rest) = reader.tagged(tag::SEQUENCE)?;
    let (oid, inner) = reader.inside(whole).tagged(tag::OBJECT_IDENTIFIER)?;
    let parameters = at_most_one(inner)?;
    if reader.content(oid).is_empty() {
        return None;
    }
    let places = AlgorithmPlaces {
        whole,
        oid,
        parameters,
    };
    Some((places, rest))
}

/// The element that is all that is left, if anything is. `None` if anything else is left.
#[tactic(auto, unfolding(crate::specs::KeyInfo::at_most_one))]
fn at_most_one(reader: Reader<'_>) -> Option<Option<Place>>
    ensures cut { at_most_one (left reader.entry) ≡ option_map (placed_option reader.entry.bytes.now) result }
    ensures within { IfSome result (IsOneWithin reader.entry.at reader.entry.end) }
{
    if reader.is_done() {
        return Some(None);
    }
    let (place, rest) = reader.any()?;
    if rest.is_done() {
        Some(Some(place))
    } else {
        None
    }
}

/// Returns where the bits begin of the BIT STRING without unused bits that is all that is left. `None` if what is left
/// is not such a BIT STRING.
#[tactic(auto, unfolding(crate::specs::KeyInfo::bits_of, crate::specs::KeyInfo::after_zero))]
pub fn read_bits(reader: Reader<'_>) -> Option<usize>
    ensures cut { bits_of (left reader.entry) ≡ option_map (part_from reader.entry.bytes.now reader.entry.end) result }
    ensures after { IfSome result (λ n. reader.entry.at ≤ n) }
    ensures before { IfSome result (λ n. n ≤ reader.entry.end) }
{
    let string = reader.whole(tag::BIT_STRING)?;
    match reader.content(string) {
        [0, ..] => Some(string.content + 1),
        _ => None,
    }
}

/// Reads the SubjectPublicKeyInfo that is next. `None` if what is left does not begin with one.
pub fn read_key_info(reader: Reader<'_>) -> Option<(KeyInfoPlaces, Reader<'_>)>
    // What is returned is a SubjectPublicKeyInfo at the front.
    ensures found { IfSome result (λ x. IsFirstKeyInfo
        (key_info_of reader.entry.bytes.now x.0) (left x.1) (left reader.entry)) }
    // A SubjectPublicKeyInfo at the front is returned.
    ensures only { (k : KeyInfo) (rest : List ℕ) → IsFirstKeyInfo k rest (left reader.entry)
        → option_map (key_info_read reader.entry.bytes.now) result ≡ Some (k, rest) }
    // No SubjectPublicKeyInfo is at the front.
    ensures none { (result ≡ None) ↔ ((k : KeyInfo) (rest : List ℕ)
        → ¬ IsFirstKeyInfo k rest (left reader.entry)) }
    // The result is that of the plain reader.
    ensures cut { key_info_at (left reader.entry) ≡ option_map (key_info_read reader.entry.bytes.now) result }
    ensures within { IfSome result (IsKeyInfoRead reader.entry) }
{
    // What is left to read is bytes.
    are_bytes(reader.rest());
    cut_key_info(reader)
}

#[tactic(auto, unfolding(crate::specs::KeyInfo::key_info_at))]
fn cut_key_info(reader: Reader<'_>) -> Option<(KeyInfoPlaces, Reader<'_>)>
    ensures cut { key_info_at (left reader.entry) ≡ option_map (key_info_read reader.entry.bytes.now) result }
    ensures within { IfSome result (IsKeyInfoRead reader.entry) }
{
    let (whole, rest) = reader.tagged(tag::SEQUENCE)?;
    let (algorithm, inner) = cut_algorithm(reader.inside(whole))?;
    let bits = read_bits(inner)?;
    let places = KeyInfoPlaces {
        whole,
        algorithm,
        bits,
    };
    Some((places, rest))
}

/// Reads the SubjectPublicKeyInfo that the bytes are. `None` if they are not one.
pub fn whole_key_info(bytes: &[u8]) -> Option<KeyInfoPlaces>
    // What is returned is the SubjectPublicKeyInfo that the bytes are.
    ensures found { IfSome result (λ k. IsWholeKeyInfo (key_info_of bytes.now k) bytes.now) }
    // A SubjectPublicKeyInfo is returned.
    ensures only { (k : KeyInfo) → IsWholeKeyInfo k bytes.now
        → option_map (key_info_of bytes.now) result ≡ Some k }
    // `None` comes if and only if the bytes are not one.
    ensures none { (result ≡ None) ↔ ((k : KeyInfo) → ¬ IsWholeKeyInfo k bytes.now) }
    // The result is that of the plain reader.
    ensures cut { whole_key_info bytes.now ≡ option_map (key_info_of bytes.now) result }
    ensures within { IfSome result (IsKeyInfoWithin 0 (length bytes.now)) }
{
    cut_whole_key_info(bytes)
}

#[tactic(auto, unfolding(crate::specs::KeyInfo::whole_key_info))]
fn cut_whole_key_info(bytes: &[u8]) -> Option<KeyInfoPlaces>
    ensures cut { whole_key_info bytes.now ≡ option_map (key_info_of bytes.now) result }
    ensures within { IfSome result (IsKeyInfoWithin 0 (length bytes.now)) }
{
    let (info, rest) = cut_key_info(Reader::new(bytes))?;
    if rest.is_done() { Some(info) } else { None }
}
