//! Byte vectors of the presentation language of TLS: RFC 5246 section 4.3. `opaque value<0..2^16-1>` is the length of
//! the value in two bytes, the high one first, and the value.

ghost use Rattle.std.specs.Prelude.{◌≡◌, option_map};
ghost use Rattle.sig_timestamp.specs.Vectors.{bytes_at, vector_at, whole_vector};
ghost use Rattle.sig_timestamp.specs.BorrowedScts.{both_now};

/// Returns the content of the vector, if it is all of the bytes.
#[tactic(auto, unfolding(crate::specs::Vectors::whole_vector))]
pub(crate) fn whole_vector(bytes: &[u8]) -> Option<&[u8]>
    ensures { whole_vector bytes.now ≡ option_map (λ v. v.now) result }
{
    let (content, rest) = vector_at(bytes)?;
    if rest.is_empty() { Some(content) } else { None }
}

/// Returns the bytes of the vector at the front, and what follows it.
#[tactic(auto, unfolding(crate::specs::Vectors::vector_at))]
pub(crate) fn vector_at(bytes: &[u8]) -> Option<(&[u8], &[u8])>
    ensures { vector_at bytes.now ≡ option_map both_now result }
{
    match bytes {
        [high, low, rest @ ..] => bytes_at(rest, usize::from(*high) * 256 + usize::from(*low)),
        _ => None,
    }
}

/// Returns the first `count` bytes, and what follows them.
#[tactic(auto, unfolding(crate::specs::Vectors::bytes_at))]
pub(crate) fn bytes_at(bytes: &[u8], count: usize) -> Option<(&[u8], &[u8])>
    ensures { bytes_at count bytes.now ≡ option_map both_now result }
{
    if bytes.len() < count {
        None
    } else {
        Some(bytes.split_at(count))
    }
}
