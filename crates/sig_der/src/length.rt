//! The length of an element's content: X.690 sections 8.1.3 and 10.1.

ghost use Rattle.std.specs.Prelude.{◌≤◌, length, IfOk};
ghost use Rattle.sig_der.specs.Reading.{Gives, one_byte, two_bytes, three_bytes, four_bytes, length_at};

use sig_base::DerError;

/// Reads a length, and returns it with the bytes after it.
#[tactic(auto, unfolding(crate::specs::Reading::length_at))]
pub(crate) fn read_length(bytes: &[u8]) -> Result<(usize, &[u8]), DerError>
    ensures exact { Gives (λ x. (x.0, x.1.now)) result (length_at bytes.now) }
    ensures shorter { IfOk result (λ x. length x.1.now ≤ length bytes.now) }
{
    match bytes {
        [] => Err(DerError::Truncated),
        [short @ 0..=127, rest @ ..] => Ok((*short as usize, rest)),
        [129, rest @ ..] => one_byte(rest),
        [130, rest @ ..] => two_bytes(rest),
        [131, rest @ ..] => three_bytes(rest),
        [132, rest @ ..] => four_bytes(rest),
        _ => Err(DerError::Length),
    }
}

#[tactic(auto, unfolding(crate::specs::Reading::one_byte))]
fn one_byte(bytes: &[u8]) -> Result<(usize, &[u8]), DerError>
    ensures exact { Gives (λ x. (x.0, x.1.now)) result (one_byte bytes.now) }
    ensures shorter { IfOk result (λ x. length x.1.now ≤ length bytes.now) }
{
    match bytes {
        [0..=127, ..] => Err(DerError::Length),
        [a, rest @ ..] => Ok((*a as usize, rest)),
        _ => Err(DerError::Truncated),
    }
}

#[tactic(auto, unfolding(crate::specs::Reading::two_bytes))]
fn two_bytes(bytes: &[u8]) -> Result<(usize, &[u8]), DerError>
    ensures exact { Gives (λ x. (x.0, x.1.now)) result (two_bytes bytes.now) }
    ensures shorter { IfOk result (λ x. length x.1.now ≤ length bytes.now) }
{
    match bytes {
        [0, ..] => Err(DerError::Length),
        [a, b, rest @ ..] => Ok((*a as usize * 256 + *b as usize, rest)),
        _ => Err(DerError::Truncated),
    }
}

#[tactic(auto, unfolding(crate::specs::Reading::three_bytes))]
fn three_bytes(bytes: &[u8]) -> Result<(usize, &[u8]), DerError>
    ensures exact { Gives (λ x. (x.0, x.1.now)) result (three_bytes bytes.now) }
    ensures shorter { IfOk result (λ x. length x.1.now ≤ length bytes.now) }
{
    match bytes {
        [0, ..] => Err(DerError::Length),
        [a, b, c, rest @ ..] => Ok((*a as usize * 65536 + *b as usize * 256 + *c as usize, rest)),
        _ => Err(DerError::Truncated),
    }
}

#[tactic(auto, unfolding(crate::specs::Reading::four_bytes))]
fn four_bytes(bytes: &[u8]) -> Result<(usize, &[u8]), DerError>
    ensures exact { Gives (λ x. (x.0, x.1.now)) result (four_bytes bytes.now) }
    ensures shorter { IfOk result (λ x. length x.1.now ≤ length bytes.now) }
{
    match bytes {
        [0, ..] => Err(DerError::Length),
        [a, b, c, d, rest @ ..] => {
            let upper = *a as usize * 16777216 + *b as usize * 65536;
            Ok((upper + *c as usize * 256 + *d as usize, rest))
        }
        _ => Err(DerError::Truncated),
    }
}
