//! A value that is passed over: checked as it would be read, but no tree is made of it.
ghost use Rattle.std.specs.Prelude.{◌≡◌, ◌∷◌, ◌<◌, None, Err, false, length, IfOk, OnOk, IsTrue};
ghost use Rattle.std.specs.Char.{is_ascii_digit};
ghost use Rattle.std.specs.List.{list_all};
ghost use Rattle.json.specs.Reads.{token_of};
ghost use Rattle.serde_json.specs.Read.{number_of};
ghost use Rattle.sig_json.specs.Skipped.{IsNumber, PassesValue, PassesItems, PassesMembers};
ghost use Rattle.sig_json.specs.Skipped.{value_meant, items_meant, members_meant};

use crate::error::ReadError;
use crate::notes::Notes;
use crate::number::number_in;
use json::{Reader, Token};
use std::alloc::Global;

/// So many decimal digits write a number below 2^64.
const FEW_DIGITS: usize = 19;

/// Passes over the next value, whose lists and objects nest to at most `depth`, and returns whether it has a float. A
/// float that a later member of the same name replaces does not count. Fails with `NotJson` only if there is no such
/// value. It takes no memory before the first float of an object, and then notes the names that come.
#[cycle(skip)]
#[tactic(auto, using(crate::proofs::SkippedValues::values))]
#[inline(always)]
pub(crate) fn skip_value<'r>(
    alloc: Global,
    reader: &mut Reader<'r>,
    depth: usize,
) -> Result<bool, ReadError>
    ensures ok { IfOk result (λ float. PassesValue float depth reader.old reader.new) }
    ensures err { result ≡ Err ReadError.NotJson → value_meant depth reader.old ≡ None }
    ensures shorter { OnOk result (length reader.new < length reader.old) }
{
    let Some(token) = reader.next() else {
        return Err(ReadError::NotJson);
    };
    skip_after(alloc, reader, depth, token)
}

/// The same after the first token of the value.
#[cycle(skip)]
#[tactic(auto, using(crate::proofs::SkippedValues::values))]
#[inline(always)]
pub(crate) fn skip_after<'r>(
    alloc: Global,
    reader: &mut Reader<'r>,
    depth: usize,
    token: Token<'r>,
) -> Result<bool, ReadError>
    ensures ok { IfOk result (λ float. PassesValue float depth (token_of token.entry ∷ reader.old) reader.new) }
    ensures err { result ≡ Err ReadError.NotJson → value_meant depth (token_of token.entry ∷ reader.old) ≡ None }
    ensures no_longer { OnOk result (length reader.new < length (token_of token.entry ∷ reader.old)) }
{
    match token {
        Token::Null | Token::Bool(_) | Token::String(_) => Ok(false),
        Token::Number(text) => is_float(text),
        Token::BeginArray => {
            if depth == 0 {
                return Err(ReadError::NotJson);
            }
            skip_items(alloc, reader, depth - 1)
        }
        Token::BeginObject => {
            if depth == 0 {
                return Err(ReadError::NotJson);
            }
            skip_members(alloc, reader, depth - 1)
        }
        Token::EndObject | Token::EndArray | Token::Key(_) | Token::Bad => Err(ReadError::NotJson),
    }
}

/// The elements of a list, after its opening bracket.
#[cycle(skip)]
#[tactic(auto, using(crate::proofs::SkippedValues::lists))]
#[inline(never)]
pub(crate) fn skip_items<'r>(
    alloc: Global,
    reader: &mut Reader<'r>,
    depth: usize,
) -> Result<bool, ReadError>
    ensures ok { IfOk result (λ float. PassesItems float depth reader.old reader.new) }
    ensures err { result ≡ Err ReadError.NotJson → items_meant depth reader.old ≡ None }
    ensures shorter { OnOk result (length reader.new < length reader.old) }
{
    let mut float = false;
    'items: while !reader.take_end_array() {
        float |= skip_value(alloc, reader, depth)?;
    }
    Ok(float)
}

/// The members of an object, after its opening brace.
#[cycle(skip)]
#[tactic(auto, using(crate::proofs::KeptMembers::passed))]
#[inline(never)]
fn skip_members<'r>(alloc: Global, reader: &mut Reader<'r>, depth: usize) -> Result<bool, ReadError>
    ensures ok { IfOk result (λ float. PassesMembers float depth reader.old reader.new) }
    ensures err { result ≡ Err ReadError.NotJson → members_meant depth reader.old ≡ None }
    ensures shorter { OnOk result (length reader.new < length reader.old) }
{
    let mut notes = Notes::new(alloc);
    'members: while let Some(name) = reader.next_key()? {
        let float = skip_value(alloc, reader, depth)?;
        notes.add(name, float)?;
    }
    Ok(notes.tell(alloc)?)
}

/// Whether a number is held as a float. One of few digits is an integer by its looks, and most have one. Any other is
/// read.
fn is_float(text: &str) -> Result<bool, ReadError>
    ensures ok { IfOk result (λ float. IsNumber float text.now) }
    ensures err { result ≡ Err ReadError.NotJson → number_of text.now ≡ None }
{
    let bytes = text.as_bytes();
    if is_digit(bytes) || is_short_integer(bytes) {
        return Ok(false);
    }
    is_other_float(text)
}

#[tactic(auto, using(crate::proofs::ShortIntegers::one_digit))]
fn is_digit(text: &[u8]) -> bool
    ensures { IsTrue result → IsNumber false text.now }
{
    text.len() == 1 && text[0].is_ascii_digit()
}

fn is_short_integer(text: &[u8]) -> bool
    ensures { IsTrue result → IsNumber false text.now }
{
    !text.is_empty() && text.len() <= FEW_DIGITS && are_decimal_digits(text)
}

fn are_decimal_digits(text: &[u8]) -> bool
    ensures { result ≡ list_all is_ascii_digit text.now }
{
    text.iter().all(|letter| letter.is_ascii_digit())
}

#[inline(never)]
fn is_other_float(text: &str) -> Result<bool, ReadError>
    ensures ok { IfOk result (λ float. IsNumber float text.now) }
    ensures err { result ≡ Err ReadError.NotJson → number_of text.now ≡ None }
{
    let number = number_in(text).ok_or(ReadError::NotJson)?;
    Ok(number.is_f64())
}
