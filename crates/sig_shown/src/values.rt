//! Members of an object that show a value: a number, or a text, which is cut if it is long.
ghost use Rattle.std.specs.Prelude.{◌≡◌, IfOk, option_map};
ghost use Rattle.sig_json.specs.Writing.{integer_tree, members, members_into};
ghost use Rattle.sig_json.specs.Data.{put};
ghost use Rattle.sig_shown.specs.ShownValues.{count_tree, sha256_tree, shown, shown_rows, some_rows};

use sig_base::{OutOfMemory, sha256};
use sig_json::Object;
use std::alloc::Global;

/// The greatest number of bytes of a text that are shown.
pub const MOST_SHOWN: usize = 1024;

/// The object with a number as a member. Fails only if out of memory.
#[tactic(auto, unfolding(crate::specs::ShownValues::count_tree))]
pub fn with_count(
    object: Object,
    alloc: Global,
    name: &str,
    count: u64,
) -> Result<Object, OutOfMemory>
    ensures { IfOk result (λ made. members made ≡ put name.now (count_tree count) (members object)) }
{
    let text = format!(in alloc; "{count}")?;
    object.with_text(alloc, name, text.as_str())
}

/// The object with a number that may be negative as a member. Fails only if out of memory. The number is passed by
/// reference, so that the clause names it as the field that it is.
#[tactic(auto, unfolding(sig_json::specs::Writing::integer_tree))]
pub fn with_integer(
    object: Object,
    alloc: Global,
    name: &str,
    integer: &i64,
) -> Result<Object, OutOfMemory>
    ensures { IfOk result (λ made. members made ≡ put name.now (integer_tree integer.now) (members object)) }
{
    let integer = *integer;
    let text = format!(in alloc; "{integer}")?;
    object.with_text(alloc, name, text.as_str())
}

/// The object with a text as a member, of at most [`MOST_SHOWN`] bytes; if the text has more, the member of the second
/// name has their number. Fails only if out of memory.
#[tactic(auto, unfolding(crate::specs::ShownValues::cut_length))]
pub fn with_shown(
    object: Object,
    alloc: Global,
    name: &str,
    length_name: &str,
    text: &str,
) -> Result<Object, OutOfMemory>
    ensures { IfOk result (λ made. members made
        ≡ members_into (members object) (shown_rows name.now length_name.now text.now)) }
{
    let object = object.with_text(alloc, name, shown(text))?;
    if text.len() <= MOST_SHOWN {
        return Ok(object);
    }
    with_count(object, alloc, length_name, text.len() as u64)
}

/// The text, or as many of its first characters as have at most [`MOST_SHOWN`] bytes.
fn shown(text: &str) -> &str
    ensures { result.now ≡ shown text.now }
{
    if text.len() <= MOST_SHOWN {
        return text;
    }
    text.split_at(text.floor_char_boundary(MOST_SHOWN)).0
}

/// The object with a text as a member, as by [`with_shown`], if there is one. Fails only if out of memory.
pub fn with_some(
    object: Object,
    alloc: Global,
    name: &str,
    length_name: &str,
    text: Option<&str>,
) -> Result<Object, OutOfMemory>
    ensures { IfOk result (λ made. members made ≡ members_into (members object)
        (some_rows name.now length_name.now (option_map (λ t. t.now) text.entry))) }
{
    match text {
        Some(text) => with_shown(object, alloc, name, length_name, text),
        None => Ok(object),
    }
}

/// The object with the SHA-256 of bytes as a member, in hexadecimal. Fails only if out of memory.
#[tactic(auto, unfolding(crate::specs::ShownValues::sha256_tree))]
pub fn with_sha256(
    object: Object,
    alloc: Global,
    name: &str,
    bytes: &[u8],
) -> Result<Object, OutOfMemory>
    ensures { IfOk result (λ made. members made ≡ put name.now (sha256_tree bytes.now) (members object)) }
{
    object.with_hex(alloc, name, &sha256(bytes))
}
