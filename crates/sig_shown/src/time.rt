//! Times: seconds since 1970, and the same as texts of RFC 3339.
//!
//! ```text
//! {"seconds":"1700000000","utc":"2023-11-14T22:13:20Z"}
//! ```
ghost use Rattle.std.specs.Prelude.{◌≡◌, IfOk, codes, option_map};
ghost use Rattle.sig_json.specs.Writing.{members, put_some};
ghost use Rattle.sig_shown.specs.ShownValues.{time_tree};
ghost use Rattle.sig_shown.specs.UtcText.{utc_text};
ghost use Rattle.sig_json.specs.Data.{put, string};
ghost use Rattle.sig_json.specs.Tree.{document_tree};

use crate::utc::utc_text;
use crate::values::with_integer;
use sig_base::OutOfMemory;
use sig_json::{Document, Object};
use std::alloc::Global;

/// The object with a second since 1970 as a member, in both forms. Fails only if out of memory.
pub fn with_time(
    object: Object,
    alloc: Global,
    name: &str,
    second: &i64,
) -> Result<Object, OutOfMemory>
    ensures { IfOk result (λ made. members made ≡ put name.now (time_tree second.now) (members object)) }
{
    let value = time_document(alloc, second)?;
    object.with(alloc, name, value)
}

/// A second since 1970 in both forms. Fails only if out of memory.
#[tactic(auto, unfolding(crate::specs::ShownValues::time_tree))]
fn time_document(alloc: Global, second: &i64) -> Result<Document, OutOfMemory>
    ensures { IfOk result (λ document. document_tree document ≡ time_tree second.now) }
{
    let object = with_integer(Object::new(alloc), alloc, "seconds", second)?;
    let object = with_utc(object, alloc, second)?;
    Ok(object.into_document())
}

/// The object with the text of a second as a member, if its year is one of 1 to 9999.
fn with_utc(object: Object, alloc: Global, second: &i64) -> Result<Object, OutOfMemory>
    ensures { IfOk result (λ made. members made
        ≡ put_some (codes "utc") (option_map string (utc_text second.now)) (members object)) }
{
    match utc_text(alloc, second)? {
        Some(text) => object.with_text(alloc, "utc", text.as_str()),
        None => Ok(object),
    }
}
