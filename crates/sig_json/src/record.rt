//! A text read as a record of a member table. The names and texts of its tree are borrowed from the text, since the
//! tree is dropped once the record is made.
ghost use Rattle.sig_base.specs.Answers.{Answers};
ghost use Rattle.sig_json.specs.Only.{names_of};
ghost use Rattle.sig_json.specs.Record.{record_in, record_with};

use crate::document::whole_tree;
use crate::element::ElementReader;
use crate::error::JsonError;
use crate::kept::kept_tree;
use crate::view::Json;
use json::Scratch;
use std::alloc::Global;

/// The record of a text. Fails with `NotJson` if the text has no reading, then with `Float` where its tree holds a
/// number with a point or an exponent, `-0`, or an integer outside -2^63 to 2^64 - 1, and then with `Member` where a
/// member breaks its row of the table.
#[tactic(auto, unfolding(crate::specs::Record::record_in))]
pub fn read_record<T: ElementReader>(alloc: Global, text: &[u8]) -> Result<T::Item, JsonError>
    ensures { Answers JsonError.OutOfMemory T.seen_as.item result (record_in T.meaning text.now) }
{
    let mut scratch = Scratch::new(alloc);
    let tree = whole_tree(alloc, text, &mut scratch)?;
    let record = T::read(alloc, Json { value: &tree });
    drop(tree);
    Ok(record?)
}

/// The record of a text whose table has these names: of an object the reader is shown the members of these names
/// alone, as `Document::read_members` keeps them. Fails as `read_record` does.
#[tactic(auto, unfolding(crate::specs::Record::record_with))]
pub fn read_record_with<T: ElementReader>(
    alloc: Global,
    text: &[u8],
    names: &[&str],
) -> Result<T::Item, JsonError>
    ensures { Answers JsonError.OutOfMemory T.seen_as.item result
        (record_with (names_of names.now) T.meaning text.now) }
{
    let mut scratch = Scratch::new(alloc);
    let mut spare = Scratch::new(alloc);
    let tree = kept_tree(alloc, text, names, &mut scratch, &mut spare)?;
    let record = T::read(alloc, Json { value: &tree });
    drop(tree);
    Ok(record?)
}
