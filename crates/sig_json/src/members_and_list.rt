//! A text that is read for the members of some names, and for a long list beside them.
ghost use Rattle.std.specs.Prelude.{◌≡◌, false};
ghost use Rattle.serde_json.specs.Written.{has_float};
ghost use Rattle.sig_base.specs.Answers.{Answers};
ghost use Rattle.sig_json.specs.NamedTree.{IsNamedTree};
ghost use Rattle.sig_json.specs.Only.{names_of, only};
ghost use Rattle.sig_json.specs.Record.{members_and_list, record_in};
ghost use Rattle.sig_json.specs.Tree.{borrowed_tree, document_tree};
ghost use Rattle.sig_json.specs.View.{view};

use crate::borrowed_document::BorrowedDocument;
use crate::document::{Document, whole_tree};
use crate::element::{ElementReader, optional_list};
use crate::error::{JsonError, ReadError};
use crate::floats::is_float_in;
use crate::kept::{is_among, keep_only};
use crate::stream::stream_text;
use crate::tree::Tree;
use crate::view::Json;
use json::Scratch;
use sig_base::OwnedList;
use std::alloc::Global;

impl Document {
    /// Reads a text as `read_members` does, and beside it each element of the list of the name `list`; no element if
    /// that member is absent or null. Fails as `read_record_with` does: with `Member` where the value is not an object,
    /// the member of that name is not a list, or an element is not of the kind.
    pub fn read_members_and_list<E: ElementReader>(
        alloc: Global,
        text: &[u8],
        names: &[&str],
        list: &str,
    ) -> Result<(Document, OwnedList<E::Item>), JsonError>
        ensures { Answers JsonError.OutOfMemory (λ parts. (document_tree parts.0, E.seen_as.list parts.1)) result
            (record_in (members_and_list (names_of names.now) list.now E.meaning) text.now) }
    {
        let mut scratch = Scratch::new(alloc);
        let mut spare = Scratch::new(alloc);
        let (borrowed, elements) = BorrowedDocument::read_members_and_list::<E>(
            alloc,
            text,
            names,
            list,
            &mut scratch,
            &mut spare,
        )?;
        let document = borrowed.into_owned(alloc);
        Ok((document?, elements))
    }
}

impl<'t> BorrowedDocument<'t> {
    /// Reads a text as `Document::read_members_and_list` does.
    ///
    /// An element is read when it comes, and no tree is made of the list. A text that is not an object, and one whose
    /// list is to be among the members too, is read as a whole tree, in the second scratch.
    #[tactic(auto, using(crate::proofs::StreamedLists::streamed, crate::proofs::Tokens::object_is_named))]
    pub fn read_members_and_list<E: ElementReader>(
        alloc: Global,
        text: &'t [u8],
        names: &[&str],
        list: &str,
        scratch: &'t mut Scratch,
        spare: &'t mut Scratch,
    ) -> Result<(BorrowedDocument<'t>, OwnedList<E::Item>), JsonError>
        ensures { Answers JsonError.OutOfMemory (λ parts. (borrowed_tree parts.0, E.seen_as.list parts.1)) result
            (record_in (members_and_list (names_of names.now) list.now E.meaning) text.now) }
    {
        let Ok(valid) = simdutf8::compat::from_utf8(text) else {
            return Err(JsonError::NotJson);
        };
        if is_among(names, list) {
            return read_whole_and_list::<E>(alloc, text, names, list, spare);
        }
        match stream_text::<E>(alloc, valid, names, list, scratch) {
            Ok(Some((kept, elements, float))) => {
                if float {
                    return Err(JsonError::Float);
                }
                let value = Tree::Object(kept);
                if is_float_in(&value) {
                    return Err(JsonError::Float);
                }
                let elements = elements.ok_or(JsonError::Member)?;
                Ok((BorrowedDocument { value }, elements))
            }
            Ok(None) => read_whole_and_list::<E>(alloc, text, names, list, spare),
            Err(ReadError::NotJson) => Err(JsonError::NotJson),
            Err(ReadError::OutOfMemory) => Err(JsonError::OutOfMemory),
        }
    }
}

/// The same by way of the whole tree.
#[tactic(auto, using(crate::proofs::KeptReading::whole_reading), unfolding(crate::specs::Record::record_in))]
fn read_whole_and_list<'t, E: ElementReader>(
    alloc: Global,
    text: &'t [u8],
    names: &[&str],
    list: &str,
    scratch: &'t mut Scratch,
) -> Result<(BorrowedDocument<'t>, OwnedList<E::Item>), JsonError>
    ensures { Answers JsonError.OutOfMemory (λ parts. (borrowed_tree parts.0, E.seen_as.list parts.1)) result
        (record_in (members_and_list (names_of names.now) list.now E.meaning) text.now) }
{
    let whole = whole_tree(alloc, text, scratch)?;
    let elements = optional_list::<E>(alloc, Json { value: &whole }, list)?;
    Ok((only_members(whole, names), elements))
}

/// The tree without the members of other names.
#[tactic(auto, using(crate::proofs::KeptReading::whole_reading))]
fn only_members<'t>(tree: Tree<'t>, names: &[&str]) -> BorrowedDocument<'t>
    requires whole { has_float (view tree) ≡ false }
    requires named { IsNamedTree (view tree) }
    ensures { borrowed_tree result ≡ only (names_of names.now) (view tree.entry) }
{
    BorrowedDocument {
        value: keep_only(tree, names),
    }
}
