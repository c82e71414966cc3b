//! A text that is read for the members of some names: every other member is passed over, and no tree is made of it.
ghost use Rattle.std.specs.Prelude.{◌≡◌, ◌<◌, None, false, Err, IfOk, IfSome, OnOk, length};
ghost use Rattle.std.specs.Cow.{cow_str_bytes};
ghost use Rattle.std.specs.List.{filter};
ghost use Rattle.serde_json.specs.Read.{read as tree_of};
ghost use Rattle.serde_json.specs.Written.{has_float};
ghost use Rattle.sig_base.specs.Answers.{Answers};
ghost use Rattle.sig_json.specs.Document.{document_of};
ghost use Rattle.sig_json.specs.NamedTree.{IsNamedTree, NamesAscend, HasNamedValues};
ghost use Rattle.sig_json.specs.Only.{is_among, members_where, names_of, only, only_of};
ghost use Rattle.sig_json.specs.Gathered.{AreInOrderIfFew};
ghost use Rattle.sig_json.specs.Skipped.{KeepsMembers, KeepsOf, TakesValue, value_meant, members_meant};
ghost use Rattle.sig_json.specs.Tree.{document_tree};
ghost use Rattle.sig_json.specs.View.{view, members_view};

use crate::document::{Document, whole_tree};
use crate::error::{DocumentError, ReadError};
use crate::floats::is_float_in;
use crate::notes::Notes;
use crate::order::in_order;
use crate::owned::own_tree;
use crate::read::{MAX_DEPTH, read_value};
use crate::room::add;
use crate::skip::skip_value;
use crate::tree::{Entry, Tree};
use crate::words::{borrow, is_same_name};
use json::{Reader, Scratch, Token};
use std::alloc::Global;

/// How deep lists and objects nest at most in a member of the whole text.
pub(crate) const MEMBER_DEPTH: usize = MAX_DEPTH - 1;

impl Document {
    /// Reads a text as `read` does, but of an object (RFC 8259 section 4) keeps the members of these names alone; any
    /// other value is kept whole. The errors are those of `read`, for the whole text.
    ///
    /// No tree is made of a member of another name. A float in it does not count if a later member of the same name
    /// takes its place: after the first float of an object the names that come are noted, until the object ends.
    pub fn read_members(
        alloc: Global,
        text: &[u8],
        names: &[&str],
    ) -> Result<Document, DocumentError>
        ensures { Answers DocumentError.OutOfMemory document_tree result
            (only_of (names_of names.now) (document_of text.now)) }
    {
        let mut scratch = Scratch::new(alloc);
        let mut spare = Scratch::new(alloc);
        let tree = kept_tree(alloc, text, names, &mut scratch, &mut spare)?;
        let value = own_tree(alloc, tree)?;
        Ok(Document { value })
    }
}

/// The tree of a text, as `Document::read_members` reads it. The second scratch is for a text that is not an object.
#[tactic(auto, using(crate::proofs::KeptReading::kept_reading))]
pub(crate) fn kept_tree<'r>(
    alloc: Global,
    text: &'r [u8],
    names: &[&str],
    scratch: &'r mut Scratch,
    spare: &'r mut Scratch,
) -> Result<Tree<'r>, DocumentError>
    ensures value { Answers DocumentError.OutOfMemory view result
        (only_of (names_of names.now) (document_of text.now)) }
    ensures whole { IfOk result (λ t. has_float (view t) ≡ false) }
    ensures named { IfOk result (λ t. IsNamedTree (view t)) }
{
    let Ok(valid) = simdutf8::compat::from_utf8(text) else {
        return Err(DocumentError::NotJson);
    };
    match read_kept(alloc, valid, names, scratch)? {
        Some((kept, float)) => {
            if float {
                return Err(DocumentError::Float);
            }
            let value = Tree::Object(kept);
            if is_float_in(&value) {
                return Err(DocumentError::Float);
            }
            Ok(value)
        }
        None => {
            let whole = whole_tree(alloc, text, spare)?;
            Ok(keep_only(whole, names))
        }
    }
}

/// Drops the members of other names of an object.
#[tactic(auto, using(crate::proofs::KeptReading::cut))]
pub(crate) fn keep_only<'t>(tree: Tree<'t>, names: &[&str]) -> Tree<'t>
    ensures { view result ≡ only (names_of names.now) (view tree.entry) }
{
    match tree {
        Tree::Object(mut members) => {
            keep_members(&mut members, names);
            Tree::Object(members)
        }
        Tree::Array(items) => Tree::Array(items),
        Tree::Text(text) => Tree::Text(text),
        Tree::Number(number) => Tree::Number(number),
        Tree::Bool(truth) => Tree::Bool(truth),
        Tree::Null => Tree::Null,
    }
}

fn keep_members(members: &mut Vec<Entry<'_>>, names: &[&str])
    ensures { members.new.items
        ≡ filter (λ m. is_among (names_of names.now) (cow_str_bytes m.0)) members.old.items }
{
    members.retain(move |member| is_among(names, member.0.as_str()));
}

/// The members of these names of a text that is an object, and whether a member of another name has a float; none
/// where the text is another value. Fails with `NotJson` only if the text has no tree.
#[tactic(auto, using(crate::proofs::KeptMembers::texts))]
fn read_kept<'r>(
    alloc: Global,
    text: &'r str,
    names: &[&str],
    scratch: &'r mut Scratch,
) -> Result<Option<(Vec<Entry<'r>>, bool)>, ReadError>
    ensures ok { IfOk result (λ found. IfSome found (λ kept. KeepsOf kept.1 (names_of names.now) text.now
        (members_view kept.0.items))) }
    ensures err { result ≡ Err ReadError.NotJson → tree_of text.now ≡ None }
    ensures named { IfOk result (λ found. IfSome found (λ kept. NamesAscend (members_view kept.0.items)
        × HasNamedValues (members_view kept.0.items))) }
{
    let mut reader = Reader::new(text, scratch)?;
    let Some(Token::BeginObject) = reader.next() else {
        return Ok(None);
    };
    let kept = read_kept_members(alloc, &mut reader, MEMBER_DEPTH, names)?;
    match reader.next() {
        Some(_) => Err(ReadError::NotJson),
        None => Ok(Some(kept)),
    }
}

/// The members of these names, after the opening brace, and whether one of another name has a float.
#[tactic(auto, using(crate::proofs::KeptMembers::kept))]
fn read_kept_members<'r>(
    alloc: Global,
    reader: &mut Reader<'r>,
    depth: usize,
    names: &[&str],
) -> Result<(Vec<Entry<'r>>, bool), ReadError>
    ensures ok { IfOk result (λ kept. KeepsMembers kept.1 (names_of names.now) depth reader.old reader.new
        (members_view kept.0.items)) }
    ensures err { result ≡ Err ReadError.NotJson → members_meant depth reader.old ≡ None }
    ensures named { IfOk result (λ kept. NamesAscend (members_view kept.0.items)
        × HasNamedValues (members_view kept.0.items)) }
{
    let mut found = Vec::new(alloc);
    let mut notes = Notes::new(alloc);
    'members: while let Some(name) = reader.next_key()? {
        take_value(alloc, reader, depth, names, name, &mut found, &mut notes)?;
    }
    let float = notes.tell(alloc)?;
    let mut ordered = in_order(alloc, found)?;
    ordered.shrink_to_fit();
    Ok((ordered, float))
}

/// Reads the value of a member: kept after the others if the name is one of these, and else passed over and noted.
pub(crate) fn take_value<'r>(
    alloc: Global,
    reader: &mut Reader<'r>,
    depth: usize,
    names: &[&str],
    name: &'r str,
    kept: &mut Vec<Entry<'r>>,
    notes: &mut Notes<'r>,
) -> Result<(), ReadError>
    requires { AreInOrderIfFew notes.old.noted.items }
    ensures ok { OnOk result (TakesValue (names_of names.now) depth name.now reader.old reader.new
        kept.old.items kept.new.items notes.old notes.new) }
    ensures err { result ≡ Err ReadError.NotJson → value_meant depth reader.old ≡ None }
    ensures shorter { OnOk result (length reader.new < length reader.old) }
{
    if is_among(names, name) {
        let key = borrow(name);
        let value = read_value(alloc, reader, depth)?;
        add(kept, (key, value))?;
    } else {
        let float = skip_value(alloc, reader, depth)?;
        notes.add(name, float)?;
    }
    Ok(())
}

/// Whether the name is one of these. A loop of its own: `contains` prepares for many names.
#[tactic(auto, using(crate::proofs::RemainingNames::names))]
pub(crate) fn is_among(names: &[&str], name: &str) -> bool
    ensures { result ≡ is_among (names_of names.now) name.now }
{
    for listed in names {
        if is_same_name(listed, name) {
            return true;
        }
    }
    false
}
