//! A list that is read as it comes: each element is read when its tokens have come, and no tree is made of the list.
ghost use Rattle.std.specs.Prelude.{◌≡◌, ◌<◌, None, Err, false, length, map, option_map, IfOk, IfSome, OnOk};
ghost use Rattle.json.specs.Reads.{token_of};
ghost use Rattle.serde_json.specs.Read.{read as tree_of};
ghost use Rattle.sig_json.specs.NamedTree.{IsNamedTree, NamesAscend, HasNamedValues};
ghost use Rattle.sig_json.specs.Only.{is_among, names_of};
ghost use Rattle.sig_json.specs.Skipped.{value_meant, items_meant, members_meant};
ghost use Rattle.sig_json.specs.Streamed.{StreamsElement, StreamsItems, StreamsList, StreamsMembers, StreamsOf};
ghost use Rattle.sig_json.specs.Streamed.{with_element};
ghost use Rattle.serde_json.specs.Written.{has_float};
ghost use Rattle.sig_json.specs.View.{view, members_view};

use crate::element::ElementReader;
use crate::error::{MemberError, ReadError};
use crate::floats::is_float_in;
use crate::kept::{MEMBER_DEPTH, take_value};
use crate::notes::Notes;
use crate::order::in_order;
use crate::read::read_value;
use crate::skip::{skip_after, skip_value};
use crate::tree::{Entry, Tree};
use crate::view::Json;
use json::{Reader, Scratch, Token};
use sig_base::{OutOfMemory, OwnedList};
use std::alloc::Global;

/// The members of these names of a text that is an object, the elements of the list of the name `list`, and whether a
/// member of another name than these has a float; none where the text is another value. There are no elements where
/// that member is neither a list nor null, or an element is not of the kind or has a float. Fails with `NotJson` only
/// if the text has no tree.
#[tactic(auto, using(crate::proofs::StreamedLists::texts))]
pub(crate) fn stream_text<'r, E: ElementReader>(
    alloc: Global,
    text: &'r str,
    names: &[&str],
    list: &str,
    scratch: &'r mut Scratch,
) -> Result<Option<(Vec<Entry<'r>>, Option<OwnedList<E::Item>>, bool)>, ReadError>
    requires { is_among (names_of names.now) list.now ≡ false }
    ensures ok { IfOk result (λ found. IfSome found (λ parts. StreamsOf E.meaning (names_of names.now) list.now parts.2
        text.now (members_view parts.0.items) (option_map (map E.seen_as.item) parts.1))) }
    ensures err { result ≡ Err ReadError.NotJson → tree_of text.now ≡ None }
    ensures named { IfOk result (λ found. IfSome found (λ parts. NamesAscend (members_view parts.0.items)
        × HasNamedValues (members_view parts.0.items))) }
{
    let mut reader = Reader::new(text, scratch)?;
    let Some(Token::BeginObject) = reader.next() else {
        return Ok(None);
    };
    let parts = stream_members::<E>(alloc, &mut reader, MEMBER_DEPTH, names, list)?;
    match reader.next() {
        Some(_) => Err(ReadError::NotJson),
        None => Ok(Some(parts)),
    }
}

/// The same after the opening brace. Of two members of the name `list` the last counts.
#[tactic(auto, using(crate::proofs::StreamedLists::parts))]
fn stream_members<'r, E: ElementReader>(
    alloc: Global,
    reader: &mut Reader<'r>,
    depth: usize,
    names: &[&str],
    list: &str,
) -> Result<(Vec<Entry<'r>>, Option<OwnedList<E::Item>>, bool), ReadError>
    requires { is_among (names_of names.now) list.now ≡ false }
    ensures ok { IfOk result (λ parts. StreamsMembers E.meaning (names_of names.now) list.now parts.2 depth reader.old
        reader.new (members_view parts.0.items) (option_map (map E.seen_as.item) parts.1)) }
    ensures err { result ≡ Err ReadError.NotJson → members_meant depth reader.old ≡ None }
    ensures named { IfOk result (λ parts. NamesAscend (members_view parts.0.items)
        × HasNamedValues (members_view parts.0.items)) }
{
    let mut found = Vec::new(alloc);
    let mut notes = Notes::new(alloc);
    let mut elements = Some(OwnedList::new(alloc));
    'members: while let Some(name) = reader.next_key()? {
        if name == list {
            let (listed, float) = stream_list::<E>(alloc, reader, depth)?;
            elements = listed;
            notes.add(name, float)?;
            continue;
        }
        take_value(alloc, reader, depth, names, name, &mut found, &mut notes)?;
    }
    let float = notes.tell(alloc)?;
    let mut ordered = in_order(alloc, found)?;
    ordered.shrink_to_fit();
    Ok((ordered, elements, float))
}

/// The next value as the member that the list is, and whether it has a float.
#[tactic(auto, using(crate::proofs::StreamedLists::list_streamed))]
fn stream_list<'r, E: ElementReader>(
    alloc: Global,
    reader: &mut Reader<'r>,
    depth: usize,
) -> Result<(Option<OwnedList<E::Item>>, bool), ReadError>
    ensures ok { IfOk result (λ found. StreamsList E.meaning found.1 depth reader.old reader.new
        (option_map (map E.seen_as.item) found.0)) }
    ensures err { result ≡ Err ReadError.NotJson → value_meant depth reader.old ≡ None }
    ensures shorter { OnOk result (length reader.new < length reader.old) }
{
    let Some(token) = reader.next() else {
        return Err(ReadError::NotJson);
    };
    match token {
        Token::BeginArray => {
            if depth == 0 {
                return Err(ReadError::NotJson);
            }
            stream_items::<E>(alloc, reader, depth - 1)
        }
        Token::Null => Ok((Some(OwnedList::new(alloc)), false)),
        _ => {
            let float = skip_after(alloc, reader, depth, token)?;
            Ok((None, float))
        }
    }
}

/// The elements of a list, after its opening bracket, and whether one of them has a float.
#[tactic(auto, using(crate::proofs::StreamedLists::items))]
fn stream_items<'r, E: ElementReader>(
    alloc: Global,
    reader: &mut Reader<'r>,
    depth: usize,
) -> Result<(Option<OwnedList<E::Item>>, bool), ReadError>
    ensures ok { IfOk result (λ found. StreamsItems E.meaning found.1 depth reader.old reader.new
        (option_map (map E.seen_as.item) found.0)) }
    ensures err { result ≡ Err ReadError.NotJson → items_meant depth reader.old ≡ None }
    ensures shorter { OnOk result (length reader.new < length reader.old) }
{
    let mut found = Some(OwnedList::new(alloc));
    let mut float = false;
    'elements: while !reader.take_end_array() {
        let (more, held) = stream_element::<E>(alloc, reader, depth, found)?;
        found = more;
        float |= held;
    }
    Ok((found, float))
}

/// The next value as one element more, and whether it has a float. Its tree is dropped at once. Once there are no
/// elements, since one was not of the kind, values are passed over.
#[tactic(auto, using(crate::proofs::StreamedLists::element_streamed))]
fn stream_element<'r, E: ElementReader>(
    alloc: Global,
    reader: &mut Reader<'r>,
    depth: usize,
    found: Option<OwnedList<E::Item>>,
) -> Result<(Option<OwnedList<E::Item>>, bool), ReadError>
    ensures ok { IfOk result (λ more. StreamsElement E.meaning more.1 depth reader.old reader.new
        (option_map (map E.seen_as.item) found) (option_map (map E.seen_as.item) more.0)) }
    ensures err { result ≡ Err ReadError.NotJson → value_meant depth reader.old ≡ None }
    ensures shorter { OnOk result (length reader.new < length reader.old) }
{
    let Some(elements) = found else {
        let float = skip_value(alloc, reader, depth)?;
        return Ok((None, float));
    };
    let value = read_value(alloc, reader, depth)?;
    if is_float_in(&value) {
        return Ok((None, true));
    }
    let more = add_element::<E>(alloc, elements, &value)?;
    Ok((more, false))
}

/// The elements, and a tree without floats as one more; none if it is not of the kind.
#[tactic(auto, using(crate::proofs::StreamedLists::element_added))]
fn add_element<E: ElementReader>(
    alloc: Global,
    mut elements: OwnedList<E::Item>,
    value: &Tree<'_>,
) -> Result<Option<OwnedList<E::Item>>, OutOfMemory>
    requires named { IsNamedTree (view value.now) }
    requires whole { has_float (view value.now) ≡ false }
    ensures { IfOk result (λ more. option_map (map E.seen_as.item) more
        ≡ with_element (E.meaning (view value.now)) (Some (map E.seen_as.item elements))) }
{
    match E::read(alloc, Json { value }) {
        Ok(element) => {
            elements.push(element)?;
            Ok(Some(elements))
        }
        Err(MemberError::Member) => Ok(None),
        Err(MemberError::OutOfMemory) => Err(OutOfMemory),
    }
}
