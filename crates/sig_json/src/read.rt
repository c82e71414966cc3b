//! From a text to a tree, in one pass over the tokens of `json`'s reader. Names and texts are borrowed from the text.
ghost use Rattle.std.specs.Prelude.{◌≡◌, ◌<◌, ◌≤◌, length, Some, None, Err, IfOk, IfErr, OnOk};
ghost use Rattle.json.specs.Json.{value, items, members};
ghost use Rattle.serde_json.specs.Data.{no_members, depth as nesting};
ghost use Rattle.serde_json.specs.Read.{of_json, of_items, of_members, converted, max_depth, read as tree_of};
ghost use Rattle.sig_json.specs.Gathered.{gathered};
ghost use Rattle.sig_json.specs.NamedTree.{IsNamedTree, AreNamed, NamesAscend, HasNamedValues};
ghost use Rattle.sig_json.specs.View.{view, items_view, members_view};

use crate::error::ReadError;
use crate::number::number_in;
use crate::order::{add_member, all_in_order};
use crate::room::{add, fitted};
use crate::tree::{Entry, Tree};
use crate::words::borrow;
use json::{Reader, Scratch, Token};
use std::alloc::Global;

/// How deep lists and objects nest at most.
pub(crate) const MAX_DEPTH: usize = 127;

/// The tree of a text. Fails with `NotJson` if and only if it has none, unless memory runs out.
#[tactic(auto, using(crate::proofs::Tokens::whole_texts))]
pub(crate) fn read_text<'r>(
    alloc: Global,
    text: &'r str,
    scratch: &'r mut Scratch,
) -> Result<Tree<'r>, ReadError>
    ensures ok { IfOk result (λ t. tree_of text.now ≡ Some (view t)) }
    ensures err { result ≡ Err ReadError.NotJson → tree_of text.now ≡ None }
    ensures nests { IfOk result (λ t. nesting (view t) ≤ max_depth) }
    ensures named { IfOk result (λ t. IsNamedTree (view t)) }
{
    let mut reader = Reader::new(text, scratch)?;
    let tree = read_value(alloc, &mut reader, MAX_DEPTH)?;
    match reader.next() {
        Some(_) => Err(ReadError::NotJson),
        None => Ok(tree),
    }
}

/// The next value, whose lists and objects nest to at most `depth`.
#[cycle(read)]
#[tactic(auto, using(crate::proofs::Tokens::values))]
pub(crate) fn read_value<'r>(
    alloc: Global,
    reader: &mut Reader<'r>,
    depth: usize,
) -> Result<Tree<'r>, ReadError>
    ensures ok { IfOk result (λ t. converted of_json (value depth reader.old) ≡ Some (view t, reader.new)) }
    ensures err { result ≡ Err ReadError.NotJson → converted of_json (value depth reader.old) ≡ None }
    ensures shorter { OnOk result (length reader.new < length reader.old) }
    ensures named { IfOk result (λ t. IsNamedTree (view t)) }
{
    let Some(token) = reader.next() else {
        return Err(ReadError::NotJson);
    };
    match token {
        Token::Null => Ok(Tree::Null),
        Token::Bool(truth) => Ok(Tree::Bool(truth)),
        Token::Number(text) => match number_in(text) {
            Some(number) => Ok(Tree::Number(number)),
            None => Err(ReadError::NotJson),
        },
        Token::String(text) => Ok(Tree::Text(borrow(text))),
        Token::BeginArray => {
            if depth == 0 {
                return Err(ReadError::NotJson);
            }
            Ok(Tree::Array(read_items(alloc, reader, depth - 1)?))
        }
        Token::BeginObject => {
            if depth == 0 {
                return Err(ReadError::NotJson);
            }
            Ok(Tree::Object(read_all_members(alloc, reader, depth - 1)?))
        }
        Token::EndObject | Token::EndArray | Token::Key(_) | Token::Bad => Err(ReadError::NotJson),
    }
}

/// The elements of a list, after its opening bracket.
#[cycle(read)]
#[tactic(auto, using(crate::proofs::Tokens::lists))]
fn read_items<'r>(
    alloc: Global,
    reader: &mut Reader<'r>,
    depth: usize,
) -> Result<Vec<Tree<'r>>, ReadError>
    ensures ok { IfOk result (λ v. converted of_items (items (value depth) (length reader.old) reader.old)
        ≡ Some (items_view v.items, reader.new)) }
    ensures err { result ≡ Err ReadError.NotJson
        → converted of_items (items (value depth) (length reader.old) reader.old) ≡ None }
    ensures shorter { OnOk result (length reader.new < length reader.old) }
    ensures named { IfOk result (λ v. AreNamed (items_view v.items)) }
{
    let mut found = Vec::new(alloc);
    'items: while !reader.take_end_array() {
        let item = read_value(alloc, reader, depth)?;
        add(&mut found, item)?;
    }
    Ok(fitted(alloc, found)?)
}

/// The members of an object, after its opening brace.
#[cycle(read)]
#[tactic(auto, using(crate::proofs::Tokens::objects))]
fn read_all_members<'r>(
    alloc: Global,
    reader: &mut Reader<'r>,
    depth: usize,
) -> Result<Vec<Entry<'r>>, ReadError>
    ensures ok { IfOk result (λ v. converted (λ ms. of_members ms no_members)
        (members (value depth) (length reader.old) reader.old) ≡ Some (members_view v.items, reader.new)) }
    ensures err { result ≡ Err ReadError.NotJson → converted (λ ms. of_members ms no_members)
        (members (value depth) (length reader.old) reader.old) ≡ None }
    ensures shorter { OnOk result (length reader.new < length reader.old) }
    ensures named { IfOk result (λ v. NamesAscend (members_view v.items) × HasNamedValues (members_view v.items)) }
{
    let mut found = Vec::new(alloc);
    'members: while let Some(name) = reader.next_key()? {
        let key = borrow(name);
        let value = read_value(alloc, reader, depth)?;
        add_member(&mut found, key, value)?;
    }
    let mut ordered = all_in_order(alloc, found)?;
    ordered.shrink_to_fit();
    Ok(ordered)
}
