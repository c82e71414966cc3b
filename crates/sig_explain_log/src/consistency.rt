//! A request of `consistency`: why its first failing link fails, or what was verified.
//!
//! ```text
//! {"cause":["ConsistencyProofError","NewTreeSmaller"],"link":"consistency","new":{..},"note":{..},"old":{..}}
//! {"new":{"rootHash":"..","treeSize":"5"},"note":{..},"old":{..}}
//! ```
ghost use Rattle.std.specs.Prelude.{◌≡◌, IfOk};
ghost use Rattle.sig_json.specs.Writing.{members, members_into};
ghost use Rattle.sig_explain_log.specs.Consistency.{consistency_link_rows, consistency_match_rows, consistency_tree};
ghost use Rattle.sig_explain_log.specs.Consistency.{consistency_tree_rows, growth_answer, growth_rows, grown_rows};
ghost use Rattle.sig_explain_log.specs.Consistency.{new_rows};
ghost use Rattle.sig_explain_log.specs.Head.{head_mismatch_rows};
ghost use Rattle.sig_explain_log.specs.Refusals.{consistency_rows};
ghost use Rattle.sig_json.specs.Data.{no_members};
ghost use Rattle.sig_json.specs.Tree.{document_tree};

use crate::accepted::with_unsigned_head;
use crate::proof::{with_consistency, with_mismatch};
use crate::tree::{with_head, with_note};
use crate::unread::with_unread;
use sig_base::{MerkleProofError, OutOfMemory};
use sig_json::{Document, Object};
use sig_merkle::uncounted::verify_consistency;
use sig_request::ConsistencyRequest;
use sig_verify::Link;
use std::alloc::Global;

/// The explanation of a request of `consistency`, whose first failing link is this one: `link`, its name, and
///
/// - `checkpoint`: `cause`, a list of `ParseCheckpointError` and the rule that the text breaks first;
/// - `note-key`: as [`with_unsigned`](crate::with_unsigned);
/// - `note-match`: `cause`, a list of `ConsistencyProofError` and the name of the error, and what the error keeps;
///   `new`, the `treeSize` and the `rootHash` of the new tree; and `note`, its `origin`, `treeSize` and `rootHash`;
/// - `consistency`: likewise, and `old`, the `treeSize` and the `rootHash` of the older tree, which replace the sizes
///   that an error keeps as `new` and `old`.
///
/// If every link holds, it is what was verified: `new`, `note` and `old`. Fails only if out of memory.
#[tactic(auto, unfolding(crate::specs::Consistency::consistency_tree))]
pub fn consistency_explanation(
    alloc: Global,
    request: &ConsistencyRequest,
    failing: Option<Link>,
) -> Result<Document, OutOfMemory>
    ensures { IfOk result (λ document. document_tree document ≡ consistency_tree request.now failing) }
{
    let object = consistency_object(alloc, request, failing)?;
    Ok(object.into_document())
}

/// The object of a request.
fn consistency_object(
    alloc: Global,
    request: &ConsistencyRequest,
    failing: Option<Link>,
) -> Result<Object, OutOfMemory>
    ensures { IfOk result (λ made. members made
        ≡ members_into no_members (consistency_tree_rows request.now failing)) }
{
    let Some(link) = failing else {
        return with_trees(Object::new(alloc), alloc, request);
    };
    let object = Object::new(alloc).with_text(alloc, "link", link.name())?;
    with_link(object, alloc, request, link)
}

/// The object with both trees and the note.
fn with_trees(
    object: Object,
    alloc: Global,
    request: &ConsistencyRequest,
) -> Result<Object, OutOfMemory>
    ensures { IfOk result (λ made. members made ≡ members_into (members object) (grown_rows request.now)) }
{
    let object = with_head(object, alloc, "old", request.old_size, &request.old_root)?;
    with_new(object, alloc, request)
}

/// The object with the new tree and the note.
fn with_new(
    object: Object,
    alloc: Global,
    request: &ConsistencyRequest,
) -> Result<Object, OutOfMemory>
    ensures { IfOk result (λ made. members made ≡ members_into (members object) (new_rows request.now)) }
{
    let object = with_head(object, alloc, "new", request.tree_size, &request.root_hash)?;
    with_note(object, alloc, request.head.checkpoint.as_str())
}

/// The object with why a link fails.
fn with_link(
    object: Object,
    alloc: Global,
    request: &ConsistencyRequest,
    link: Link,
) -> Result<Object, OutOfMemory>
    ensures { IfOk result (λ made. members made
        ≡ members_into (members object) (consistency_link_rows request.now link)) }
{
    match link {
        Link::Checkpoint => with_unread(object, alloc, request.head.checkpoint.as_str()),
        Link::NoteKey => with_unsigned_head(object, alloc, &request.head),
        Link::NoteMatch => with_match(object, alloc, request),
        Link::Consistency => with_growth(object, alloc, request),
        _ => Ok(object),
    }
}

/// The object with what is wrong with the note, and with the new tree and the note.
fn with_match(
    object: Object,
    alloc: Global,
    request: &ConsistencyRequest,
) -> Result<Object, OutOfMemory>
    ensures { IfOk result (λ made. members made
        ≡ members_into (members object) (consistency_match_rows request.now)) }
{
    let object = with_note_mismatch(object, alloc, request)?;
    with_new(object, alloc, request)
}

/// The object with what is wrong with the note.
fn with_note_mismatch(
    object: Object,
    alloc: Global,
    request: &ConsistencyRequest,
) -> Result<Object, OutOfMemory>
    ensures { IfOk result (λ made. members made ≡ members_into (members object)
        (head_mismatch_rows request.now.head request.now.tree_size request.now.root_hash)) }
{
    let text = request.head.checkpoint.as_str();
    with_mismatch(object, alloc, text, request.tree_size, &request.root_hash)
}

/// The object with what is wrong with the hashes, and with both trees and the note.
fn with_growth(
    object: Object,
    alloc: Global,
    request: &ConsistencyRequest,
) -> Result<Object, OutOfMemory>
    ensures { IfOk result (λ made. members made ≡ members_into (members object) (growth_rows request.now)) }
{
    let object = with_growth_error(object, alloc, request)?;
    with_trees(object, alloc, request)
}

/// The object with what is wrong with the hashes.
fn with_growth_error(
    object: Object,
    alloc: Global,
    request: &ConsistencyRequest,
) -> Result<Object, OutOfMemory>
    ensures { IfOk result (λ made. members made
        ≡ members_into (members object) (consistency_rows (growth_answer request.now))) }
{
    with_consistency(object, alloc, &growth_answer(request))
}

/// The check that the tree has the older one as its first leaves.
fn growth_answer(request: &ConsistencyRequest) -> Result<(), MerkleProofError>
    ensures { result ≡ growth_answer request.now }
{
    verify_consistency(
        request.old_size,
        request.tree_size,
        request.hashes.as_slice(),
        &request.old_root,
        &request.root_hash,
    )
}
