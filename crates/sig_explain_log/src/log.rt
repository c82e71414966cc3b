//! A request of `log`: why its first failing link fails, or what was verified.
//!
//! ```text
//! {"cause":["InclusionProofError","WrongProofSize"],"got":"3","link":"inclusion","note":{..},"proof":{..},"want":"2"}
//! {"entrySha256":"..","note":{..},"proof":{..}}
//! ```
ghost use Rattle.std.specs.Prelude.{◌≡◌, IfOk};
ghost use Rattle.sig_json.specs.Writing.{members, members_into};
ghost use Rattle.sig_explain_log.specs.Head.{head_mismatch_rows};
ghost use Rattle.sig_explain_log.specs.Log.{log_inclusion_rows, log_link_rows, log_match_rows, log_rows, log_tree};
ghost use Rattle.sig_explain_log.specs.Log.{log_trees_rows, logged_rows, path_answer};
ghost use Rattle.sig_explain_log.specs.Refusals.{inclusion_rows};
ghost use Rattle.sig_json.specs.Data.{no_members};
ghost use Rattle.sig_json.specs.Tree.{document_tree};

use crate::accepted::with_unsigned_head;
use crate::proof::{with_inclusion, with_mismatch};
use crate::tree::{with_entry, with_note};
use crate::unread::with_unread;
use sig_base::{MerkleProofError, OutOfMemory};
use sig_evidence::with_proof;
use sig_json::{Document, Object};
use sig_merkle::hash_leaf;
use sig_merkle::uncounted::verify_inclusion;
use sig_request::LogRequest;
use sig_verify::Link;
use std::alloc::Global;

/// The explanation of a request of `log`, whose first failing link is this one: `link`, its name, and
///
/// - `checkpoint`: `cause`, a list of `ParseCheckpointError` and the rule that the text breaks first;
/// - `note-key`: as [`with_unsigned`](crate::with_unsigned);
/// - `note-match`: `cause`, a list of `ConsistencyProofError` and the name of the error, and what the error keeps;
///   `proof`, its `logIndex`, `treeSize` and `rootHash`; and `note`, its `origin`, `treeSize` and `rootHash`;
/// - `inclusion`: likewise, with `InclusionProofError`. A negative index gives `IndexGtTreeSize`.
///
/// If every link holds, it is what was verified: `entrySha256`, `note` and `proof`. Fails only if out of memory.
#[tactic(auto, unfolding(crate::specs::Log::log_tree))]
pub fn log_explanation(
    alloc: Global,
    request: &LogRequest,
    failing: Option<Link>,
) -> Result<Document, OutOfMemory>
    ensures { IfOk result (λ document. document_tree document ≡ log_tree request.now failing) }
{
    let object = log_object(alloc, request, failing)?;
    Ok(object.into_document())
}

/// The object of a request.
fn log_object(
    alloc: Global,
    request: &LogRequest,
    failing: Option<Link>,
) -> Result<Object, OutOfMemory>
    ensures { IfOk result (λ made. members made ≡ members_into no_members (log_rows request.now failing)) }
{
    let Some(link) = failing else {
        return logged(alloc, request);
    };
    let object = Object::new(alloc).with_text(alloc, "link", link.name())?;
    with_link(object, alloc, request, link)
}

/// The object of what was verified.
fn logged(alloc: Global, request: &LogRequest) -> Result<Object, OutOfMemory>
    ensures { IfOk result (λ made. members made ≡ members_into no_members (logged_rows request.now)) }
{
    let object = with_entry(Object::new(alloc), alloc, request.entry.as_slice())?;
    with_trees(object, alloc, request)
}

/// The object with the proof and the note.
fn with_trees(object: Object, alloc: Global, request: &LogRequest) -> Result<Object, OutOfMemory>
    ensures { IfOk result (λ made. members made ≡ members_into (members object) (log_trees_rows request.now)) }
{
    let object = with_proof(object, alloc, "proof", &request.proof)?;
    with_note(object, alloc, request.head.checkpoint.as_str())
}

/// The object with why a link fails.
fn with_link(
    object: Object,
    alloc: Global,
    request: &LogRequest,
    link: Link,
) -> Result<Object, OutOfMemory>
    ensures { IfOk result (λ made. members made ≡ members_into (members object) (log_link_rows request.now link)) }
{
    match link {
        Link::Checkpoint => with_unread(object, alloc, request.head.checkpoint.as_str()),
        Link::NoteKey => with_unsigned_head(object, alloc, &request.head),
        Link::NoteMatch => with_match(object, alloc, request),
        Link::Inclusion => with_path(object, alloc, request),
        _ => Ok(object),
    }
}

/// The object with what is wrong with the note, and with both.
fn with_match(object: Object, alloc: Global, request: &LogRequest) -> Result<Object, OutOfMemory>
    ensures { IfOk result (λ made. members made ≡ members_into (members object) (log_match_rows request.now)) }
{
    let object = with_note_mismatch(object, alloc, request)?;
    with_trees(object, alloc, request)
}

/// The object with what is wrong with the note.
fn with_note_mismatch(
    object: Object,
    alloc: Global,
    request: &LogRequest,
) -> Result<Object, OutOfMemory>
    ensures { IfOk result (λ made. members made ≡ members_into (members object)
        (head_mismatch_rows request.now.head request.now.proof.tree_size request.now.proof.root_hash)) }
{
    let proof = &request.proof;
    let text = request.head.checkpoint.as_str();
    with_mismatch(object, alloc, text, proof.tree_size, &proof.root_hash)
}

/// The object with what is wrong with the path, and with the proof and the note.
fn with_path(object: Object, alloc: Global, request: &LogRequest) -> Result<Object, OutOfMemory>
    ensures { IfOk result (λ made. members made ≡ members_into (members object) (log_inclusion_rows request.now)) }
{
    let object = with_path_error(object, alloc, request)?;
    with_trees(object, alloc, request)
}

/// The object with what is wrong with the path.
fn with_path_error(
    object: Object,
    alloc: Global,
    request: &LogRequest,
) -> Result<Object, OutOfMemory>
    ensures { IfOk result (λ made. members made ≡ members_into (members object)
        (inclusion_rows (path_answer request.now.proof.log_index request.now))) }
{
    with_inclusion(object, alloc, &path_answer(request))
}

/// The check of the path from the entry's leaf to the root.
fn path_answer(request: &LogRequest) -> Result<(), MerkleProofError>
    ensures { result ≡ path_answer request.now.proof.log_index request.now }
{
    let proof = &request.proof;
    let Ok(index) = u64::try_from(proof.log_index) else {
        return Err(MerkleProofError::IndexGtTreeSize);
    };
    verify_inclusion(
        index,
        &hash_leaf(request.entry.as_slice()),
        proof.tree_size,
        proof.hashes.as_slice(),
        &proof.root_hash,
    )
}
