//! What is shown of a refusal, by the link that fails.
//!
//! ```text
//! {"cause":["ParseCheckpointError","NoDash"],"index":"3","link":"checkpoint"}
//! {"cause":["Origin"],"expected":"log.example","got":"other.example","index":"1","link":"origin"}
//! ```
ghost use Rattle.std.specs.Prelude.{◌≡◌, ◌≢◌, IfOk, OnOk, codes, option_map, slice_get};
ghost use Rattle.sig_audit.specs.declared.error.AuditError.TheVariants as fault;
ghost use Rattle.sig_json.specs.Writing.{members, members_into, put_some};
ghost use Rattle.sig_explain_audit.specs.RefusalRows.{expected_rows, fault_rows, fault_tree, got_rows, growth_rows, head_origin_rows};
ghost use Rattle.sig_explain_audit.specs.RefusalRows.{head_unread_rows, head_unsigned_rows, link_rows, proof_rows};
ghost use Rattle.sig_explain_audit.specs.RefusalRows.{unread_tree, watch_proof_tree};
ghost use Rattle.sig_explain_audit.specs.Audited.{audit_head_tree};
ghost use Rattle.sig_json.specs.Data.{no_members};
ghost use Rattle.sig_json.specs.Tree.{document_tree};

use sig_audit::{AuditError, AuditHead, Heads, Watch};
use sig_base::{MerkleProofError, OutOfMemory};
use sig_explain_log::{
    with_consistency_error, with_head, with_inclusion_error, with_unread, with_unsigned,
};
use sig_explanation::with_cause;
use sig_json::{Document, Object};
use sig_request::AuditRequest;
use sig_shown::{with_count, with_shown};
use std::alloc::Global;

// ---- `checkpoint`

/// The refusal of the head at an index, whose text is not a checkpoint. Fails only if out of memory.
#[tactic(auto, unfolding(crate::specs::RefusalRows::unread_tree))]
pub(crate) fn unread_document(
    alloc: Global,
    request: &AuditRequest,
    place: usize,
) -> Result<Document, OutOfMemory>
    ensures { IfOk result (λ document. document_tree document ≡ unread_tree request.now.heads place) }
{
    let object = refusal_at(alloc, "checkpoint", place)?;
    let object = with_head_unread(object, alloc, request, place)?;
    Ok(object.into_document())
}

/// The object of a refusal by a link, at a head or a watched entry.
fn refusal_at(alloc: Global, link: &str, place: usize) -> Result<Object, OutOfMemory>
    ensures { IfOk result (λ made. members made ≡ members_into no_members (link_rows link.now place)) }
{
    let object = with_count(Object::new(alloc), alloc, "index", place as u64)?;
    object.with_text(alloc, "link", link)
}

/// The object with the rule that the text of the head at an index breaks.
fn with_head_unread(
    object: Object,
    alloc: Global,
    request: &AuditRequest,
    place: usize,
) -> Result<Object, OutOfMemory>
    ensures { IfOk result (λ made. members made
        ≡ members_into (members object) (head_unread_rows (slice_get request.now.heads place))) }
{
    let Some(head) = request.heads.as_slice().get(place) else {
        return Ok(object);
    };
    with_unread(object, alloc, head.checkpoint.as_str())
}

// ---- all

/// The refusal with which the audit of a request's heads ends: the link, the cause, the index of the head or of the
/// watched entry, and what the link compares. Fails only if out of memory, also where the audit did.
#[tactic(auto, unfolding(crate::specs::RefusalRows::fault_tree))]
pub(crate) fn fault_document(
    alloc: Global,
    request: &AuditRequest,
    heads: &Heads,
    error: AuditError,
) -> Result<Document, OutOfMemory>
    ensures tree { IfOk result (λ document. document_tree document ≡ fault_tree request.now heads.now error) }
    ensures known { OnOk result (error ≢ fault.OutOfMemory) }
{
    let object = fault_object(alloc, request, heads, error)?;
    Ok(object.into_document())
}

/// The object of the refusal with which an audit ends.
fn fault_object(
    alloc: Global,
    request: &AuditRequest,
    heads: &Heads,
    error: AuditError,
) -> Result<Object, OutOfMemory>
    ensures rows { IfOk result (λ made. members made
        ≡ members_into no_members (fault_rows request.now heads.now error)) }
    ensures known { OnOk result (error ≢ fault.OutOfMemory) }
{
    match error {
        AuditError::NoteKey(place) => unsigned_object(alloc, request, heads, place),
        AuditError::Origin(place) => origin_object(alloc, request, heads, place),
        AuditError::Consistency(place, e) => growth_object(alloc, request, heads, place, e),
        AuditError::Inclusion(place, e) => inclusion_object(alloc, request, heads, place, e),
        // There is a head, and each watched entry is under one.
        AuditError::Empty | AuditError::Head(_) => Ok(Object::new(alloc)),
        AuditError::OutOfMemory => Err(OutOfMemory),
    }
}

// ---- `note-key`

/// The refusal of a head that the log did not sign.
fn unsigned_object(
    alloc: Global,
    request: &AuditRequest,
    heads: &Heads,
    place: usize,
) -> Result<Object, OutOfMemory>
    ensures { IfOk result (λ made. members made
        ≡ members_into no_members (fault_rows request.now heads.now (fault.NoteKey place))) }
{
    let object = refusal_at(alloc, "note-key", place)?;
    with_head_unsigned(object, alloc, request, place)
}

/// The object with what the accepted signatures have of the note of the head at an index.
fn with_head_unsigned(
    object: Object,
    alloc: Global,
    request: &AuditRequest,
    place: usize,
) -> Result<Object, OutOfMemory>
    ensures { IfOk result (λ made. members made
        ≡ members_into (members object) (head_unsigned_rows request.now (slice_get request.now.heads place))) }
{
    let Some(head) = request.heads.as_slice().get(place) else {
        return Ok(object);
    };
    with_unsigned(
        object,
        alloc,
        request.scheme.scheme(),
        request.key.as_slice(),
        &request.accepted,
        head.checkpoint.as_str(),
    )
}

// ---- `origin`

/// The refusal of a head that does not have the origin of the first one.
#[tactic(auto, using(crate::proofs::Members::members_after))]
fn origin_object(
    alloc: Global,
    request: &AuditRequest,
    heads: &Heads,
    place: usize,
) -> Result<Object, OutOfMemory>
    ensures { IfOk result (λ made. members made
        ≡ members_into no_members (fault_rows request.now heads.now (fault.Origin place))) }
{
    let object = refusal_at(alloc, "origin", place)?;
    let object = with_cause(object, alloc, "Origin")?;
    with_origins(object, alloc, heads, place)
}

/// The object with the origin of the first head, and that of the head at an index.
fn with_origins(
    object: Object,
    alloc: Global,
    heads: &Heads,
    place: usize,
) -> Result<Object, OutOfMemory>
    ensures { IfOk result (λ made. members made
        ≡ members_into (members_into (members object) (expected_rows heads.now)) (got_rows heads.now place)) }
{
    let object = with_head_origin(object, alloc, "expected", "expectedLength", heads, 0)?;
    with_head_origin(object, alloc, "got", "gotLength", heads, place)
}

/// The object with the origin of the head at an index.
fn with_head_origin(
    object: Object,
    alloc: Global,
    name: &str,
    length_name: &str,
    heads: &Heads,
    place: usize,
) -> Result<Object, OutOfMemory>
    ensures { IfOk result (λ made. members made ≡ members_into (members object)
        (head_origin_rows name.now length_name.now (slice_get heads.now place))) }
{
    let Some(head) = heads.as_slice().get(place) else {
        return Ok(object);
    };
    let origin = head.checkpoint.note.origin.as_str();
    with_shown(object, alloc, name, length_name, origin)
}

// ---- `consistency`

/// The refusal of a head whose tree is not shown to have that of the head before it as its first leaves.
#[tactic(auto, using(crate::proofs::Members::members_after))]
fn growth_object(
    alloc: Global,
    request: &AuditRequest,
    heads: &Heads,
    place: usize,
    error: MerkleProofError,
) -> Result<Object, OutOfMemory>
    ensures { IfOk result (λ made. members made
        ≡ members_into no_members (fault_rows request.now heads.now (fault.Consistency place error))) }
{
    let object = refusal_at(alloc, "consistency", place)?;
    let object = with_consistency_error(object, alloc, &error)?;
    with_growth(object, alloc, heads, place)
}

/// The object with the trees of the head before the one at an index, and of that one.
fn with_growth(
    object: Object,
    alloc: Global,
    heads: &Heads,
    place: usize,
) -> Result<Object, OutOfMemory>
    ensures { IfOk result (λ made. members made ≡ members_into (members object) (growth_rows heads.now place)) }
{
    let object = with_tree(object, alloc, "old", heads, place.saturating_sub(1))?;
    with_tree(object, alloc, "new", heads, place)
}

/// The object with what the head at an index says of its tree.
fn with_tree(
    object: Object,
    alloc: Global,
    name: &str,
    heads: &Heads,
    place: usize,
) -> Result<Object, OutOfMemory>
    ensures { IfOk result (λ made. members made
        ≡ put_some name.now (option_map audit_head_tree (slice_get heads.now place)) (members object)) }
{
    let Some(head) = heads.as_slice().get(place) else {
        return Ok(object);
    };
    let note = &head.checkpoint.note;
    with_head(object, alloc, name, note.size, &note.hash)
}

// ---- `inclusion`

/// The refusal of a watched entry that is not shown to be in the tree of its head.
#[tactic(auto, using(crate::proofs::Members::members_after))]
fn inclusion_object(
    alloc: Global,
    request: &AuditRequest,
    heads: &Heads,
    place: usize,
    error: MerkleProofError,
) -> Result<Object, OutOfMemory>
    ensures { IfOk result (λ made. members made
        ≡ members_into no_members (fault_rows request.now heads.now (fault.Inclusion place error))) }
{
    let object = refusal_at(alloc, "inclusion", place)?;
    let object = with_inclusion_error(object, alloc, &error)?;
    with_watch_proof(object, alloc, request, heads, place)
}

/// The object with the proof of the watched entry at an index, if it is there and its head is.
fn with_watch_proof(
    object: Object,
    alloc: Global,
    request: &AuditRequest,
    heads: &Heads,
    place: usize,
) -> Result<Object, OutOfMemory>
    ensures { IfOk result (λ made. members made
        ≡ members_into (members object) (proof_rows request.now heads.now place)) }
{
    let Some(watch) = request.watched.as_slice().get(place) else {
        return Ok(object);
    };
    with_proof_under(object, alloc, heads, watch)
}

/// The object with the proof of a watched entry, if its head is there.
fn with_proof_under(
    object: Object,
    alloc: Global,
    heads: &Heads,
    watch: &Watch,
) -> Result<Object, OutOfMemory>
    ensures { IfOk result (λ made. members made ≡ put_some (codes "proof")
        (option_map (watch_proof_tree watch.now) (slice_get heads.now watch.now.head)) (members object)) }
{
    let Some(head) = heads.as_slice().get(watch.head) else {
        return Ok(object);
    };
    let value = watch_proof_document(alloc, watch, head)?;
    object.with(alloc, "proof", value)
}

/// The index of a watched entry and the tree of its head.
#[tactic(auto, unfolding(crate::specs::RefusalRows::watch_proof_tree))]
fn watch_proof_document(
    alloc: Global,
    watch: &Watch,
    head: &AuditHead,
) -> Result<Document, OutOfMemory>
    ensures { IfOk result (λ document. document_tree document ≡ watch_proof_tree watch.now head.now) }
{
    let note = &head.checkpoint.note;
    let object = with_count(Object::new(alloc), alloc, "logIndex", watch.index)?;
    let object = with_count(object, alloc, "treeSize", note.size)?;
    let object = object.with_hex(alloc, "rootHash", &note.hash)?;
    Ok(object.into_document())
}
