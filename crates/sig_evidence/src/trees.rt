//! What an inclusion proof and the note of its checkpoint say of a tree.
//!
//! ```text
//! {"note":{"origin":"log.example","rootHash":"..","treeSize":"5"},
//!  "proof":{"logIndex":"2","rootHash":"..","treeSize":"5"}}
//! ```
ghost use Rattle.std.specs.Prelude.{◌≡◌, IfOk, codes, option_map};
ghost use Rattle.sig_json.specs.Writing.{members, members_into, put_some};
ghost use Rattle.sig_evidence.specs.Trees.{note_tree, proof_tree, trees_rows};
ghost use Rattle.sig_json.specs.Data.{put};
ghost use Rattle.sig_json.specs.Tree.{document_tree};

use sig_base::OutOfMemory;
use sig_json::{Document, Object};
use sig_rekor::{Checkpoint, InclusionProof, SignedCheckpoint};
use sig_shown::{with_count, with_integer, with_shown};
use std::alloc::Global;

/// The object with what a proof says of its tree as a member: the `logIndex`, the `treeSize` and the `rootHash`. Fails
/// only if out of memory.
pub fn with_proof(
    object: Object,
    alloc: Global,
    name: &str,
    proof: &InclusionProof,
) -> Result<Object, OutOfMemory>
    ensures { IfOk result (λ made. members made ≡ put name.now (proof_tree proof.now) (members object)) }
{
    let value = proof_document(alloc, proof)?;
    object.with(alloc, name, value)
}

/// What a proof says of its tree.
#[tactic(auto, unfolding(crate::specs::Trees::proof_tree))]
fn proof_document(alloc: Global, proof: &InclusionProof) -> Result<Document, OutOfMemory>
    ensures { IfOk result (λ document. document_tree document ≡ proof_tree proof.now) }
{
    let object = with_integer(Object::new(alloc), alloc, "logIndex", &proof.log_index)?;
    let object = with_count(object, alloc, "treeSize", proof.tree_size)?;
    let object = object.with_hex(alloc, "rootHash", &proof.root_hash)?;
    Ok(object.into_document())
}

/// The object with what the links `note-match` and `inclusion` compare: `proof`, with the `logIndex`, the `treeSize` and
/// the `rootHash` of the proof; and `note`, with the `origin`, the `treeSize` and the `rootHash` of the note, if there is
/// a checkpoint. Fails only if out of memory.
pub fn with_trees(
    object: Object,
    alloc: Global,
    proof: &InclusionProof,
) -> Result<Object, OutOfMemory>
    ensures { IfOk result (λ made. members made ≡ members_into (members object) (trees_rows proof.now)) }
{
    let object = with_proof(object, alloc, "proof", proof)?;
    with_note(object, alloc, &proof.checkpoint)
}

/// The object with what the note of a checkpoint says of its tree, if there is one.
fn with_note(
    object: Object,
    alloc: Global,
    checkpoint: &Option<SignedCheckpoint>,
) -> Result<Object, OutOfMemory>
    ensures { IfOk result (λ made. members made ≡ put_some (codes "note")
        (option_map (λ checkpoint. note_tree checkpoint.note) checkpoint.now) (members object)) }
{
    let Some(checkpoint) = checkpoint else {
        return Ok(object);
    };
    let value = note_document(alloc, &checkpoint.note)?;
    object.with(alloc, "note", value)
}

/// What a note says of its tree: its `origin`, the `treeSize` and the `rootHash`, in hexadecimal. Fails only if out of
/// memory.
#[tactic(auto, unfolding(crate::specs::Trees::note_tree))]
pub fn note_document(alloc: Global, note: &Checkpoint) -> Result<Document, OutOfMemory>
    ensures { IfOk result (λ document. document_tree document ≡ note_tree note.now) }
{
    let origin = note.origin.as_str();
    let object = with_shown(Object::new(alloc), alloc, "origin", "originLength", origin)?;
    let object = with_count(object, alloc, "treeSize", note.size)?;
    let object = object.with_hex(alloc, "rootHash", &note.hash)?;
    Ok(object.into_document())
}
