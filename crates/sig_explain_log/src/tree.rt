//! A log's tree: its size and root, the note of its checkpoint, and an entry.
//!
//! ```text
//! {"entrySha256":"..","new":{"rootHash":"..","treeSize":"5"},
//!  "note":{"origin":"log.example","rootHash":"..","treeSize":"5"},..}
//! ```
ghost use Rattle.std.specs.Prelude.{◌≡◌, IfOk, codes};
ghost use Rattle.sig_json.specs.Writing.{members, put_some};
ghost use Rattle.sig_explain_log.specs.Trees.{head_tree, note_in};
ghost use Rattle.sig_json.specs.Data.{put};
ghost use Rattle.sig_json.specs.Tree.{document_tree};
ghost use Rattle.sig_rekor.specs.CheckpointText.{checkpoint_of};
ghost use Rattle.sig_shown.specs.ShownValues.{sha256_tree};

use crate::reading::read_checkpoint;
use sig_base::OutOfMemory;
use sig_evidence::note_document;
use sig_json::{Document, Object};
use sig_shown::{with_count, with_sha256};
use std::alloc::Global;

/// A tree: `treeSize`, how many leaves it has, and `rootHash`, its root in hexadecimal. Fails only if out of memory.
#[tactic(auto, unfolding(crate::specs::Trees::head_tree))]
pub fn head_document(alloc: Global, size: u64, root: &[u8; 32]) -> Result<Document, OutOfMemory>
    ensures { IfOk result (λ document. document_tree document ≡ head_tree size root.now) }
{
    let object = with_count(Object::new(alloc), alloc, "treeSize", size)?;
    let object = object.with_hex(alloc, "rootHash", root)?;
    Ok(object.into_document())
}

/// The object with a tree as a member, as [`head_document`]. Fails only if out of memory.
pub fn with_head(
    object: Object,
    alloc: Global,
    name: &str,
    size: u64,
    root: &[u8; 32],
) -> Result<Object, OutOfMemory>
    ensures { IfOk result (λ made. members made ≡ put name.now (head_tree size root.now) (members object)) }
{
    let value = head_document(alloc, size, root)?;
    object.with(alloc, name, value)
}

/// The object with `note`, what the note of a text says of its tree: its `origin`, the `treeSize` and the `rootHash`. Of a
/// text that is not a checkpoint the object stays as it is. Fails only if out of memory.
pub fn with_note(object: Object, alloc: Global, text: &str) -> Result<Object, OutOfMemory>
    ensures { IfOk result (λ made. members made
        ≡ put_some (codes "note") (note_in (checkpoint_of text.now)) (members object)) }
{
    let Ok(checkpoint) = read_checkpoint(alloc, text)? else {
        return Ok(object);
    };
    let value = note_document(alloc, &checkpoint.note)?;
    object.with(alloc, "note", value)
}

/// The object with `entrySha256`, the SHA-256 of an entry, in hexadecimal. Fails only if out of memory.
pub fn with_entry(object: Object, alloc: Global, entry: &[u8]) -> Result<Object, OutOfMemory>
    ensures { IfOk result (λ made. members made
        ≡ put (codes "entrySha256") (sha256_tree entry.now) (members object)) }
{
    with_sha256(object, alloc, "entrySha256", entry)
}
