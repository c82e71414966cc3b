//! What is shown of an audited log.
//!
//! ```text
//! {"headCount":"2","heads":[{"rootHash":"..","treeSize":"1"},{"rootHash":"..","treeSize":"2"}],"origin":"log.example",
//!  "watched":[{"entrySha256":"..","head":"1","index":"0"}],"watchedCount":"1"}
//! ```
ghost use Rattle.std.specs.Prelude.{◌≡◌, IfOk};
ghost use Rattle.sig_json.specs.Writing.{members, members_into};
ghost use Rattle.sig_explain_audit.specs.Audited.{audit_head_tree, audited_tree, origin_rows, watch_tree};
ghost use Rattle.sig_json.specs.Data.{Data};
ghost use Rattle.sig_json.specs.Tree.{document_tree};

use sig_audit::{AuditHead, Heads, Watch, WatchList};
use sig_base::OutOfMemory;
use sig_explain_log::head_document;
use sig_json::{Document, Object};
use sig_shown::{Shown, first, with_count, with_list, with_sha256, with_shown};
use std::alloc::Global;

/// The greatest number of heads, and of watched entries, that are shown.
pub const MOST_SHOWN: usize = 256;

/// Shows heads: what each says of its tree.
enum ShownHead {}

impl Shown for ShownHead {
    type Item = AuditHead;

    ghost tree = { audit_head_tree };

    fn show(alloc: Global, item: &AuditHead) -> Result<Document, OutOfMemory> {
        head_document(alloc, item.checkpoint.note.size, &item.checkpoint.note.hash)
    }
}

/// Shows watched entries.
enum ShownWatch {}

impl Shown for ShownWatch {
    type Item = Watch;

    ghost tree = { watch_tree };

    #[tactic(auto, unfolding(crate::specs::Audited::watch_tree))]
    fn show(alloc: Global, item: &Watch) -> Result<Document, OutOfMemory> {
        let object = with_count(Object::new(alloc), alloc, "head", item.head as u64)?;
        let object = with_count(object, alloc, "index", item.index)?;
        let object = with_sha256(object, alloc, "entrySha256", item.entry.as_slice())?;
        Ok(object.into_document())
    }
}

/// What is shown of an audited log: the `origin` of its heads; `headCount` and `watchedCount`, how many heads and
/// watched entries there are; and the first [`MOST_SHOWN`] of each. Fails only if out of memory.
#[tactic(auto, unfolding(crate::specs::Audited::audited_tree))]
pub(crate) fn audited_document(
    alloc: Global,
    heads: &Heads,
    watched: &WatchList,
) -> Result<Document, OutOfMemory>
    ensures { IfOk result (λ document. document_tree document ≡ audited_tree heads.now watched.now) }
{
    let shown = first(heads.as_slice(), MOST_SHOWN);
    let object = with_count(Object::new(alloc), alloc, "headCount", heads.len() as u64)?;
    let object = with_list::<ShownHead>(object, alloc, "heads", shown)?;
    let shown = first(watched.as_slice(), MOST_SHOWN);
    let object = with_count(object, alloc, "watchedCount", watched.len() as u64)?;
    let object = with_list::<ShownWatch>(object, alloc, "watched", shown)?;
    let object = with_origin(object, alloc, heads)?;
    Ok(object.into_document())
}

/// The object with the origin of the first head.
fn with_origin(object: Object, alloc: Global, heads: &Heads) -> Result<Object, OutOfMemory>
    ensures { IfOk result (λ made. members made ≡ members_into (members object) (origin_rows heads.now)) }
{
    let Some((first, _later)) = heads.as_slice().split_first() else {
        return Ok(object);
    };
    let origin = first.checkpoint.note.origin.as_str();
    with_shown(object, alloc, "origin", "originLength", origin)
}
