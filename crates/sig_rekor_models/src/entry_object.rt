//! The object of an entry: its version, its kind, and what it says.
ghost use Rattle.std.specs.Prelude.{◌≡◌, IfOk};
ghost use Rattle.sig_json.specs.Tree.{document_tree};
ghost use Rattle.sig_rekor_models.specs.EntryTree.{entry_json};

use sig_base::OutOfMemory;
use sig_json::{Document, Object};
use std::alloc::Global;

/// The object of an entry of this kind, version and spec. Fails only if out of memory.
#[tactic(auto, unfolding(crate::specs::EntryTree::entry_json))]
pub(crate) fn entry_object(
    alloc: Global,
    kind: &str,
    api_version: &str,
    spec: Document,
) -> Result<Document, OutOfMemory>
    ensures { IfOk result (λ made. document_tree made
        ≡ entry_json kind.now api_version.now (document_tree spec)) }
{
    let object = Object::new(alloc)
        .with_text(alloc, "apiVersion", api_version)?
        .with_text(alloc, "kind", kind)?
        .with(alloc, "spec", spec)?;
    Ok(object.into_document())
}
