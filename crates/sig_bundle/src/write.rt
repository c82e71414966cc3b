//! The text of a bundle.
ghost use Rattle.std.specs.Prelude.{◌≡◌, IfOk, Ok, Some};
ghost use Rattle.sig_json.specs.Written.{compact_text};
ghost use Rattle.sig_bundle.specs.BundleRecord.{bundle_in, bundle_of};
ghost use Rattle.sig_bundle.specs.BundleTree.{bundle_tree};
ghost use Rattle.sig_json.specs.Tree.{document_tree};

use crate::bundle::Bundle;
use crate::write_content::with_content;
use crate::write_material::MaterialWriter;
use sig_base::{OutOfMemory, Text};
use sig_json::{Document, Object};
use sig_json_text::compact;
use std::alloc::Global;

/// The text of a bundle, without white space, the members of each object in the byte order of their names. Every text,
/// integer and bytes value is written, also where it is empty; integers are written as texts; only what is absent is
/// left out. The text is read back as the same bundle. Fails only if out of memory.
#[tactic(auto, using(crate::proofs::BundleDepths::nesting))]
pub fn bundle_text(alloc: Global, bundle: &Bundle) -> Result<Text, OutOfMemory>
    ensures text { IfOk result (λ text. text ≡ compact_text (bundle_tree bundle.now)) }
    ensures reads_back { IfOk result (λ text. bundle_in text ≡ Ok bundle.now) }
{
    let document = write_bundle(alloc, bundle)?;
    compact(alloc, document.view())
}

/// The tree of a bundle.
#[tactic(auto, using(crate::proofs::MaterialReadings::back), unfolding(crate::specs::BundleTree::bundle_tree))]
fn write_bundle(alloc: Global, bundle: &Bundle) -> Result<Document, OutOfMemory>
    ensures tree { IfOk result (λ document. document_tree document ≡ bundle_tree bundle.now) }
    ensures back { IfOk result (λ _. bundle_of (bundle_tree bundle.now) ≡ Some bundle.now) }
{
    let object = Object::new(alloc)
        .with_text(alloc, "mediaType", bundle.media_type.as_str())?
        .with_option::<MaterialWriter>(
            alloc,
            "verificationMaterial",
            &bundle.verification_material,
        )?;
    let object = with_content(object, alloc, &bundle.content)?;
    Ok(object.into_document())
}
