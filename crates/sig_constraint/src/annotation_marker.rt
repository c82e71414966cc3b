//! `AnnotationMarker`: annotations that are added to a layer before it is signed.

ghost use Rattle.std.specs.Prelude.{◌≡◌, IfOk, IsOkUnless, Some, option_map};
ghost use Rattle.sig_base.specs.declared.error.SigstoreError.TheVariants.{OutOfMemory as Memory};
ghost use Rattle.sig_json.specs.Data.{Data};
ghost use Rattle.sig_json.specs.Tree.{document_tree};
ghost use Rattle.sig_payload.specs.Signing.{seen_optional};
ghost use Rattle.sig_cosign.specs.Layer.{seen_layer};
ghost use Rattle.sig_constraint.specs.Marked.{annotations_of, are_free, is_free, marker_gives, with_extra, with_texts};
ghost use Rattle.sig_constraint.specs.CallResults.{IsApplied};

use crate::constraint::Constraint;
use sig_base::{OutOfMemory, Result, TextMap};
use sig_cosign::{Optional, SignatureLayer};
use sig_json::Document;
use std::alloc::Global;

/// Adds annotations to a layer's payload, for [`AnnotationVerifier`](crate::AnnotationVerifier) to find. It has to be
/// applied before the layer is signed: it changes the payload, and not the raw data that a signature is over.
#[derive(Drop)]
pub struct AnnotationMarker {
    /// The annotations: names with their texts.
    pub annotations: TextMap,
}

impl AnnotationMarker {
    /// Returns the constraint that adds these annotations.
    pub fn new(annotations: TextMap) -> AnnotationMarker
        ensures { result.annotations ≡ annotations }
    {
        AnnotationMarker { annotations }
    }
}

impl Constraint for AnnotationMarker {
    ghost gives = { λ m l. marker_gives m.annotations l };

    /// Returns `false` if the payload has one of the names with another value than its text; a number is another value.
    /// Else each name has its text afterwards, and everything else stays: other annotations, creator and timestamp, and
    /// the other parts of the layer. A payload without `optional` gets one with only these annotations, and annotations
    /// that are not an object are replaced. Fails only if out of memory; the layer is then unchanged, since the
    /// annotations are made before it changes.
    fn add_constraint(&self, alloc: Global, signature_layer: &mut SignatureLayer) -> Result<bool>
        ensures applied { IsApplied (marker_gives self.now.annotations (seen_layer signature_layer.old))
            signature_layer.old signature_layer.new result }
        ensures only_memory { IsOkUnless result Memory }
    {
        if !are_free(&signature_layer.simple_signing.optional, &self.annotations) {
            return Ok(false);
        }
        let extra = annotated(
            alloc,
            &signature_layer.simple_signing.optional,
            &self.annotations,
        )?;
        set_extra(&mut signature_layer.simple_signing.optional, extra);
        Ok(true)
    }
}

/// Whether none of these names has a value other than its text.
fn are_free(optional: &Option<Optional>, annotations: &TextMap) -> bool
    ensures { result ≡ are_free (option_map seen_optional optional.now) annotations.now }
{
    'annotations: for (name, text) in annotations.iter() {
        if !is_free(optional, name, text) {
            return false;
        }
    }
    true
}

/// Whether the name has no value, or this text.
#[tactic(auto, using(crate::proofs::MarkedLaws::saying))]
fn is_free(optional: &Option<Optional>, name: &str, text: &str) -> bool
    ensures { result ≡ is_free (option_map seen_optional optional.now) (name.now, text.now) }
{
    let Some(optional) = optional else {
        return true;
    };
    let Some(value) = optional.extra.view().get(name) else {
        return true;
    };
    match value.text() {
        Some(said) => said == text,
        None => false,
    }
}

/// The annotations of the payload with these ones. Fails only if out of memory.
#[tactic(auto, using(crate::proofs::MarkedLaws::marking))]
fn annotated(
    alloc: Global,
    optional: &Option<Optional>,
    annotations: &TextMap,
) -> std::result::Result<Document, OutOfMemory>
    ensures { IfOk result (λ extra. document_tree extra
        ≡ with_texts annotations.now (annotations_of (option_map seen_optional optional.now))) }
{
    let mut extra = annotations_of(alloc, optional)?;
    'annotations: for (name, text) in annotations.iter() {
        let value = Document::of_text(alloc, text)?;
        extra.insert(alloc, name, value)?;
    }
    Ok(extra)
}

/// The annotations of the payload, an object. Fails only if out of memory.
#[tactic(auto, using(crate::proofs::MarkedLaws::reading))]
fn annotations_of(
    alloc: Global,
    optional: &Option<Optional>,
) -> std::result::Result<Document, OutOfMemory>
    ensures { IfOk result (λ extra. document_tree extra
        ≡ annotations_of (option_map seen_optional optional.now)) }
{
    let Some(optional) = optional else {
        return Ok(Document::object(alloc));
    };
    let extra = optional.extra.view();
    match extra.members() {
        Some(_) => extra.copy(alloc),
        None => Ok(Document::object(alloc)),
    }
}

/// Gives the payload these annotations.
fn set_extra(optional: &mut Option<Optional>, extra: Document)
    ensures { option_map seen_optional optional.new
        ≡ Some (with_extra (document_tree extra) (option_map seen_optional optional.old)) }
{
    match optional {
        Some(optional) => optional.extra = extra,
        None => {
            *optional = Some(Optional {
                creator: None,
                timestamp: None,
                extra,
            });
        }
    }
}
