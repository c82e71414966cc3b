//! Whether a payload has the annotations that a caller asks for.
ghost use Rattle.std.specs.Prelude.{◌≡◌, option_map};
ghost use Rattle.sig_json.specs.Tree.{document_tree, tree};
ghost use Rattle.sig_payload.specs.Annotations.{are_annotated, is_annotated, is_empty_extra, is_said, optional_satisfies};
ghost use Rattle.sig_payload.specs.Annotations.{satisfies};
ghost use Rattle.sig_payload.specs.Signing.{seen_optional, seen_signing};

use crate::simple_signing::{Optional, SimpleSigning};
use itoa::Buffer;
use sig_base::TextMap;
use sig_json::Json;

impl Optional {
    /// Whether the signer's annotations have each of these, with the same value: a text that is the same, or a number
    /// or a truth value of that spelling. False without annotations of the signer, whatever is required.
    pub fn satisfies_annotations(&self, annotations: &TextMap) -> bool
        ensures { result ≡ optional_satisfies (seen_optional self.now) annotations.now }
    {
        let extra = self.extra.view();
        !is_empty(extra) && are_annotated(extra, annotations)
    }
}

/// Whether there are no annotations.
#[tactic(auto, using(crate::proofs::Extras::empties))]
fn is_empty(extra: Json<'_, '_>) -> bool
    ensures { result ≡ is_empty_extra (tree extra.entry) }
{
    let Some(mut members) = extra.members() else {
        return true;
    };
    match members.next() {
        None => true,
        Some(_) => false,
    }
}

/// Whether each of the annotations is there.
fn are_annotated(extra: Json<'_, '_>, annotations: &TextMap) -> bool
    ensures { result ≡ are_annotated (tree extra.entry) annotations.now }
{
    'annotations: for (name, text) in annotations.iter() {
        if !is_annotated(extra, name, text) {
            return false;
        }
    }
    true
}

/// Whether the member of this name is there with this text or spelling.
fn is_annotated(extra: Json<'_, '_>, name: &str, text: &str) -> bool
    ensures { result ≡ is_annotated (tree extra.entry) (name.now, text.now) }
{
    match extra.get(name) {
        Some(value) => is_said(value, text),
        None => false,
    }
}

/// Whether a value is this text, or a number or a truth value of this spelling.
#[tactic(auto, unfolding(crate::specs::Annotations::is_said))]
fn is_said(value: Json<'_, '_>, text: &str) -> bool
    ensures { result ≡ is_said (tree value.entry) text.now }
{
    if let Some(said) = value.text() {
        return said == text;
    }
    if let Some(number) = value.integer() {
        let mut digits = Buffer::new();
        return digits.format(number) == text;
    }
    match value.boolean() {
        Some(true) => text == "true",
        Some(false) => text == "false",
        None => false,
    }
}

impl SimpleSigning {
    /// Whether the payload has each of these annotations, as [`Optional::satisfies_annotations`] says. True if none is
    /// required; false if some are required and the payload has none.
    #[tactic(auto, unfolding(crate::specs::Annotations::satisfies))]
    pub fn satisfies_annotations(&self, annotations: &TextMap) -> bool
        ensures { result ≡ satisfies (seen_signing self.now) annotations.now }
    {
        if annotations.len() == 0 {
            return true;
        }
        match &self.optional {
            Some(optional) => optional.satisfies_annotations(annotations),
            None => false,
        }
    }
}
