//! `Document`: a JSON text read as a tree without floats.
ghost use Rattle.std.specs.Prelude.{◌≡◌, ◌≤◌, false, IfOk};
ghost use Rattle.serde_json.specs.Data.{depth};
ghost use Rattle.serde_json.specs.Read.{max_depth};
ghost use Rattle.sig_base.specs.Answers.{Answers};
ghost use Rattle.sig_json.specs.Document.{document_of};
ghost use Rattle.sig_json.specs.View.{view};
ghost use Rattle.serde_json.specs.Written.{has_float};
ghost use Rattle.sig_json.specs.NamedTree.{IsNamedTree};
ghost use Rattle.sig_json.specs.NamedTreeProofs.{IsNamedTree-prop};

use crate::error::DocumentError;
use crate::floats::is_float_in;
use crate::owned::own_tree;
use crate::read::read_text;
use crate::tree::Tree;
use crate::view::Json;
use json::Scratch;
use std::alloc::Global;

/// The tree of a JSON text (RFC 8259): null, a truth value, an integer from -2^63 to 2^64 - 1, a text, a list, or an
/// object, whose members have each name once. Lists and objects of a document that was read nest to 127 at most; of
/// one that was built they nest as it was asked for.
#[derive(Drop)]
pub struct Document {
    pub(crate) value: Tree<'static>,
    ghost without_float: { has_float (view value) ≡ false },
    ghost named: { IsNamedTree (view value) } by { IsNamedTree-prop (view value) },
}

impl Document {
    ghost use Rattle.sig_json.specs.Tree.{document_tree, tree};

    /// Reads a text. Fails with `NotJson` if it has no reading, and then with `Float` if the tree holds a number with a
    /// point or an exponent, `-0`, or an integer outside -2^63 to 2^64 - 1.
    pub fn read(alloc: Global, text: &[u8]) -> Result<Document, DocumentError>
        ensures value { Answers DocumentError.OutOfMemory document_tree result (document_of text.now) }
        ensures nests { IfOk result (λ document. depth (document_tree document) ≤ max_depth) }
    {
        let mut scratch = Scratch::new(alloc);
        let tree = whole_tree(alloc, text, &mut scratch)?;
        let value = own_tree(alloc, tree)?;
        Ok(Document { value })
    }

    /// A view of the whole tree. It takes no memory.
    pub fn view(&self) -> Json<'_, 'static>
        ensures { tree result ≡ document_tree self.now }
    {
        Json { value: &self.value }
    }
}

/// The tree of a text, as `Document::read` reads it.
#[tactic(auto, using(crate::proofs::DocumentSteps::reading))]
pub(crate) fn whole_tree<'r>(
    alloc: Global,
    text: &'r [u8],
    scratch: &'r mut Scratch,
) -> Result<Tree<'r>, DocumentError>
    ensures value { Answers DocumentError.OutOfMemory view result (document_of text.now) }
    ensures nests { IfOk result (λ t. depth (view t) ≤ max_depth) }
    ensures whole { IfOk result (λ t. has_float (view t) ≡ false) }
    ensures named { IfOk result (λ t. IsNamedTree (view t)) }
{
    let Ok(text) = simdutf8::compat::from_utf8(text) else {
        return Err(DocumentError::NotJson);
    };
    let value = read_text(alloc, text, scratch)?;
    if is_float_in(&value) {
        return Err(DocumentError::Float);
    }
    Ok(value)
}
