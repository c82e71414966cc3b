//! `BorrowedDocument`: a document whose names and texts are borrowed from the text that was read.
ghost use Rattle.std.specs.Prelude.{◌≡◌, false};
ghost use Rattle.sig_json.specs.View.{view};
ghost use Rattle.serde_json.specs.Written.{has_float};
ghost use Rattle.sig_json.specs.NamedTree.{IsNamedTree};
ghost use Rattle.sig_json.specs.NamedTreeProofs.{IsNamedTree-prop};

use crate::document::whole_tree;
use crate::error::DocumentError;
use crate::tree::Tree;
use crate::view::Json;
use json::Scratch;
use std::alloc::Global;

/// The tree of a JSON text, as a `Document` is, for a caller that drops it before the text. No name and no text in it
/// takes memory of its own: a text with escapes is borrowed from the scratch, which takes as many bytes as the text
/// that is read.
#[derive(Drop)]
pub struct BorrowedDocument<'t> {
    pub(crate) value: Tree<'t>,
    ghost without_float: { has_float (view value) ≡ false },
    ghost named: { IsNamedTree (view value) } by { IsNamedTree-prop (view value) },
}

impl<'t> BorrowedDocument<'t> {
    ghost use Rattle.std.specs.Prelude.{◌≤◌, IfOk};
    ghost use Rattle.serde_json.specs.Data.{depth};
    ghost use Rattle.serde_json.specs.Read.{max_depth};
    ghost use Rattle.sig_base.specs.Answers.{Answers};
    ghost use Rattle.sig_json.specs.Document.{document_of};
    ghost use Rattle.sig_json.specs.Tree.{borrowed_tree, tree};

    /// Reads a text. Fails with `NotJson` if it has no reading, and then with `Float` if the tree holds a number with a
    /// point or an exponent, `-0`, or an integer outside -2^63 to 2^64 - 1.
    pub fn read(
        alloc: Global,
        text: &'t [u8],
        scratch: &'t mut Scratch,
    ) -> Result<BorrowedDocument<'t>, DocumentError>
        ensures value { Answers DocumentError.OutOfMemory borrowed_tree result (document_of text.now) }
        ensures nests { IfOk result (λ document. depth (borrowed_tree document) ≤ max_depth) }
    {
        let value = whole_tree(alloc, text, scratch)?;
        Ok(BorrowedDocument { value })
    }

    /// A view of the whole tree. It takes no memory.
    pub fn view(&self) -> Json<'_, 't>
        ensures { tree result ≡ borrowed_tree self.now }
    {
        Json { value: &self.value }
    }
}
