//! Documents built from their parts.
use crate::change::{push_last, put_member};
use crate::copy::copy;
use crate::document::Document;
use crate::tree::Tree;
use crate::view::Json;
use crate::words::own;
use serde_json::Number;
use sig_base::OutOfMemory;
use std::alloc::Global;

#[tactic(auto, using(crate::proofs::BuilderSteps::building, crate::proofs::NamedTrees::named_parts))]
impl Document {
    ghost use Rattle.std.specs.Prelude.{◌≡◌, IfOk, OnOk, OnErr, IsSome};
    ghost use Rattle.serde_json.specs.Data.{object, array, string, number, no_members, no_items};
    ghost use Rattle.serde_json.specs.Find.{as_object, as_array, of_integer};
    ghost use Rattle.sig_json.specs.Builders.{with_member, with_last};
    ghost use Rattle.sig_json.specs.Tree.{document_tree};

    /// An object without members. It takes no memory.
    pub fn object(alloc: Global) -> Document
        ensures { document_tree result ≡ object no_members }
    {
        Document {
            value: Tree::Object(Vec::new(alloc)),
        }
    }

    /// A list without elements. It takes no memory.
    pub fn list(alloc: Global) -> Document
        ensures { document_tree result ≡ array no_items }
    {
        Document {
            value: Tree::Array(Vec::new(alloc)),
        }
    }

    /// A text. Fails only if out of memory.
    pub fn of_text(alloc: Global, text: &str) -> Result<Document, OutOfMemory>
        ensures { IfOk result (λ document. document_tree document ≡ string text.now) }
    {
        let value = Tree::Text(own(alloc, text)?);
        Ok(Document { value })
    }

    /// An integer. It takes no memory.
    pub fn of_integer(integer: i64) -> Document
        ensures { document_tree result ≡ number (of_integer integer) }
    {
        Document {
            value: Tree::Number(Number::from(integer)),
        }
    }

    /// Sets the member of this name of an object, new or in place of the old one; all other members stay. Fails only
    /// if out of memory, and the object is then unchanged.
    pub fn insert(&mut self, alloc: Global, name: &str, value: Document) -> Result<(), OutOfMemory>
        requires { IsSome (as_object (document_tree self.old)) }
        ensures ok { OnOk result (document_tree self.new
            ≡ with_member name.now (document_tree value) (document_tree self.old)) }
        ensures err { OnErr result (document_tree self.new ≡ document_tree self.old) }
    {
        put_member(alloc, &mut self.value, name, value.value)
    }

    /// Adds a value at the end of a list. Fails only if out of memory, and the list is then unchanged.
    pub fn push(&mut self, value: Document) -> Result<(), OutOfMemory>
        requires { IsSome (as_array (document_tree self.old)) }
        ensures ok { OnOk result (document_tree self.new
            ≡ with_last (document_tree value) (document_tree self.old)) }
        ensures err { OnErr result (document_tree self.new ≡ document_tree self.old) }
    {
        push_last(&mut self.value, value.value)
    }
}

#[tactic(auto, using(crate::proofs::NamedTrees::named_parts))]
impl Json<'_, '_> {
    ghost use Rattle.std.specs.Prelude.{◌≡◌, IfOk};
    ghost use Rattle.sig_json.specs.Tree.{document_tree, tree};

    /// The value in memory of its own. Fails only if out of memory.
    pub fn copy(self, alloc: Global) -> Result<Document, OutOfMemory>
        ensures { IfOk result (λ document. document_tree document ≡ tree self.entry) }
    {
        let value = copy(alloc, self.value)?;
        Ok(Document { value })
    }
}
