//! `Object`: an object of JSON that is being written.
ghost use Rattle.std.specs.Prelude.{IsSome};
ghost use Rattle.serde_json.specs.Find.{as_object};
ghost use Rattle.sig_json.specs.Tree.{document_tree};

use crate::document::Document;
use crate::write_value::{ElementWriter, write_bytes, write_integer, write_list};
use sig_base::OutOfMemory;
use std::alloc::Global;

/// An object of JSON. The value of a member is made by the call that sets it, so that a writer holds no value where a
/// call can fail.
#[derive(Drop)]
pub struct Object {
    document: Document,
    ghost is_object: { IsSome (as_object (document_tree document)) },
}

#[tactic(auto, using(crate::proofs::Objects::objects))]
impl Object {
    ghost use Rattle.std.specs.Prelude.{◌≡◌, IfOk, option_map};
    ghost use Rattle.hex.specs.Hex.{encode_lower};
    ghost use Rattle.serde_json.specs.Data.{object, no_members, number, put, string};
    ghost use Rattle.serde_json.specs.Find.{of_integer};
    ghost use Rattle.sig_json.specs.Kinds.{bytes_of, i64_of};
    ghost use Rattle.sig_json.specs.Member.{list_each};
    ghost use Rattle.sig_json.specs.Writing.{IsReadAs, OptionIsRead, bytes_tree, integer_tree, list_tree};
    ghost use Rattle.sig_json.specs.Writing.{members, put_some};

    /// An object without members. It takes no memory.
    pub fn new(alloc: Global) -> Object
        ensures { members result ≡ no_members }
    {
        Object {
            document: Document::object(alloc),
        }
    }

    /// The object with this member. Fails only if out of memory.
    pub fn with(self, alloc: Global, name: &str, value: Document) -> Result<Object, OutOfMemory>
        ensures { IfOk result (λ made. members made
            ≡ put name.now (document_tree value) (members self)) }
    {
        let mut document = self.document;
        document.insert(alloc, name, value)?;
        Ok(Object { document })
    }

    /// The object with this text as a member. Fails only if out of memory.
    pub fn with_text(self, alloc: Global, name: &str, text: &str) -> Result<Object, OutOfMemory>
        ensures { IfOk result (λ made. members made ≡ put name.now (string text.now) (members self)) }
    {
        let value = Document::of_text(alloc, text)?;
        self.with(alloc, name, value)
    }

    /// The object with these bytes in lower-case hexadecimal as a member. Fails only if out of memory.
    #[tactic(auto, unfolding(hex::specs::Hex::encode_with))]
    pub fn with_hex(self, alloc: Global, name: &str, bytes: &[u8]) -> Result<Object, OutOfMemory>
        ensures { IfOk result (λ made. members made
            ≡ put name.now (string (encode_lower bytes.now)) (members self)) }
    {
        let digits = hex::encode(alloc, bytes)?;
        self.with_text(alloc, name, digits.as_str())
    }

    /// The object with these bytes in base64 as a member. Fails only if out of memory.
    pub fn with_bytes(self, alloc: Global, name: &str, bytes: &[u8]) -> Result<Object, OutOfMemory>
        ensures tree { IfOk result (λ made. members made ≡ put name.now (bytes_tree bytes.now) (members self)) }
        ensures back { IfOk result (λ _. IsReadAs bytes_of (bytes_tree bytes.now) bytes.now) }
    {
        let value = write_bytes(alloc, bytes)?;
        self.with(alloc, name, value)
    }

    /// The object with this integer, as a number, as a member. Fails only if out of memory.
    pub fn with_number(self, alloc: Global, name: &str, integer: i64) -> Result<Object, OutOfMemory>
        ensures { IfOk result (λ made. members made
            ≡ put name.now (number (of_integer integer)) (members self)) }
    {
        self.with(alloc, name, Document::of_integer(integer))
    }

    /// The object with this integer, as a text, as a member. Fails only if out of memory.
    pub fn with_integer(
        self,
        alloc: Global,
        name: &str,
        integer: &i64,
    ) -> Result<Object, OutOfMemory>
        ensures tree { IfOk result (λ made. members made
            ≡ put name.now (integer_tree integer.now) (members self)) }
        ensures back { IfOk result (λ _. IsReadAs i64_of (integer_tree integer.now) integer.now) }
    {
        let value = write_integer(alloc, integer)?;
        self.with(alloc, name, value)
    }

    /// The object with this value as a member. Fails only if out of memory.
    pub fn with_written<T: ElementWriter>(
        self,
        alloc: Global,
        name: &str,
        item: &T::Item,
    ) -> Result<Object, OutOfMemory>
        ensures tree { IfOk result (λ made. members made
            ≡ put name.now (T.written item.now) (members self)) }
        ensures back { IfOk result (λ _. IsReadAs T.meaning (T.written item.now) item.now) }
    {
        let value = T::write(alloc, item)?;
        self.with(alloc, name, value)
    }

    /// The object with this value as a member, if it is there. Fails only if out of memory.
    pub fn with_option<T: ElementWriter>(
        self,
        alloc: Global,
        name: &str,
        item: &Option<T::Item>,
    ) -> Result<Object, OutOfMemory>
        ensures tree { IfOk result (λ made. members made
            ≡ put_some name.now (option_map T.written item.now) (members self)) }
        ensures back { IfOk result (λ _. OptionIsRead T.meaning T.written item.now) }
    {
        match item {
            Some(item) => self.with_written::<T>(alloc, name, item),
            None => Ok(self),
        }
    }

    /// The object with this list as a member. Fails only if out of memory.
    pub fn with_list<T: ElementWriter>(
        self,
        alloc: Global,
        name: &str,
        items: &[T::Item],
    ) -> Result<Object, OutOfMemory>
        ensures tree { IfOk result (λ made. members made
            ≡ put name.now (list_tree T.written items.now) (members self)) }
        ensures back { IfOk result (λ _. IsReadAs (list_each T.meaning) (list_tree T.written items.now) items.now) }
    {
        let value = write_list::<T>(alloc, items)?;
        self.with(alloc, name, value)
    }

    /// The object's document.
    pub fn into_document(self) -> Document
        ensures { document_tree result ≡ object (members self) }
    {
        self.document
    }
}
